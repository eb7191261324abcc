//! Length-encoded integers.
ghost use Rattle.std.specs.Prelude.{◌≡◌, ℕ, List, Option, None, length};
ghost use Rattle.binlog_wire.specs.Reading.{Read, Gives};
ghost use Rattle.binlog_wire.specs.Fields.{number_at};
ghost use Rattle.binlog_variable_fields.specs.LenEnc.{lenenc_at, lenenc_written};

use binlog_wire::{Error, IntRepr, Invalid, LeU16, LeU64, ParseBuf};
use byteorder::{ByteOrder, LittleEndian};

/// A length-encoded integer, in 1, 3, 4 or 9 bytes: a value below 251 as that byte; else `fc`, `fd` or `fe` and the
/// value in 2, 3 or 8 bytes, little-endian.
///
/// Any encoding of a value is read, and the shortest is written. The first bytes `fb` and `ff` aren't allowed.
///
/// Source: "Protocol::LengthEncodedInteger" in MySQL's documentation.
#[derive(Drop)]
pub struct LenEnc;

/// Takes a little-endian integer of three bytes from the start of `buf`; [`Error::EndOfBody`] where there are fewer.
fn read_u24(buf: &mut ParseBuf<'_>) -> Result<u64, Error>
    ensures { Gives ⊥ buf.new result (number_at 3 buf.old) }
{
    if buf.0.len() < 3 {
        return Err(Error::EndOfBody);
    }
    let number = LittleEndian::read_uint(buf.0, 3);
    buf.0 = &buf.0[3..];
    Ok(number)
}

impl IntRepr for LenEnc {
    type Primitive = u64;

    const SIZE: Option<usize> = None;

    ghost SIZE = { None };

    ghost reads = { lenenc_at };

    ghost written = { lenenc_written };

    /// Takes an integer from the start of `buf`.
    ///
    /// # Errors
    ///
    /// - [`Error::EndOfBody`] where the bytes end within it.
    /// - [`Error::InvalidData`] where the first byte is `fb` or `ff` ([`Invalid::LenEnc`]).
    fn read(buf: &mut ParseBuf<'_>) -> Result<u64, Error> {
        let (first, rest) = buf.0.split_first().ok_or(Error::EndOfBody)?;
        buf.0 = rest;
        let number = match *first {
            0xfb | 0xff => return Err(Error::InvalidData(Invalid::LenEnc(*first))),
            0xfc => u64::from(LeU16::read(buf)?),
            0xfd => read_u24(buf)?,
            0xfe => LeU64::read(buf)?,
            small => u64::from(small),
        };
        Ok(number)
    }

    #[tactic(auto, unfolding(crate::specs::LenEnc::lenenc_written))]
    fn written_len(number: u64) -> usize {
        if number < 251 {
            1
        } else if number < 1 << 16 {
            3
        } else if number < 1 << 24 {
            4
        } else {
            9
        }
    }

    #[tactic(auto, unfolding(crate::specs::LenEnc::lenenc_written))]
    fn put(number: u64, buf: &mut Vec<u8>) {
        let bytes = number.to_le_bytes();
        if number < 251 {
            buf.push(number as u8).unwrap();
        } else if number < 1 << 16 {
            buf.push(0xfc).unwrap();
            buf.extend_from_slice(&bytes[..2]).unwrap();
        } else if number < 1 << 24 {
            buf.push(0xfd).unwrap();
            buf.extend_from_slice(&bytes[..3]).unwrap();
        } else {
            buf.push(0xfe).unwrap();
            buf.extend_from_slice(&bytes).unwrap();
        }
    }
}

/// The length in bytes of the shortest encoding of a number: 1, 3, 4 or 9.
pub fn lenenc_int_len(number: u64) -> u64
    ensures { result ≡ length (lenenc_written number) }
{
    LenEnc::written_len(number) as u64
}
