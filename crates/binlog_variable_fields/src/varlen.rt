//! The variable-length integers of MySQL's serialization library.
ghost use Rattle.std.specs.Prelude.{◌≡◌, ◌++◌, ◌+◌, ◌-◌, ◌*◌, ◌^◌, ◌<◌, ◌≤◌, ℕ, List, Option, None, length, vec_len, vec_capacity, IsTrue, OnOk, OnErr, IsOkUnless};
ghost use Rattle.std.specs.Int.{w8, trailing_ones};
ghost use Rattle.byteorder.specs.Endian.{little_bytes};
ghost use Rattle.binlog_wire.specs.declared.error.Error.TheVariants.{Memory};
ghost use Rattle.binlog_wire.specs.Putting.{Puts};
ghost use Rattle.binlog_wire.specs.Reading.{Read, Gives, read_as};
ghost use Rattle.binlog_variable_fields.specs.Varlen.{varlen_at, number_of, varlen_written};
ghost use Rattle.binlog_variable_fields.specs.Signed.{zigzag, unzigzag, varlen_signed_at, signed_written};

use binlog_wire::{Error, IntRepr, LeU64, ParseBuf, reserve};
use byteorder::{ByteOrder, LittleEndian};

/// A variable-length integer, in 1 to 9 bytes. In k bytes, 1 to 8, the value n is encoded as `n * 2^k + 2^(k-1) - 1`,
/// little-endian, so that the number of trailing one bits of the first byte is the number of bytes after it. In 9
/// bytes it is `ff` and n in 8 bytes.
///
/// Any encoding of a value is read, and the shortest is written.
///
/// Source: "Variable-length integers" of `mysql::serialization` in MySQL's documentation.
#[derive(Drop)]
pub struct Varlen;

/// Whether an encoding with this first byte has no other byte.
#[inline]
fn is_whole(first: u8) -> bool
    ensures { IsTrue result → trailing_ones w8 first ≡ 0 }
{
    first % 2 == 0
}

/// Whether an encoding with this first byte has exactly one more byte.
#[inline]
fn has_second(first: u8) -> bool
    ensures { IsTrue result → trailing_ones w8 first ≡ 1 }
{
    first % 4 == 1
}

/// The length in bytes of an encoding with this first byte.
#[inline]
fn width_from(first: u8) -> usize
    ensures count { result ≡ trailing_ones w8 first + 1 }
    ensures most { result ≤ 9 }
    ensures last { 9 ≤ result → first ≡ 255 }
{
    first.trailing_ones() as usize + 1
}

/// The number in the first `width` bytes, 1 to 9. Not inlined, since most numbers have one or two bytes, which are
/// read without it.
#[inline(never)]
fn number_in(bytes: &[u8], width: usize) -> u64
    requires some { 1 ≤ width }
    requires most { width ≤ 9 }
    requires there { width ≤ length bytes.now }
    ensures { result ≡ number_of width bytes.now }
{
    match width {
        3 => LittleEndian::read_uint(bytes, 3) >> 3,
        9 => LittleEndian::read_u64(&bytes[1..]),
        _ if bytes.len() < 8 => LittleEndian::read_uint(bytes, width) >> width,
        _ => LittleEndian::read_u64(bytes) << (64 - 8 * width) >> (64 - 7 * width),
    }
}

impl IntRepr for Varlen {
    type Primitive = u64;

    const SIZE: Option<usize> = None;

    ghost SIZE = { None };

    ghost reads = { varlen_at };

    ghost written = { varlen_written };

    #[inline]
    fn read(buf: &mut ParseBuf<'_>) -> Result<u64, Error> {
        let (number, width) = match *buf.0 {
            [first, ..] if is_whole(first) => (u64::from(first / 2), 1),
            [first, _, ..] if has_second(first) => {
                (u64::from(LittleEndian::read_u16(buf.0) / 4), 2)
            }
            [first, ..] => {
                let width = width_from(first);
                if buf.len() < width {
                    return Err(Error::EndOfBody);
                }
                (number_in(buf.0, width), width)
            }
            [] => return Err(Error::EndOfBody),
        };
        buf.0 = &buf.0[width..];
        Ok(number)
    }

    fn written_len(number: u64) -> usize {
        if number < 1 << 7 {
            1
        } else if number < 1 << 14 {
            2
        } else if number < 1 << 21 {
            3
        } else if number < 1 << 28 {
            4
        } else if number < 1 << 35 {
            5
        } else if number < 1 << 42 {
            6
        } else if number < 1 << 49 {
            7
        } else if number < 1 << 56 {
            8
        } else {
            9
        }
    }

    fn put(number: u64, buf: &mut Vec<u8>) {
        let width = Self::written_len(number);
        if width < 9 {
            put_low_bytes(marked(number, width), width, buf);
        } else {
            buf.push(0xff).unwrap();
            LeU64::put(number, buf);
        }
    }
}

/// The number with the mark for an encoding of `width` bytes.
fn marked(number: u64, width: usize) -> u64
    requires some { 1 ≤ width }
    requires few { width ≤ 8 }
    requires fits { number * 2 ^ width + 2 ^ width ≤ 2 ^ 64 }
    ensures { result ≡ number * 2 ^ width + 2 ^ (width - 1) - 1 }
{
    (number << width) + ((1 << (width - 1)) - 1)
}

/// Appends the lowest `width` bytes of a number, little-endian; `buf` has the capacity.
fn put_low_bytes(number: u64, width: usize, buf: &mut Vec<u8>)
    requires few { width ≤ 8 }
    requires room { vec_len buf.old + width ≤ vec_capacity buf.old }
    ensures { Puts buf.old buf.new (little_bytes width number) }
{
    buf.extend_from_slice(&number.to_le_bytes()[..width])
        .unwrap();
}

/// A signed variable-length integer: x is encoded as 2x where it isn't negative, and else as 2(-x-1)+1 (zigzag).
#[derive(Drop)]
pub struct VarlenSigned;

/// The zigzag encoding of a signed number.
fn to_unsigned(number: i64) -> u64
    ensures { result ≡ zigzag number }
{
    if number < 0 {
        (-1 - number) as u64 * 2 + 1
    } else {
        number as u64 * 2
    }
}

/// The signed number with this zigzag encoding.
fn to_signed(number: u64) -> i64
    ensures { result ≡ unzigzag number }
{
    let half = (number / 2) as i64;
    if number % 2 == 0 { half } else { -1 - half }
}

impl IntRepr for VarlenSigned {
    type Primitive = i64;

    const SIZE: Option<usize> = None;

    ghost SIZE = { None };

    ghost reads = { varlen_signed_at };

    ghost written = { signed_written };

    fn read(buf: &mut ParseBuf<'_>) -> Result<i64, Error> {
        let number = Varlen::read(buf)?;
        Ok(to_signed(number))
    }

    fn written_len(number: i64) -> usize {
        Varlen::written_len(to_unsigned(number))
    }

    fn put(number: i64, buf: &mut Vec<u8>) {
        Varlen::put(to_unsigned(number), buf);
    }
}

/// Takes a variable-length integer, in any of its encodings, from the start of `buf`. The only error is
/// [`Error::EndOfBody`], where the bytes end within it.
pub fn read_varlen_uint(buf: &mut ParseBuf<'_>) -> Result<u64, Error>
    ensures { Gives ⊥ buf.new result (varlen_at buf.old) }
{
    Varlen::read(buf)
}

/// The length in bytes of the shortest encoding of a number, 1 to 9.
pub fn varlen_uint_size(number: u64) -> usize
    ensures count { result ≡ length (varlen_written number) }
    ensures small { result ≤ 9 }
{
    Varlen::written_len(number)
}

/// Appends the shortest encoding of a number to `buf`. The only error is [`Error::Memory`], which leaves the contents
/// of `buf` unchanged.
pub fn write_varlen_uint(buf: &mut Vec<u8>, number: u64) -> Result<(), Error>
    ensures ok { OnOk result (buf.new.items ≡ buf.old.items ++ varlen_written number) }
    ensures err { OnErr result (buf.new.items ≡ buf.old.items) }
    ensures memory { IsOkUnless result Memory }
{
    reserve(buf, Varlen::written_len(number))?;
    Varlen::put(number, buf);
    Ok(())
}

/// Takes a signed variable-length integer, in any of its encodings, from the start of `buf`. The only error is
/// [`Error::EndOfBody`], where the bytes end within it.
pub fn read_varlen_int(buf: &mut ParseBuf<'_>) -> Result<i64, Error>
    ensures { Gives ⊥ buf.new result (varlen_signed_at buf.old) }
{
    VarlenSigned::read(buf)
}

/// Appends the shortest encoding of a signed number to `buf`. The only error is [`Error::Memory`], which leaves the
/// contents of `buf` unchanged.
pub fn write_varlen_int(buf: &mut Vec<u8>, number: i64) -> Result<(), Error>
    ensures ok { OnOk result (buf.new.items ≡ buf.old.items ++ signed_written number) }
    ensures err { OnErr result (buf.new.items ≡ buf.old.items) }
    ensures memory { IsOkUnless result Memory }
{
    reserve(buf, VarlenSigned::written_len(number))?;
    VarlenSigned::put(number, buf);
    Ok(())
}
