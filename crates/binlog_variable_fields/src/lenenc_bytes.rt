//! Strings after a length-encoded length.
ghost use Rattle.std.specs.Prelude.{◌+◌, ◌^◌};
ghost use Rattle.binlog_variable_fields.specs.LenEncTexts.{lenenc_text};

use crate::lenenc::LenEnc;
use binlog_wire::{BytesRepr, Error, IntRepr, ParseBuf, WritableBytes};

/// Bytes after their length, a length-encoded integer. Any encoding of the length is read, and the shortest is
/// written.
///
/// Source: "Protocol::LengthEncodedString" in MySQL's documentation.
#[derive(Drop)]
pub struct LenEncBytes;

impl BytesRepr for LenEncBytes {
    type Ctx = ();

    ghost reads = { λ _. lenenc_text.reads };

    ghost kept = { λ s. s };

    /// Takes the length and the bytes from the start of `buf`, and answers the bytes.
    ///
    /// # Errors
    ///
    /// - [`Error::EndOfBody`] where the bytes end within the length or the string.
    /// - [`Error::InvalidData`] where the first byte is `fb` or `ff`
    ///   ([`Invalid::LenEnc`](binlog_wire::Invalid::LenEnc)).
    #[inline(always)]
    fn read<'a>(_ctx: (), buf: &mut ParseBuf<'a>) -> Result<&'a [u8], Error> {
        let len = LenEnc::read(buf)?;
        buf.checked_eat(len as usize).ok_or(Error::EndOfBody)
    }

    #[inline]
    fn cut(bytes: &[u8]) -> &[u8] {
        bytes
    }
}

impl WritableBytes for LenEncBytes {
    ghost written = { lenenc_text.written };

    ghost most = { 2 ^ 63 + 9 };

    fn written_len(bytes: &[u8]) -> usize {
        LenEnc::written_len(bytes.len() as u64) + bytes.len()
    }

    fn put(bytes: &[u8], buf: &mut Vec<u8>) {
        LenEnc::put(bytes.len() as u64, buf);
        buf.extend_from_slice(bytes).unwrap();
    }
}
