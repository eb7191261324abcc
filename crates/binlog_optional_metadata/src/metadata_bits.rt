//! Bits of columns in the optional metadata.
ghost use Rattle.std.specs.Prelude.{◌≡◌, length, IfOk};
ghost use Rattle.binlog_wire.specs.Fields.{block_at};
ghost use Rattle.binlog_wire.specs.Bits.{bytes_of_bits};
ghost use Rattle.binlog_wire.specs.Reading.{Gives};
ghost use Rattle.binlog_optional_metadata.specs.Bits.{first_bit_in};

use binlog_wire::{Error, ParseBuf};

/// A bit for each column of a class, in order: the first is the most significant bit of the first byte. In
/// `mysql_common` this is a `BitSlice<u8, Msb0>`.
#[derive(Clone, Copy, Debug)]
pub struct MetadataBits<'a> {
    bytes: &'a [u8],
    len: u64,
    ghost enough: { length bytes.now ≡ bytes_of_bits len },
}

impl<'a> MetadataBits<'a> {
    ghost use Rattle.binlog_optional_metadata.specs.BitAnswers.{answer_bits};

    /// Takes a bit for each of this many columns from the start of `buf`, in whole bytes.
    pub(crate) fn read(len: u64, buf: &mut ParseBuf<'a>) -> Result<Self, Error>
        ensures bytes { Gives ⊥ buf.new (answer_bits result) (block_at (bytes_of_bits len) buf.old) }
        ensures len { IfOk result (λ view. view.len ≡ len) }
    {
        let bytes = buf
            .checked_eat(len.div_ceil(8) as usize)
            .ok_or(Error::EndOfBody)?;
        Ok(MetadataBits { bytes, len })
    }

    /// The number of columns.
    pub fn len(&self) -> u64
        ensures { result ≡ self.now.len }
    {
        self.len
    }

    /// The bit of the column with this index in the class; None where there is no such column.
    pub fn bit(&self, index: u64) -> Option<bool>
        ensures { result ≡ first_bit_in self.now.len self.now.bytes.now index }
    {
        if index >= self.len {
            return None;
        }
        let byte = self.bytes[(index / 8) as usize];
        Some((byte >> (7 - index % 8)) & 1 == 1)
    }
}
