//! Column bitmaps.
ghost use Rattle.std.specs.Prelude.{◌≡◌, ◌≤◌, ◌^◌, ℕ, List, length, IfOk, IsOkUnless};
ghost use Rattle.binlog_wire.specs.declared.error.Error.TheVariants.{Memory};
ghost use Rattle.binlog_wire.specs.Reading.{Gives};
ghost use Rattle.binlog_rows.specs.Columns.{bitmap};

use binlog_wire::{
    BitView, EofBytes, Error, IntoOwned, MyDeserialize, ParseBuf, Put, RawBytes, TryClone,
};
use std::alloc::Global;
use std::borrow::CowSlice;
use std::hash::{Hash, Hasher};
use std::marker::Model;

/// A column bitmap: one bit for each column of a table. The first column's bit is the least significant bit of the
/// first byte. It has (n + 7) / 8 bytes for n columns; the unused bits of the last byte are kept.
///
/// Contracts see the number of columns and the list of the bytes.
#[derive(Debug, PartialEq, Eq, Hash, Drop)]
pub struct ColumnBitmap<'a> {
    len: u64,
    bits: RawBytes<'a, EofBytes>,
}

impl<'a> Model for ColumnBitmap<'a> {
    ghost use Rattle.std.specs.Prelude.{ℕ, List};
    ghost use Rattle.binlog_rows.specs.Columns.{IsBitmap};

    ghost Value = { ℕ × List ℕ };

    ghost view = { λ columns. (columns.len, columns.bits) };

    ghost invariant = { λ columns. IsBitmap (columns.len, columns.bits) };

    ghost inverse = { λ columns. record { len = columns.0; bits = columns.1 } };
}

impl<'a> ColumnBitmap<'a> {
    /// Reads the bitmap of this many columns from the start of `buf`, as `deserialize` does.
    #[inline(always)]
    pub fn read(len: u64, buf: &mut ParseBuf<'a>) -> Result<Self, Error>
        ensures { Gives ⊥ buf.new result ((bitmap len).reads buf.old) }
    {
        let bits = buf
            .checked_eat(len.div_ceil(8) as usize)
            .ok_or(Error::EndOfBody)?;
        Ok(ColumnBitmap {
            len,
            bits: RawBytes::new(CowSlice::Borrowed(bits)),
        })
    }

    /// The number of columns.
    pub fn len(&self) -> u64
        ensures { result ≡ self.now.0 }
    {
        self.len
    }

    /// The bits.
    pub fn view(&self) -> BitView<'_>
        ensures len { result.len ≡ self.now.0 }
        ensures bytes { result.bytes.now ≡ self.now.1 }
    {
        BitView::new(self.bits.as_bytes(), self.len).unwrap()
    }
}

impl<'a> IntoOwned for ColumnBitmap<'a> {
    type Owned = ColumnBitmap<'static>;

    ghost is_owned = { λ value owned. owned ≡ value };

    fn into_owned(self, alloc: Global) -> Result<ColumnBitmap<'static>, Error> {
        let ColumnBitmap { len, bits } = self;
        let bits = bits.into_owned(alloc)?;
        Ok(ColumnBitmap { len, bits })
    }
}

impl<'a> TryClone for ColumnBitmap<'a> {
    fn clone(&self, alloc: Global) -> Result<Self, Error> {
        let bits = self.bits.clone(alloc)?;
        Ok(ColumnBitmap {
            len: self.len,
            bits,
        })
    }
}

/// The bitmap of as many columns as the context says. The only error is [`Error::EndOfBody`], if too few bytes are
/// left.
impl<'de> MyDeserialize<'de> for ColumnBitmap<'de> {
    const SIZE: Option<usize> = None;

    type Ctx = u64;

    ghost reads = { λ len. (bitmap len).reads };

    fn deserialize(_alloc: Global, len: u64, buf: &mut ParseBuf<'de>) -> Result<Self, Error> {
        ColumnBitmap::read(len, buf)
    }
}

/// The bytes of the bitmap.
impl Put for ColumnBitmap<'_> {
    ghost bytes = { λ columns. columns.1 };

    fn check(&self) -> Result<(), Error> {
        Ok(())
    }

    fn written_len(&self) -> usize
        ensures count { result ≡ length self.now.1 }
        ensures small { result ≤ 2 ^ 61 }
    {
        self.len.div_ceil(8) as usize
    }

    fn put(&self, buf: &mut Vec<u8>) {
        self.bits.put(buf);
    }
}
