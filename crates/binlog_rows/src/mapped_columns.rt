//! The column definitions of a table map.
ghost use Rattle.std.specs.Prelude.{◌≡◌, ◌+◌, ◌^◌, ◌<◌, ◌++◌, length, IfOk, IsOkUnless};
ghost use Rattle.binlog_wire.specs.declared.error.Error.TheVariants.{Memory};
ghost use Rattle.binlog_wire.specs.Fields.{block_at};
ghost use Rattle.binlog_wire.specs.Reading.{Gives, result_now};
ghost use Rattle.binlog_rows.specs.TableMaps.{columns};

use crate::column_bitmap::ColumnBitmap;
use binlog_variable_fields::{LenEnc, LenEncBytes};
use binlog_wire::{
    BitView, BytesRepr, EofBytes, Error, IntRepr, IntoOwned, MyDeserialize, ParseBuf, Put,
    RawBytes, TryClone,
};
use std::alloc::Global;
use std::borrow::CowSlice;
use std::marker::Model;

/// The column definitions of a table map: column types, column metadata, the null bitmap, and the optional metadata.
///
/// Contracts see these four, without the number of columns.
#[derive(Debug, PartialEq, Eq, Hash, Drop)]
pub struct MappedColumns<'a> {
    types: RawBytes<'a, EofBytes>,
    metadata: RawBytes<'a, LenEncBytes>,
    null_bits: ColumnBitmap<'a>,
    optional_metadata: RawBytes<'a, EofBytes>,
}

impl<'a> Model for MappedColumns<'a> {
    ghost use Rattle.binlog_rows.specs.TableColumns.{TableColumns, AreColumns};

    ghost Value = { TableColumns };

    ghost view = { λ c. record { types = c.types; metadata = c.metadata; null_bits = c.null_bits; optional_metadata = c.optional_metadata } };

    ghost invariant = { λ c. AreColumns (record { types = c.types; metadata = c.metadata; null_bits = c.null_bits; optional_metadata = c.optional_metadata }) };

    ghost inverse = { λ v. record { types = v.types; metadata = v.metadata; null_bits = v.null_bits; optional_metadata = v.optional_metadata } };
}

impl<'a> MappedColumns<'a> {
    /// Reads column definitions from the start of `buf`, as `deserialize` does.
    #[inline(always)]
    pub fn read(buf: &mut ParseBuf<'a>) -> Result<Self, Error>
        ensures { Gives ⊥ buf.new result (columns.reads buf.old) }
    {
        // All parts are of one slice, which bounds the sum of their lengths.
        let _ = &buf.0;
        let count = LenEnc::read(buf)?;
        let types = take(count as usize, buf)?;
        let metadata = LenEncBytes::read((), buf)?;
        let null_bits = ColumnBitmap::read(count, buf)?;
        let optional_metadata = EofBytes::read((), buf)?;
        Ok(MappedColumns {
            types: RawBytes::new(CowSlice::Borrowed(types)),
            metadata: RawBytes::new(CowSlice::Borrowed(metadata)),
            null_bits,
            optional_metadata: RawBytes::new(CowSlice::Borrowed(optional_metadata)),
        })
    }

    /// The number of columns.
    pub fn count(&self) -> u64
        ensures { result ≡ length self.now.types }
    {
        self.null_bits.len()
    }

    /// The column types, one byte each.
    pub fn types(&self) -> &[u8]
        ensures { result.now ≡ self.now.types }
    {
        self.types.as_bytes()
    }

    /// The column metadata, such as lengths and precisions.
    pub fn metadata(&self) -> &[u8]
        ensures { result.now ≡ self.now.metadata }
    {
        self.metadata.as_bytes()
    }

    /// The null bitmap: which columns can be NULL.
    pub fn null_bits(&self) -> BitView<'_>
        ensures len { result.len ≡ length self.now.types }
        ensures columns { self.now.null_bits.0 ≡ length self.now.types }
        ensures bytes { result.bytes.now ≡ self.now.null_bits.1 }
    {
        self.null_bits.view()
    }

    /// The optional metadata, encoded.
    pub fn optional_metadata(&self) -> &[u8]
        ensures { result.now ≡ self.now.optional_metadata }
    {
        self.optional_metadata.as_bytes()
    }
}

impl<'a> IntoOwned for MappedColumns<'a> {
    type Owned = MappedColumns<'static>;

    ghost is_owned = { λ value owned. owned ≡ value };

    fn into_owned(self, alloc: Global) -> Result<MappedColumns<'static>, Error> {
        let MappedColumns {
            types,
            metadata,
            null_bits,
            optional_metadata,
        } = self;
        let types = types.into_owned(alloc)?;
        let metadata = metadata.into_owned(alloc)?;
        let null_bits = null_bits.into_owned(alloc)?;
        let optional_metadata = optional_metadata.into_owned(alloc)?;
        Ok(MappedColumns {
            types,
            metadata,
            null_bits,
            optional_metadata,
        })
    }
}

impl<'a> TryClone for MappedColumns<'a> {
    fn clone(&self, alloc: Global) -> Result<Self, Error> {
        let types = self.types.clone(alloc)?;
        let metadata = self.metadata.clone(alloc)?;
        let null_bits = self.null_bits.clone(alloc)?;
        let optional_metadata = self.optional_metadata.clone(alloc)?;
        Ok(MappedColumns {
            types,
            metadata,
            null_bits,
            optional_metadata,
        })
    }
}

/// # Errors
///
/// - [`Error::EndOfBody`] if the bytes end before the optional metadata.
/// - [`Invalid::LenEnc`](binlog_wire::Invalid::LenEnc) if the column count or the metadata length begins with `fb` or
///   `ff`.
impl<'de> MyDeserialize<'de> for MappedColumns<'de> {
    const SIZE: Option<usize> = None;

    type Ctx = ();

    ghost reads = { λ _. columns.reads };

    fn deserialize(_alloc: Global, _ctx: (), buf: &mut ParseBuf<'de>) -> Result<Self, Error> {
        MappedColumns::read(buf)
    }
}

impl Put for MappedColumns<'_> {
    ghost bytes = { columns.written };

    fn check(&self) -> Result<(), Error> {
        Ok(())
    }

    #[tactic(auto, using(binlog_variable_fields::specs::Laws::LenEncTexts::lenenc_text_most))]
    fn written_len(&self) -> usize
        ensures count { result ≡ length (columns.written self.now) }
        ensures small { result < 2 ^ 63 + 2 ^ 5 }
    {
        LenEnc::written_len(self.types.len() as u64)
            + self.types.written_len()
            + self.metadata.written_len()
            + self.null_bits.written_len()
            + self.optional_metadata.written_len()
    }

    #[tactic(auto, using(std::proofs::Common::append_assoc))]
    fn put(&self, buf: &mut Vec<u8>) {
        LenEnc::put(self.types.len() as u64, buf);
        self.types.put(buf);
        self.metadata.put(buf);
        self.null_bits.put(buf);
        self.optional_metadata.put(buf);
    }
}

// Reads this many bytes from the start of `buf`.
#[inline(always)]
fn take<'a>(count: usize, buf: &mut ParseBuf<'a>) -> Result<&'a [u8], Error>
    ensures { Gives ⊥ buf.new (result_now result) (block_at count buf.old) }
{
    buf.checked_eat(count).ok_or(Error::EndOfBody)
}
