//! The columns of a row event.
ghost use Rattle.std.specs.Prelude.{◌≡◌, ◌+◌, ◌^◌, ◌≤◌, length, IfOk, IsOkUnless};
ghost use Rattle.binlog_wire.specs.declared.error.Error.TheVariants.{Memory};
ghost use Rattle.binlog_wire.specs.Reading.{Gives};
ghost use Rattle.binlog_rows.specs.Rows.{image, columns, image_written, columns_written, IsImage};

use crate::column_bitmap::ColumnBitmap;
use crate::rows_form::RowsForm;
use binlog_variable_fields::LenEnc;
use binlog_wire::{Error, IntRepr, IntoOwned, ParseBuf, Put, TryClone};
use std::alloc::Global;

/// The number of the table's columns, and the columns-present bitmap of each row image.
#[derive(Debug, PartialEq, Eq, Hash, Drop)]
pub struct RowsColumns<'a> {
    /// The number of the table's columns.
    pub count: u64,
    /// The columns that are present in the before-image, if the event has one.
    pub before: Option<ColumnBitmap<'a>>,
    /// The columns that are present in the after-image, if the event has one.
    pub after: Option<ColumnBitmap<'a>>,
}

/// The columns-present bitmap of an image, for this many columns; None if the event has no such image.
#[inline(always)]
fn read_image<'a>(
    has_image: bool,
    count: u64,
    buf: &mut ParseBuf<'a>,
) -> Result<Option<ColumnBitmap<'a>>, Error>
    ensures reads { Gives ⊥ buf.new result ((image has_image count).reads buf.old) }
    ensures image { IfOk result (λ image. IsImage has_image count image) }
{
    if has_image {
        Ok(Some(ColumnBitmap::read(count, buf)?))
    } else {
        Ok(None)
    }
}

/// The same bitmap with owned bytes, if there is one. The only error is [`Error::Memory`].
fn own_image<'a>(
    alloc: Global,
    image: Option<ColumnBitmap<'a>>,
) -> Result<Option<ColumnBitmap<'static>>, Error>
    ensures ok { IfOk result (λ owned. owned ≡ image.entry) }
    ensures memory { IsOkUnless result Memory }
{
    match image {
        Some(image) => Ok(Some(image.into_owned(alloc)?)),
        None => Ok(None),
    }
}

/// A copy of the bitmap, if there is one. The only error is [`Error::Memory`].
fn copy_image<'a>(
    alloc: Global,
    image: &Option<ColumnBitmap<'a>>,
) -> Result<Option<ColumnBitmap<'a>>, Error>
    ensures ok { IfOk result (λ copy. copy ≡ image.now) }
    ensures memory { IsOkUnless result Memory }
{
    match image {
        Some(image) => Ok(Some(image.clone(alloc)?)),
        None => Ok(None),
    }
}

/// The number of bytes written for an image's bitmap.
fn image_len(image: &Option<ColumnBitmap<'_>>) -> usize
    ensures count { result ≡ length (image_written image.now) }
    ensures small { result ≤ 2 ^ 61 }
{
    match image {
        Some(image) => image.written_len(),
        None => 0,
    }
}

impl<'a> RowsColumns<'a> {
    /// Reads the columns of an event of this form from the start of `buf`.
    ///
    /// # Errors
    ///
    /// - [`Error::EndOfBody`] if the bytes end within them.
    /// - [`Invalid::LenEnc`](binlog_wire::Invalid::LenEnc) if the column count begins with `fb` or `ff`.
    #[inline(always)]
    pub fn read(form: RowsForm, buf: &mut ParseBuf<'a>) -> Result<Self, Error>
        ensures reads { Gives ⊥ buf.new result ((columns form).reads buf.old) }
        ensures before { IfOk result (λ columns. IsImage form.has_before columns.count columns.before) }
        ensures after { IfOk result (λ columns. IsImage form.has_after columns.count columns.after) }
    {
        let count = LenEnc::read(buf)?;
        let before = read_image(form.has_before, count, buf)?;
        let after = read_image(form.has_after, count, buf)?;
        Ok(RowsColumns {
            count,
            before,
            after,
        })
    }
}

impl<'a> IntoOwned for RowsColumns<'a> {
    type Owned = RowsColumns<'static>;

    ghost is_owned = { λ value owned. owned ≡ value };

    fn into_owned(self, alloc: Global) -> Result<RowsColumns<'static>, Error> {
        let RowsColumns {
            count,
            before,
            after,
        } = self;
        let before = own_image(alloc, before)?;
        let after = own_image(alloc, after)?;
        Ok(RowsColumns {
            count,
            before,
            after,
        })
    }
}

impl<'a> TryClone for RowsColumns<'a> {
    fn clone(&self, alloc: Global) -> Result<Self, Error> {
        let before = copy_image(alloc, &self.before)?;
        let after = copy_image(alloc, &self.after)?;
        Ok(RowsColumns {
            count: self.count,
            before,
            after,
        })
    }
}

impl Put for RowsColumns<'_> {
    ghost bytes = { columns_written };

    fn check(&self) -> Result<(), Error> {
        Ok(())
    }

    fn written_len(&self) -> usize
        ensures count { result ≡ length (columns_written self.now) }
        ensures small { result ≤ 2 ^ 62 + 9 }
    {
        LenEnc::written_len(self.count) + image_len(&self.before) + image_len(&self.after)
    }

    #[tactic(auto, using(std::proofs::Common::append_assoc))]
    fn put(&self, buf: &mut Vec<u8>) {
        LenEnc::put(self.count, buf);
        if let Some(before) = &self.before {
            before.put(buf);
        }
        if let Some(after) = &self.after {
            after.put(buf);
        }
    }
}
