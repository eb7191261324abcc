//! Making the bytes of rows.
ghost use Rattle.std.specs.Prelude.{◌≡◌, ◌+◌, ◌-◌, ◌^◌, ◌≤◌, ◌↔◌, ◌||◌, [], ◌++◌, length, min, option_map, OnOk, OnErr, IsOkUnless, IfSome, IsSome, MatchOption, vec_len, vec_capacity};
ghost use Rattle.binlog_wire.specs.Putting.{Puts};
ghost use Rattle.binlog_columns.specs.TableColumns.{columns_of};
ghost use Rattle.binlog_rows.specs.Images.{bitmap_of};
ghost use Rattle.binlog_row_writing.specs.ImageViews.{shape_of};
ghost use Rattle.binlog_row_writing.specs.NewRows.{values_of, refusal_if, bytes_if_any, has_columns, is_image, are_images, row_refusal, row_bytes, no_memory};

use crate::image::ImageColumns;
use crate::new_value::NewValue;
use crate::row_write_error::{RowWriteError, RowWriteErrorKind};
use binlog_columns::TableColumns;
use binlog_images::ImageKind;
use binlog_wire::{BitView, reserve};
use std::alloc::Global;

/// Makes the bytes of the rows of one row event, one row after the other.
///
/// The bytes are those of [`RowsEvent::rows_data`](binlog_rows::RowsEvent::rows_data) of an event whose columns-present
/// bitmaps are the ones given here, and whose table map has these columns.
#[derive(Debug, Drop)]
pub struct RowsBuilder<'a> {
    before: Option<ImageColumns<'a>>,
    after: Option<ImageColumns<'a>>,
    bytes: Vec<u8>,
}

/// The error of a row that is wrong in no image.
fn error_of(kind: RowWriteErrorKind) -> RowWriteError
    ensures { result ≡ record { kind = kind; image = None; column = None } }
{
    RowWriteError {
        kind,
        image: None,
        column: None,
    }
}

/// The columns of an image, if the rows have it. None if the bitmap hasn't a bit for each column.
fn image_columns<'a>(columns: TableColumns<'a>, present: BitView<'a>) -> Option<ImageColumns<'a>>
    ensures some { IsSome result ↔ (present.entry.len ≡ length (columns_of columns.entry)) }
    ensures shape { IfSome result (λ of. shape_of of ≡ (columns_of columns.entry, bitmap_of present.entry)) }
{
    if present.len() != columns.num_columns() as u64 {
        return None;
    }
    Some(ImageColumns::new(columns, present))
}

/// Why the values of an image are refused, if the row has it.
fn refusal_if(
    kind: ImageKind,
    of: &Option<ImageColumns<'_>>,
    values: Option<&[NewValue<'_>]>,
) -> Option<RowWriteError>
    ensures { result ≡ refusal_if kind (option_map shape_of of.now) (values_of values.entry) }
{
    let Some(of) = of else {
        return None;
    };
    let values = values?;
    let fault = of.refusal(values)?;
    Some(RowWriteError {
        kind: fault.kind,
        image: Some(kind),
        column: fault.column,
    })
}

/// The number of bytes of an image, if the row has it; the greatest number where they are more.
fn len_if(of: &Option<ImageColumns<'_>>, values: Option<&[NewValue<'_>]>) -> usize
    ensures { result ≡ min (length (bytes_if_any (option_map shape_of of.now) (values_of values.entry))) (2 ^ 64 - 1) }
{
    let Some(of) = of else {
        return 0;
    };
    let Some(values) = values else {
        return 0;
    };
    of.written_len(values)
}

/// Appends an image to `out`, which has the capacity, if the row has it.
fn put_if(of: &Option<ImageColumns<'_>>, values: Option<&[NewValue<'_>]>, out: &mut Vec<u8>)
    requires { vec_len out.old + length (bytes_if_any (option_map shape_of of.now) (values_of values)) ≤ vec_capacity out.old }
    ensures { Puts out.old out.new (bytes_if_any (option_map shape_of of.now) (values_of values.entry)) }
{
    let Some(of) = of else {
        return;
    };
    let Some(values) = values else {
        return;
    };
    of.put(values, out);
}

/// Whether an image is given exactly where the rows have it.
fn is_image(of: &Option<ImageColumns<'_>>, values: Option<&[NewValue<'_>]>) -> bool
    ensures { result ≡ is_image (option_map shape_of of.now) (values_of values.entry) }
{
    match of {
        Some(_) => values.is_some(),
        None => values.is_none(),
    }
}

/// Whether any column is present in an image, if the rows have it.
fn has_columns(of: &Option<ImageColumns<'_>>) -> bool
    ensures { result ≡ has_columns (option_map shape_of of.now) }
{
    match of {
        Some(of) => of.count() != 0,
        None => false,
    }
}

impl<'a> RowsBuilder<'a> {
    ghost use Rattle.binlog_row_writing.specs.Builders.{builder_shape};

    /// Rows that are inserted into a table with these columns: `after` says which columns are present. There are no rows
    /// yet.
    ///
    /// None if the bitmap hasn't a bit for each column.
    pub fn insert(alloc: Global, columns: TableColumns<'a>, after: BitView<'a>) -> Option<Self>
        ensures some { IsSome result ↔ (after.entry.len ≡ length (columns_of columns.entry)) }
        ensures shape { IfSome result (λ rows. builder_shape rows ≡ (None, Some (columns_of columns.entry, bitmap_of after.entry))) }
        ensures empty { IfSome result (λ rows. rows.bytes.items ≡ []) }
    {
        let after = image_columns(columns, after)?;
        Some(RowsBuilder {
            before: None,
            after: Some(after),
            bytes: Vec::new(alloc),
        })
    }

    /// Rows of a table with these columns that are updated: `before` and `after` say which columns are present in the
    /// images. There are no rows yet.
    ///
    /// None if a bitmap hasn't a bit for each column.
    pub fn update(
        alloc: Global,
        columns: TableColumns<'a>,
        before: BitView<'a>,
        after: BitView<'a>,
    ) -> Option<Self>
        ensures some { IsSome result ↔ ((before.entry.len ≡ length (columns_of columns.entry)) × (after.entry.len ≡ length (columns_of columns.entry))) }
        ensures shape { IfSome result (λ rows. builder_shape rows ≡ (Some (columns_of columns.entry, bitmap_of before.entry), Some (columns_of columns.entry, bitmap_of after.entry))) }
        ensures empty { IfSome result (λ rows. rows.bytes.items ≡ []) }
    {
        let before = image_columns(columns, before)?;
        let after = image_columns(columns, after)?;
        Some(RowsBuilder {
            before: Some(before),
            after: Some(after),
            bytes: Vec::new(alloc),
        })
    }

    /// Rows that are deleted from a table with these columns: `before` says which columns are present. There are no rows
    /// yet.
    ///
    /// None if the bitmap hasn't a bit for each column.
    pub fn delete(alloc: Global, columns: TableColumns<'a>, before: BitView<'a>) -> Option<Self>
        ensures some { IsSome result ↔ (before.entry.len ≡ length (columns_of columns.entry)) }
        ensures shape { IfSome result (λ rows. builder_shape rows ≡ (Some (columns_of columns.entry, bitmap_of before.entry), None)) }
        ensures empty { IfSome result (λ rows. rows.bytes.items ≡ []) }
    {
        let before = image_columns(columns, before)?;
        Some(RowsBuilder {
            before: Some(before),
            after: None,
            bytes: Vec::new(alloc),
        })
    }

    /// Whether these images are given exactly where the rows have them.
    fn are_images(&self, before: Option<&[NewValue<'_>]>, after: Option<&[NewValue<'_>]>) -> bool
        ensures { result ≡ are_images (builder_shape self.now) (values_of before.entry, values_of after.entry) }
    {
        is_image(&self.before, before) && is_image(&self.after, after)
    }

    /// Whether any column is present in an image.
    fn has_columns(&self) -> bool
        ensures { result ≡ (has_columns (builder_shape self.now).0 || has_columns (builder_shape self.now).1) }
    {
        has_columns(&self.before) || has_columns(&self.after)
    }

    /// Why a row with these values is refused.
    fn refusal(
        &self,
        before: Option<&[NewValue<'_>]>,
        after: Option<&[NewValue<'_>]>,
    ) -> Option<RowWriteError>
        ensures { result ≡ row_refusal (builder_shape self.now) (values_of before.entry, values_of after.entry) }
    {
        if !self.are_images(before, after) {
            return Some(error_of(RowWriteErrorKind::WrongImages));
        }
        if !self.has_columns() {
            return Some(error_of(RowWriteErrorKind::NoColumns));
        }
        match refusal_if(ImageKind::Before, &self.before, before) {
            Some(error) => Some(error),
            None => refusal_if(ImageKind::After, &self.after, after),
        }
    }

    /// Appends a row. `before` are the values of the image before, and `after` those of the image after: a value for each
    /// column that is present, in the order of the columns.
    ///
    /// An error leaves the rows as they were.
    ///
    /// # Errors
    ///
    /// The first of these. The values before are looked at before those after, and from left to right.
    ///
    /// - [`RowWriteErrorKind::WrongImages`] if an image is given that the rows don't have, or the other way round.
    /// - [`RowWriteErrorKind::NoColumns`] if no column is present in any image.
    /// - [`RowWriteErrorKind::WrongCount`] if an image has another number of values than of columns that are present.
    /// - [`RowWriteErrorKind::WrongType`] if a value isn't one of its column's type.
    /// - [`RowWriteErrorKind::OutOfRange`] if a value doesn't fit its column.
    /// - [`RowWriteErrorKind::Memory`] if memory is refused.
    pub fn push_row(
        &mut self,
        before: Option<&[NewValue<'_>]>,
        after: Option<&[NewValue<'_>]>,
    ) -> Result<(), RowWriteError>
        ensures shape { builder_shape self.new ≡ builder_shape self.old }
        ensures ok { OnOk result (self.new.bytes.items ≡ self.old.bytes.items ++ row_bytes (builder_shape self.old) (values_of before.entry, values_of after.entry)) }
        ensures err { OnErr result (self.new.bytes.items ≡ self.old.bytes.items) }
        ensures refused { MatchOption (row_refusal (builder_shape self.old) (values_of before.entry, values_of after.entry)) (IsOkUnless result no_memory) (λ why. result ≡ Err why) }
    {
        if let Some(error) = self.refusal(before, after) {
            return Err(error);
        }
        let len = len_if(&self.before, before).saturating_add(len_if(&self.after, after));
        match reserve(&mut self.bytes, len) {
            Ok(()) => {}
            Err(_) => return Err(error_of(RowWriteErrorKind::Memory)),
        }
        put_if(&self.before, before, &mut self.bytes);
        put_if(&self.after, after, &mut self.bytes);
        Ok(())
    }

    /// The bytes of all rows.
    pub fn rows_data(&self) -> &[u8]
        ensures { result.now ≡ self.now.bytes.items }
    {
        self.bytes.as_slice()
    }
}
