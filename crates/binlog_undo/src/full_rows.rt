//! Rows that have full images, found by the lengths of their values alone.
ghost use Rattle.std.specs.Prelude.{◌≡◌, true, option_map, IfOk, IfSome};
ghost use Rattle.binlog_wire.specs.Fields.{IsBytes};
ghost use Rattle.binlog_columns.specs.TableColumns.{columns_of};
ghost use Rattle.binlog_rows.specs.Images.{bitmap_of};
ghost use Rattle.binlog_images.specs.Answers.{IsPassed};
ghost use Rattle.binlog_images.specs.Events.{HasBitEach};
ghost use Rattle.binlog_images.specs.Images.{image_if_at};
ghost use Rattle.binlog_images.specs.StoredColumns.{front};
ghost use Rattle.binlog_images.specs.declared.rows_error.ImageKind.TheVariants.{Before};
ghost use Rattle.binlog_undo.specs.FullImages.{image_shape, rows_shape, shape_with, IsFirstRow, CanExchange};
ghost use Rattle.binlog_undo.specs.Undoing.{Undoes, IsExchangedBy};

use crate::backward::Backward;
use crate::full_image::FullImage;
use binlog_columns::TableColumns;
use binlog_wire::BitView;
use std::alloc::{AllocError, Global};

/// The columns of rows that have full images. Such rows are found without their values; why one is refused isn't.
#[derive(Clone, Copy, Debug)]
pub(crate) struct FullRows<'a> {
    before: Option<FullImage<'a>>,
    after: Option<FullImage<'a>>,
}

/// The bytes of a row's images, and those behind the row.
#[derive(Clone, Copy, Debug)]
pub(crate) struct RowSlices<'a> {
    before: &'a [u8],
    after: &'a [u8],
    rest: &'a [u8],
}

/// The full image that has these columns, or none if rows don't have the image. None if it isn't full.
fn full_image<'a>(
    columns: TableColumns<'a>,
    present: Option<BitView<'a>>,
) -> Option<Option<FullImage<'a>>>
    requires { HasBitEach (columns_of columns) (option_map bitmap_of present) }
    ensures { IfSome result (λ image. option_map image_shape image ≡ option_map (λ bits. (columns_of columns.entry, bits)) (option_map bitmap_of present.entry)) }
{
    match present {
        None => Some(None),
        Some(present) => {
            let image = FullImage::new(columns, present)?;
            Some(Some(image))
        }
    }
}

/// The bytes behind an image, if rows have it. None if it is refused.
fn behind_image<'b>(image: &Option<FullImage<'_>>, bytes: &'b [u8]) -> Option<&'b [u8]>
    ensures { IfSome result (λ rest. IsPassed rest.now (image_if_at 0 Before (option_map image_shape image.now) bytes.entry.now)) }
{
    match image {
        Some(image) => image.behind(bytes),
        None => Some(bytes),
    }
}

/// The bytes in front of the last ones.
fn front<'a>(bytes: &'a [u8], rest: &[u8]) -> &'a [u8]
    ensures { result.now ≡ front bytes.entry.now rest.now }
{
    &bytes[..bytes.len().saturating_sub(rest.len())]
}

impl<'a> FullRows<'a> {
    /// The rows that have these images, of a table with these columns. None if an image isn't full.
    pub(crate) fn new(
        columns: TableColumns<'a>,
        before: Option<BitView<'a>>,
        after: Option<BitView<'a>>,
    ) -> Option<Self>
        requires before { HasBitEach (columns_of columns) (option_map bitmap_of before) }
        requires after { HasBitEach (columns_of columns) (option_map bitmap_of after) }
        ensures { IfSome result (λ rows. rows_shape rows ≡ shape_with (columns_of columns.entry) (option_map bitmap_of before.entry) (option_map bitmap_of after.entry)) }
    {
        let before = full_image(columns, before)?;
        let after = full_image(columns, after)?;
        Some(FullRows { before, after })
    }

    /// The first row of these bytes. None if it is refused, or takes none of them.
    fn first<'b>(&self, bytes: &'b [u8]) -> Option<RowSlices<'b>>
        ensures { IfSome result (IsFirstRow (rows_shape self.now) bytes.entry.now) }
    {
        let behind = behind_image(&self.before, bytes)?;
        let rest = behind_image(&self.after, behind)?;
        if rest.len() >= bytes.len() {
            return None;
        }
        let before = front(bytes, behind);
        let after = front(behind, rest);
        Some(RowSlices {
            before,
            after,
            rest,
        })
    }

    /// Whether these bytes are rows.
    #[tactic(auto, using(crate::proofs::FullRows::none_checked))]
    pub(crate) fn are_rows(&self, rows: &[u8]) -> bool
        ensures { result ≡ true → IsBytes rows.now → CanExchange (rows_shape self.now) rows.now }
    {
        let mut rest = rows;
        'rows: while !rest.is_empty() {
            let Some(row) = self.first(rest) else {
                return false;
            };
            rest = row.rest;
        }
        true
    }

    /// The bytes of these rows with the images of each exchanged, the last row first. None if a row is refused.
    #[tactic(auto, using(crate::proofs::FullRows::none_exchanged))]
    pub(crate) fn exchanged(
        &self,
        alloc: Global,
        rows: &[u8],
    ) -> Result<Option<Vec<u8>>, AllocError>
        ensures { IfOk result (λ found. IfSome found (λ bytes. IsBytes rows.now → Undoes IsExchangedBy (rows_shape self.now) rows.now bytes.items)) }
    {
        let mut rest = rows;
        let mut bytes = Backward::with_room(alloc, rows.len())?;
        'rows: while !rest.is_empty() {
            let Some(row) = self.first(rest) else {
                return Ok(None);
            };
            bytes.prepend(alloc, row.before)?;
            bytes.prepend(alloc, row.after)?;
            rest = row.rest;
        }
        Ok(Some(bytes.into_bytes(alloc)?))
    }
}
