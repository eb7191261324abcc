//! Row images.
ghost use Rattle.std.specs.Prelude.{◌≡◌, ◌+◌, ◌≤◌, length, is_ok, true, option_map};
ghost use Rattle.binlog_columns.specs.TableColumns.{columns_of};
ghost use Rattle.binlog_rows.specs.Images.{bitmap_of};
ghost use Rattle.binlog_images.specs.BitsOf.{bits_of};
ghost use Rattle.binlog_images.specs.Diffs.{json_count};
ghost use Rattle.binlog_images.specs.DiffsOf.{diffs_of};
ghost use Rattle.binlog_images.specs.Images.{left, image_at, image_with_at, partial_image_at};
ghost use Rattle.binlog_images.specs.Answers.{Leaves, Takes};

use crate::column_value::ColumnValue;
use crate::diff_bits::{DiffBits, advance_diffs, first_diffs, read_diff_bits};
use crate::image_bits::{ImageBits, read_bitmap};
use crate::image_columns::ImageColumns;
use crate::rows_error::{ImageError, ImageKind, kind_of};
use crate::visiting::visit_columns;
use crate::visitor::SkippingVisitor;
use binlog_columns::TableColumns;
use binlog_wire::{BitView, ParseBuf};

/// A row image: an iterator over all columns of the table, in order. It borrows the bytes of the event, and takes no
/// memory; a copy of it starts where it stands.
#[derive(Clone, Copy, Debug)]
pub struct Image<'a> {
    columns: TableColumns<'a>,
    bits: ImageBits<'a>,
    diffs: Option<DiffBits<'a>>,
    rest: &'a [u8],
    ghost in_range: { bits.index + length (columns_of columns) ≤ bits.present.len },
    ghost in_place: { bits.place ≤ bits.index },
    ghost is_whole: { is_ok (left (diffs_of diffs) (columns_of columns) (bits_of bits) rest.now) ≡ true },
}

impl<'a> Image<'a> {
    ghost use Rattle.binlog_images.specs.ImageShapes.{shape_of};
    ghost use Rattle.binlog_images.specs.ImageCells.{answer_cells};

    /// Takes an image with these columns from the start of `buf`.
    ///
    /// # Errors
    ///
    /// The first fault, in the order of the bytes, with its column.
    #[inline(always)]
    pub(crate) fn read(of: &ImageColumns<'a>, buf: &mut ParseBuf<'a>) -> Result<Self, ImageError>
        ensures { Takes buf.new (answer_cells result) (image_at (shape_of of.now) buf.old) }
    {
        Image::read_with(None, of, buf)
    }

    /// Takes the image after of a partial update from the start of `buf`: the value options, the diff bits if they
    /// follow, and an image with these columns, of which so many are of type JSON.
    ///
    /// # Errors
    ///
    /// The first fault, in the order of the bytes, with its column; None for the options and the diff bits.
    #[tactic(auto, using(crate::proofs::Steps::diffs_refused, crate::proofs::Steps::partial_read))]
    #[inline(always)]
    pub(crate) fn read_partial(
        of: &ImageColumns<'a>,
        json_columns: u64,
        buf: &mut ParseBuf<'a>,
    ) -> Result<Self, ImageError>
        requires { json_columns ≡ json_count (columns_of of.now.columns) }
        ensures { Takes buf.new (answer_cells result) (partial_image_at (shape_of of.now) buf.old) }
    {
        match read_diff_bits(json_columns, buf) {
            Ok(diffs) => Image::read_with(diffs, of, buf),
            Err(error) => Err(ImageError {
                kind: kind_of(error),
                column: None,
            }),
        }
    }

    /// Takes an image with these columns and diff bits from the start of `buf`.
    #[tactic(auto, using(crate::proofs::Steps::nulls_refused, crate::proofs::Steps::image_taken, crate::proofs::Steps::image_refused, crate::proofs::Steps::whole))]
    #[inline(always)]
    fn read_with(
        diffs: Option<BitView<'a>>,
        of: &ImageColumns<'a>,
        buf: &mut ParseBuf<'a>,
    ) -> Result<Self, ImageError>
        ensures { Takes buf.new (answer_cells result) (image_with_at (option_map bitmap_of diffs.entry) (shape_of of.now) buf.old) }
    {
        let nulls = match read_bitmap(of.count, buf) {
            Ok(nulls) => nulls,
            Err(error) => {
                return Err(ImageError {
                    kind: kind_of(error),
                    column: None,
                });
            }
        };
        let bits = ImageBits::first(of.present, of.all_present, nulls);
        let diffs = first_diffs(diffs);
        let rest = buf.0;
        match skip_columns(of.columns, bits, diffs, buf) {
            Ok(()) => Ok(Image {
                columns: of.columns,
                bits,
                diffs,
                rest,
            }),
            Err(error) => Err(error),
        }
    }
}

/// Takes the columns of an image from the start of `buf`, and leaves the bytes after them. This is a visit that does nothing;
/// which image it is, is told to the visitor alone.
#[inline(always)]
fn skip_columns(
    columns: TableColumns<'_>,
    start: ImageBits<'_>,
    start_diffs: Option<DiffBits<'_>>,
    buf: &mut ParseBuf<'_>,
) -> Result<(), ImageError>
    requires in_range { start.index + length (columns_of columns) ≤ start.present.len }
    requires in_place { start.place ≤ start.index }
    ensures { Leaves buf.new result (left (diffs_of start_diffs.entry) (columns_of columns.entry) (bits_of start.entry) buf.old) }
{
    visit_columns(
        ImageKind::Before,
        columns,
        start,
        start_diffs,
        buf,
        &mut SkippingVisitor,
    )
}

/// The columns that are left, from left to right: absent, NULL, or a value.
impl<'a> Iterator for Image<'a> {
    type Item = ColumnValue<'a>;

    ghost use Rattle.std.specs.Iterator.{YieldsFirstBy, item_count};
    ghost use Rattle.binlog_images.specs.ColumnValues.{cell_of};
    ghost use Rattle.binlog_images.specs.ImageCells.{cells_of};

    ghost next_gives = { YieldsFirstBy cell_of cells_of };

    ghost remaining = { item_count cells_of };

    #[tactic(auto, using(crate::proofs::Steps::whole_step, crate::proofs::Steps::never_refused, crate::proofs::Steps::cells_step, crate::proofs::Steps::range_first, crate::proofs::Steps::range_step))]
    #[inline(always)]
    fn next(&mut self) -> Option<ColumnValue<'a>> {
        let mut columns = self.columns;
        let column = columns.next()?;
        let mut bits = self.bits;
        let mut diffs = self.diffs;
        let is_present = bits.is_present();
        let mut rest = ParseBuf(self.rest);
        let Ok(value) = ColumnValue::read(&column, &bits, &self.diffs, &mut rest) else {
            unreachable!()
        };
        bits.advance(is_present);
        advance_diffs(&mut diffs, &column);
        *self = Image {
            columns,
            bits,
            diffs,
            rest: rest.0,
        };
        Some(value)
    }
}
