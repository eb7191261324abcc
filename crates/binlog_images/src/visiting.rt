//! Visits of the columns of images: each is shown to a visitor as it is read.
ghost use Rattle.std.specs.Prelude.{◌≡◌, ◌+◌, ◌≤◌, length, option_map};
ghost use Rattle.binlog_columns.specs.TableColumns.{columns_of};
ghost use Rattle.binlog_rows.specs.Images.{bitmap_of};
ghost use Rattle.binlog_images.specs.Answers.{Leaves, Passes};
ghost use Rattle.binlog_images.specs.BitsOf.{bits_of};
ghost use Rattle.binlog_images.specs.Diffs.{json_count};
ghost use Rattle.binlog_images.specs.DiffsOf.{diffs_of};
ghost use Rattle.binlog_images.specs.Fronts.{image_front, partial_front};
ghost use Rattle.binlog_images.specs.ImageShapes.{shape_of};
ghost use Rattle.binlog_images.specs.Images.{left, cells_in, image_with_at, partial_image_at};
ghost use Rattle.binlog_images.specs.Visits.{VisitsColumns};
ghost use Rattle.binlog_images.specs.declared.rows_error.ImageKind.TheVariants.{After};

use crate::column_value::ColumnValue;
use crate::diff_bits::{DiffBits, advance_diffs, first_diffs, read_diff_bits};
use crate::image_bits::{ImageBits, read_bitmap};
use crate::image_columns::ImageColumns;
use crate::rows_error::{ImageError, ImageKind, kind_of, kind_of_fault};
use crate::visitor::ColumnVisitor;
use binlog_columns::TableColumns;
use binlog_wire::{BitView, ParseBuf};

/// Takes the columns of an image from the start of `buf`, shows each to the visitor, and leaves the bytes after them.
#[tactic(auto, using(crate::proofs::Steps::left_step, crate::proofs::Steps::left_here, crate::proofs::Steps::range_first, crate::proofs::Steps::range_step, crate::proofs::Visited::visited_one, crate::proofs::Visited::visited_all, crate::proofs::Visited::visited_front))]
#[inline(always)]
pub(crate) fn visit_columns<T: ColumnVisitor>(
    kind: ImageKind,
    columns: TableColumns<'_>,
    start: ImageBits<'_>,
    start_diffs: Option<DiffBits<'_>>,
    buf: &mut ParseBuf<'_>,
    visitor: &mut T,
) -> Result<(), ImageError>
    requires in_range { start.index + length (columns_of columns) ≤ start.present.len }
    requires in_place { start.place ≤ start.index }
    ensures leaves { Leaves buf.new result (left (diffs_of start_diffs.entry) (columns_of columns.entry) (bits_of start.entry) buf.old) }
    ensures visits { VisitsColumns T.visits kind start.entry.index (cells_in (diffs_of start_diffs.entry) (columns_of columns.entry) (bits_of start.entry) buf.old) visitor.old visitor.new }
{
    let mut bits = start;
    let mut diffs = start_diffs;
    for column in columns {
        let index = bits.index;
        let is_present = bits.is_present();
        match ColumnValue::read(&column, &bits, &diffs, buf) {
            Ok(value) => {
                visitor.visit_column(kind, index, value);
                bits.advance(is_present);
                advance_diffs(&mut diffs, &column);
            }
            Err(fault) => {
                return Err(ImageError {
                    kind: kind_of_fault(fault),
                    column: Some(index),
                });
            }
        }
    }
    Ok(())
}

/// Takes an image with these columns and diff bits from the start of `buf`, and shows its columns to the visitor.
///
/// # Errors
///
/// The first fault, in the order of the bytes, with its column. The columns in front of it have been shown.
#[tactic(auto, using(crate::proofs::Visited::nulls_passed, crate::proofs::Visited::front_is, crate::proofs::Visited::no_front, crate::proofs::Steps::nulls_refused))]
#[inline(always)]
pub(crate) fn visit_image<T: ColumnVisitor>(
    kind: ImageKind,
    diffs: Option<BitView<'_>>,
    of: &ImageColumns<'_>,
    buf: &mut ParseBuf<'_>,
    visitor: &mut T,
) -> Result<(), ImageError>
    ensures leaves { Passes buf.new result (image_with_at (option_map bitmap_of diffs.entry) (shape_of of.now) buf.old) }
    ensures visits { VisitsColumns T.visits kind 0 (image_front (option_map bitmap_of diffs.entry) (shape_of of.now) buf.old) visitor.old visitor.new }
{
    let nulls = match read_bitmap(of.count, buf) {
        Ok(nulls) => nulls,
        Err(error) => {
            return Err(ImageError {
                kind: kind_of(error),
                column: None,
            });
        }
    };
    let bits = ImageBits::first(of.present, of.all_present, nulls);
    visit_columns(kind, of.columns, bits, first_diffs(diffs), buf, visitor)
}

/// Takes the image after of a partial update from the start of `buf`: the value options, the diff bits if they follow, and
/// an image with these columns, of which so many are of type JSON. Shows its columns to the visitor.
///
/// # Errors
///
/// The first fault, in the order of the bytes, with its column; None for the options and the diff bits. The columns in front
/// of it have been shown.
#[tactic(auto, using(crate::proofs::Visited::diffs_passed, crate::proofs::Visited::partial_front_is, crate::proofs::Visited::no_partial_front, crate::proofs::Steps::diffs_refused))]
pub(crate) fn visit_partial_image<T: ColumnVisitor>(
    of: &ImageColumns<'_>,
    json_columns: u64,
    buf: &mut ParseBuf<'_>,
    visitor: &mut T,
) -> Result<(), ImageError>
    requires { json_columns ≡ json_count (columns_of of.now.columns) }
    ensures leaves { Passes buf.new result (partial_image_at (shape_of of.now) buf.old) }
    ensures visits { VisitsColumns T.visits After 0 (partial_front (shape_of of.now) buf.old) visitor.old visitor.new }
{
    match read_diff_bits(json_columns, buf) {
        Ok(diffs) => visit_image(ImageKind::After, diffs, of, buf, visitor),
        Err(error) => Err(ImageError {
            kind: kind_of(error),
            column: None,
        }),
    }
}
