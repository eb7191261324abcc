//! The images of rows.
ghost use Rattle.std.specs.Prelude.{◌≡◌, ◌+◌, ◌-◌, ◌^◌, ◌≤◌, length, min, vec_len, vec_capacity};
ghost use Rattle.binlog_wire.specs.Putting.{Puts};
ghost use Rattle.binlog_columns.specs.TableColumns.{columns_of};
ghost use Rattle.binlog_rows.specs.Images.{bitmap_of};
ghost use Rattle.binlog_images.specs.Bits.{set_count};
ghost use Rattle.binlog_row_writing.specs.Walks.{first_walk};
ghost use Rattle.binlog_row_writing.specs.NewImages.{columns_refusal, columns_bytes, image_refusal, image_bytes};

use crate::cell::{cell_len, cell_refusal, put_cell};
use crate::new_value::NewValue;
use crate::null_bits::put_nulls;
use crate::row_write_error::{ImageFault, RowWriteErrorKind};
use crate::walk::{Walk, is_set};
use binlog_columns::TableColumns;
use binlog_wire::BitView;

/// The columns of a table, and which of them are present in an image.
#[derive(Clone, Copy, Debug)]
pub(crate) struct ImageColumns<'a> {
    columns: TableColumns<'a>,
    present: BitView<'a>,
    /// How many are present.
    count: u64,
    ghost bit_each: { present.len ≡ length (columns_of columns) },
    ghost counted: { count ≡ set_count (length (columns_of columns)) 0 (bitmap_of present) },
}

/// The number of bits that are set.
#[tactic(auto, using(crate::specs::WalkLaws::count_step, crate::specs::WalkLaws::count_end))]
fn set_count(bits: BitView<'_>) -> u64
    ensures { result ≡ set_count bits.entry.len 0 (bitmap_of bits.entry) }
{
    let mut count = 0;
    for index in 0..bits.len() {
        if is_set(bits, index) {
            count += 1;
        }
    }
    count
}

impl<'a> ImageColumns<'a> {
    ghost use Rattle.binlog_row_writing.specs.ImageViews.{shape_of};

    /// The columns of a table, with a bit for each.
    pub(crate) fn new(columns: TableColumns<'a>, present: BitView<'a>) -> Self
        requires { present.len ≡ length (columns_of columns) }
        ensures { shape_of result ≡ (columns_of columns.entry, bitmap_of present.entry) }
    {
        ImageColumns {
            columns,
            present,
            count: set_count(present),
        }
    }

    /// The number of columns that are present.
    pub(crate) fn count(&self) -> u64
        ensures { result ≡ set_count (length (columns_of self.now.columns)) 0 (bitmap_of self.now.present) }
    {
        self.count
    }

    /// Why the values of the columns are refused: the first that is, from left to right.
    #[tactic(auto, using(crate::specs::WalkLaws::refusal_step, crate::specs::WalkLaws::refusal_here, crate::specs::WalkLaws::refusal_end, crate::specs::WalkLaws::range_first, crate::specs::WalkLaws::range_step))]
    fn columns_refusal(&self, values: &[NewValue<'_>]) -> Option<ImageFault>
        ensures { result ≡ columns_refusal (columns_of self.now.columns) (first_walk (bitmap_of self.now.present)) values.now }
    {
        let mut walk = Walk::first(self.present);
        for column in self.columns {
            if let Some(kind) = cell_refusal(&column, walk.value(values)) {
                return Some(ImageFault {
                    kind,
                    column: Some(walk.index),
                });
            }
            walk.advance();
        }
        None
    }

    /// Why the values are refused.
    pub(crate) fn refusal(&self, values: &[NewValue<'_>]) -> Option<ImageFault>
        ensures { result ≡ image_refusal (shape_of self.now) values.now }
    {
        if values.len() as u64 != self.count {
            return Some(ImageFault {
                kind: RowWriteErrorKind::WrongCount,
                column: None,
            });
        }
        self.columns_refusal(values)
    }

    /// The number of bytes of the columns; the greatest number where they are more.
    #[tactic(auto, using(crate::specs::WalkLaws::len_step, crate::specs::WalkLaws::len_end, crate::specs::WalkLaws::range_first, crate::specs::WalkLaws::range_step))]
    fn columns_len(&self, values: &[NewValue<'_>]) -> usize
        ensures { result ≡ min (length (columns_bytes (columns_of self.now.columns) (first_walk (bitmap_of self.now.present)) values.now)) (2 ^ 64 - 1) }
    {
        let mut walk = Walk::first(self.present);
        let mut len = 0usize;
        for column in self.columns {
            len = len.saturating_add(cell_len(&column, walk.value(values)));
            walk.advance();
        }
        len
    }

    /// The number of bytes of the image; the greatest number where they are more.
    #[tactic(auto, using(crate::specs::NullLaws::nulls_len, crate::specs::WalkLaws::image_len))]
    pub(crate) fn written_len(&self, values: &[NewValue<'_>]) -> usize
        ensures { result ≡ min (length (image_bytes (shape_of self.now) values.now)) (2 ^ 64 - 1) }
    {
        values
            .len()
            .div_ceil(8)
            .saturating_add(self.columns_len(values))
    }

    /// Appends the columns to `out`, which has the capacity.
    #[tactic(auto, using(crate::specs::WalkLaws::put_step, crate::specs::WalkLaws::put_room, crate::specs::WalkLaws::put_len, crate::specs::WalkLaws::put_all, crate::specs::WalkLaws::put_end, crate::specs::WalkLaws::range_first, crate::specs::WalkLaws::range_step))]
    fn put_columns(&self, values: &[NewValue<'_>], out: &mut Vec<u8>)
        requires { vec_len out.old + length (columns_bytes (columns_of self.now.columns) (first_walk (bitmap_of self.now.present)) values.now) ≤ vec_capacity out.old }
        ensures { Puts out.old out.new (columns_bytes (columns_of self.now.columns) (first_walk (bitmap_of self.now.present)) values.now) }
    {
        let mut walk = Walk::first(self.present);
        for column in self.columns {
            put_cell(&column, walk.value(values), out);
            walk.advance();
        }
    }

    /// Appends the image to `out`, which has the capacity.
    #[tactic(auto, using(crate::specs::WalkLaws::image_len, crate::specs::WalkLaws::image_split))]
    pub(crate) fn put(&self, values: &[NewValue<'_>], out: &mut Vec<u8>)
        requires { vec_len out.old + length (image_bytes (shape_of self.now) values.now) ≤ vec_capacity out.old }
        ensures { Puts out.old out.new (image_bytes (shape_of self.now) values.now) }
    {
        put_nulls(values, out);
        self.put_columns(values, out);
    }
}
