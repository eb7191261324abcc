//! Images that have all columns of their table.
ghost use Rattle.std.specs.Prelude.{◌≡◌, ◌≤◌, length, true, None, IfOk, IfSome};
ghost use Rattle.binlog_wire.specs.Reading.{Gives};
ghost use Rattle.binlog_columns.specs.Columns.{typed_of};
ghost use Rattle.binlog_columns.specs.TableColumns.{columns_of};
ghost use Rattle.binlog_rows.specs.Columns.{bitmap};
ghost use Rattle.binlog_rows.specs.Images.{bitmap_of};
ghost use Rattle.binlog_images.specs.Answers.{IsPassed};
ghost use Rattle.binlog_images.specs.BitmapViews.{answer_bitmap};
ghost use Rattle.binlog_images.specs.Bits.{first_bits};
ghost use Rattle.binlog_images.specs.Cells.{cell_in};
ghost use Rattle.binlog_images.specs.Images.{left, image_at};
ghost use Rattle.binlog_undo.specs.Coverage.{has_all};

use crate::coverage::has_all;
use crate::null_word::null_word;
use binlog_columns::{Column, TableColumns};
use binlog_values::Value;
use binlog_wire::{BitView, Error, ParseBuf};

/// The null bits of so many columns are one number.
const MAX_COLUMNS: u64 = 64;

/// The columns of a full image: all columns of its table, of which there are at most 64.
#[derive(Clone, Copy, Debug)]
pub(crate) struct FullImage<'a> {
    pub(crate) columns: TableColumns<'a>,
    pub(crate) present: BitView<'a>,
    ghost bit_each: { present.len ≡ length (columns_of columns) },
    ghost all_present: { has_all (bitmap_of present) ≡ true },
    ghost few: { present.len ≤ 64 },
}

/// The bytes behind the value of a column that is present; NULL has none. None if they are refused.
#[tactic(auto, using(crate::proofs::FullImages::null_passed, crate::proofs::FullImages::value_passed))]
#[inline(always)]
fn behind_column<'a>(column: &Column, is_null: bool, bytes: &'a [u8]) -> Option<&'a [u8]>
    ensures { IfSome result (λ rest. IsPassed rest.now ((cell_in (typed_of column.now) true is_null).reads bytes.entry.now)) }
{
    if is_null {
        return Some(bytes);
    }
    let mut buf = ParseBuf(bytes);
    match Value::decode(column, &mut buf) {
        Ok(_) => Some(buf.0),
        Err(_) => None,
    }
}

/// Takes a bitmap of this many bits from the start of `buf`.
///
/// # Errors
///
/// [`Error::EndOfBody`] where its bytes aren't all there.
#[inline(always)]
fn read_bitmap<'a>(len: u64, buf: &mut ParseBuf<'a>) -> Result<BitView<'a>, Error>
    ensures bits { Gives ⊥ buf.new (answer_bitmap result) ((bitmap len).reads buf.old) }
    ensures len { IfOk result (λ nulls. nulls.len ≡ len) }
{
    let bytes = buf
        .checked_eat(len.div_ceil(8) as usize)
        .ok_or(Error::EndOfBody)?;
    Ok(BitView::new(bytes, len).unwrap())
}

impl<'a> FullImage<'a> {
    ghost use Rattle.binlog_undo.specs.FullImages.{image_shape};

    /// The image that has these columns. None if it isn't full, or has more columns.
    pub(crate) fn new(columns: TableColumns<'a>, present: BitView<'a>) -> Option<Self>
        requires { present.len ≡ length (columns_of columns) }
        ensures { IfSome result (λ image. image_shape image ≡ (columns_of columns.entry, bitmap_of present.entry)) }
    {
        if present.len() > MAX_COLUMNS {
            return None;
        }
        if !has_all(present) {
            return None;
        }
        Some(FullImage { columns, present })
    }

    /// The bytes behind the columns, of which these are NULL. None if one is refused.
    #[inline(always)]
    fn behind_columns<'b>(&self, nulls: BitView<'_>, bytes: &'b [u8]) -> Option<&'b [u8]>
        requires { nulls.len ≡ self.now.present.len }
        ensures { IfSome result (λ rest. left None (columns_of self.now.columns) (first_bits (bitmap_of self.now.present) (bitmap_of nulls.entry)) bytes.entry.now ≡ Ok rest.now) }
    {
        let mut word = null_word(nulls);
        let mut rest = bytes;
        for column in self.columns {
            rest = behind_column(&column, word % 2 == 1, rest)?;
            word /= 2;
        }
        Some(rest)
    }

    /// The bytes behind an image with these columns. None if it is refused.
    pub(crate) fn behind<'b>(&self, bytes: &'b [u8]) -> Option<&'b [u8]>
        ensures { IfSome result (λ rest. IsPassed rest.now (image_at (image_shape self.now) bytes.entry.now)) }
    {
        let mut buf = ParseBuf(bytes);
        let Ok(nulls) = read_bitmap(self.present.len(), &mut buf) else {
            return None;
        };
        self.behind_columns(nulls, buf.0)
    }
}
