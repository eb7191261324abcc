//! Which JSON columns of an image are lists of diffs.
ghost use Rattle.std.specs.Prelude.{◌≡◌, ◌+◌, ◌&&◌, nat_lt, option_map, if◌then◌else◌};
ghost use Rattle.binlog_wire.specs.Reading.{Gives};
ghost use Rattle.binlog_columns.specs.Columns.{typed_of};
ghost use Rattle.binlog_rows.specs.Images.{bitmap_of};
ghost use Rattle.binlog_images.specs.Diffs.{is_json, first_diffs, is_diffs, next_diffs, options, diff_bits};
ghost use Rattle.binlog_images.specs.DiffsOf.{diffs_of, answer_diffs};

use crate::image_bits::{is_set, read_bitmap};
use binlog_columns::{Column, ColumnType};
use binlog_variable_fields::LenEnc;
use binlog_wire::{BitView, Error, IntRepr, Invalid, ParseBuf};

/// The diff bits of an image after, and the place of the next JSON column's.
#[derive(Clone, Copy, Debug)]
pub(crate) struct DiffBits<'a> {
    /// Which of the table's JSON columns, present or not, are lists of diffs.
    pub(crate) bits: BitView<'a>,
    /// The index of the next JSON column among these, or their number after the last one.
    pub(crate) index: u64,
}

/// Whether the column is of type JSON.
#[inline(always)]
pub(crate) fn is_json(column: &Column) -> bool
    ensures { result ≡ is_json (typed_of column.now) }
{
    matches!(column.column_type(), ColumnType::MYSQL_TYPE_JSON)
}

/// The diff bits of an image, before its first column.
#[inline(always)]
pub(crate) fn first_diffs<'a>(bits: Option<BitView<'a>>) -> Option<DiffBits<'a>>
    ensures { diffs_of result ≡ first_diffs (option_map bitmap_of bits.entry) }
{
    match bits {
        Some(bits) => Some(DiffBits { bits, index: 0 }),
        None => None,
    }
}

/// Whether the next column, which is this one, is a list of diffs if it is present and not NULL.
#[inline(always)]
pub(crate) fn is_diffs(column: &Column, diffs: &Option<DiffBits<'_>>) -> bool
    ensures { result ≡ is_diffs (typed_of column.now) (diffs_of diffs.now) }
{
    match diffs {
        Some(diffs) => is_json(column) && is_set(diffs.bits, diffs.index),
        None => false,
    }
}

/// The index of the next JSON column's bit, after this column.
#[inline(always)]
fn next_index(column: &Column, len: u64, index: u64) -> u64
    ensures { result ≡ (if is_json (typed_of column.now) && nat_lt index len then index + 1 else index) }
{
    if is_json(column) && index < len {
        index + 1
    } else {
        index
    }
}

/// Goes to the columns after the next one, which is this one.
#[inline(always)]
pub(crate) fn advance_diffs(diffs: &mut Option<DiffBits<'_>>, column: &Column)
    ensures { diffs_of diffs.new ≡ next_diffs (typed_of column.now) (diffs_of diffs.old) }
{
    if let Some(diffs) = diffs {
        diffs.index = next_index(column, diffs.bits.len(), diffs.index);
    }
}

/// Takes the value options of a partial update from the start of `buf`: whether diff bits follow.
///
/// # Errors
///
/// - [`Error::EndOfBody`] if their bytes aren't all there.
/// - [`Error::InvalidData`] if they are neither 0 nor 1.
fn read_options(buf: &mut ParseBuf<'_>) -> Result<bool, Error>
    ensures { Gives ⊥ buf.new result (options.reads buf.old) }
{
    match LenEnc::read(buf)? {
        0 => Ok(false),
        1 => Ok(true),
        _ => Err(Error::InvalidData(Invalid::FieldRange(0))),
    }
}

/// Takes the value options from the start of `buf`, and the diff bits of this many JSON columns if they follow.
///
/// # Errors
///
/// - [`Error::EndOfBody`] if their bytes aren't all there.
/// - [`Error::InvalidData`] if the options are neither 0 nor 1.
pub(crate) fn read_diff_bits<'a>(
    count: u64,
    buf: &mut ParseBuf<'a>,
) -> Result<Option<BitView<'a>>, Error>
    ensures { Gives ⊥ buf.new (answer_diffs result) ((diff_bits count).reads buf.old) }
{
    if read_options(buf)? {
        let bits = read_bitmap(count, buf)?;
        Ok(Some(bits))
    } else {
        Ok(None)
    }
}
