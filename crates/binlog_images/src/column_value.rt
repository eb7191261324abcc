//! A column in a row image.
ghost use Rattle.std.specs.Prelude.{◌≡◌, IfOk};
ghost use Rattle.binlog_columns.specs.Columns.{typed_of};
ghost use Rattle.binlog_columns.specs.Layouts.{layout_of};
ghost use Rattle.binlog_values.specs.Contents.{content_in};
ghost use Rattle.binlog_values.specs.Faults.{Decodes};
ghost use Rattle.binlog_values.specs.Values.{decoded_content, json, meaning_in, meaning_of, content_of};
ghost use Rattle.binlog_images.specs.BitsOf.{bits_of};
ghost use Rattle.binlog_images.specs.DiffsOf.{diffs_of};
ghost use Rattle.binlog_images.specs.Cells.{cell_at, diff_list};
ghost use Rattle.binlog_images.specs.ColumnValues.{answer_cell, cell_of};

use crate::diff_bits::{DiffBits, is_diffs};
use crate::image_bits::ImageBits;
use binlog_columns::Column;
use binlog_values::{Value, ValueFault};
use binlog_wire::ParseBuf;

/// A column in a row image. It borrows its bytes, and takes no memory.
#[derive(Clone, Copy, Debug, PartialEq, Eq, Hash)]
pub enum ColumnValue<'a> {
    /// The column isn't in the image: an update leaves it as it was, an insertion gives it its default.
    Absent,
    /// NULL.
    Null,
    /// A value.
    Value(Value<'a>),
    /// Changes of the document that a JSON column has in the image before: a list of diffs, not checked. Only the image
    /// after of a partial update has it.
    Diffs(&'a [u8]),
}

impl<'a> ColumnValue<'a> {
    /// Takes a column of an image from the start of `buf`; only one that is present and not NULL has bytes.
    ///
    /// # Errors
    ///
    /// Those of [`Value::decode`].
    #[tactic(auto, using(crate::proofs::Reading::absent_read, crate::proofs::Reading::null_read, crate::proofs::Reading::value_read, crate::proofs::Reading::diffs_read, crate::proofs::Reading::refused_read))]
    #[inline(always)]
    pub(crate) fn read(
        column: &Column,
        bits: &ImageBits<'_>,
        diffs: &Option<DiffBits<'_>>,
        buf: &mut ParseBuf<'a>,
    ) -> Result<Self, ValueFault>
        ensures { Decodes buf.new (answer_cell result) ((cell_at (diffs_of diffs.now) (typed_of column.now) (bits_of bits.now)).reads buf.old) }
    {
        if !bits.is_present() {
            return Ok(ColumnValue::Absent);
        }
        if bits.is_null() {
            return Ok(ColumnValue::Null);
        }
        if is_diffs(column, diffs) {
            let value = decode_outlined(column, buf)?;
            return Ok(diffs_in(value));
        }
        let value = Value::decode(column, buf)?;
        Ok(ColumnValue::Value(value))
    }
}

/// Takes a value, as [`Value::decode`] does.
// Few columns are lists of diffs. A function of its own, so that what reads a value stays small enough to be inlined.
#[inline(never)]
fn decode_outlined<'a>(column: &Column, buf: &mut ParseBuf<'a>) -> Result<Value<'a>, ValueFault>
    ensures content { Decodes buf.new (decoded_content result) ((content_in (layout_of (typed_of column.now))).reads buf.old) }
    ensures meaning { IfOk result (λ value. meaning_of value ≡ meaning_in (typed_of column.now)) }
{
    Value::decode(column, buf)
}

/// The diffs in a value of a JSON column.
#[inline(always)]
fn diffs_in(value: Value<'_>) -> ColumnValue<'_>
    requires { meaning_of value ≡ json }
    ensures { cell_of result ≡ diff_list (content_of value.entry) }
{
    match value {
        Value::Json(bytes) => ColumnValue::Diffs(bytes),
        _ => unreachable!(),
    }
}
