//! A column of an image, and the value for it.
ghost use Rattle.std.specs.Prelude.{◌≡◌, ◌+◌, ◌≤◌, length, vec_len, vec_capacity};
ghost use Rattle.binlog_wire.specs.Putting.{Puts};
ghost use Rattle.binlog_columns.specs.Columns.{typed_of};
ghost use Rattle.binlog_row_writing.specs.NewCells.{cell_refusal, cell_bytes, is_new_null};

use crate::content::stored_in;
use crate::new_value::NewValue;
use crate::row_write_error::RowWriteErrorKind;
use binlog_columns::Column;

impl NewValue<'_> {
    /// Whether it is NULL.
    pub fn is_null(&self) -> bool
        ensures { result ≡ is_new_null self.now }
    {
        matches!(self, NewValue::Null)
    }
}

/// Why the value of a column is refused; None for `value` is a column that is absent.
pub(crate) fn cell_refusal(
    column: &Column,
    value: Option<NewValue<'_>>,
) -> Option<RowWriteErrorKind>
    ensures { result ≡ cell_refusal (typed_of column.now) value.entry }
{
    let value = value?;
    if value.is_null() {
        return None;
    }
    match stored_in(column, value) {
        Ok(_) => None,
        Err(kind) => Some(kind),
    }
}

/// The number of bytes of a column; None for `value` is a column that is absent.
pub(crate) fn cell_len(column: &Column, value: Option<NewValue<'_>>) -> usize
    ensures { result ≡ length (cell_bytes (typed_of column.now) value.entry) }
{
    let Some(value) = value else {
        return 0;
    };
    if value.is_null() {
        return 0;
    }
    match stored_in(column, value) {
        Ok(stored) => stored.written_len(column.layout()),
        Err(_) => 0,
    }
}

/// Appends the bytes of a column, to `out`, which has the capacity; None for `value` is a column that is absent.
pub(crate) fn put_cell(column: &Column, value: Option<NewValue<'_>>, out: &mut Vec<u8>)
    requires { vec_len out.old + length (cell_bytes (typed_of column.now) value) ≤ vec_capacity out.old }
    ensures { Puts out.old out.new (cell_bytes (typed_of column.now) value.entry) }
{
    let Some(value) = value else {
        return;
    };
    if value.is_null() {
        return;
    }
    if let Ok(stored) = stored_in(column, value) {
        stored.put(column.layout(), out);
    }
}
