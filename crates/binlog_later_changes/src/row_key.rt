//! The bytes that tell a row of a table from all others.
ghost use Rattle.std.specs.Prelude.{◌≡◌, ◌++◌, map, get_or, IfOk, OnOk};
ghost use Rattle.binlog_images.specs.StoredColumns.{column_of};
ghost use Rattle.binlog_images.specs.declared.stored_columns.StoredColumn.TheVariants.{Absent};
ghost use Rattle.change_statistics.specs.Names.{name_of};
ghost use Rattle.binlog_later_changes.specs.RowKeys.{byte_code, escaped, column_code, row_code, key_code};

use binlog_images::StoredColumn;
use change_statistics::TableName;
use std::alloc::{AllocError, Global};

/// The bytes that tell a row of a table from all others: they have the names of the table, and the values of the row.
#[derive(PartialEq, Eq, Hash, Drop)]
pub(crate) struct RowKey {
    code: Vec<u8>,
}

impl RowKey {
    /// That of the row of this table that has these columns.
    #[tactic(auto, using(std::proofs::Common::append_assoc))]
    pub(crate) fn of(
        alloc: Global,
        name: &TableName,
        columns: &[StoredColumn<'_>],
    ) -> Result<RowKey, AllocError>
        ensures { IfOk result (λ key. key.code.items ≡ key_code (name_of name.now) (map column_of columns.now)) }
    {
        let mut code = Vec::new(alloc);
        push_text(&mut code, name.database.as_slice())?;
        push_text(&mut code, name.table.as_slice())?;
        push_columns(&mut code, columns)?;
        Ok(RowKey { code })
    }
}

// Adds a byte of a text: a zero has a one behind it.
fn push_byte(code: &mut Vec<u8>, byte: u8) -> Result<(), AllocError>
    ensures { OnOk result (code.new.items ≡ code.old.items ++ byte_code byte) }
{
    if byte == 0 {
        code.extend_from_slice(&[0, 1])?;
        return Ok(());
    }
    code.push(byte)?;
    Ok(())
}

// Adds a text, which ends with two zeros.
#[tactic(auto, using(crate::proofs::RowKeys::escaped_more, crate::proofs::RowKeys::escaped_end))]
fn push_text(code: &mut Vec<u8>, text: &[u8]) -> Result<(), AllocError>
    ensures { OnOk result (code.new.items ≡ code.old.items ++ escaped text.now) }
{
    let mut left = text;
    'bytes: while let Some((byte, others)) = left.split_first() {
        push_byte(code, *byte)?;
        left = others;
    }
    code.extend_from_slice(&[0, 0])?;
    Ok(())
}

// Adds a column.
#[tactic(auto, using(std::proofs::Common::append_assoc))]
fn push_column(code: &mut Vec<u8>, column: StoredColumn<'_>) -> Result<(), AllocError>
    ensures { OnOk result (code.new.items ≡ code.old.items ++ column_code (column_of column.entry)) }
{
    match column {
        StoredColumn::Absent => code.push(0)?,
        StoredColumn::Null => code.push(1)?,
        StoredColumn::Value(bytes) => {
            code.push(2)?;
            push_text(code, bytes)?;
        }
    }
    Ok(())
}

// The column with this index; absent beyond the last one.
fn column_at<'v>(columns: &[StoredColumn<'v>], index: usize) -> StoredColumn<'v>
    ensures { result ≡ get_or columns.now index Absent }
{
    match columns.get(index) {
        Some(column) => *column,
        None => StoredColumn::Absent,
    }
}

// Adds the columns of a row.
#[tactic(auto, using(crate::proofs::RowKeys::columns_more, crate::proofs::RowKeys::columns_end))]
fn push_columns(code: &mut Vec<u8>, columns: &[StoredColumn<'_>]) -> Result<(), AllocError>
    ensures { OnOk result (code.new.items ≡ code.old.items ++ row_code (map column_of columns.now)) }
{
    for index in 0..columns.len() {
        let column = column_at(columns, index);
        push_column(code, column)?;
    }
    Ok(())
}
