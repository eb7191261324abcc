//! What a log and files of columns state of the columns of a table.
ghost use Rattle.std.specs.Prelude.{◌≡◌, map, IfOk};
ghost use Rattle.binlog_columns.specs.Columns.{typed_of};
ghost use Rattle.binlog_columns.specs.TableColumns.{columns_of};
ghost use Rattle.binlog_declared_columns.specs.Tables.{StatesBoth};

use crate::completion::complete;
use crate::signs::states_signs;
use crate::tables::declared_columns;
use binlog_columns::{Column, TableColumns};
use binlog_optional_metadata::{OptionalMetadata, TableFacts};
use column_files::DeclaredTables;
use std::alloc::{AllocError, Global};

// The columns, in memory.
fn kept(alloc: Global, columns: TableColumns<'_>) -> Result<Vec<Column>, AllocError>
    ensures { IfOk result (λ kept. map typed_of kept.items ≡ columns_of columns.entry) }
{
    let mut kept = Vec::with_capacity(alloc, columns.num_columns())?;
    'columns: for column in columns {
        kept.push(column).map_err(AllocError::from)?;
    }
    Ok(kept)
}

/// What is known of the columns of the table with these names: what its table map states, which has these columns and this optional
/// metadata, as [`TableFacts::new`] says, and what the last of these files that has the table declares besides, as [`complete`] says.
/// The result has, too, the index of the first column that contradicts the file, counted from 0; then nothing of the file counts.
/// Without files nothing more is allocated than for [`TableFacts::new`].
///
/// # Errors
///
/// [`AllocError`] if an allocation fails.
pub fn table_facts<'a>(
    alloc: Global,
    files: &'a [DeclaredTables],
    schema: &[u8],
    table: &[u8],
    columns: TableColumns<'_>,
    optional_metadata: &'a [u8],
    is_maria_log: bool,
) -> Result<(TableFacts<'a>, Option<usize>), AllocError>
    ensures { IfOk result (λ known. StatesBoth files.now schema.now table.now is_maria_log (columns_of columns.entry) optional_metadata.now known.0.columns.items known.0.refusal known.1) }
{
    let stated = TableFacts::new(alloc, columns, optional_metadata, is_maria_log)?;
    let declared = declared_columns(alloc, files, schema, table)?;
    if declared.is_empty() {
        return Ok((stated, None));
    }
    let states_signs = states_signs(OptionalMetadata::new(
        columns,
        optional_metadata,
        is_maria_log,
    ));
    let columns = kept(alloc, columns)?;
    let refusal = stated.refusal;
    let (columns, contradiction) = complete(
        alloc,
        is_maria_log,
        states_signs,
        &columns,
        stated.columns,
        declared,
    )?;
    Ok((TableFacts { columns, refusal }, contradiction))
}
