//! The columns that files declare of a table.
ghost use Rattle.std.specs.Prelude.{◌≡◌, map, IfOk};
ghost use Rattle.column_files.specs.Tables.{described};
ghost use Rattle.binlog_declared_columns.specs.Tables.{first_of, columns_in};

use column_files::{DeclaredColumn, DeclaredTables};
use std::alloc::{AllocError, Global};

// The first columns, if they aren't none, and else the others.
fn first_of<'a>(columns: &'a [DeclaredColumn], others: &'a [DeclaredColumn]) -> &'a [DeclaredColumn]
    ensures { map described result.now ≡ first_of (map described columns.now) (map described others.now) }
{
    match columns.split_first() {
        Some(_) => columns,
        None => others,
    }
}

/// The columns of the table with these names in the last of these files that has it; none if no file has it.
///
/// # Errors
///
/// [`AllocError`] if an allocation fails.
pub fn declared_columns<'a>(
    alloc: Global,
    files: &'a [DeclaredTables],
    schema: &[u8],
    table: &[u8],
) -> Result<&'a [DeclaredColumn], AllocError>
    ensures { IfOk result (λ columns. map described columns.now ≡ columns_in files.now schema.now table.now) }
{
    let mut found: &[DeclaredColumn] = &[];
    let mut rest = files;
    while let Some((file, behind)) = rest.split_first() {
        found = first_of(file.columns(alloc, schema, table)?, found);
        rest = behind;
    }
    Ok(found)
}
