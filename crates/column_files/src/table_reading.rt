//! Reading the tables of a text.
ghost use Rattle.std.specs.Prelude.{◌≡◌, ◌⊎◌, IfErr, IfOk};
ghost use Rattle.column_files.specs.Files.{IsFile, IsInvalid};
ghost use Rattle.column_files.specs.Tables.{IsTablesError};
ghost use Rattle.column_files.specs.declared.error.ColumnFileError.TheVariants.{Memory};
ghost use Rattle.column_files.specs.Texts.{IsColumnFile, IsReadError, read_error_of, tables_error_of};

use crate::error::ColumnFileError;
use crate::files::parse;
use crate::place::Place;
use crate::positions::position_at;
use crate::tables::{DeclaredTables, DeclaredTablesError};
use crate::tables_error::{ReadTablesError, TextFault};
use std::alloc::Global;

/// Reads the text of a file of columns, as [`parse`] says, and gives the columns of the tables of its lines, as
/// [`DeclaredTables::new`] says. What is allocated is for the texts of the lines.
///
/// # Errors
///
/// - [`ReadTablesError::Fault`] with what is wrong first, and its place: the first fault of the text; if it has none, the first line
///   whose position isn't the next one of its table.
/// - [`ReadTablesError::Memory`] if an allocation fails.
pub fn read_tables(alloc: Global, text: &[u8]) -> Result<DeclaredTables, ReadTablesError>
    ensures ok { IfOk result (IsColumnFile text.now) }
    ensures err { IfErr result (IsReadError text.now) }
{
    let lines = match parse(alloc, text) {
        Ok(lines) => lines,
        Err(error) => return Err(error_of_text(text, error)),
    };
    match DeclaredTables::new(alloc, &lines) {
        Ok(tables) => Ok(tables),
        Err(error) => Err(error_of_tables(text, error)),
    }
}

// Why a text isn't read, which isn't that of a file.
fn error_of_text(text: &[u8], error: ColumnFileError) -> ReadTablesError
    ensures { result ≡ read_error_of text.now error }
{
    match error {
        ColumnFileError::Invalid(fault, index) => {
            ReadTablesError::Fault(TextFault::Text(fault), Place::of_byte(text, index))
        }
        ColumnFileError::Memory => ReadTablesError::Memory,
    }
}

// Why a text isn't read whose lines aren't those of tables.
fn error_of_tables(text: &[u8], error: DeclaredTablesError) -> ReadTablesError
    ensures { result ≡ tables_error_of text.now error }
{
    match error {
        DeclaredTablesError::Position(index) => {
            let place = Place::of_byte(text, position_at(text, index));
            ReadTablesError::Fault(TextFault::Order, place)
        }
        DeclaredTablesError::Memory => ReadTablesError::Memory,
    }
}
