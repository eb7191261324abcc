//! The columns of the tables of a file, found by the names of schemas and tables.
ghost use Rattle.std.specs.Prelude.{◌≡◌, ◌==◌, ◌+◌, option_map, map, length, IfOk, IfErr, OnOk};
ghost use Rattle.column_files.specs.Types.{type_of, type_in};
ghost use Rattle.column_files.specs.Tables.{described, described_by, set_in, text_of, columns_named, columns_of, AddsColumn, IsTaken, AreInPlace, AreTables, IsTablesError};

use crate::declared_type::DeclaredType;
use crate::field::Field;
use crate::files::ColumnLine;
use character_sets::CharacterSet;
use std::alloc::{AllocError, Global};
use std::collections::BTreeMap;
use std::str;
use thiserror::Error;

/// A column, as a file declares it.
#[derive(Debug, PartialEq, Eq, Drop)]
pub struct DeclaredColumn {
    /// The name, in UTF-8.
    pub name: Vec<u8>,
    /// The type; None if the file's text is that of no type which is known here.
    pub column_type: Option<DeclaredType>,
    /// The character set; None if the file has NULL, or a name that isn't known here.
    pub character_set: Option<CharacterSet>,
}

/// Why the columns of a file aren't those of tables.
#[derive(Clone, Copy, Debug, PartialEq, Eq, Error)]
pub enum DeclaredTablesError {
    /// The position of the line with this index, counted from 0 behind the first line of the file, isn't the next one of its table.
    #[error("a column whose position isn't the next one of its table")]
    Position(usize),
    /// An allocation failed.
    #[error("out of memory")]
    Memory,
}

impl From<AllocError> for DeclaredTablesError {
    ghost use Rattle.column_files.specs.declared.tables.DeclaredTablesError.TheVariants.{Memory};

    ghost from_gives = { λ _ error. error ≡ Memory };

    fn from(_: AllocError) -> DeclaredTablesError {
        DeclaredTablesError::Memory
    }
}

/// The names of a schema and of a table.
type TableName = (Vec<u8>, Vec<u8>);

/// The columns of tables, by the names of schemas and tables.
#[derive(Debug, Drop)]
pub struct DeclaredTables {
    tables: BTreeMap<TableName, Vec<DeclaredColumn>>,
}

// The bytes as a text, if they are one.
#[tactic(auto, using(crate::proofs::Encodings::is_text, crate::proofs::Encodings::is_no_text))]
fn text_of(bytes: &[u8]) -> Option<&str>
    ensures { option_map (λ text. text.now) result ≡ text_of bytes.now }
{
    let Ok(text) = str::from_utf8(bytes) else {
        return None;
    };
    Some(text)
}

// The character set with this name.
fn set_in(name: &[u8]) -> Option<CharacterSet>
    ensures { result ≡ set_in name.now }
{
    match text_of(name) {
        Some(name) => CharacterSet::from_name(name),
        None => None,
    }
}

impl DeclaredColumn {
    /// The name as a text, if it is one.
    pub fn name_text(&self) -> Option<&str>
        ensures { option_map (λ text. text.now) result ≡ text_of self.now.name.items }
    {
        text_of(&self.name)
    }
}

// The column of a line.
fn column_of(alloc: Global, line: &ColumnLine<'_>) -> Result<DeclaredColumn, AllocError>
    ensures { IfOk result (λ column. described column ≡ described_by line.now) }
{
    let name = line.name.text(alloc)?;
    let column_type = line.column_type.text(alloc)?;
    let character_set = line.character_set.text(alloc)?;
    Ok(DeclaredColumn {
        name,
        column_type: DeclaredType::parse(alloc, &column_type)?,
        character_set: set_in(&character_set),
    })
}

impl DeclaredTables {
    /// The columns of the tables of these lines. Each line is of the table that it names; its position has to be the number of the
    /// lines of that table before it and 1. The lines of other tables may stand between. What is allocated is for the texts of the
    /// lines.
    ///
    /// # Errors
    ///
    /// - [`DeclaredTablesError::Position`] with the index of the first line that has another position.
    /// - [`DeclaredTablesError::Memory`] if an allocation fails.
    pub fn new(alloc: Global, lines: &[ColumnLine<'_>]) -> Result<Self, DeclaredTablesError>
        ensures place { IfOk result (λ tables. AreInPlace lines.now (length lines.now)) }
        ensures tables { IfOk result (λ tables. AreTables lines.now tables) }
        ensures err { IfErr result (IsTablesError lines.now) }
    {
        let mut tables = DeclaredTables {
            tables: BTreeMap::new(alloc),
        };
        for index in 0..lines.len() {
            if !tables.add(alloc, &lines[index])? {
                return Err(DeclaredTablesError::Position(index));
            }
        }
        Ok(tables)
    }

    // Takes the columns of a table out.
    #[tactic(auto, using(crate::proofs::TableColumns::updates_name))]
    fn take(&mut self, alloc: Global, name: &TableName) -> Vec<DeclaredColumn>
        ensures columns { map described result.items ≡ columns_named self.old name.now.0.items name.now.1.items }
        ensures taken { IsTaken self.old self.new name.now }
    {
        match self.tables.remove(name) {
            Some(columns) => columns,
            None => Vec::new(alloc),
        }
    }

    // Adds the column of a line to those of its table. The result is whether its position is the next one there.
    fn add(&mut self, alloc: Global, line: &ColumnLine<'_>) -> Result<bool, AllocError>
        ensures place { IfOk result (λ is_next. is_next ≡ (line.now.position == length (columns_named self.old line.now.schema line.now.table) + 1)) }
        ensures adds { OnOk result (AddsColumn self.old self.new line.now) }
    {
        let name = (line.schema.text(alloc)?, line.table.text(alloc)?);
        let column = column_of(alloc, line)?;
        let mut columns = self.take(alloc, &name);
        columns.push(column)?;
        let is_next = line.position as usize == columns.len();
        self.tables.insert(name, columns)?;
        Ok(is_next)
    }

    /// The columns of the table with these names, in order; none if it isn't known. Names are compared byte by byte. The time
    /// is logarithmic in the number of tables.
    ///
    /// # Errors
    ///
    /// [`AllocError`] if an allocation fails.
    pub fn columns(
        &self,
        alloc: Global,
        schema: &[u8],
        table: &[u8],
    ) -> Result<&[DeclaredColumn], AllocError>
        ensures { IfOk result (λ columns. map described columns.now ≡ columns_named self.now schema.now table.now) }
    {
        let name = (schema.to_vec(alloc)?, table.to_vec(alloc)?);
        match self.tables.get(&name) {
            Some(columns) => Ok(columns),
            None => Ok(&[]),
        }
    }
}
