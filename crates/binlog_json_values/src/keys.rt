//! The names of a table's columns as keys of members.
ghost use Rattle.std.specs.Prelude.{◌≡◌, ◌≤◌, ◌<◌, ◌+◌, ◌^◌, ◌∷◌, [], length, slice_index_or, OnOk};
ghost use Rattle.json.specs.Token.{key};
ghost use Rattle.json_line.specs.Tokens.{Adds};
ghost use Rattle.binlog_optional_metadata.specs.Facts.{facts_of};
ghost use Rattle.binlog_json_values.specs.Rows.{column_name};
ghost use Rattle.binlog_json_values.specs.Keys.{IsPrinted, KeepsBefore, ArePrinted};

use crate::names::NumberedNames;
use binlog_optional_metadata::ColumnFacts;
use json_line::Line;
use std::alloc::{AllocError, Global};
use std::mem;

/// Writes the name of the column with this index, counted from 0.
pub(crate) fn write_name(
    line: &mut Line,
    names: &mut NumberedNames,
    facts: &ColumnFacts<'_>,
    index: u64,
) -> Result<(), AllocError>
    requires { index + 1 < 2 ^ 64 }
    ensures { Adds result line.old line.new (key (column_name (facts_of facts.now) index) ∷ []) }
{
    match facts.name {
        Some(name) => line.escaped_key(name),
        None => line.key(names.name(index as usize)?),
    }
}

/// The names of a table's columns, each printed in a line of its own, which is copied for each value. The lines are reused from
/// table to table.
#[derive(Drop)]
pub(crate) struct ColumnKeys {
    alloc: Global,
    pub(crate) lines: Vec<Line>,
}

impl ColumnKeys {
    /// No names yet. Nothing is allocated.
    pub(crate) fn new(alloc: Global) -> Self {
        ColumnKeys {
            alloc,
            lines: Vec::new(alloc),
        }
    }

    /// Takes the lines with their memory, and leaves none.
    pub(crate) fn take(&mut self) -> Self
        ensures { result ≡ self.old }
    {
        let none = ColumnKeys::new(self.alloc);
        mem::replace(self, none)
    }

    /// Makes a line for the column with this index, if there is none yet.
    fn make_line(&mut self, index: usize) -> Result<(), AllocError>
        requires { index ≤ length self.old.lines.items }
        ensures within { OnOk result (index < length self.new.lines.items) }
        ensures kept { OnOk result (KeepsBefore index self.old.lines.items self.new.lines.items) }
    {
        if index < self.lines.len() {
            return Ok(());
        }
        self.lines.push(Line::new(self.alloc))?;
        Ok(())
    }

    /// Prints the name of the column with this index.
    fn print_name(
        &mut self,
        names: &mut NumberedNames,
        facts: &ColumnFacts<'_>,
        index: usize,
    ) -> Result<(), AllocError>
        requires within { index ≤ length self.old.lines.items }
        requires few { index + 1 < 2 ^ 64 }
        ensures kept { OnOk result (KeepsBefore index self.old.lines.items self.new.lines.items) }
        ensures printed { OnOk result (IsPrinted self.new.lines.items index (column_name (facts_of facts.now) index)) }
    {
        self.make_line(index)?;
        let line = &mut self.lines[index];
        line.clear();
        write_name(line, names, facts, index as u64)
    }

    /// Prints the names of these columns.
    pub(crate) fn print(
        &mut self,
        names: &mut NumberedNames,
        columns: &[ColumnFacts<'_>],
    ) -> Result<(), AllocError>
        ensures { OnOk result (ArePrinted columns.now self.new.lines.items) }
    {
        'columns: for (index, facts) in columns.iter().enumerate() {
            self.print_name(names, facts, index)?;
        }
        Ok(())
    }
}
