//! What is known of the changes behind what is undone.
ghost use Rattle.std.specs.Prelude.{◌≡◌, map};
ghost use Rattle.binlog_later_changes.specs.Changes.{IsNew, changes_found};
ghost use Rattle.binlog_later_changes.specs.Tables.{change_of};

use crate::later_change::LaterChange;
use crate::later_tables::LaterTables;
use crate::rows_left::RowsLeft;
use std::alloc::Global;

/// The tables of which rows are undone so far, the rows that were left behind if that is asked for, and the first event behind that of each table
/// that may be in the way. Memory is taken for the names of these tables, and for the rows that were left behind.
#[derive(Drop)]
pub struct LaterChanges {
    pub(crate) tables: LaterTables,
    pub(crate) rows: RowsLeft,
}

impl LaterChanges {
    /// No table. Nothing is allocated.
    pub fn new(alloc: Global) -> Self
        ensures { IsNew result }
    {
        LaterChanges {
            tables: LaterTables::new(alloc),
            rows: RowsLeft::new(alloc),
        }
    }

    /// What was found, in order.
    pub fn found(&self) -> &[LaterChange]
        ensures { map change_of result.now ≡ changes_found self.now }
    {
        self.tables.found()
    }
}
