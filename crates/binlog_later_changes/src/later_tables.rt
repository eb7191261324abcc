//! The tables of which rows are undone, and what is behind that.
ghost use Rattle.std.specs.Prelude.{◌≡◌, ◌∷◌, [], map, IfOk, OnOk};
ghost use Rattle.change_statistics.specs.Names.{name_of};
ghost use Rattle.binlog_later_changes.specs.Later.{What, undone, other, table, unknown};
ghost use Rattle.binlog_later_changes.specs.Tables.{change_of, found_in, known_of, Puts, Finds, Grows, Holds};

use crate::later_change::{EventPlace, LaterChange, LaterReason};
use binlog_undo_index::Reason;
use change_statistics::TableName;
use indexmap::IndexMap;
use std::alloc::{AllocError, Global};

/// The tables of which rows are undone so far, and the first event behind that of each that may be in the way. Memory is taken for the names of
/// these tables alone.
pub(crate) struct LaterTables {
    alloc: Global,
    // Whether a later change of the table was found.
    tables: IndexMap<TableName, bool>,
    // Whether rows of a table are undone.
    has_undone: bool,
    // Whether an event that may change any table was found.
    has_unknown: bool,
    found: Vec<LaterChange>,
}

impl Drop for LaterTables {
    // By hand, so that it is proved here and not again in each crate that owns later changes.
    fn drop(self) {
        let Self {
            alloc: _,
            tables,
            has_undone: _,
            has_unknown: _,
            found,
        } = self;
        drop(tables);
        drop(found);
    }
}

impl LaterTables {
    /// No table. Nothing is allocated.
    pub(crate) fn new(alloc: Global) -> Self
        ensures { Holds [] result }
    {
        LaterTables {
            alloc,
            tables: IndexMap::new(alloc),
            has_undone: false,
            has_unknown: false,
            found: Vec::new(alloc),
        }
    }

    /// What was found, in order.
    pub(crate) fn found(&self) -> &[LaterChange]
        ensures { map change_of result.now ≡ found_in self.now }
    {
        self.found.as_slice()
    }

    // Whether a later change of the table was found, if rows of it are undone.
    fn known(&self, name: &TableName) -> Option<bool>
        ensures { result ≡ known_of self.now (name_of name.now) }
    {
        match self.tables.get(name) {
            Some(is_found) => Some(*is_found),
            None => None,
        }
    }

    // Rows of the table are undone, and a later change of it was found or not.
    fn put(&mut self, name: TableName, is_found: bool) -> Result<(), AllocError>
        ensures { OnOk result (Puts (name_of name) is_found self.old self.new) }
    {
        self.tables.insert(name, is_found)?;
        Ok(())
    }

    /// Rows of this table are undone.
    pub(crate) fn undo(&mut self, name: TableName) -> Result<(), AllocError>
        ensures { OnOk result ((event : EventPlace) → Grows (record { event = event; what = undone (name_of name) } ∷ []) self.old self.new) }
    {
        self.has_undone = true;
        match self.known(&name) {
            Some(_) => Ok(()),
            None => self.put(name, false),
        }
    }

    /// An event that isn't undone has rows of this table.
    pub(crate) fn change(&mut self, event: EventPlace, name: TableName) -> Result<(), AllocError>
        ensures { OnOk result (Grows (record { event = event; what = other (table (name_of name)) } ∷ []) self.old self.new) }
    {
        match self.known(&name) {
            Some(is_found) => {
                if is_found {
                    Ok(())
                } else {
                    self.find(event, name)
                }
            }
            None => Ok(()),
        }
    }

    // The first later change of this table.
    fn find(&mut self, event: EventPlace, name: TableName) -> Result<(), AllocError>
        ensures { OnOk result (Finds (name_of name) event self.old self.new) }
    {
        let reason = LaterReason::Table(copy_of(self.alloc, &name)?);
        self.put(name, true)?;
        self.found.push(LaterChange { event, reason })?;
        Ok(())
    }

    /// An event that isn't undone may change any table, for this reason.
    pub(crate) fn change_any(&mut self, event: EventPlace, reason: Reason) -> Result<(), AllocError>
        ensures { OnOk result (Grows (record { event = event; what = other (unknown reason) } ∷ []) self.old self.new) }
    {
        if self.has_unknown || !self.has_undone {
            return Ok(());
        }
        self.has_unknown = true;
        let reason = LaterReason::Unknown(reason);
        self.found.push(LaterChange { event, reason })?;
        Ok(())
    }
}

/// The same names.
pub(crate) fn copy_of(alloc: Global, name: &TableName) -> Result<TableName, AllocError>
    ensures { IfOk result (λ copy. name_of copy ≡ name_of name.now) }
{
    let database = name.database.as_slice();
    let table = name.table.as_slice();
    Ok(TableName {
        database: database.to_vec(alloc)?,
        table: table.to_vec(alloc)?,
    })
}
