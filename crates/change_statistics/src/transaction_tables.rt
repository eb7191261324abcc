//! What is counted of the tables of a transaction.
ghost use Rattle.std.specs.Prelude.{◌≡◌, false, length, slice_get, option_map, OnOk, OnErr};
ghost use Rattle.std.specs.Map.{lookup};
ghost use Rattle.indexmap.specs.IndexMap.{insert_entry};
ghost use Rattle.change_statistics.specs.Facts.{fact_of, name_in};
ghost use Rattle.change_statistics.specs.Names.{name_of, name_eq};
ghost use Rattle.change_statistics.specs.TransactionTables.{no_tables, with_rows, with_tables};

use crate::event_counts::EventCounts;
use crate::facts::{Change, EventFacts, TableChange};
use crate::table_name::TableName;
use crate::tables::MAX_TABLES;
use indexmap::IndexMap;
use std::alloc::{AllocError, Global};
use std::marker::Model;

/// What is counted of the row events of a transaction, by table. Memory is taken for each table once.
#[derive(Drop)]
pub struct TransactionTables {
    alloc: Global,
    // In the order of the first row events.
    counts: IndexMap<TableName, EventCounts>,
    is_full: bool,
}

impl Model for TransactionTables {
    ghost use Rattle.change_statistics.specs.SeenTables.{SeenTables, named_entries};

    ghost Value = { SeenTables };

    ghost view = { λ tables. record { entries = named_entries tables.counts.entries; is_full = tables.is_full } };
}

impl TransactionTables {
    /// Nothing is counted, and nothing is allocated.
    pub(crate) fn new(alloc: Global) -> Self
        ensures { result ≡ no_tables }
    {
        TransactionTables {
            alloc,
            counts: IndexMap::new(alloc),
            is_full: false,
        }
    }

    /// Whether an event had rows of one table more than [`MAX_TABLES`]. Neither the rows of that event are counted nor those behind it.
    pub fn is_full(&self) -> bool
        ensures { result ≡ self.now.is_full }
    {
        self.is_full
    }

    /// The number of the tables.
    pub fn count(&self) -> usize
        ensures { result ≡ length self.now.entries }
    {
        self.counts.len()
    }

    /// The table at this place, and what is counted of its row events; None if there are no more. The tables are in the order of their
    /// first row events.
    pub fn get_index(&self, index: usize) -> Option<(&TableName, &EventCounts)>
        ensures { option_map (λ row. (name_of row.0.now, row.1.now)) result ≡ slice_get self.now.entries index }
    {
        self.counts.get_index(index)
    }

    /// Counts an event, if it has rows of a table.
    ///
    /// # Errors
    ///
    /// [`AllocError`] if an allocation fails for a table. Nothing is counted then.
    pub(crate) fn add(&mut self, event: &EventFacts<'_>) -> Result<(), AllocError>
        ensures ok { OnOk result (self.new ≡ with_tables self.old (fact_of event.now)) }
        ensures err { OnErr result (self.new ≡ self.old) }
    {
        match &event.change {
            Change::Rows(change) => self.add_rows(event, change),
            Change::Nothing | Change::Unknown => Ok(()),
        }
    }

    // Counts an event with these rows.
    fn add_rows(
        &mut self,
        event: &EventFacts<'_>,
        change: &TableChange<'_>,
    ) -> Result<(), AllocError>
        ensures ok { OnOk result (self.new ≡ with_rows self.old (name_in change.now) (fact_of event.now)) }
        ensures err { OnErr result (self.new ≡ self.old) }
    {
        if self.is_full {
            return Ok(());
        }
        let name = TableName::new(self.alloc, change.database, change.table)?;
        let known = self.counts_of(&name);
        if known.is_none() && self.counts.len() >= MAX_TABLES {
            self.is_full = true;
            return Ok(());
        }
        let counts = known
            .unwrap_or(EventCounts::none())
            .with_event(event.size, event);
        self.put(name, counts)
    }

    // The counts of a table, if it has some.
    fn counts_of(&self, name: &TableName) -> Option<EventCounts>
        ensures { result ≡ lookup (name_eq (name_of name.now)) self.now.entries }
    {
        self.counts.get(name).copied()
    }

    // Gives a table these counts.
    fn put(&mut self, name: TableName, counts: EventCounts) -> Result<(), AllocError>
        ensures ok { OnOk result (self.new ≡ record self.old { entries = insert_entry name_eq self.old.entries (name_of name) counts }) }
        ensures err { OnErr result (self.new ≡ self.old) }
    {
        self.counts.insert(name, counts)?;
        Ok(())
    }
}
