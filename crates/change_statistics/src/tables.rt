//! Statistics by table.
ghost use Rattle.std.specs.Prelude.{◌≡◌, ◌⊎◌, false, nat_lt, OnOk, OnErr};
ghost use Rattle.std.specs.Ordering.{is_lt};
ghost use Rattle.change_statistics.specs.Facts.{name_in};
ghost use Rattle.change_statistics.specs.Tables.{counts_named, AreEmpty, AreSame, AddsRows, HasNoRoom, Puts};
ghost use Rattle.change_statistics.specs.SortedTables.{AreSorted, AreInOrder, AreDistinct, KeepsOthers};
ghost use Rattle.std.specs.List.Sorted.{IsPermutation};
ghost use Rattle.change_statistics.specs.Names.{name_of};

use crate::counts::Counts;
use crate::facts::{Change, EventFacts, TableChange};
use crate::table_counts::{TableCounts, UnknownRows, counted_if};
use crate::table_name::TableName;
use indexmap::IndexMap;
use std::alloc::{AllocError, Global};
use std::cmp::Ordering;

/// The greatest number of tables that are counted.
pub const MAX_TABLES: usize = 65_536;

/// Counts the changes of each table. Memory is taken for each table once, and none for a transaction.
#[derive(Drop)]
pub struct TableStats {
    alloc: Global,
    /// The counts of the tables, in the order of their first row events.
    pub tables: IndexMap<TableName, TableCounts>,
    /// The number of transactions.
    pub transactions: u64,
    /// Events that may have rows, of tables that aren't known.
    pub unknown: UnknownRows,
    /// Whether an event had rows of one table more than [`MAX_TABLES`]. Neither that event is counted nor those behind it.
    pub is_full: bool,
}

impl TableStats {
    /// Nothing is counted, and nothing is allocated.
    pub fn new(alloc: Global) -> Self
        ensures { AreEmpty result }
    {
        TableStats {
            alloc,
            tables: IndexMap::new(alloc),
            transactions: 0,
            unknown: UnknownRows::none(),
            is_full: false,
        }
    }

    /// Sorts the tables: those with most bytes first, and those with equally many in the order that they have.
    ///
    /// # Errors
    ///
    /// [`AllocError`] if an allocation fails. Nothing changes then.
    pub fn sort_by_bytes(&mut self) -> Result<(), AllocError>
        ensures sorted { OnOk result (AreSorted self.new.tables.entries) }
        ensures stable { AreInOrder self.old.tables.entries self.new.tables.entries }
        ensures all { IsPermutation self.old.tables.entries self.new.tables.entries }
        ensures names { AreDistinct self.new.tables.entries }
        ensures others { KeepsOthers self.old self.new }
        ensures err { OnErr result (AreSame self.old self.new) }
    {
        self.tables.sort_by(
            |_name: &TableName, a: &TableCounts, _other: &TableName, b: &TableCounts| -> Ordering
                ensures { is_lt result ≡ nat_lt b.now.bytes a.now.bytes }
            { b.bytes.cmp(&a.bytes) },
        )?;
        Ok(())
    }

    // Counts a row event.
    fn add_rows(
        &mut self,
        transaction: u64,
        bytes: u64,
        time: u32,
        change: &TableChange<'_>,
    ) -> Result<(), AllocError>
        requires { self.old.is_full ≡ false }
        ensures ok { OnOk result (AddsRows self.old transaction bytes time (name_in change.now) change.now.kind change.now.count self.new ⊎ HasNoRoom self.old (name_in change.now) self.new) }
        ensures err { OnErr result (AreSame self.old self.new) }
    {
        let name = TableName::new(self.alloc, change.database, change.table)?;
        let known = self.counts_of(&name);
        if known.is_none() && self.tables.len() >= MAX_TABLES {
            self.is_full = true;
            return Ok(());
        }
        let counts = known
            .unwrap_or(TableCounts::none())
            .with_rows(transaction, bytes, time, change);
        self.put(name, counts)?;
        self.transactions = transaction;
        Ok(())
    }

    // The counts of a table, if it has some.
    fn counts_of(&self, name: &TableName) -> Option<TableCounts>
        ensures { result ≡ counts_named self.now (name_of name.now) }
    {
        match self.tables.get(name) {
            Some(counts) => Some(*counts),
            None => None,
        }
    }

    // Gives a table these counts.
    fn put(&mut self, name: TableName, counts: TableCounts) -> Result<(), AllocError>
        ensures ok { OnOk result (Puts self.old (name_of name) counts self.new) }
        ensures err { OnErr result (AreSame self.old self.new) }
    {
        self.tables.insert(name, counts)?;
        Ok(())
    }
}

/// If an event has rows of one table more than [`MAX_TABLES`], that is noted, and it isn't counted.
impl Counts for TableStats {
    ghost use Rattle.change_statistics.specs.Tables.{Adds, AreSame};

    ghost adds = { Adds };

    ghost keeps = { AreSame };

    fn add(&mut self, event: &EventFacts<'_>) -> Result<(), AllocError> {
        if self.is_full {
            return Ok(());
        }
        let transactions = counted_if(event.begins_transaction, self.transactions);
        match &event.change {
            Change::Rows(change) => self.add_rows(transactions, event.size, event.time, change),
            Change::Unknown => {
                self.unknown = self.unknown.with_event(event.size);
                self.transactions = transactions;
                Ok(())
            }
            Change::Nothing => {
                self.transactions = transactions;
                Ok(())
            }
        }
    }
}
