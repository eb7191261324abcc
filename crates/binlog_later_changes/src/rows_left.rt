//! The rows that undone changes have left behind.
ghost use Rattle.std.specs.Prelude.{◌≡◌, map, option_map, OnOk, Some};
ghost use Rattle.change_statistics.specs.Names.{name_of};
ghost use Rattle.binlog_later_changes.specs.KeyedRows.{code_of, keys_in};
ghost use Rattle.binlog_later_changes.specs.RowsLeft.{LeavesKeys, NotesTable, Sets, SetsAll, SetsCount, SetsKeys, SetsTable, count_of, is_apart_by, is_known_table, left_of, lowered, nothing_left, raised, removes_key, tables_of};

use crate::known_rows::KeyedRow;
use crate::later_tables::copy_of;
use crate::row_key::RowKey;
use change_statistics::TableName;
use indexmap::IndexMap;
use std::alloc::{AllocError, Global};

/// The rows that undone changes have left behind. Memory is taken for each of these rows once, and for the names of the tables of which rows are
/// undone.
pub(crate) struct RowsLeft {
    alloc: Global,
    // How often each row was left behind, if it was.
    counts: IndexMap<RowKey, u64>,
    // Of each table of which rows are undone, whether rows of some of these events aren't known.
    tables: IndexMap<TableName, bool>,
}

impl Drop for RowsLeft {
    // By hand, so that it is proved here and not again in each crate that owns later changes.
    fn drop(self) {
        let Self {
            alloc: _,
            counts,
            tables,
        } = self;
        drop(counts);
        drop(tables);
    }
}

impl RowsLeft {
    /// None. Nothing is allocated.
    #[tactic(auto, using(crate::proofs::RowsLeft::none_yet))]
    pub(crate) fn new(alloc: Global) -> Self
        ensures { left_of result ≡ nothing_left }
    {
        RowsLeft {
            alloc,
            counts: IndexMap::new(alloc),
            tables: IndexMap::new(alloc),
        }
    }

    // How often this row was left behind.
    fn count(&self, key: &RowKey) -> u64
        ensures { result ≡ count_of self.now (code_of key.now) }
    {
        match self.counts.get(key) {
            Some(count) => *count,
            None => 0,
        }
    }

    // This row wasn't left behind.
    fn remove(&mut self, key: &RowKey)
        ensures counts { SetsCount (code_of key.now) 0 (count_of self.old) (count_of self.new) }
        ensures tables { self.new.tables ≡ self.old.tables }
    {
        self.counts.swap_remove(key);
    }

    // This row was left behind so often.
    fn put(&mut self, key: RowKey, count: u64) -> Result<(), AllocError>
        ensures counts { OnOk result (SetsCount (code_of key) count (count_of self.old) (count_of self.new)) }
        ensures tables { self.new.tables ≡ self.old.tables }
    {
        self.counts.insert(key, count)?;
        Ok(())
    }

    // A row is removed, if there is one.
    #[tactic(auto, using(crate::proofs::RowsLeft::lowered_last, crate::proofs::RowsLeft::lowered_more))]
    fn lower(&mut self, key: Option<RowKey>) -> Result<(), AllocError>
        ensures counts { OnOk result (Sets lowered (option_map code_of key) (count_of self.old) (count_of self.new)) }
        ensures tables { self.new.tables ≡ self.old.tables }
    {
        let Some(key) = key else {
            return Ok(());
        };
        let count = self.count(&key);
        if count < 2 {
            self.remove(&key);
            return Ok(());
        }
        self.put(key, count - 1)
    }

    // A row is added, if there is one.
    #[tactic(auto, using(crate::proofs::RowsLeft::raised_more))]
    fn raise(&mut self, key: Option<RowKey>) -> Result<(), AllocError>
        ensures counts { OnOk result (Sets raised (option_map code_of key) (count_of self.old) (count_of self.new)) }
        ensures tables { self.new.tables ≡ self.old.tables }
    {
        let Some(key) = key else {
            return Ok(());
        };
        let Some(count) = self.count(&key).checked_add(1) else {
            return Err(AllocError);
        };
        self.put(key, count)
    }

    // The change of a row is undone.
    #[tactic(auto, using(crate::proofs::RowsLeft::row_undone))]
    fn undo_row(&mut self, row: KeyedRow) -> Result<(), AllocError>
        ensures counts { OnOk result (SetsKeys (keys_in row) (count_of self.old) (count_of self.new)) }
        ensures tables { self.new.tables ≡ self.old.tables }
    {
        self.lower(row.removed)?;
        self.raise(row.added)
    }

    // The changes of rows are undone.
    fn undo_rows(&mut self, rows: Vec<KeyedRow>) -> Result<(), AllocError>
        ensures counts { OnOk result (SetsAll (map keys_in rows.items) (count_of self.old) (count_of self.new)) }
        ensures tables { self.new.tables ≡ self.old.tables }
    {
        let mut left = rows;
        left.reverse();
        'rows: while let Some(row) = left.pop() {
            self.undo_row(row)?;
        }
        Ok(())
    }

    // Whether rows of some of the events of the table aren't known, if rows of it are undone.
    fn table(&self, name: &TableName) -> Option<bool>
        ensures { result ≡ tables_of self.now (name_of name.now) }
    {
        match self.tables.get(name) {
            Some(is_unknown) => Some(*is_unknown),
            None => None,
        }
    }

    // Rows of the table are undone.
    #[tactic(auto, using(crate::proofs::RowsLeft::table_first))]
    fn put_table(&mut self, name: &TableName, is_unknown: bool) -> Result<(), AllocError>
        ensures counts { self.new.counts ≡ self.old.counts }
        ensures tables { OnOk result (NotesTable (name_of name.now) is_unknown (tables_of self.old) (tables_of self.new)) }
    {
        match self.table(name) {
            Some(was_unknown) => self.change_table(name, was_unknown, is_unknown),
            None => self.insert_table(name, is_unknown),
        }
    }

    // The same of a table of which rows are undone already.
    #[tactic(auto, using(crate::proofs::RowsLeft::table_again, crate::proofs::RowsLeft::table_unknown))]
    fn change_table(
        &mut self,
        name: &TableName,
        was_unknown: bool,
        is_unknown: bool,
    ) -> Result<(), AllocError>
        requires { tables_of self.old (name_of name.now) ≡ Some was_unknown }
        ensures counts { self.new.counts ≡ self.old.counts }
        ensures tables { OnOk result (NotesTable (name_of name.now) is_unknown (tables_of self.old) (tables_of self.new)) }
    {
        if was_unknown {
            return Ok(());
        }
        if is_unknown {
            return self.insert_table(name, true);
        }
        Ok(())
    }

    // Notes this of a table.
    fn insert_table(&mut self, name: &TableName, is_unknown: bool) -> Result<(), AllocError>
        ensures counts { self.new.counts ≡ self.old.counts }
        ensures tables { OnOk result (SetsTable (name_of name.now) is_unknown (tables_of self.old) (tables_of self.new)) }
    {
        let own = copy_of(self.alloc, name)?;
        self.tables.insert(own, is_unknown)?;
        Ok(())
    }

    /// Rows of this table are undone; None if they aren't known.
    ///
    /// # Errors
    ///
    /// [`AllocError`] if memory is refused, or if one row was left behind 2^64 times.
    pub(crate) fn undo(
        &mut self,
        name: &TableName,
        rows: Option<Vec<KeyedRow>>,
    ) -> Result<(), AllocError>
        ensures { OnOk result (LeavesKeys (name_of name.now) (option_map (map keys_in) (option_map (λ rows. rows.items) rows)) self.old self.new) }
    {
        match rows {
            Some(rows) => {
                self.undo_rows(rows)?;
                self.put_table(name, false)
            }
            None => self.put_table(name, true),
        }
    }

    // Whether this row was left behind before it was removed.
    fn removes(&self, row: &KeyedRow) -> bool
        ensures { result ≡ removes_key (count_of self.now) (keys_in row.now) }
    {
        match &row.removed {
            Some(key) => self.count(key) > 0,
            None => false,
        }
    }

    // Whether none of these changes removes a row that was left behind.
    #[tactic(auto, using(crate::proofs::RowsLeft::removes_next, crate::proofs::RowsLeft::removes_here, crate::proofs::RowsLeft::removes_none))]
    fn are_apart(&self, rows: &[KeyedRow]) -> bool
        ensures { result ≡ is_apart_by (count_of self.now) (Some (map keys_in rows.now)) }
    {
        let mut left = rows;
        'rows: while let Some((row, others)) = left.split_first() {
            if self.removes(row) {
                return false;
            }
            left = others;
        }
        true
    }

    /// Whether the rows are known, and none of these changes removes a row that was left behind.
    pub(crate) fn is_apart(&self, rows: Option<Vec<KeyedRow>>) -> bool
        ensures { result ≡ is_apart_by (count_of self.now) (option_map (map keys_in) (option_map (λ rows. rows.items) rows)) }
    {
        match rows {
            Some(rows) => self.are_apart(rows.as_slice()),
            None => false,
        }
    }

    /// Whether rows of the table are undone, and those of all of its undone events are known.
    pub(crate) fn knows(&self, name: &TableName) -> bool
        ensures { result ≡ is_known_table (tables_of self.now (name_of name.now)) }
    {
        match self.table(name) {
            Some(is_unknown) => !is_unknown,
            None => false,
        }
    }
}
