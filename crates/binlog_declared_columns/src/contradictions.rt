//! The tables that contradict files of columns.
ghost use Rattle.std.specs.Prelude.{◌≡◌, [], OnOk};
ghost use Rattle.binlog_declared_columns.specs.Contradictions.{NotesColumn};

use std::alloc::{AllocError, Global};
use std::collections::BTreeMap;
use std::collections::btree_map::Iter;

/// Tables whose table maps contradict the file that declares their columns: each once, with the first column of the first table map.
#[derive(Debug, Drop)]
pub struct Contradictions {
    alloc: Global,
    columns: BTreeMap<(Vec<u8>, Vec<u8>), usize>,
}

impl Contradictions {
    /// No tables. Nothing is allocated.
    pub fn new(alloc: Global) -> Self
        ensures { result.columns.entries ≡ [] }
    {
        Contradictions {
            alloc,
            columns: BTreeMap::new(alloc),
        }
    }

    /// Adds the table with these names, of which the column with this index contradicts its file, unless it is there.
    ///
    /// # Errors
    ///
    /// [`AllocError`] if an allocation fails.
    pub fn note(&mut self, schema: &[u8], table: &[u8], column: usize) -> Result<(), AllocError>
        ensures { OnOk result (NotesColumn self.old self.new schema.now table.now column) }
    {
        let name = (schema.to_vec(self.alloc)?, table.to_vec(self.alloc)?);
        if !self.columns.contains_key(&name) {
            self.columns.insert(name, column)?;
        }
        Ok(())
    }

    /// The tables by the names of schema and table, in ascending order, each with the index of its column.
    pub fn iter(&self) -> Iter<'_, (Vec<u8>, Vec<u8>), usize>
        ensures { result ≡ self.now.columns.entries }
    {
        self.columns.iter()
    }
}
