//! The names of a table.
ghost use Rattle.std.specs.Prelude.{◌≡◌, IfOk};
ghost use Rattle.change_statistics.specs.Facts.{Name};
ghost use Rattle.change_statistics.specs.Names.{name_of};

use std::alloc::{AllocError, Global};

/// The names of a database and of a table in it.
#[derive(Debug, PartialEq, Eq, Hash, Drop)]
pub struct TableName {
    /// The name of the database.
    pub database: Vec<u8>,
    /// The name of the table.
    pub table: Vec<u8>,
}

impl TableName {
    /// These names.
    ///
    /// # Errors
    ///
    /// [`AllocError`] if an allocation fails.
    pub(crate) fn new(alloc: Global, database: &[u8], table: &[u8]) -> Result<Self, AllocError>
        ensures { IfOk result (λ name. name_of name ≡ record { database = database.now; table = table.now }) }
    {
        Ok(TableName {
            database: database.to_vec(alloc)?,
            table: table.to_vec(alloc)?,
        })
    }
}
