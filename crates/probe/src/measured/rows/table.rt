//! The columns of the last table map.
use binlog_columns::{Column, TableColumns};
use binlog_file::{Error, EventRef, TableMapEvent};
use std::alloc::Global;

/// The columns of the last table map, in memory that is reused for the next one.
#[derive(Drop)]
pub(crate) struct Table {
    /// The table map's id. None if there was none, or its columns were refused.
    id: Option<u64>,
    columns: Vec<Column>,
}

impl Table {
    /// No table. No memory is allocated.
    pub(crate) fn new(alloc: Global) -> Self {
        Table {
            id: None,
            columns: Vec::new(alloc),
        }
    }

    /// Keeps the columns of the table map that an event is.
    pub(crate) fn keep(&mut self, alloc: Global, event: EventRef<'_>) -> Result<(), Error> {
        let table_map: TableMapEvent<'_> = event.read_event(alloc)?;
        self.keep_columns(&table_map)
    }

    fn keep_columns(&mut self, table_map: &TableMapEvent<'_>) -> Result<(), Error> {
        self.id = None;
        self.columns.clear();
        let types = table_map.columns_type_raw();
        let Ok(columns) = TableColumns::new(types, table_map.columns_metadata_raw()) else {
            return Ok(());
        };
        for column in columns {
            if self.columns.push(column).is_err() {
                return Err(Error::Memory);
            }
        }
        self.id = Some(table_map.table_id());
        Ok(())
    }

    /// The columns, if they are those of the table with this id.
    pub(crate) fn columns_of(&self, id: u64) -> Option<TableColumns<'_>> {
        if self.id == Some(id) {
            Some(TableColumns::known(&self.columns))
        } else {
            None
        }
    }
}
