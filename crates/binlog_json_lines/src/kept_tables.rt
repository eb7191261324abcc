//! What table maps state of their columns, kept from row event to row event.
ghost use Rattle.std.specs.Prelude.{◌≡◌, ◌<◌, None, Some, Ok, Err, map, IfOk, MatchResult};
ghost use Rattle.std.specs.Bool.{OnTrue};
ghost use Rattle.binlog_columns.specs.Columns.{typed_of};
ghost use Rattle.binlog_columns.specs.Refusals.{refusal, columns_in};
ghost use Rattle.binlog_columns.specs.TableColumns.{columns_of};
ghost use Rattle.binlog_json_values.specs.KeptColumns.{kept_facts};
ghost use Rattle.binlog_json_lines.specs.Stated.{AreStated};

use binlog_columns::{Column, ColumnError, TableColumns};
use binlog_json_values::KeptColumns;
use binlog_optional_metadata::{OptionalMetadataError, TableFacts, TableMapColumns};
use binlog_rows::TableMapEvent;
use std::alloc::{AllocError, Global};

/// At most how many tables are kept.
const PLACES: u64 = 16;

/// The columns, in memory, where each row is read by them.
pub(crate) fn collected(alloc: Global, columns: TableColumns<'_>) -> Result<Vec<Column>, AllocError>
    ensures { IfOk result (λ kept. map typed_of kept.items ≡ columns_of columns.entry) }
{
    let mut kept = Vec::with_capacity(alloc, columns.num_columns())?;
    'columns: for column in columns {
        kept.push(column).map_err(AllocError::from)?;
    }
    Ok(kept)
}

/// What this optional metadata states of these columns, in memory of its own, and why its first field is refused that is.
fn known_columns(
    alloc: Global,
    columns: TableColumns<'_>,
    optional_metadata: &[u8],
    is_maria_log: bool,
) -> Result<(KeptColumns, Option<OptionalMetadataError>), AllocError>
    ensures { IfOk result (λ known. AreStated is_maria_log (columns_of columns.entry) optional_metadata.now (kept_facts known.0) known.1) }
{
    let stated = TableFacts::new(alloc, columns, optional_metadata, is_maria_log)?;
    let known = KeptColumns::new(alloc, &stated.columns)?;
    Ok((known, stated.refusal))
}

/// The columns of a table and what its table map states of them, in memory of its own, with the bytes that say so.
#[derive(Drop)]
pub(crate) struct KeptTable {
    pub(crate) is_maria_log: bool,
    types: Vec<u8>,
    metadata: Vec<u8>,
    optional_metadata: Vec<u8>,
    /// The columns.
    pub(crate) columns: Vec<Column>,
    /// What is stated of them.
    pub(crate) known: KeptColumns,
    /// Why the first field of the optional metadata is refused that is.
    pub(crate) refused: Option<OptionalMetadataError>,
    ghost whole: { refusal 0 types.items metadata.items ≡ None },
    ghost typed: { map typed_of columns.items ≡ columns_in types.items metadata.items },
    ghost stated: { AreStated is_maria_log (columns_in types.items metadata.items) optional_metadata.items (kept_facts known) refused },
}

impl KeptTable {
    ghost use Rattle.binlog_json_lines.specs.KeptTables.{IsOf, GivesTable};

    /// What this table map, which has these columns, states of them. What is allocated is a copy of its bytes and of what they say.
    fn new(
        alloc: Global,
        table_map: &TableMapEvent<'_>,
        columns: TableColumns<'_>,
        is_maria_log: bool,
    ) -> Result<Self, AllocError>
        requires whole { refusal 0 table_map.now.columns.types table_map.now.columns.metadata ≡ None }
        requires columns { columns_of columns ≡ columns_in table_map.now.columns.types table_map.now.columns.metadata }
        ensures { IfOk result (λ table. IsOf table is_maria_log table_map.now) }
    {
        let optional_metadata = table_map.optional_metadata_raw();
        let (known, refused) = known_columns(alloc, columns, optional_metadata, is_maria_log)?;
        let read = collected(alloc, columns)?;
        let types = table_map.columns_type_raw();
        let kept_types = types.to_vec(alloc)?;
        let metadata = table_map.columns_metadata_raw();
        let kept_metadata = metadata.to_vec(alloc)?;
        let kept_optional = optional_metadata.to_vec(alloc)?;
        Ok(KeptTable {
            is_maria_log,
            types: kept_types,
            metadata: kept_metadata,
            optional_metadata: kept_optional,
            columns: read,
            known,
            refused,
        })
    }

    /// The same, unless the table map's columns are refused.
    fn of(
        alloc: Global,
        table_map: &TableMapEvent<'_>,
        is_maria_log: bool,
    ) -> Result<Result<Self, ColumnError>, AllocError>
        ensures { IfOk result (λ table. GivesTable table is_maria_log table_map.now) }
    {
        match table_map.table_columns() {
            Ok(columns) => {
                let table = KeptTable::new(alloc, table_map, columns, is_maria_log)?;
                Ok(Ok(table))
            }
            Err(error) => Ok(Err(error)),
        }
    }

    /// The optional metadata.
    pub(crate) fn optional_metadata_raw(&self) -> &[u8]
        ensures { result.now ≡ self.now.optional_metadata.items }
    {
        &self.optional_metadata
    }

    /// Whether the bytes are those of this table map, of a log that MariaDB wrote or not.
    fn is_of(&self, table_map: &TableMapEvent<'_>, is_maria_log: bool) -> bool
        ensures { OnTrue result (IsOf self.now is_maria_log table_map.now) }
    {
        self.is_maria_log == is_maria_log
            && self.types.as_slice() == table_map.columns_type_raw()
            && self.metadata.as_slice() == table_map.columns_metadata_raw()
            && self.optional_metadata.as_slice() == table_map.optional_metadata_raw()
    }
}

/// Tables that are kept: at most one for each remainder of their ids by [`PLACES`].
#[derive(Drop)]
pub(crate) struct KeptTables {
    tables: Vec<Option<KeptTable>>,
    /// The id of the last table in each place, kept or not; 0 before the first.
    last_ids: [u64; 16],
}

/// The place of a table.
fn place(table_id: u64) -> usize
    ensures { result < 16 }
{
    (table_id % PLACES) as usize
}

impl KeptTables {
    ghost use Rattle.binlog_json_lines.specs.KeptTables.{GivesTable};

    /// No tables yet. Nothing is allocated.
    pub(crate) fn new(alloc: Global) -> Self {
        KeptTables {
            tables: Vec::new(alloc),
            last_ids: [0; 16],
        }
    }

    /// Notes a row event of the table with this id. The result is whether the last one in the same place was of this table, too: only
    /// then is the table worth keeping. Of tables that take turns in a place each would be kept for nothing.
    pub(crate) fn is_repeated(&mut self, table_id: u64) -> bool {
        let index = place(table_id);
        let is_repeated = self.last_ids[index] == table_id;
        self.last_ids[index] = table_id;
        is_repeated
    }

    /// Takes the table in the place of this id, if one is kept there.
    fn remove(&mut self, table_id: u64) -> Option<KeptTable> {
        match self.tables.get_mut(place(table_id)) {
            Some(table) => table.take(),
            None => None,
        }
    }

    /// Takes what this table map states: what is kept, if the bytes are the same, or else it is read.
    ///
    /// # Errors
    ///
    /// [`AllocError`] if an allocation fails; otherwise why the table map's columns are refused.
    pub(crate) fn take(
        &mut self,
        alloc: Global,
        table_map: &TableMapEvent<'_>,
        is_maria_log: bool,
    ) -> Result<Result<KeptTable, ColumnError>, AllocError>
        ensures { IfOk result (λ table. GivesTable table is_maria_log table_map.now) }
    {
        match self.remove(table_map.table_id()) {
            Some(table) => {
                if table.is_of(table_map, is_maria_log) {
                    return Ok(Ok(table));
                }
                KeptTable::of(alloc, table_map, is_maria_log)
            }
            None => KeptTable::of(alloc, table_map, is_maria_log),
        }
    }

    /// Keeps this table in the place of its id, where another one is kept no longer.
    ///
    /// # Errors
    ///
    /// [`AllocError`] if an allocation fails.
    pub(crate) fn put(&mut self, table_id: u64, table: KeptTable) -> Result<(), AllocError> {
        for _place in self.tables.len()..PLACES as usize {
            self.tables.push(None)?;
        }
        if let Some(kept) = self.tables.get_mut(place(table_id)) {
            *kept = Some(table);
        }
        Ok(())
    }
}
