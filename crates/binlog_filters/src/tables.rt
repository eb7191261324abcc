//! Which tables an event is of.
ghost use Rattle.std.specs.Prelude.{◌≡◌, IfErr, IfOk};
ghost use Rattle.binlog_wire.specs.declared.error.Error.TheVariants.{Memory};
ghost use Rattle.binlog_file.specs.EventRefs.{view_of};
ghost use Rattle.binlog_file.specs.State.{state_of};
ghost use Rattle.binlog_filters.specs.Reading.{IsReadAs};
ghost use Rattle.binlog_filters.specs.Tables.{has_any, is_named, is_table_named, asks_for_database, asks_for_map, asks_for_table, frames_transaction, frame_concern, map_concern, rows_concern, statement_concern, query_concern, beside_concern, mysql_concern, maria_concern, data_concern, read_concern, any_table_concern, ReadsConcern};

use crate::concern::{Concern, RowsConcern};
use crate::pattern::Pattern;
use binlog_file::{
    Error, EventData, EventRef, EventStreamReader, LogEventData, TableMapEvent, read_log_data,
};
use binlog_mariadb::MariaEventData;
use binlog_statements::QueryEvent;
use std::alloc::Global;

/// A pattern of tables.
#[derive(Debug, Drop)]
pub struct TablePattern {
    /// The pattern of the database's name.
    pub database: Pattern,
    /// The pattern of the table's name.
    pub table: Pattern,
}

/// Which tables are asked for: those that each of the two conditions takes.
#[derive(Debug, Drop)]
pub struct TableFilter {
    /// Databases with one of these names; all if there are none.
    pub databases: Vec<Pattern>,
    /// Tables with one of these names; all if there are none. No statement is taken if there are some.
    pub tables: Vec<TablePattern>,
}

impl TableFilter {
    /// What the filter makes of an event. The reader has what is in force behind it.
    ///
    /// The only error is [`Error::Memory`], where the data of an event takes memory.
    pub fn concern(
        &self,
        alloc: Global,
        is_for_copy: bool,
        event: &EventRef<'_>,
        reader: &EventStreamReader,
    ) -> Result<Concern, Error>
        ensures ok { IfOk result (λ concern. ReadsConcern self.now is_for_copy (state_of reader.now).table_maps (view_of event.now) concern) }
        ensures memory { IfErr result (λ e. e ≡ Memory) }
    {
        let read = read_log_data(alloc, event);
        let answer = self.read_concern(is_for_copy, &read, reader);
        drop(read);
        answer
    }

    // What the filter makes of an event of which this was read. The only error is [`Error::Memory`]. An event whose data can't
    // be read is taken, so that no damage is hidden.
    fn read_concern(
        &self,
        is_for_copy: bool,
        read: &Result<Option<LogEventData<'_>>, Error>,
        reader: &EventStreamReader,
    ) -> Result<Concern, Error>
        ensures ok { IfOk result (λ concern. IsReadAs (read_concern self.now is_for_copy (state_of reader.now).table_maps) read.now concern) }
        ensures memory { IfErr result (λ e. e ≡ Memory) }
    {
        match read {
            Ok(Some(data)) => Ok(self.data_concern(is_for_copy, data, reader)),
            Ok(None) => Ok(any_table_concern(is_for_copy)),
            Err(Error::Memory) => Err(Error::Memory),
            Err(_) => Ok(Concern::Taken),
        }
    }

    // What the filter makes of an event with this data.
    fn data_concern(
        &self,
        is_for_copy: bool,
        data: &LogEventData<'_>,
        reader: &EventStreamReader,
    ) -> Concern
        ensures { result ≡ data_concern self.now is_for_copy (state_of reader.now).table_maps data.now }
    {
        match data {
            LogEventData::Mysql(data) => self.mysql_concern(is_for_copy, data, reader),
            LogEventData::Maria(data) => self.maria_concern(is_for_copy, data, reader),
        }
    }

    // The same for data of MySQL's types.
    fn mysql_concern(
        &self,
        is_for_copy: bool,
        data: &EventData<'_>,
        reader: &EventStreamReader,
    ) -> Concern
        ensures { result ≡ mysql_concern self.now is_for_copy (state_of reader.now).table_maps data.now }
    {
        match data {
            EventData::TableMapEvent(map) => self.map_concern(map),
            EventData::RowsEvent(rows) => {
                self.rows_concern(rows.table_id(), rows.event().flags_raw(), reader)
            }
            EventData::QueryEvent(query) => self.query_concern(is_for_copy, query),
            EventData::ExecuteLoadQueryEvent(query) => self.statement_concern(query.schema_raw()),
            EventData::IntvarEvent(_)
            | EventData::RandEvent(_)
            | EventData::UserVarEvent(_)
            | EventData::BeginLoadQueryEvent(_)
            | EventData::AppendBlockEvent(_)
            | EventData::DeleteFileEvent(_) => self.beside_concern(),
            EventData::RowsQueryEvent(_) => Concern::Other,
            EventData::LoadEvent(_)
            | EventData::NewLoadEvent(_)
            | EventData::CreateFileEvent(_)
            | EventData::ExecLoadEvent(_)
            | EventData::PreGaWriteRowsEvent(_)
            | EventData::PreGaUpdateRowsEvent(_)
            | EventData::PreGaDeleteRowsEvent(_)
            | EventData::TransactionPayloadEvent(_) => Concern::Unknown,
            EventData::IncidentEvent(_) | EventData::UnknownEvent => {
                any_table_concern(is_for_copy)
            }
            _ => frame_concern(is_for_copy),
        }
    }

    // The same for data of MariaDB's own types.
    fn maria_concern(
        &self,
        is_for_copy: bool,
        data: &MariaEventData<'_>,
        reader: &EventStreamReader,
    ) -> Concern
        ensures { result ≡ maria_concern self.now is_for_copy (state_of reader.now).table_maps data.now }
    {
        match data {
            MariaEventData::RowsCompressedEvent(rows) => {
                self.rows_concern(rows.table_id(), rows.flags_raw(), reader)
            }
            MariaEventData::QueryCompressedEvent(query) => {
                self.statement_concern(query.schema_raw())
            }
            MariaEventData::AnnotateRowsEvent(_) => Concern::Other,
            _ => frame_concern(is_for_copy),
        }
    }

    // The same for a table map.
    fn map_concern(&self, map: &TableMapEvent<'_>) -> Concern
        ensures { result ≡ map_concern self.now map.now }
    {
        if self.asks_for_map(map) {
            Concern::Taken
        } else {
            Concern::Other
        }
    }

    // The same for rows of the table with this id, in an event with these flags.
    fn rows_concern(&self, table_id: u64, flags: u16, reader: &EventStreamReader) -> Concern
        ensures { result ≡ rows_concern self.now (state_of reader.now).table_maps table_id flags }
    {
        let is_asked = match reader.get_tme(table_id) {
            Some(map) => Some(self.asks_for_map(map)),
            None => None,
        };
        Concern::Rows(RowsConcern {
            is_asked,
            ends_statement: flags % 2 == 1,
        })
    }

    // The same for a QUERY event.
    fn query_concern(&self, is_for_copy: bool, query: &QueryEvent<'_>) -> Concern
        ensures { result ≡ query_concern self.now is_for_copy query.now }
    {
        if frames_transaction(query.query_raw()) {
            frame_concern(is_for_copy)
        } else {
            self.statement_concern(query.schema_raw())
        }
    }

    // The same for a statement with this default database.
    fn statement_concern(&self, database: &[u8]) -> Concern
        ensures { result ≡ statement_concern self.now database.now }
    {
        if !self.tables.is_empty() {
            Concern::Unknown
        } else if self.asks_for_database(database) {
            Concern::Taken
        } else {
            Concern::Other
        }
    }

    // The same for an event that only goes with a statement.
    fn beside_concern(&self) -> Concern
        ensures { result ≡ beside_concern self.now }
    {
        if self.tables.is_empty() {
            Concern::Taken
        } else {
            Concern::Other
        }
    }

    /// Whether the table of a table map is asked for: both conditions take it.
    pub fn asks_for_map(&self, map: &TableMapEvent<'_>) -> bool
        ensures { result ≡ asks_for_map self.now map.now }
    {
        let database = map.database_name_raw();
        self.asks_for_database(database) && self.asks_for_table(database, map.table_name_raw())
    }

    // Whether one of the patterns of databases matches, or there are none.
    fn asks_for_database(&self, database: &[u8]) -> bool
        ensures { result ≡ asks_for_database self.now database.now }
    {
        self.databases.is_empty() || is_one_named(&self.databases, database)
    }

    // Whether one of the patterns of tables matches, or there are none.
    fn asks_for_table(&self, database: &[u8], table: &[u8]) -> bool
        ensures { result ≡ asks_for_table self.now database.now table.now }
    {
        self.tables.is_empty() || is_one_table(&self.tables, database, table)
    }
}

// Whether the name matches one of the patterns.
fn is_one_named(patterns: &[Pattern], name: &[u8]) -> bool
    ensures { result ≡ has_any (is_named name.now) patterns.now }
{
    let mut rest = patterns;
    while let Some((pattern, behind)) = rest.split_first() {
        if pattern.matches(name) {
            return true;
        }
        rest = behind;
    }
    false
}

// Whether the names match one of the patterns.
fn is_one_table(patterns: &[TablePattern], database: &[u8], table: &[u8]) -> bool
    ensures { result ≡ has_any (is_table_named database.now table.now) patterns.now }
{
    let mut rest = patterns;
    while let Some((pattern, behind)) = rest.split_first() {
        if pattern.database.matches(database) && pattern.table.matches(table) {
            return true;
        }
        rest = behind;
    }
    false
}

// What filters of tables make of an event of the log, or of the frame of a transaction: only a copy needs it.
fn frame_concern(is_for_copy: bool) -> Concern
    ensures { result ≡ frame_concern is_for_copy }
{
    if is_for_copy {
        Concern::Taken
    } else {
        Concern::Other
    }
}

// What they make of an event that may change any table: one that says that events are lost, or one of an unknown type. A copy has it.
fn any_table_concern(is_for_copy: bool) -> Concern
    ensures { result ≡ any_table_concern is_for_copy }
{
    if is_for_copy {
        Concern::Taken
    } else {
        Concern::Unknown
    }
}

// Whether a statement begins or ends a transaction or a part of it, as servers write it.
fn frames_transaction(text: &[u8]) -> bool
    ensures { result ≡ frames_transaction text.now }
{
    text.starts_with(b"BEGIN")
        || text.starts_with(b"COMMIT")
        || text.starts_with(b"ROLLBACK")
        || text.starts_with(b"SAVEPOINT ")
        || text.starts_with(b"RELEASE SAVEPOINT ")
        || text.starts_with(b"XA ")
}
