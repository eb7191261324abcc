//! Which rows an event has.
ghost use Rattle.std.specs.Prelude.{◌≡◌, Some, None, Ok, Err, option_and_then, option_copied, IfErr, IfOk};
ghost use Rattle.binlog_wire.specs.declared.error.Error.TheVariants.{Memory};
ghost use Rattle.binlog_events.specs.EventRefs.{view_of};
ghost use Rattle.binlog_event_data.specs.declared.event_data.EventData.TheVariants.{RowsEvent};
ghost use Rattle.binlog_file.specs.LogData.{ReadsLogData};
ghost use Rattle.binlog_file.specs.State.{state_of};
ghost use Rattle.binlog_file.specs.declared.log_data.LogEventData.TheVariants.{Mysql};
ghost use Rattle.binlog_rows.specs.RowsData.{event_in};
ghost use Rattle.binlog_statistics.specs.CompressedRows.{ReadsCompressed};
ghost use Rattle.binlog_payload_visits.specs.PartMaps.{maps_of};
ghost use Rattle.binlog_statistics.specs.Found.{may_have_rows, kind_by, table_id_in, IsMappedStoredCount, IsFoundStored, IsFound, FindsMappedRows, FindsRows};

use crate::compressed_rows::stored_rows_in;
use crate::row_count::rows_in;
use binlog_file::{
    Error, EventData, EventRef, EventStreamReader, LogEventData, RowsEventData, read_log_data,
};
use binlog_mariadb::{MariaEventData, RowsCompressedEvent};
use binlog_payload_visits::PartTableMaps;
use binlog_rows::TableMapEvent;
use change_statistics::ChangeKind;
use std::alloc::Global;

/// The rows of an event.
#[derive(Clone, Copy, Debug)]
pub struct ChangedRows {
    /// The table id, by which the table map in force is found.
    pub table_id: u64,
    /// How they change the table.
    pub kind: ChangeKind,
    /// Their number; an updated row is one row. Rows that are compressed are uncompressed. None if they can't be read: no table map is in
    /// force for the table id, the event has another number of columns, the bytes are refused as rows, or they can't be uncompressed to
    /// at most 1 GiB.
    pub count: Option<u64>,
}

/// What an event says of rows.
#[derive(Clone, Copy, Debug)]
pub enum RowsFound {
    /// It is no event with rows. The rows of a compressed transaction are those of the events in it.
    Other,
    /// It may have rows, and can't be read: its body is refused, or its type is one of MySQL's before 5.1, whose bodies are kept as bytes.
    Unreadable,
    /// It has rows.
    Rows(ChangedRows),
}

/// What an event says of rows. The reader has what is in force behind it: the table map of its table id.
///
/// The only error is [`Error::Memory`], where the data of an event takes memory, or its rows are uncompressed.
pub fn find_rows(
    alloc: Global,
    event: &EventRef<'_>,
    reader: &EventStreamReader,
) -> Result<RowsFound, Error>
    ensures ok { IfOk result (λ found. FindsRows (state_of reader.now).table_maps (view_of event.now) found) }
    ensures memory { IfErr result (λ e. e ≡ Memory) }
{
    if !may_have_rows(event.header().event_type_raw()) {
        return Ok(RowsFound::Other);
    }
    let read = read_log_data(alloc, event);
    let map = outside_map(&read, reader);
    let answer = read_rows(alloc, event, &read, map);
    drop(read);
    answer
}

/// What an event inside a compressed transaction says of rows. The table maps are those in force behind it.
///
/// The only error is [`Error::Memory`], as that of [`find_rows`].
pub fn find_part_rows(
    alloc: Global,
    event: &EventRef<'_>,
    maps: &PartTableMaps<'_>,
) -> Result<RowsFound, Error>
    ensures ok { IfOk result (λ found. FindsRows (maps_of maps.now) (view_of event.now) found) }
    ensures memory { IfErr result (λ e. e ≡ Memory) }
{
    if !may_have_rows(event.header().event_type_raw()) {
        return Ok(RowsFound::Other);
    }
    let read = read_log_data(alloc, event);
    let map = inside_map(&read, maps);
    let answer = read_rows(alloc, event, &read, map);
    drop(read);
    answer
}

/// What an event says of rows, by this table map.
///
/// The only error is [`Error::Memory`], as that of [`find_rows`].
pub(crate) fn find_mapped_rows(
    alloc: Global,
    event: &EventRef<'_>,
    table_map: &TableMapEvent<'_>,
) -> Result<RowsFound, Error>
    ensures ok { IfOk result (λ found. FindsMappedRows table_map.now (view_of event.now) found) }
    ensures memory { IfErr result (λ e. e ≡ Memory) }
{
    let read = read_log_data(alloc, event);
    let answer = read_rows(alloc, event, &read, Some(table_map));
    drop(read);
    answer
}

// The table map in force for what was read of an event.
fn outside_map<'a>(
    read: &Result<Option<LogEventData<'_>>, Error>,
    reader: &'a EventStreamReader,
) -> Option<&'a TableMapEvent<'static>>
    ensures { option_copied result ≡ option_and_then (state_of reader.now).table_maps (table_id_in read.now) }
{
    match table_id_in(read) {
        Some(table_id) => reader.get_tme(table_id),
        None => None,
    }
}

// The same inside a compressed transaction.
fn inside_map<'a, 'c>(
    read: &Result<Option<LogEventData<'_>>, Error>,
    maps: &'a PartTableMaps<'c>,
) -> Option<&'a TableMapEvent<'c>>
    ensures { option_copied result ≡ option_and_then (maps_of maps.now) (table_id_in read.now) }
{
    match table_id_in(read) {
        Some(table_id) => maps.get(table_id),
        None => None,
    }
}

// The table id of the row event that was read, if it is one.
fn table_id_in(read: &Result<Option<LogEventData<'_>>, Error>) -> Option<u64>
    ensures { result ≡ table_id_in read.now }
{
    match read {
        Ok(Some(LogEventData::Mysql(EventData::RowsEvent(rows)))) => Some(rows.table_id()),
        Ok(Some(LogEventData::Maria(MariaEventData::RowsCompressedEvent(rows)))) => {
            Some(rows.table_id())
        }
        _ => None,
    }
}

// What was read of an event says of rows, by the table map in force.
fn read_rows(
    alloc: Global,
    event: &EventRef<'_>,
    read: &Result<Option<LogEventData<'_>>, Error>,
    table_map: Option<&TableMapEvent<'_>>,
) -> Result<RowsFound, Error>
    requires { ReadsLogData (view_of event.now) read.now }
    ensures ok { IfOk result (λ found. ¬ (read.now ≡ Err Memory) × IsFound (option_copied table_map.entry) read.now found) }
    ensures memory { IfErr result (λ e. e ≡ Memory) }
{
    match read {
        Ok(Some(body)) => body_rows(alloc, event, body, table_map),
        Ok(None) => Ok(RowsFound::Other),
        Err(Error::Memory) => Err(Error::Memory),
        Err(_) => Ok(RowsFound::Unreadable),
    }
}

// What the body of an event says of rows.
fn body_rows(
    alloc: Global,
    event: &EventRef<'_>,
    body: &LogEventData<'_>,
    table_map: Option<&TableMapEvent<'_>>,
) -> Result<RowsFound, Error>
    requires { ReadsLogData (view_of event.now) (Ok (Some body.now)) }
    ensures ok { IfOk result (IsFound (option_copied table_map.entry) (Ok (Some body.now))) }
    ensures memory { IfErr result (λ e. e ≡ Memory) }
{
    match body {
        LogEventData::Mysql(EventData::RowsEvent(rows)) => Ok(mapped_rows(rows, table_map)),
        LogEventData::Maria(MariaEventData::RowsCompressedEvent(rows)) => {
            compressed_rows(alloc, event, rows, table_map)
        }
        _ => Ok(RowsFound::Unreadable),
    }
}

// The rows of an event, by the table map in force.
fn mapped_rows(rows: &RowsEventData<'_>, table_map: Option<&TableMapEvent<'_>>) -> RowsFound
    ensures { IsFound (option_copied table_map.entry) (Ok (Some (Mysql (RowsEvent rows.now)))) result }
{
    let count = match table_map {
        Some(table_map) => rows_in(rows, table_map),
        None => None,
    };
    RowsFound::Rows(ChangedRows {
        table_id: rows.table_id(),
        kind: kind_of(
            rows.columns_before_image().is_some(),
            rows.columns_after_image().is_some(),
        ),
        count,
    })
}

// The rows of a compressed event, by the table map in force.
fn compressed_rows(
    alloc: Global,
    event: &EventRef<'_>,
    rows: &RowsCompressedEvent<'_>,
    table_map: Option<&TableMapEvent<'_>>,
) -> Result<RowsFound, Error>
    requires { ReadsCompressed (view_of event.now) rows.now }
    ensures ok { IfOk result (IsFoundStored (option_copied table_map.entry) (event_in rows.now.event)) }
    ensures memory { IfErr result (λ e. e ≡ Memory) }
{
    let count = stored_count(alloc, event, rows, table_map)?;
    Ok(RowsFound::Rows(ChangedRows {
        table_id: rows.table_id(),
        kind: kind_of(
            rows.columns_before_image().is_some(),
            rows.columns_after_image().is_some(),
        ),
        count,
    }))
}

// The number of the rows of a compressed event. They are uncompressed only if a table map is in force.
fn stored_count(
    alloc: Global,
    event: &EventRef<'_>,
    rows: &RowsCompressedEvent<'_>,
    table_map: Option<&TableMapEvent<'_>>,
) -> Result<Option<u64>, Error>
    requires { ReadsCompressed (view_of event.now) rows.now }
    ensures ok { IfOk result (IsMappedStoredCount (event_in rows.now.event) (option_copied table_map.entry)) }
    ensures memory { IfErr result (λ e. e ≡ Memory) }
{
    match table_map {
        Some(table_map) => stored_rows_in(alloc, event, rows, table_map),
        None => Ok(None),
    }
}

// How rows with these images change a table.
fn kind_of(has_before: bool, has_after: bool) -> ChangeKind
    ensures { result ≡ kind_by has_before has_after }
{
    if !has_before {
        ChangeKind::Inserted
    } else if !has_after {
        ChangeKind::Deleted
    } else {
        ChangeKind::Updated
    }
}

// Whether events of this raw type have rows, or may have some.
#[inline(always)]
fn may_have_rows(event_type: u8) -> bool
    ensures { result ≡ may_have_rows event_type }
{
    matches!(
        event_type,
        20 | 21 | 22 | 23 | 24 | 25 | 30 | 31 | 32 | 39 | 166 | 167 | 168 | 169 | 170 | 171
    )
}
