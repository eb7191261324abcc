//! Row events that are undone.
ghost use Rattle.std.specs.Prelude.{◌≡◌, ℕ, List, IfOk, OnOk};
ghost use Rattle.binlog_event_format.specs.DescriptionRefs.{description_of};
ghost use Rattle.binlog_events.specs.EventRefs.{view_of};
ghost use Rattle.binlog_undo_log.specs.Undoing.{Writes, UndoesTable, UndoesRows, UndoesReadEvent, UndoesBody, UndoesCompressed, UndoesReadRows, UndoesMapped, UndoesEvents, UndoesChange};

use crate::compressed::{read_uncompressed, uncompressed_body};
use crate::events::{event_of, is_maria_event, table_map_of};
use crate::frames::Frames;
use crate::heads::has_rows_length;
use crate::primary_key::undo_by_key;
use crate::undo_error::UndoLogError;
use binlog_columns::TableColumns;
use binlog_event_format::DescriptionRef;
use binlog_file::{
    Error, EventData, EventRef, LogEventData, RowsEventData, TableMapEvent, read_log_data,
};
use binlog_mariadb::{CompressionError, MariaEventData, RowsCompressedEvent};
use binlog_undo::{EventsWriter, ForeignKeyChecks, InverseEvent, UndoError, UndoneChange};
use binlog_undo_index::ChangePlace;
use std::alloc::Global;

// The event that undoes rows of a table.
fn inverse_of(
    alloc: Global,
    map: &TableMapEvent<'_>,
    rows: &RowsEventData<'_>,
    is_maria_log: bool,
    checks: ForeignKeyChecks,
) -> Result<InverseEvent, UndoLogError>
    ensures { IfOk result (λ inverse. UndoesTable is_maria_log checks map.now rows.now inverse) }
{
    if map.table_id() != rows.table_id() {
        return Err(UndoLogError::Changed);
    }
    let types = map.columns_type_raw();
    let Ok(columns) = TableColumns::new(types, map.columns_metadata_raw()) else {
        return Err(UndoLogError::Changed);
    };
    match undo_by_key(alloc, map, rows, columns, is_maria_log, checks) {
        Ok(inverse) => Ok(inverse),
        Err(UndoError::Memory) => Err(UndoLogError::Memory),
        Err(_) => Err(UndoLogError::Changed),
    }
}

// Writes what undoes rows of a table.
fn push_rows(
    alloc: Global,
    map_event: &EventRef<'_>,
    map: &TableMapEvent<'_>,
    event: &EventRef<'_>,
    rows: &RowsEventData<'_>,
    checks: ForeignKeyChecks,
    writer: &mut EventsWriter,
) -> Result<(), UndoLogError>
    ensures { OnOk result (Writes (UndoesRows checks (view_of map_event.now) map.now (view_of event.now) rows.now) writer.old writer.new) }
{
    let inverse = inverse_of(alloc, map, rows, is_maria_event(event), checks)?;
    if !has_rows_length(event.fde(), inverse.event_type()) {
        return Err(UndoLogError::Changed);
    }
    let change = UndoneChange {
        map_header: map_event.header(),
        map_body: map_event.data(),
        header: event.header(),
        inverse: &inverse,
    };
    writer.push_change(alloc, &change)?;
    Ok(())
}

// Writes what undoes an event that was compressed, of whose body this was read.
fn push_read_event(
    alloc: Global,
    map_event: &EventRef<'_>,
    map: &TableMapEvent<'_>,
    event: &EventRef<'_>,
    read: &Result<Option<EventData<'_>>, Error>,
    checks: ForeignKeyChecks,
    writer: &mut EventsWriter,
) -> Result<(), UndoLogError>
    ensures { OnOk result (Writes (UndoesReadEvent checks (view_of map_event.now) map.now (view_of event.now) read.now) writer.old writer.new) }
{
    match read {
        Ok(Some(EventData::RowsEvent(rows))) => {
            push_rows(alloc, map_event, map, event, rows, checks, writer)
        }
        Err(Error::Memory) => Err(UndoLogError::Memory),
        _ => Err(UndoLogError::Changed),
    }
}

// Writes what undoes an event that was compressed, and had this body.
fn push_body(
    alloc: Global,
    map_event: &EventRef<'_>,
    map: &TableMapEvent<'_>,
    event: &EventRef<'_>,
    body: &[u8],
    checks: ForeignKeyChecks,
    writer: &mut EventsWriter,
) -> Result<(), UndoLogError>
    ensures { OnOk result (Writes (UndoesBody checks (view_of map_event.now) map.now (view_of event.now) body.now) writer.old writer.new) }
{
    let read = read_uncompressed(alloc, event, body);
    let answer = push_read_event(alloc, map_event, map, event, &read, checks, writer);
    drop(read);
    answer
}

// Writes what undoes compressed rows.
fn push_compressed(
    alloc: Global,
    map_event: &EventRef<'_>,
    map: &TableMapEvent<'_>,
    event: &EventRef<'_>,
    compressed: &RowsCompressedEvent<'_>,
    checks: ForeignKeyChecks,
    writer: &mut EventsWriter,
) -> Result<(), UndoLogError>
    ensures { OnOk result (Writes (UndoesCompressed checks (view_of map_event.now) map.now (view_of event.now) compressed.now) writer.old writer.new) }
{
    match uncompressed_body(alloc, event, compressed) {
        Ok(body) => push_body(
            alloc,
            map_event,
            map,
            event,
            body.as_slice(),
            checks,
            writer,
        ),
        Err(CompressionError::Memory) => Err(UndoLogError::Memory),
        Err(_) => Err(UndoLogError::Changed),
    }
}

// Writes what undoes a row event of which this was read.
fn push_read_rows(
    alloc: Global,
    map_event: &EventRef<'_>,
    map: &TableMapEvent<'_>,
    event: &EventRef<'_>,
    read: &Result<Option<LogEventData<'_>>, Error>,
    checks: ForeignKeyChecks,
    writer: &mut EventsWriter,
) -> Result<(), UndoLogError>
    ensures { OnOk result (Writes (UndoesReadRows checks (view_of map_event.now) map.now (view_of event.now) read.now) writer.old writer.new) }
{
    match read {
        Ok(Some(LogEventData::Mysql(EventData::RowsEvent(rows)))) => {
            push_rows(alloc, map_event, map, event, rows, checks, writer)
        }
        Ok(Some(LogEventData::Maria(MariaEventData::RowsCompressedEvent(compressed)))) => {
            push_compressed(alloc, map_event, map, event, compressed, checks, writer)
        }
        Err(Error::Memory) => Err(UndoLogError::Memory),
        _ => Err(UndoLogError::Changed),
    }
}

// Writes what undoes the rows of this event, of the table of this table map.
fn push_of_table(
    alloc: Global,
    map_event: &EventRef<'_>,
    map: &TableMapEvent<'_>,
    event: &EventRef<'_>,
    checks: ForeignKeyChecks,
    writer: &mut EventsWriter,
) -> Result<(), UndoLogError>
    ensures { OnOk result (Writes (UndoesMapped checks (view_of map_event.now) map.now (view_of event.now)) writer.old writer.new) }
{
    let read = read_log_data(alloc, event);
    let answer = push_read_rows(alloc, map_event, map, event, &read, checks, writer);
    drop(read);
    answer
}

// Writes what undoes a row event, of the table of this table map.
fn push_events(
    alloc: Global,
    map_event: &EventRef<'_>,
    event: &EventRef<'_>,
    checks: ForeignKeyChecks,
    writer: &mut EventsWriter,
) -> Result<(), UndoLogError>
    ensures { OnOk result (Writes (UndoesEvents checks (view_of map_event.now) (view_of event.now)) writer.old writer.new) }
{
    let map = table_map_of(alloc, map_event)?;
    push_of_table(alloc, map_event, &map, event, checks, writer)
}

/// Writes what undoes the row event at a place.
pub(crate) fn push_change<F: Frames>(
    alloc: Global,
    frames: &mut F,
    fde: DescriptionRef<'_>,
    change: ChangePlace,
    checks: ForeignKeyChecks,
    writer: &mut EventsWriter,
) -> Result<(), UndoLogError>
    ensures written { OnOk result (Writes (UndoesChange (F.is_at frames.old) (description_of fde.entry) checks change) writer.old writer.new) }
    ensures same { (place : ℕ) (frame : List ℕ) → F.is_at frames.new place frame → F.is_at frames.old place frame }
{
    let map_frame = frames.frame_at(alloc, change.table_map)?;
    let frame = frames.frame_at(alloc, change.rows)?;
    let map_event = event_of(alloc, fde, &map_frame)?;
    let event = event_of(alloc, fde, &frame)?;
    push_events(alloc, &map_event, &event, checks, writer)
}
