//! Row events.
ghost use Rattle.std.specs.Prelude.{◌≡◌, option_map};
ghost use Rattle.binlog_consts.specs.EventTypes.{event_type_of};
ghost use Rattle.binlog_event_format.specs.Headers.{header_of};
ghost use Rattle.binlog_file.specs.EventRefs.{view_of};
ghost use Rattle.binlog_rows.specs.RowsData.{event_in};
ghost use Rattle.binlog_filters.specs.RowEvents.{is_of_rows, rows_in, table_id_of};

use binlog_consts::EventType;
use binlog_event_data::EventData;
use binlog_file::EventRef;
use std::alloc::Global;

/// Whether the type of an event is one of row events: WRITE_ROWS, UPDATE_ROWS or DELETE_ROWS, of either version, or
/// PARTIAL_UPDATE_ROWS.
#[inline(always)]
pub fn is_row_event(event: &EventRef<'_>) -> bool
    ensures { result ≡ is_of_rows (event_type_of (header_of (view_of event.now).frame).event_type) }
{
    match event.header().event_type() {
        Ok(
            EventType::WRITE_ROWS_EVENT_V1
            | EventType::UPDATE_ROWS_EVENT_V1
            | EventType::DELETE_ROWS_EVENT_V1
            | EventType::WRITE_ROWS_EVENT
            | EventType::UPDATE_ROWS_EVENT
            | EventType::DELETE_ROWS_EVENT
            | EventType::PARTIAL_UPDATE_ROWS_EVENT,
        ) => true,
        _ => false,
    }
}

// The table id of a body, if it is a row event.
fn table_id_in(body: &EventData<'_>) -> Option<u64>
    ensures { result ≡ option_map (λ event. (event_in event).head.table_id) (rows_in body.now) }
{
    match body {
        EventData::RowsEvent(event) => Some(event.table_id()),
        _ => None,
    }
}

/// The table id of a row event; None for an event of another type, and for one whose data isn't that of a row event.
pub fn table_id(alloc: Global, event: &EventRef<'_>) -> Option<u64>
    ensures { result ≡ table_id_of (view_of event.now) }
{
    if !is_row_event(event) {
        return None;
    }
    match event.read_data(alloc) {
        Ok(Some(body)) => {
            let table_id = table_id_in(&body);
            drop(body);
            table_id
        }
        Ok(None) => None,
        Err(_) => None,
    }
}
