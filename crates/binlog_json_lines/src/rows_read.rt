//! The data of row events, which are read once for all that is shown of them.
ghost use Rattle.std.specs.Prelude.{◌≡◌, option_copied};
ghost use Rattle.binlog_events.specs.EventRefs.{view_of};
ghost use Rattle.binlog_filters.specs.RowEvents.{rows_in, rows_event_of};
ghost use Rattle.binlog_json_lines.specs.ReadRows.{rows_of_read};

use binlog_event_data::EventData;
use binlog_events::EventRef;
use binlog_filters::is_row_event;
use binlog_rows::RowsEventData;
use binlog_wire::Error;
use std::alloc::Global;

/// Reads the data of an event if its type is one of row events, and nothing of any other.
pub(crate) fn read_rows<'a>(
    alloc: Global,
    event: &EventRef<'a>,
) -> Result<Option<EventData<'a>>, Error>
    ensures { rows_of_read result ≡ rows_event_of (view_of event.now) }
{
    if is_row_event(event) {
        event.read_data(alloc)
    } else {
        Ok(None)
    }
}

/// The row event that was read, if one was.
pub(crate) fn rows_of_read<'d, 'a>(
    read: &'d Result<Option<EventData<'a>>, Error>,
) -> Option<&'d RowsEventData<'a>>
    ensures { option_copied result ≡ rows_of_read read.now }
{
    match read {
        Ok(Some(body)) => rows_in(body),
        Ok(None) => None,
        Err(_) => None,
    }
}

// The row event that a body is.
fn rows_in<'d, 'a>(body: &'d EventData<'a>) -> Option<&'d RowsEventData<'a>>
    ensures { option_copied result ≡ rows_in body.now }
{
    match body {
        EventData::RowsEvent(rows) => Some(rows),
        _ => None,
    }
}
