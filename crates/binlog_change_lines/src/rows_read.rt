//! The row event that was read of the data of an event.
ghost use Rattle.std.specs.Prelude.{◌≡◌, option_copied};
ghost use Rattle.binlog_events.specs.EventRefs.{view_of};
ghost use Rattle.binlog_file.specs.LogData.{ReadsLogData};
ghost use Rattle.binlog_filters.specs.RowEvents.{rows_event_of};
ghost use Rattle.binlog_change_lines.specs.EventTexts.{rows_in};
ghost use Rattle.binlog_change_lines.specs.ReadRows.{rows_of_read};

use binlog_file::{Error, EventData, EventRef, LogEventData, RowsEventData};
use binlog_json_lines::is_row_event;

/// The row event that the data of an event is, of which this was read; None for an event of another type, and for one whose data
/// isn't that of a row event.
pub(crate) fn rows_read<'d, 'a>(
    event: &EventRef<'_>,
    read: &'d Result<Option<LogEventData<'a>>, Error>,
) -> Option<&'d RowsEventData<'a>>
    requires { ReadsLogData (view_of event.now) read.now }
    ensures { option_copied result ≡ rows_event_of (view_of event.now) }
{
    if is_row_event(event) {
        rows_of_read(read)
    } else {
        None
    }
}

// The row event that was read, if one was.
fn rows_of_read<'d, 'a>(
    read: &'d Result<Option<LogEventData<'a>>, Error>,
) -> Option<&'d RowsEventData<'a>>
    ensures { option_copied result ≡ rows_of_read read.now }
{
    match read {
        Ok(Some(body)) => rows_in(body),
        Ok(None) => None,
        Err(_) => None,
    }
}

// The row event that a body is.
fn rows_in<'d, 'a>(body: &'d LogEventData<'a>) -> Option<&'d RowsEventData<'a>>
    ensures { option_copied result ≡ rows_in body.now }
{
    match body {
        LogEventData::Mysql(EventData::RowsEvent(rows)) => Some(rows),
        _ => None,
    }
}
