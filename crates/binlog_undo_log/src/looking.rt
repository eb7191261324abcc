//! What is seen of an event by its data.
ghost use Rattle.std.specs.Prelude.{◌≡◌, MatchOption, Some, None};
ghost use Rattle.binlog_undo_log.specs.Marks.{table_id_in, mark_in};
ghost use Rattle.binlog_undo_log.specs.Scanning.{compressed_of, is_undone, rows_of, seen_mark, unread_mark};

use crate::scan::seeing::RowsLook;
use binlog_file::{EventData, LogEventData, RowsEventData};
use binlog_mariadb::{MariaEventData, RowsCompressedEvent};
use binlog_transactions::{Mark, Role, StatementKind};

// The mark of an event with this role and this data; None if the data isn't that of an event of this role. `is_undone` says whether its
// rows are to be undone. A compressed statement is one that can't be undone.
fn mark_in(role: Role, body: &LogEventData<'_>, is_undone: bool) -> Option<Mark>
    ensures { result ≡ mark_in role is_undone body.now }
{
    match role {
        Role::Known(mark) => Some(mark),
        Role::CompressedQuery => Some(Mark::Statement(StatementKind::Other)),
        Role::Query | Role::Rows | Role::CompressedRows | Role::MariaGtid => match body {
            LogEventData::Mysql(data) => Mark::of_data(data, is_undone),
            LogEventData::Maria(data) => Mark::of_maria_data(data, is_undone),
        },
    }
}

/// The mark of an event with this role, this data and these rows; None if it is damaged.
pub(crate) fn seen_mark(role: Role, body: &LogEventData<'_>, look: RowsLook) -> Option<Mark>
    ensures { result ≡ seen_mark role body.now look }
{
    match look {
        RowsLook::Damaged => None,
        RowsLook::Left | RowsLook::Undone(_) | RowsLook::Refused(_) => {
            mark_in(role, body, look.is_undone())
        }
    }
}

/// The id of a table map.
pub(crate) fn table_id_in(body: &LogEventData<'_>) -> Option<u64>
    ensures { result ≡ table_id_in body.now }
{
    match body {
        LogEventData::Mysql(EventData::TableMapEvent(map)) => Some(map.table_id()),
        _ => None,
    }
}

/// The rows of a row event that isn't compressed.
pub(crate) fn rows_in<'d, 'a>(body: &'d LogEventData<'a>) -> Option<&'d RowsEventData<'a>>
    ensures { MatchOption result (rows_of body.now ≡ None) (λ rows. rows_of body.now ≡ Some rows.now) }
{
    match body {
        LogEventData::Mysql(EventData::RowsEvent(rows)) => Some(rows),
        _ => None,
    }
}

/// The compressed rows of a row event.
pub(crate) fn compressed_in<'d, 'a>(
    body: &'d LogEventData<'a>,
) -> Option<&'d RowsCompressedEvent<'a>>
    ensures { MatchOption result (compressed_of body.now ≡ None) (λ compressed. compressed_of body.now ≡ Some compressed.now) }
{
    match body {
        LogEventData::Maria(MariaEventData::RowsCompressedEvent(compressed)) => Some(compressed),
        _ => None,
    }
}

/// The mark of an event of this role without data that can be read; None if the role doesn't say it. If its type is a known one, XIDs, table
/// maps and GTIDs have to be read.
pub(crate) fn unread_mark(role: Role, is_known: bool) -> Option<Mark>
    ensures { result ≡ unread_mark role is_known }
{
    match role {
        Role::Known(Mark::Xid | Mark::TableMap | Mark::Gtid(_)) if is_known => None,
        Role::Known(mark) => Some(mark),
        _ => None,
    }
}

impl RowsLook {
    // Whether the rows are to be undone.
    fn is_undone(self) -> bool
        ensures { result ≡ is_undone self }
    {
        match self {
            RowsLook::Undone(_) => true,
            RowsLook::Left | RowsLook::Refused(_) | RowsLook::Damaged => false,
        }
    }
}
