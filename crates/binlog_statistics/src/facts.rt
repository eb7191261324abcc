//! The facts of an event.
ghost use Rattle.std.specs.Prelude.{◌≡◌, option_copied};
ghost use Rattle.binlog_events.specs.EventRefs.{view_of};
ghost use Rattle.change_statistics.specs.Facts.{fact_of, rows_of};
ghost use Rattle.binlog_statistics.specs.ItemFacts.{fact_with, part_fact_with, rows_said};

use crate::finding::RowsFound;
use binlog_file::EventRef;
use binlog_filters::begins_transaction;
use binlog_rows::TableMapEvent;
use change_statistics::{Change, EventFacts, TableChange};

/// The facts of an event that says this of rows, by the table map in force for them. The GTID is that of the transaction that begins with
/// it, and empty if none does.
pub(crate) fn facts_of<'a>(
    found: RowsFound,
    gtid: &'a str,
    event: &EventRef<'_>,
    table_map: Option<&'a TableMapEvent<'_>>,
) -> EventFacts<'a>
    ensures { fact_of result ≡ fact_with (option_copied table_map.entry) (view_of event.now) found gtid.now }
{
    let header = event.header();
    let size = event.frame().len() as u64;
    EventFacts {
        begins_transaction: begins_transaction(header.event_type_raw()),
        gtid,
        bytes: size,
        size,
        end_position: u64::from(header.log_pos()),
        time: header.timestamp(),
        change: change_of(found, table_map),
    }
}

/// The facts of an event inside a compressed transaction that says this of rows. The position is that behind the event that has the
/// transaction.
pub(crate) fn part_facts_of<'a>(
    found: RowsFound,
    end_position: u64,
    event: &EventRef<'_>,
    table_map: Option<&'a TableMapEvent<'_>>,
) -> EventFacts<'a>
    ensures { fact_of result ≡ part_fact_with (option_copied table_map.entry) end_position (view_of event.now) found }
{
    EventFacts {
        begins_transaction: false,
        gtid: "",
        bytes: 0,
        size: event.frame().len() as u64,
        end_position,
        time: event.header().timestamp(),
        change: change_of(found, table_map),
    }
}

// What is said of changes of rows, by the table map in force for them.
fn change_of<'a>(found: RowsFound, table_map: Option<&'a TableMapEvent<'_>>) -> Change<'a>
    ensures { rows_of result ≡ rows_said (option_copied table_map.entry) found }
{
    match found {
        RowsFound::Other => Change::Nothing,
        RowsFound::Unreadable => Change::Unknown,
        RowsFound::Rows(rows) => match table_map {
            Some(map) => Change::Rows(TableChange {
                database: map.database_name_raw(),
                table: map.table_name_raw(),
                kind: rows.kind,
                count: rows.count,
            }),
            None => Change::Unknown,
        },
    }
}
