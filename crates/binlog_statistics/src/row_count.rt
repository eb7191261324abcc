//! The number of the rows of an event.
ghost use Rattle.binlog_wire.specs.Fields.{IsBytes};
ghost use Rattle.binlog_images.specs.RowsLeft.{row_shape};
ghost use Rattle.binlog_statistics.specs.RowCounts.{HasRows, IsRowCount};
ghost use Rattle.binlog_images.specs.EventRows.{is_partial};
ghost use Rattle.binlog_rows.specs.RowsData.{event_in};

use binlog_images::laws::rows_are_split;
use binlog_images::{Rows, RowsEventExt};
use binlog_rows::{RowsEventData, TableMapEvent};

/// The number of the rows of an event; None if one of them is refused. No value is read, and nothing is allocated.
fn count_rows(rows: Rows<'_>) -> Option<u64>
    ensures { IsBytes rows.entry.rest.now → HasRows (row_shape rows.entry) rows.entry.row rows.entry.rest.now result }
{
    rows_are_split();
    let mut count: u64 = 0;
    let mut is_refused = false;
    'rows: for row in rows {
        match row {
            Ok(_) => count = count.saturating_add(1),
            Err(_) => is_refused = true,
        }
    }
    if is_refused { None } else { Some(count) }
}

// Bytes are below 256, which is a premise of how they split into rows.
pub(crate) fn are_bytes(bytes: &[u8])
    ensures { IsBytes bytes.now }
{}

/// The number of the rows of an event, by the table map in force for its table id.
pub(crate) fn rows_in(event: &RowsEventData<'_>, table_map: &TableMapEvent<'_>) -> Option<u64>
    ensures { IsRowCount (is_partial event.now) (event_in event.now) table_map.now result }
{
    are_bytes(event.rows_data());
    match event.rows(table_map) {
        Ok(rows) => count_rows(rows),
        Err(_) => None,
    }
}
