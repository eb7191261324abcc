//! Sums over the rows of a log.
mod table;
mod values;

use crate::measured::numbers::write_numbers;
use binlog_file::{
    BinlogFile, BinlogVersion, Error, EventRef, EventStreamReader, EventType, RowsEventOf,
};
use binlog_images::{HasWholeRows, Rows, RowsEventError, RowsEventExt};
use binlog_rows::{DeleteRows, DeleteRowsV1, UpdateRows, UpdateRowsV1, WriteRows, WriteRowsV1};
use std::alloc::Global;
use std::io::{BufRead, Write};
use table::Table;
use values::ValueSums;

/// Writes the line of the sums over a log.
///
/// # Errors
///
/// That of the first item that is one, of a row event that can't be read, of memory, and of the output.
pub(crate) fn write_sums<R: BufRead + Drop, W: Write>(
    alloc: Global,
    input: R,
    output: &mut W,
) -> Result<(), Error> {
    let sums = sums_of(alloc, input)?;
    write_numbers(&sums.numbers(), output)
}

/// Sums over the rows of a log, modulo 2^64.
#[derive(Clone, Copy, Default)]
struct Sums {
    /// The number of rows.
    rows: u64,
    /// The number of events whose rows can't be read, and of rows that are refused.
    refused: u64,
    /// The sums over their values.
    values: ValueSums,
}

impl Sums {
    // All sums, in order.
    fn numbers(&self) -> [u64; 10] {
        let [
            nulls,
            integers,
            bytes,
            decimals,
            floats,
            years,
            seconds,
            microseconds,
        ] = self.values.numbers();
        [
            self.rows,
            self.refused,
            nulls,
            integers,
            bytes,
            decimals,
            floats,
            years,
            seconds,
            microseconds,
        ]
    }

    // Counts the rows of an event if it is a row event. The reader has the table maps before it.
    fn count_event(
        &mut self,
        alloc: Global,
        event: EventRef<'_>,
        table: &mut Table,
        reader: &EventStreamReader,
    ) -> Result<(), Error> {
        match event.header().event_type() {
            Ok(EventType::TABLE_MAP_EVENT) => table.keep(alloc, event),
            Ok(EventType::WRITE_ROWS_EVENT) => {
                self.count_rows::<WriteRows>(alloc, event, table, reader)
            }
            Ok(EventType::UPDATE_ROWS_EVENT) => {
                self.count_rows::<UpdateRows>(alloc, event, table, reader)
            }
            Ok(EventType::DELETE_ROWS_EVENT) => {
                self.count_rows::<DeleteRows>(alloc, event, table, reader)
            }
            Ok(EventType::WRITE_ROWS_EVENT_V1) => {
                self.count_rows::<WriteRowsV1>(alloc, event, table, reader)
            }
            Ok(EventType::UPDATE_ROWS_EVENT_V1) => {
                self.count_rows::<UpdateRowsV1>(alloc, event, table, reader)
            }
            Ok(EventType::DELETE_ROWS_EVENT_V1) => {
                self.count_rows::<DeleteRowsV1>(alloc, event, table, reader)
            }
            _ => Ok(()),
        }
    }

    // Counts the rows of an event of this kind.
    fn count_rows<K: HasWholeRows>(
        &mut self,
        alloc: Global,
        event: EventRef<'_>,
        table: &Table,
        reader: &EventStreamReader,
    ) -> Result<(), Error> {
        let event: RowsEventOf<'_, K> = event.read_event(alloc)?;
        self.count_rows_of(&event, table, reader);
        Ok(())
    }

    // The columns of the event's table are read again only if the last table map is of another one.
    fn count_rows_of<K: HasWholeRows>(
        &mut self,
        event: &RowsEventOf<'_, K>,
        table: &Table,
        reader: &EventStreamReader,
    ) {
        if let Some(columns) = table.columns_of(event.table_id()) {
            return self.count_each(event.rows_of_table(columns));
        }
        match reader.get_tme(event.table_id()) {
            Some(table_map) => self.count_each(event.rows(table_map)),
            None => self.refused = self.refused.wrapping_add(1),
        }
    }

    fn count_each(&mut self, rows: Result<Rows<'_>, RowsEventError>) {
        let Ok(mut rest) = rows else {
            self.refused = self.refused.wrapping_add(1);
            return;
        };
        // Bounded, so that the loop is proved to end.
        for _ in 0..u64::MAX {
            match rest.visit_next(&mut self.values) {
                None => return,
                Some(Ok(())) => self.rows = self.rows.wrapping_add(1),
                Some(Err(_)) => self.refused = self.refused.wrapping_add(1),
            }
        }
    }
}

// The sums over a binlog file with a file header. The error is that of the first item that is one, or of a row event that can't be
// read.
fn sums_of<R: BufRead + Drop>(alloc: Global, input: R) -> Result<Sums, Error> {
    match BinlogFile::new(alloc, BinlogVersion::Version4, input) {
        Ok(mut file) => sums_of_events(alloc, &mut file),
        Err(error) => Err(error),
    }
}

fn sums_of_events<R: BufRead + Drop>(
    alloc: Global,
    file: &mut BinlogFile<R>,
) -> Result<Sums, Error> {
    let mut sums = Sums::default();
    let mut table = Table::new(alloc);
    // Bounded, so that the loop is proved to end.
    'items: for _ in 0..u64::MAX {
        let Some(item) = file.advance() else {
            return Ok(sums);
        };
        item?;
        if let Some(event) = file.event() {
            sums.count_event(alloc, event, &mut table, file.reader())?;
        }
    }
    Ok(sums)
}
