//! Sums over the fields of the statements, GTIDs, table maps and row events of a log.
mod gtids;
mod rows;

use crate::measured::numbers::write_numbers;
use binlog_file::{
    BinlogFile, BinlogVersion, Error, EventRef, EventType, GtidEvent, ParseBuf, RowsEventOf,
    TableMapEvent,
};
use binlog_rows::{DeleteRows, RowsKind, UpdateRows, WriteRows};
use binlog_statements::{QueryEvent, StatusVarVal, StatusVars};
use gtids::GtidSums;
use rows::RowSums;
use std::alloc::Global;
use std::io::{BufRead, Write};

/// Writes the line of the sums over a log.
///
/// # Errors
///
/// That of the first item that is one, of an event of a type that is summed up and can't be read, of memory, and of the output.
pub(crate) fn write_sums<R: BufRead + Drop, W: Write>(
    alloc: Global,
    input: R,
    output: &mut W,
) -> Result<(), Error> {
    let sums = sums_of(alloc, input)?;
    write_numbers(&sums.numbers(), output)
}

/// Sums over the statements, the GTIDs and the rows of a log, modulo 2^64.
#[derive(Clone, Copy, Default)]
struct Sums {
    /// The number of statements.
    statements: u64,
    /// The number of bytes in their schema names and their query texts.
    text_bytes: u64,
    /// The number of their status variables.
    variables: u64,
    /// The values of these variables; of those that aren't numbers, the number of bytes or names.
    values: u64,
    /// The sums over the GTIDs.
    gtids: GtidSums,
    /// The sums over the table maps and the row events.
    rows: RowSums,
}

impl Sums {
    // All sums, in order.
    fn numbers(&self) -> [u64; 12] {
        let [gtids, tag_bytes, gtid_numbers] = self.gtids.numbers();
        let [maps, map_bytes, row_events, row_bytes, row_numbers] = self.rows.numbers();
        [
            self.statements,
            self.text_bytes,
            self.variables,
            self.values,
            gtids,
            tag_bytes,
            gtid_numbers,
            maps,
            map_bytes,
            row_events,
            row_bytes,
            row_numbers,
        ]
    }

    // Counts an event if its type is one that is summed up.
    fn count_event(&mut self, alloc: Global, event: EventRef<'_>) -> Result<(), Error> {
        match event.header().event_type() {
            Ok(EventType::QUERY_EVENT) => self.count_statement(alloc, event),
            Ok(EventType::GTID_EVENT | EventType::GTID_TAGGED_LOG_EVENT) => {
                self.count_gtid(alloc, event)
            }
            Ok(EventType::TABLE_MAP_EVENT) => self.count_map(event),
            Ok(EventType::WRITE_ROWS_EVENT) => self.count_rows::<WriteRows>(event),
            Ok(EventType::UPDATE_ROWS_EVENT) => self.count_rows::<UpdateRows>(event),
            Ok(EventType::DELETE_ROWS_EVENT) => self.count_rows::<DeleteRows>(event),
            _ => Ok(()),
        }
    }

    fn count_gtid(&mut self, alloc: Global, event: EventRef<'_>) -> Result<(), Error> {
        let gtid: GtidEvent = event.read_event(alloc)?;
        self.gtids.count(&gtid);
        Ok(())
    }

    // A table map and a row event go to the end of the data, so nothing is left behind one. `read` is inlined: only the fields
    // that are summed up are worked out.
    fn count_map(&mut self, event: EventRef<'_>) -> Result<(), Error> {
        let map = TableMapEvent::read(event.fde(), &mut ParseBuf(event.data()))?;
        self.rows.count_map(&map);
        Ok(())
    }

    // Counts a row event of this kind.
    fn count_rows<K: RowsKind>(&mut self, event: EventRef<'_>) -> Result<(), Error> {
        let rows = RowsEventOf::<K>::read(event.fde(), &mut ParseBuf(event.data()))?;
        self.rows.count_rows(rows.event());
        Ok(())
    }

    fn count_statement(&mut self, alloc: Global, event: EventRef<'_>) -> Result<(), Error> {
        let statement: QueryEvent<'_> = event.read_event(alloc)?;
        let text_bytes = statement
            .schema_raw()
            .len()
            .wrapping_add(statement.query_raw().len());
        self.statements = self.statements.wrapping_add(1);
        self.text_bytes = self.text_bytes.wrapping_add(text_bytes as u64);
        self.count_variables(alloc, statement.status_vars())
    }

    fn count_variables(&mut self, alloc: Global, variables: &StatusVars<'_>) -> Result<(), Error> {
        for variable in variables.iter() {
            let value = variable.get_value(alloc);
            let number = number_of(&value);
            drop(value);
            self.values = self.values.wrapping_add(number?);
            self.variables = self.variables.wrapping_add(1);
        }
        Ok(())
    }
}

// The number of a value that was read; it isn't only where memory is refused.
fn number_of(value: &Result<StatusVarVal<'_>, &[u8]>) -> Result<u64, Error> {
    match value {
        Ok(value) => Ok(number(value)),
        Err(_) => Err(Error::Memory),
    }
}

// The number that a value is, the sum of its numbers, or the number of its bytes or names.
fn number(value: &StatusVarVal<'_>) -> u64 {
    match value {
        StatusVarVal::Flags2(bits) => u64::from(*bits),
        StatusVarVal::SqlMode(bits) | StatusVarVal::TableMapForUpdate(bits) => *bits,
        StatusVarVal::Catalog(bytes)
        | StatusVarVal::CommitTs(bytes)
        | StatusVarVal::CommitTs2(bytes) => bytes.len() as u64,
        StatusVarVal::AutoIncrement { increment, offset } => {
            u64::from(*increment) + u64::from(*offset)
        }
        StatusVarVal::Charset {
            charset_client,
            collation_connection,
            collation_server,
        } => {
            u64::from(*charset_client)
                + u64::from(*collation_connection)
                + u64::from(*collation_server)
        }
        StatusVarVal::TimeZone(text) | StatusVarVal::CatalogNz(text) => text.len() as u64,
        StatusVarVal::LcTimeNames(number)
        | StatusVarVal::CharsetDatabase(number)
        | StatusVarVal::DefaultCollationForUtf8mb4(number) => u64::from(*number),
        StatusVarVal::MasterDataWritten(bytes) => {
            little_endian(bytes[0], bytes[1], bytes[2], bytes[3])
        }
        StatusVarVal::Invoker { username, hostname } => {
            (username.len() as u64).wrapping_add(hostname.len() as u64)
        }
        StatusVarVal::UpdatedDbNames(names) => names.len() as u64,
        StatusVarVal::Microseconds(number) => u64::from(*number),
        StatusVarVal::ExplicitDefaultsForTimestamp(is_set) => u64::from(*is_set),
        StatusVarVal::DdlLoggedWithXid(number) => *number,
        StatusVarVal::SqlRequirePrimaryKey(number) | StatusVarVal::DefaultTableEncryption(number) =>
            u64::from(*number),
    }
}

// The little-endian number of these bytes. Not inlined: the bytes come one by one, so that no value of another kind has
// to be in memory for them.
#[inline(never)]
fn little_endian(first: u8, second: u8, third: u8, fourth: u8) -> u64 {
    u64::from(u32::from_le_bytes([first, second, third, fourth]))
}

// The sums over a binlog file with a file header. The error is that of the first item that is one, of an event of a type that is
// summed up and can't be read, or `Memory` if the allocation of a list of names fails.
fn sums_of<R: BufRead + Drop>(alloc: Global, input: R) -> Result<Sums, Error> {
    match BinlogFile::new(alloc, BinlogVersion::Version4, input) {
        Ok(mut file) => sums_of_events(alloc, &mut file),
        Err(error) => Err(error),
    }
}

fn sums_of_events<R: BufRead + Drop>(
    alloc: Global,
    file: &mut BinlogFile<R>,
) -> Result<Sums, Error> {
    let mut sums = Sums::default();
    // Bounded, so that the loop is proved to end; borrowed events can't be given by an iterator.
    'items: for _ in 0..u64::MAX {
        let Some(item) = file.next_ref() else {
            return Ok(sums);
        };
        sums.count_event(alloc, item?)?;
    }
    Ok(sums)
}
