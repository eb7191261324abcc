//! The number of the rows of a compressed row event.
ghost use Rattle.std.specs.Prelude.{◌≡◌, ◌++◌, ◌-◌, ◌≤◌, length, take, false, IfOk, IfErr};
ghost use Rattle.binlog_wire.specs.declared.error.Error.TheVariants.{Memory};
ghost use Rattle.binlog_rows.specs.RowsData.{event_in};
ghost use Rattle.binlog_events.specs.EventRefs.{view_of};
ghost use Rattle.binlog_statistics.specs.RowCounts.{IsRowCount};
ghost use Rattle.binlog_statistics.specs.CompressedRows.{with_rows, uncompressed_type, ReadsCompressed, IsReadCount, IsStoredCount};

use crate::row_count::{are_bytes, rows_in};
use binlog_file::{BinlogCtx, BinlogEventHeader, Error, EventData, EventRef};
use binlog_mariadb::{CompressionError, RowsCompressedEvent, uncompress};
use binlog_rows::TableMapEvent;
use std::alloc::{AllocError, Global};

/// The greatest size of uncompressed rows in bytes, 1 GiB, which is that of a packet of the server. Longer rows aren't counted.
pub const MOST_BYTES: usize = 1_073_741_824;

/// The number of the rows of a compressed event, which has this body, by the table map in force for its table id: that of the rows for
/// which its bytes are stored. None if they are stored for no rows of at most [`MOST_BYTES`], or if one of the rows is refused.
///
/// The only error is [`Error::Memory`], if an allocation fails.
pub(crate) fn stored_rows_in(
    alloc: Global,
    event: &EventRef<'_>,
    compressed: &RowsCompressedEvent<'_>,
    table_map: &TableMapEvent<'_>,
) -> Result<Option<u64>, Error>
    requires { ReadsCompressed (view_of event.now) compressed.now }
    ensures count { IfOk result (IsStoredCount (event_in compressed.now.event) table_map.now) }
    ensures memory { IfErr result (λ e. e ≡ Memory) }
{
    match uncompress(alloc, compressed.compressed_data(), MOST_BYTES) {
        Ok(rows) => uncompressed_rows_in(alloc, event, compressed, &rows, table_map),
        Err(CompressionError::Memory) => Err(Error::Memory),
        Err(_) => Ok(None),
    }
}

// The number of the rows of the event that was compressed, which has these rows: its body is that of the compressed event with the rows
// in place of the bytes that are stored for them.
fn uncompressed_rows_in(
    alloc: Global,
    event: &EventRef<'_>,
    compressed: &RowsCompressedEvent<'_>,
    rows: &[u8],
    table_map: &TableMapEvent<'_>,
) -> Result<Option<u64>, Error>
    requires { ReadsCompressed (view_of event.now) compressed.now }
    ensures count { IfOk result (IsRowCount false (with_rows (event_in compressed.now.event) rows.now) table_map.now) }
    ensures memory { IfErr result (λ e. e ≡ Memory) }
{
    are_bytes(event.data());
    let body = with_last(
        alloc,
        event.data(),
        compressed.compressed_data().len(),
        rows,
    )?;
    let event_type = uncompressed_type(event.header().event_type_raw());
    let context = BinlogCtx::new(BinlogEventHeader::LEN + body.len(), event.fde(), event_type);
    let read = EventData::read(alloc, context, &body);
    let count = read_rows_in(&read, table_map);
    drop(read);
    Ok(count)
}

// The bytes of a body, with others in place of so many last ones.
fn with_last(alloc: Global, body: &[u8], count: usize, others: &[u8]) -> Result<Vec<u8>, AllocError>
    requires { count ≤ length body.now }
    ensures { IfOk result (λ bytes. bytes.items ≡ take (length body.now - count) body.now ++ others.now) }
{
    let front = &body[..body.len() - count];
    let mut bytes = Vec::with_capacity(alloc, front.len() + others.len())?;
    bytes.extend_from_slice(front)?;
    bytes.extend_from_slice(others)?;
    Ok(bytes)
}

// The number of the rows of an event of which this was read.
fn read_rows_in(
    read: &Result<Option<EventData<'_>>, Error>,
    table_map: &TableMapEvent<'_>,
) -> Option<u64>
    ensures { IsReadCount read.now table_map.now result }
{
    match read {
        Ok(Some(EventData::RowsEvent(rows))) => rows_in(rows, table_map),
        _ => None,
    }
}

// The type of the event that was compressed.
fn uncompressed_type(event_type: u8) -> u8
    ensures { result ≡ uncompressed_type event_type }
{
    match event_type {
        166 => 23,
        167 => 24,
        168 => 25,
        169 => 30,
        170 => 31,
        _ => 32,
    }
}
