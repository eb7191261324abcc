//! Compressed rows of MariaDB's.
ghost use Rattle.std.specs.Prelude.{◌≡◌, ◌-◌, ◌++◌, length, take, IfOk, IfErr};
ghost use Rattle.binlog_events.specs.EventRefs.{view_of};
ghost use Rattle.binlog_mariadb.specs.Compressed.{Denies};
ghost use Rattle.binlog_rows.specs.RowsData.{event_in};
ghost use Rattle.binlog_undo_log.specs.Compressed.{most_bytes, uncompressed_type, IsUncompressed, ReadsUncompressed};

use binlog_event_format::{BinlogCtx, BinlogEventHeader};
use binlog_file::{Error, EventData, EventRef};
use binlog_mariadb::{CompressionError, RowsCompressedEvent, uncompress};
use std::alloc::{AllocError, Global};

/// The greatest size of uncompressed rows in bytes, 1 GiB, which is that of a packet of the server.
pub(crate) const MOST_BYTES: usize = 1_073_741_824;

// The bytes of a body, with others in place of so many last ones.
fn with_last(alloc: Global, body: &[u8], count: usize, others: &[u8]) -> Result<Vec<u8>, AllocError>
    ensures { IfOk result (λ bytes. bytes.items ≡ take (length body.now - count) body.now ++ others.now) }
{
    let front = &body[..body.len().saturating_sub(count)];
    let mut bytes = Vec::from_slice(alloc, front)?;
    bytes.extend_from_slice(others)?;
    Ok(bytes)
}

/// The body of the event that was compressed as this one: that of the compressed event, with the rows in place of the bytes that are
/// stored for them.
///
/// # Errors
///
/// Those of [`uncompress`]; the limit is 1 GiB.
pub(crate) fn uncompressed_body(
    alloc: Global,
    event: &EventRef<'_>,
    compressed: &RowsCompressedEvent<'_>,
) -> Result<Vec<u8>, CompressionError>
    ensures body { IfOk result (λ body. IsUncompressed (view_of event.now) compressed.now body.items) }
    ensures refused { IfErr result (λ e. Denies most_bytes e (event_in compressed.now.event).rows) }
{
    let stored = compressed.compressed_data();
    match uncompress(alloc, stored, MOST_BYTES) {
        Ok(rows) => match with_last(alloc, event.data(), stored.len(), rows.as_slice()) {
            Ok(body) => Ok(body),
            Err(_) => Err(CompressionError::Memory),
        },
        Err(error) => Err(error),
    }
}

// The type of the event that was compressed as one of this type.
fn uncompressed_type(event_type: u8) -> u8
    ensures { result ≡ uncompressed_type event_type }
{
    match event_type {
        166 => 23,
        167 => 24,
        168 => 25,
        169 => 30,
        170 => 31,
        _ => 32,
    }
}

/// Reads such a body as the data of the event that was compressed.
///
/// # Errors
///
/// Those of [`EventData::read`].
pub(crate) fn read_uncompressed<'a>(
    alloc: Global,
    event: &EventRef<'a>,
    body: &'a [u8],
) -> Result<Option<EventData<'a>>, Error>
    ensures { ReadsUncompressed (view_of event.now) body.now result }
{
    let event_type = uncompressed_type(event.header().event_type_raw());
    let context = BinlogCtx::new(BinlogEventHeader::LEN + body.len(), event.fde(), event_type);
    EventData::read(alloc, context, body)
}
