//! How to copy some events of a log into another log.
use binlog_file::{BinlogFile, BinlogFileHeader, BinlogVersion, Error, EventRef, EventType};
use crc32_ieee::Crc32;
use std::alloc::Global;
use std::io::{BufRead, Write};

/// Writes a file header, and copies the format descriptions of a log and its events of these types. Each checksum is
/// recomputed.
///
/// # Errors
///
/// Those of [`BinlogFile`] and of writing an event. What was copied before the error has been written.
pub fn copy_events<R: BufRead + Drop, W: Write>(
    alloc: Global,
    input: R,
    types: &[EventType],
    output: &mut W,
) -> Result<(), Error> {
    let mut file = BinlogFile::new(alloc, BinlogVersion::Version4, input)?;
    BinlogFileHeader.write(BinlogVersion::Version4, output)?;
    copy_items(alloc, &mut file, types, output)
}

// Copies the items that are left in a file.
fn copy_items<R: BufRead + Drop, W: Write>(
    alloc: Global,
    file: &mut BinlogFile<R>,
    types: &[EventType],
    output: &mut W,
) -> Result<(), Error> {
    let crc32 = Crc32::new();
    // Bounded, so that the loop is proved to end; borrowed events can't be given by an iterator.
    'items: for _ in 0..u64::MAX {
        let Some(item) = file.next_ref() else {
            return Ok(());
        };
        copy_event(alloc, &crc32, item?, types, output)?;
    }
    Ok(())
}

// Copies an event if it is of these types, or a format description.
fn copy_event<W: Write>(
    alloc: Global,
    crc32: &Crc32,
    event: EventRef<'_>,
    types: &[EventType],
    output: &mut W,
) -> Result<(), Error> {
    if !is_copied(event.header().event_type().ok(), types) {
        return Ok(());
    }
    let checksum = |bytes: &[u8]| crc32.checksum(bytes);
    event.write(alloc, BinlogVersion::Version4, checksum, output)
}

// Whether events of this type are copied. Events of an unknown type aren't.
fn is_copied(event_type: Option<EventType>, types: &[EventType]) -> bool {
    match event_type {
        Some(EventType::FORMAT_DESCRIPTION_EVENT) => true,
        Some(event_type) => types.contains(&event_type),
        None => false,
    }
}
