//! How to list the GTIDs of a log.
use binlog_file::{BinlogFile, BinlogVersion, Error, EventRef, EventType, GtidEvent};
use std::alloc::Global;
use std::io::{BufRead, Write};
use uuid::Uuid;

/// Writes a line for each transaction of a log that has a GTID: the source's UUID, the tag if there is one, and the
/// transaction number, separated by colons.
///
/// # Errors
///
/// Those of [`BinlogFile`] and of reading a GTID event; [`Error::Writer`] if the writer failed.
pub fn list_gtids<R: BufRead + Drop, W: Write>(
    alloc: Global,
    input: R,
    output: &mut W,
) -> Result<(), Error> {
    let mut file = BinlogFile::new(alloc, BinlogVersion::Version4, input)?;
    list_items(alloc, &mut file, output)
}

// Writes the lines of the items that are left in a file.
fn list_items<R: BufRead + Drop, W: Write>(
    alloc: Global,
    file: &mut BinlogFile<R>,
    output: &mut W,
) -> Result<(), Error> {
    // Bounded, so that the loop is proved to end; borrowed events can't be given by an iterator.
    'items: for _ in 0..u64::MAX {
        let Some(item) = file.next_ref() else {
            return Ok(());
        };
        list_gtid(alloc, item?, output)?;
    }
    Ok(())
}

// Writes a line for an event if it is the GTID of a transaction.
fn list_gtid<W: Write>(alloc: Global, event: EventRef<'_>, output: &mut W) -> Result<(), Error> {
    match event.header().event_type() {
        Ok(EventType::GTID_EVENT | EventType::GTID_TAGGED_LOG_EVENT) => {
            write_gtid(&event.read_event(alloc)?, output)
        }
        _ => Ok(()),
    }
}

fn write_gtid<W: Write>(gtid: &GtidEvent, output: &mut W) -> Result<(), Error> {
    let source = Uuid::from_bytes(gtid.sid());
    let number = gtid.gno();
    let written = match gtid.tag() {
        Some(tag) => writeln!(output, "{source}:{}:{number}", tag.as_str()),
        None => writeln!(output, "{source}:{number}"),
    };
    written.map_err(|_| Error::Writer)
}
