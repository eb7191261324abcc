//! Writers that fail at each of their calls: the failure is returned, and nothing is written behind it.
use crate::bytes::{PLAIN_LINES, PLAIN_LOG, XID};
use crate::devices::{FailingWriter, Plan};
use crate::events::{count, description};
use binlog_file::{BinlogVersion, Error, Event};
use binlog_gtid_listing::list_gtids;
use binlog_listing::{list, list_slice};
use std::alloc::Global;
use std::io::{ErrorKind, Write};

/// GTIDs of a source, 1, 2 and 5; 1 under the tag `test`; and 0, which is no number of a GTID.
const GTIDS: &[u8] = b"\xfebin\
    \0\0\0\0\x21\x01\0\0\0\x2c\0\0\0\0\0\0\0\0\0\0\
    \xab\xab\xab\xab\xab\xab\xab\xab\xab\xab\xab\xab\xab\xab\xab\xab\x01\0\0\0\0\0\0\0\
    \0\0\0\0\x21\x01\0\0\0\x2c\0\0\0\0\0\0\0\0\0\0\
    \xab\xab\xab\xab\xab\xab\xab\xab\xab\xab\xab\xab\xab\xab\xab\xab\x02\0\0\0\0\0\0\0\
    \0\0\0\0\x21\x01\0\0\0\x2c\0\0\0\0\0\0\0\0\0\0\
    \xab\xab\xab\xab\xab\xab\xab\xab\xab\xab\xab\xab\xab\xab\xab\xab\x05\0\0\0\0\0\0\0\
    \0\0\0\0\x23\x01\0\0\0\x48\0\0\0\0\0\0\0\0\0\x01\x01\0\0\0\0\0\x01\
    \xab\xab\xab\xab\xab\xab\xab\xab\xab\xab\xab\xab\xab\xab\xab\xab\x08test\
    \x01\0\0\0\0\0\0\0\x01\0\0\0\0\0\0\0\x06\0\0\0\0\0\0\0\
    \0\0\0\0\x21\x01\0\0\0\x2c\0\0\0\0\0\0\0\0\0\0\
    \xab\xab\xab\xab\xab\xab\xab\xab\xab\xab\xab\xab\xab\xab\xab\xab\0\0\0\0\0\0\0\0\
    \0\0\0\0\x22\x01\0\0\0\x2c\0\0\0\0\0\0\0\0\0\0\
    \xab\xab\xab\xab\xab\xab\xab\xab\xab\xab\xab\xab\xab\xab\xab\xab\0\0\0\0\0\0\0\0";

/// Its listing.
const GTID_LINES: &[u8] = b"4 error E18\n\
    abababababababababababababababab 1-2,5 gaps 3-4\n\
    abababababababababababababababab:test 1-5 gaps -\n";

// A writer with room for all, whose call after this many fails.
fn failing(alloc: Global, taken: usize, kind: ErrorKind) -> FailingWriter {
    FailingWriter::new(alloc, usize::MAX, Plan::once(taken, kind))
}

/// What is written to a writer that counts nothing.
#[derive(Clone, Copy)]
enum Output {
    Event,
    Listing,
    SliceListing,
    Gtids,
}

// Writes it.
fn write<W: Write>(alloc: Global, what: Output, output: &mut W) -> Result<(), Error> {
    match what {
        Output::Event => write_event(alloc, output),
        Output::Listing => list(alloc, PLAIN_LOG, output).map(|_| ()),
        Output::SliceListing => list_slice(alloc, PLAIN_LOG, output).map(|_| ()),
        Output::Gtids => list_gtids(alloc, GTIDS, output).map(|_| ()),
    }
}

// Writes an event, whose checksum is its size.
fn write_event<W: Write>(alloc: Global, output: &mut W) -> Result<(), Error> {
    let mut input = XID;
    let event = Event::read(alloc, &description(alloc)?, &mut input)?;
    event.write(alloc, BinlogVersion::Version4, count, output)
}

// Whether these bytes are written, with this answer, and nothing is flushed.
fn is_written(
    alloc: Global,
    what: Output,
    mut output: FailingWriter,
    wanted: Option<&[u8]>,
    answer: Result<(), Error>,
) -> bool {
    let found = write(alloc, what, &mut output);
    let is_wanted = Some(output.written.as_slice()) == wanted;
    let flushes = output.flushes;
    drop(output);
    found == answer && is_wanted && flushes == 0
}

/// What is written, as bytes.
const OUTPUTS: [(Output, &[u8]); 4] = [
    (Output::Event, XID),
    (Output::Listing, PLAIN_LINES),
    (Output::SliceListing, PLAIN_LINES),
    (Output::Gtids, GTID_LINES),
];

#[test]
fn a_failed_write_is_returned(rt: HostRuntime) {
    for (what, bytes) in OUTPUTS {
        for taken in 0..=bytes.len() {
            let output = failing(rt.alloc(), taken, ErrorKind::Other);
            let answer = if taken < bytes.len() {
                Err(Error::Writer)
            } else {
                Ok(())
            };
            assert!(rt; is_written(rt.alloc(), what, output, bytes.get(..taken), answer));
        }
    }
}

/// What is written by calls that try an interrupted write again.
const TRIED_AGAIN: [(Output, &[u8]); 3] = [
    (Output::Event, XID),
    (Output::Listing, PLAIN_LINES),
    (Output::SliceListing, PLAIN_LINES),
];

#[test]
fn an_interrupted_write_is_tried_again(rt: HostRuntime) {
    let kind = ErrorKind::Interrupted;
    for (what, bytes) in TRIED_AGAIN {
        for taken in 0..bytes.len() {
            let output = failing(rt.alloc(), taken, kind);
            assert!(rt; is_written(rt.alloc(), what, output, Some(bytes), Ok(())));
        }
    }
}

// What is in five bytes of room behind a listing, if the want of room is returned.
fn fills_room(alloc: Global) -> Option<[u8; 5]> {
    let mut output = [0; 5];
    let mut room = output.as_mut_slice();
    match list(alloc, PLAIN_LOG, &mut room) {
        Err(Error::Writer) => Some(output),
        _ => None,
    }
}

#[test]
fn a_writer_that_takes_nothing_has_failed(rt: HostRuntime) {
    assert!(rt; fills_room(rt.alloc()) == Some(*b"0 16 "));
}
