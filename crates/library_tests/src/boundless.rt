//! Events that state more bytes than come; the bytes come 20 at a time. `tests/allocations.py` watches how memory grows.
use crate::devices::{FailingReader, Plan};
use crate::events::description;
use binlog_file::{BinlogVersion, Error, Event, EventStreamReader};
use std::alloc::Global;
use std::io::ErrorKind;

/// The header of an event that states 4,294,967,295 bytes, and 81 bytes of it.
const EVENT: &[u8] =
    b"\0\0\0\0\x02\x01\0\0\0\xff\xff\xff\xff\0\0\0\0\0\0\0\0\0\0\0\0\0\0\0\0\0\0\0\0\0\0\0\0\0\0\0\0\0\
    \0\0\0\0\0\0\0\0\0\0\0\0\0\0\0\0\0\0\0\0\0\0\0\0\0\0\0\0\0\0\0\0\0\0\0\0\0\0\0\0\0\0\0\0\0\0\0\0\
    \0\0\0\0\0\0\0\0\0\0";

// A reader of it that never fails.
fn pieces() -> FailingReader<'static> {
    FailingReader::new(EVENT, 20, Plan::once(usize::MAX, ErrorKind::Other))
}

// The length of the event's data, read by itself.
fn read_alone(alloc: Global) -> Result<usize, Error> {
    let mut input = pieces();
    let event = Event::read(alloc, &description(alloc)?, &mut input)?;
    Ok(event.data().len())
}

// Whether a stream has an event.
fn read_from_stream(alloc: Global) -> Result<bool, Error> {
    let mut input = pieces();
    let mut reader = EventStreamReader::new(alloc, BinlogVersion::Version4);
    Ok(reader.read(&mut input)?.is_some())
}

#[test]
fn boundless_events_are_not_read(rt: HostRuntime) {
    assert!(rt; read_alone(rt.alloc()) == Err(Error::EndOfInput));
    assert!(rt; read_from_stream(rt.alloc()) == Err(Error::EndOfInput));
}
