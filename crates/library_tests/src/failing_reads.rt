//! Readers that fail at each of their calls, and what is answered behind a failure.
use crate::bytes::{LOG, XID};
use crate::devices::{FailingReader, Plan};
use binlog_file::{
    BinlogFileOf, BinlogVersion, Counted, CountsFailures, EventStreamReader, ReadCounted,
    Unverified,
};
use std::alloc::Global;
use std::io::ErrorKind;

/// The sizes of the log's parts: the file header, the description, and the event.
const HEADER_END: usize = 4;

const DESCRIPTION_END: usize = 85;

const EVENT_END: usize = 116;

// The number of the error of a stream's next event, or 0, and how many failures are counted.
fn stream_refusal(alloc: Global, input: FailingReader<'_>) -> (u8, u64) {
    let mut input = Counted::new(input);
    let mut reader = EventStreamReader::new(alloc, BinlogVersion::Version4);
    let number = match reader.read_counted(&mut input) {
        Ok(event) => {
            drop(event);
            0
        }
        Err(error) => error.number(),
    };
    let failures = input.failures();
    drop(input);
    drop(reader);
    (number, failures)
}

/// An event of 19 bytes: a header without a body.
const BARE: &[u8] = b"\0\0\0\0\x03\x01\0\0\0\x13\0\0\0\0\0\0\0\0\0";

/// Events, how many bytes a reader shows at a time, and how many calls it takes to show a header and what is behind it. A call more would
/// fail.
const SHOWN: [(&[u8], usize, usize); 6] = [
    (XID, 1, 31),
    (XID, 19, 2),
    (XID, 1000, 2),
    (BARE, 1, 19),
    (BARE, 19, 1),
    (BARE, 1000, 1),
];

// A reader over a socket would block there.
#[test]
fn no_reader_is_called_behind_an_event(rt: HostRuntime) {
    for (bytes, most, calls) in SHOWN {
        let plan = Plan::once(calls, ErrorKind::WouldBlock);
        let input = FailingReader::new(bytes, most, plan);
        assert!(rt; stream_refusal(rt.alloc(), input) == (0, 0));
    }
}

/// The type of an event, or the number of an error; None at the end.
type Kind = Option<Result<u8, u8>>;

// The next item of a file.
fn next_kind<R: ReadCounted + Drop>(file: &mut BinlogFileOf<R, Unverified>) -> Kind {
    match file.next_ref() {
        Some(Ok(event)) => Some(Ok(event.header().event_type_raw())),
        Some(Err(error)) => Some(Err(error.number())),
        None => None,
    }
}

// The first four items of a file. The error of the file header is in the place of the first item.
fn kinds_of<R: ReadCounted + Drop>(alloc: Global, input: R) -> [Kind; 4] {
    let mut kinds = [None; 4];
    match BinlogFileOf::new_counted(alloc, BinlogVersion::Version4, input) {
        Ok(mut file) => {
            for slot in kinds.iter_mut() {
                *slot = next_kind(&mut file);
            }
        }
        Err(error) => kinds[0] = Some(Err(error.number())),
    }
    kinds
}

// The first four items of a log, and how many failures are counted.
fn items_of(alloc: Global, input: FailingReader<'_>) -> ([Kind; 4], u64) {
    let mut input = Counted::new(input);
    let kinds = kinds_of(alloc, &mut input);
    let failures = input.failures();
    drop(input);
    (kinds, failures)
}

// What these are if the reader fails behind so many bytes. Between events it is tried again; within one nothing follows.
fn wanted(taken: usize) -> [Kind; 4] {
    let (description, xid) = (Some(Ok(15)), Some(Ok(16)));
    let (between, within) = (Some(Err(14)), Some(Err(15)));
    match taken {
        0..HEADER_END => [between, None, None, None],
        HEADER_END => [between, description, xid, None],
        5..DESCRIPTION_END => [within, None, None, None],
        DESCRIPTION_END => [description, between, xid, None],
        86..EVENT_END => [description, within, None, None],
        _ => [description, xid, between, None],
    }
}

#[test]
fn a_failure_at_each_call_is_one_item(rt: HostRuntime) {
    for kind in [ErrorKind::Other, ErrorKind::Interrupted] {
        for taken in 0..=EVENT_END {
            let input = FailingReader::new(LOG, 1, Plan::once(taken, kind));
            assert!(rt; items_of(rt.alloc(), input) == (wanted(taken), 1));
        }
    }
}

/// How many bytes a reader shows of the log at a time, and how many calls it takes: one for the file header, one for the first header, and
/// then those for all else.
const SHOWN_OF_LOG: [(usize, usize); 2] = [(19, 7), (1000, 3)];

// The failing call comes when an item behind the last event is asked for.
#[test]
fn no_reader_is_called_behind_the_last_event(rt: HostRuntime) {
    for (most, calls) in SHOWN_OF_LOG {
        let plan = Plan::once(calls, ErrorKind::WouldBlock);
        let input = FailingReader::new(LOG, most, plan);
        assert!(rt; items_of(rt.alloc(), input) == (wanted(EVENT_END), 1));
    }
}
