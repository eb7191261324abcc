//! Readers that fail.
use crate::devices::{FailingReader, Plan};
use binlog_ends::{Counted, CountsFailures, Failed, ReadCounted, SliceReader};
use std::io::ErrorKind;

const BYTES: &[u8] = b"abcd";

// Reads to the end, after each failure as well. Returns the bytes, their number, and how many had been read before the
// last failure.
fn read_all<R: ReadCounted>(input: &mut R) -> ([u8; 4], usize, Option<usize>) {
    let mut bytes = [0; 4];
    let mut len = 0;
    let mut failed_behind = None;
    for _ in 0..12 {
        let mut piece = [0; 3];
        match input.read_some(&mut piece) {
            Ok(count) => {
                for byte in &piece[..count] {
                    if len < 4 {
                        bytes[len] = *byte;
                        len += 1;
                    }
                }
            }
            Err(Failed) => failed_behind = Some(len),
        }
    }
    (bytes, len, failed_behind)
}

// Whether a borrowed reader gives all bytes if some calls fail after so many, and the reader counts the failures. An empty buffer
// asks it for nothing.
fn loses_nothing(calls_before: usize, failures: usize, kind: ErrorKind) -> bool {
    let plan = Plan {
        calls_before,
        failures,
        kind,
    };
    let mut input = Counted::new(FailingReader::new(BYTES, 1, plan));
    let none = (
        input.read_some(&mut []),
        input.failures(),
        input.last_failure(),
    );
    let read = read_all(&mut &mut input);
    let counted = (
        input.failures(),
        input.last_failure(),
        input.get_ref().left(),
    );
    drop(input);
    none == (Ok(0), 0, None)
        && read == (*b"abcd", 4, Some(calls_before.min(4)))
        && counted == (failures as u64, Some(kind), 0)
}

#[test]
fn a_failure_takes_no_byte_wherever_it_comes(rt: HostRuntime) {
    for calls_before in 0..6 {
        assert!(rt; loses_nothing(calls_before, 1, ErrorKind::BrokenPipe));
    }
}

#[test]
fn an_interruption_is_a_failure(rt: HostRuntime) {
    assert!(rt; loses_nothing(0, 2, ErrorKind::Interrupted));
}

// Whether a slice is read to its end, without a failure.
fn is_slice_read() -> bool {
    let mut input = SliceReader::new(BYTES);
    let read = read_all(&mut input);
    let is_at_end = input.rest().is_empty();
    let failures = input.failures();
    drop(input);
    read == (*b"abcd", 4, None) && is_at_end && failures == 0
}

#[test]
fn a_slice_is_read_in_pieces(rt: HostRuntime) {
    assert!(rt; is_slice_read());
}
