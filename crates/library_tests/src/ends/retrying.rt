//! Calls that are interrupted.
use crate::devices::{FailingReader, FailingWriter, Plan};
use binlog_ends::{ATTEMPTS, Counted, CountsFailures, ReadCounted, Retrying, WriteCounted};
use std::alloc::Global;
use std::io::{ErrorKind, Read};

// After this many calls, this many in a row are interrupted.
fn interrupted(calls_before: usize, failures: usize) -> Plan {
    Plan {
        calls_before,
        failures,
        kind: ErrorKind::Interrupted,
    }
}

// The number of bytes that are read of three up to the end, the number of failures, and the kind of the last one, under
// this plan.
fn reads(plan: Plan) -> (usize, u64, Option<ErrorKind>) {
    let mut input = Counted::new(Retrying::new(FailingReader::new(b"abc", 1, plan)));
    let mut len: usize = 0;
    for _ in 0..10 {
        if let Ok(count) = input.read_some(&mut [0; 4]) {
            len = len.saturating_add(count);
        }
    }
    let (failures, last) = (input.failures(), input.last_failure());
    drop(input);
    (len, failures, last)
}

#[test]
fn interrupted_reads_are_tried_again(rt: HostRuntime) {
    for calls_before in 0..4 {
        assert!(rt; reads(interrupted(calls_before, ATTEMPTS - 1)) == (3, 0, None));
    }
}

#[test]
fn too_many_interruptions_in_a_row_are_a_failure(rt: HostRuntime) {
    let last = Some(ErrorKind::Interrupted);
    for calls_before in 0..4 {
        assert!(rt; reads(interrupted(calls_before, ATTEMPTS)) == (3, 1, last));
    }
}

#[test]
fn another_failure_is_not_tried_again(rt: HostRuntime) {
    let plan = Plan {
        calls_before: 1,
        failures: 2,
        kind: ErrorKind::BrokenPipe,
    };
    assert!(rt; reads(plan) == (3, 2, Some(ErrorKind::BrokenPipe)));
}

// The number of bytes that are read by a call that is interrupted, and the bytes.
fn first_read(plan: Plan) -> (usize, [u8; 2]) {
    let mut input = Retrying::new(FailingReader::new(b"abc", 1, plan));
    let mut piece = [0; 2];
    let count = input.read(&mut piece).unwrap_or(9);
    drop(input);
    (count, piece)
}

#[test]
fn a_read_without_a_buffer_is_tried_again(rt: HostRuntime) {
    assert!(rt; first_read(interrupted(0, ATTEMPTS - 1)) == (1, *b"a\0"));
}

// Writes four bytes and flushes under this plan. Returns whether each was Ok, the number of failures, and whether these bytes
// were written.
fn writes(alloc: Global, plan: Plan, wanted: &[u8]) -> (bool, bool, u64, bool) {
    let mut output = Counted::new(Retrying::new(FailingWriter::new(alloc, 4, plan)));
    let is_whole = output.write_whole(b"abcd") == Ok(());
    let is_flushed = output.flush_counted() == Ok(());
    let failures = output.failures();
    let is_written = output.get_ref().get_ref().written.as_slice() == wanted;
    drop(output);
    (is_whole, is_flushed, failures, is_written)
}

// The call that is interrupted is one of the four writes, or the flush.
#[test]
fn interrupted_writes_are_tried_again(rt: HostRuntime) {
    for calls_before in 0..5 {
        let answers = writes(rt.alloc(), interrupted(calls_before, ATTEMPTS - 1), b"abcd");
        assert!(rt; answers == (true, true, 0, true));
    }
}

#[test]
fn too_many_interruptions_of_a_writer_are_a_failure(rt: HostRuntime) {
    for calls_before in 0..5 {
        let front = &b"abcd"[..calls_before];
        let answers = writes(rt.alloc(), interrupted(calls_before, ATTEMPTS), front);
        assert!(rt; answers == (calls_before == 4, calls_before < 4, 1, true));
    }
}
