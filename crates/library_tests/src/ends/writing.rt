//! Writers that fail, and writers that take a part of the bytes.
use crate::devices::{FailingWriter, Plan};
use binlog_ends::{Counted, CountsFailures, WriteCounted};
use std::alloc::Global;
use std::io::ErrorKind;

/// Whether two writes and a flush were Ok, whether the wanted bytes were written, the number of failures, and the kind of the
/// last one.
type Answers = ([bool; 3], bool, u64, Option<ErrorKind>);

// Whether each call was Ok: a write of four bytes, one of four others, and a flush.
fn calls<W: WriteCounted>(output: &mut W) -> [bool; 3] {
    [
        output.write_whole(b"abcd") == Ok(()),
        output.write_whole(b"efgh") == Ok(()),
        output.flush_counted() == Ok(()),
    ]
}

/// After how many calls one fails, how much room there is, what is to be written, and the answers.
type Row = (usize, usize, &'static [u8], Answers);

// Makes these calls of a borrowed writer.
fn answers(alloc: Global, row: &Row) -> Answers {
    let plan = Plan::once(row.0, ErrorKind::BrokenPipe);
    let mut output = Counted::new(FailingWriter::new(alloc, row.1, plan));
    let are_ok = calls(&mut &mut output);
    let (failures, last) = (output.failures(), output.last_failure());
    let device = output.into_inner();
    let is_written = device.written.as_slice() == row.2;
    drop(device);
    (are_ok, is_written, failures, last)
}

const PIPE: Option<ErrorKind> = Some(ErrorKind::BrokenPipe);

const ZERO: Option<ErrorKind> = Some(ErrorKind::WriteZero);

/// Writers that don't fail and that are full, and then such that fail, which stops the call.
const ROWS: &[Row] = &[
    (9, 8, b"abcdefgh", ([true, true, true], true, 0, None)),
    (9, 3, b"abc", ([false, false, true], true, 2, ZERO)),
    (0, 8, b"efgh", ([false, true, true], true, 1, PIPE)),
    (3, 8, b"abcefgh", ([false, true, true], true, 1, PIPE)),
    (4, 8, b"abcd", ([true, false, true], true, 1, PIPE)),
    (7, 8, b"abcdefg", ([true, false, true], true, 1, PIPE)),
    (8, 8, b"abcdefgh", ([true, true, false], true, 1, PIPE)),
];

#[test]
fn writers_take_parts_and_fail(rt: HostRuntime) {
    for row in ROWS {
        assert!(rt; answers(rt.alloc(), row) == row.3);
    }
}
