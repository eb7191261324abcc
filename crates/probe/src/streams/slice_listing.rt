//! Lists a binary log as `binlog_list` does, but takes it into memory first and reads it as a slice. A test compares the two, and the
//! benchmark measures this one.
use binlog_file::Error;
use binlog_listing::list_slice;
use std::alloc::Global;
use std::io::{Read, Write};

// The whole input.
fn read_log<R: Read + Drop>(alloc: Global, mut input: R) -> Result<Vec<u8>, Error> {
    let mut log = Vec::new(alloc);
    if input.read_to_end(&mut log).is_err() {
        return Err(Error::Reader);
    }
    Ok(log)
}

// Takes the log into memory, and lists it.
fn list<R: Read + Drop, W: Write>(
    alloc: Global,
    is_listed: bool,
    input: R,
    output: &mut W,
) -> Result<bool, Error> {
    let log = read_log(alloc, input)?;
    if !is_listed {
        return Ok(false);
    }
    list_slice(alloc, &log, output)
}

/// Lists the log, or only takes it into memory. The result is the exit status of `list`.
pub(crate) fn run<R: Read + Drop, W: Write>(
    alloc: Global,
    is_listed: bool,
    input: R,
    output: &mut W,
) -> u8 {
    let answer = list(alloc, is_listed, input, &mut *output);
    crate::listing_status(answer, output)
}
