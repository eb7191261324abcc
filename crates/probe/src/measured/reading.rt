//! Counting the events of a log.
use crate::measured::numbers::write_numbers;
use binlog_file::{BinlogFile, BinlogSlice, BinlogVersion, Error};
use std::alloc::Global;
use std::io::{BufRead, Read, Write};

/// How events are read.
#[derive(Clone, Copy)]
pub(crate) enum Way {
    /// Borrowed from a file.
    Borrowed,
    /// Owned.
    Owned,
    /// Of a slice, which is the log in memory.
    Slice,
    /// Not at all: the log is only taken into memory.
    Memory,
}

/// Writes the number of events of a log, read in this way; None if the reader, memory or the writer fails, or an item is an error.
pub(crate) fn write_count<R: BufRead + Drop, W: Write>(
    alloc: Global,
    input: R,
    way: Way,
    output: &mut W,
) -> Option<()> {
    let count = count(alloc, input, way)?;
    write_numbers(&[count], output).ok()
}

fn count<R: BufRead + Drop>(alloc: Global, input: R, way: Way) -> Option<u64> {
    match way {
        Way::Borrowed => count_borrowed(alloc, input),
        Way::Owned => count_owned(alloc, input),
        Way::Slice => count_in_memory(alloc, input, true),
        Way::Memory => count_in_memory(alloc, input, false),
    }
}

fn count_borrowed<R: BufRead + Drop>(alloc: Global, input: R) -> Option<u64> {
    match BinlogFile::new(alloc, BinlogVersion::Version4, input) {
        Ok(mut file) => count_events(&mut file),
        Err(_) => None,
    }
}

fn count_events<R: BufRead + Drop>(file: &mut BinlogFile<R>) -> Option<u64> {
    // Bounded, so that the loop is proved to end; borrowed events can't be given by an iterator.
    'events: for count in 0..u64::MAX {
        match file.next_ref() {
            Some(Ok(_)) => {}
            Some(Err(_)) => return None,
            None => return Some(count),
        }
    }
    None
}

fn count_owned<R: BufRead + Drop>(alloc: Global, input: R) -> Option<u64> {
    match BinlogFile::new(alloc, BinlogVersion::Version4, input) {
        Ok(file) => count_items(file),
        Err(_) => None,
    }
}

fn count_items<R: BufRead + Drop>(file: BinlogFile<R>) -> Option<u64> {
    let mut count: u64 = 0;
    for item in file.items() {
        if !is_read(item) {
            return None;
        }
        count = count.checked_add(1)?;
    }
    Some(count)
}

// Whether an item is no error.
fn is_read<T: Drop>(item: Result<T, Error>) -> bool {
    item.is_ok()
}

// Takes the log into memory, and counts the events of its slice, or none.
fn count_in_memory<R: BufRead + Drop>(alloc: Global, mut input: R, is_read: bool) -> Option<u64> {
    let mut bytes = Vec::new(alloc);
    input.read_to_end(&mut bytes).ok()?;
    if is_read {
        count_in_slice(&bytes)
    } else {
        Some(0)
    }
}

fn count_in_slice(bytes: &[u8]) -> Option<u64> {
    let mut count: u64 = 0;
    for item in BinlogSlice::new(BinlogVersion::Version4, bytes).ok()? {
        item.ok()?;
        count = count.checked_add(1)?;
    }
    Some(count)
}
