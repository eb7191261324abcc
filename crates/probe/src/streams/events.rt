//! Reads the body of each event of a binary log by the event's type, and writes it again. A line of JSON for each event has the raw type,
//! and `written`, the bytes that are written for the body, or `refused`, why the data is no such body; neither for an unknown type. That
//! of an error in the place of an event has `refused` alone. `tests/cases.py` compares the lines.
use crate::streams::event_lines::{write_error, write_event};
use binlog_file::{BinlogFile, BinlogVersion, Error, EventRef};
use json_line::Line;
use std::alloc::Global;
use std::io::{BufRead, Write};

/// Writes the line of each item of a log.
///
/// # Errors
///
/// Those of memory, of the reader and of the output. The lines before are written.
pub(crate) fn write_items<R: BufRead + Drop, W: Write>(
    alloc: Global,
    input: R,
    output: &mut W,
) -> Result<(), Error> {
    let mut file = BinlogFile::new(alloc, BinlogVersion::Version4, input)?;
    let mut line = Line::new(alloc);
    write_lines(alloc, &mut file, &mut line, output)
}

fn write_lines<R: BufRead + Drop, W: Write>(
    alloc: Global,
    file: &mut BinlogFile<R>,
    line: &mut Line,
    output: &mut W,
) -> Result<(), Error> {
    // Bounded, so that the loop is proved to end; borrowed events can't be given by an iterator.
    'items: for _ in 0..u64::MAX {
        let Some(item) = file.next_ref() else {
            return Ok(());
        };
        write_line(alloc, item, line, output)?;
    }
    Ok(())
}

fn write_line<W: Write>(
    alloc: Global,
    item: Result<EventRef<'_>, Error>,
    line: &mut Line,
    output: &mut W,
) -> Result<(), Error> {
    line.clear();
    match item {
        Ok(event) => write_event(alloc, event, line)?,
        Err(error) => write_error(alloc, error, line)?,
    }
    match output.write_all(line.end()?) {
        Ok(()) => Ok(()),
        Err(_) => Err(Error::Writer),
    }
}
