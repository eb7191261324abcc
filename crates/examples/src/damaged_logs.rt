//! How to read a log that may be damaged in part.
use binlog_file::{BinlogFile, BinlogVersion, Error};
use std::alloc::Global;
use std::io::BufRead;

/// What was found in a log.
#[derive(Clone, Copy, Debug, Default, PartialEq, Eq)]
pub struct Findings {
    /// The number of events that could be read.
    pub events: u64,
    /// The number of damaged events. After each the file goes on with the next event.
    pub damaged: u64,
    /// Whether an event states an impossible size, so that no event can be found after it.
    pub is_broken_off: bool,
}

/// Reads a log to its end, and counts the events that can be read and those that are damaged.
///
/// # Errors
///
/// - [`Error::EndOfInput`] and [`Error::InvalidFileHeader`] if the input isn't a binary log.
/// - [`Error::Memory`] and [`Error::FrameMemory`] if memory ran out, [`Error::Reader`] and [`Error::ReaderInFrame`] if
///   the reader failed.
pub fn examine<R: BufRead + Drop>(alloc: Global, input: R) -> Result<Findings, Error> {
    let file = BinlogFile::new(alloc, BinlogVersion::Version4, input)?;
    let mut findings = Findings::default();
    for item in file.items() {
        match item {
            Ok(_) => findings.events = findings.events.saturating_add(1),
            Err(error) => findings.note(error)?,
        }
    }
    Ok(findings)
}

impl Findings {
    // Notes an error that is an item.
    fn note(&mut self, error: Error) -> Result<(), Error> {
        match error {
            // The event is damaged. The file goes on with the next one.
            Error::TooShortForChecksum | Error::EndOfBody | Error::InvalidData(_) => {
                self.damaged = self.damaged.saturating_add(1);
            }
            // The file gives no item after it.
            Error::EventSizeTooSmall(_) => self.is_broken_off = true,
            // Memory ran out, or the reader failed.
            error => return Err(error),
        }
        Ok(())
    }
}
