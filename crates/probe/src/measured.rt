//! Modes that the benchmark measures:
//!
//! - `probe maria-gtids` prints a line of sums over the fields of MariaDB's GTIDs.
//! - `probe reading` prints the number of events, which it borrows from a file; `probe reading owned` owns them, as a program that
//!   keeps events does; `probe reading slice` takes the log into memory, and reads the events of the slice; `probe reading memory`
//!   only takes the log into memory.
//! - `probe row-sums` prints a line of sums over the values of rows.
//! - `probe typed` prints a line of sums over the fields of statements and their status variables, GTIDs, table maps and row
//!   events.
//! - `probe verifying` lists the log with its checksums verified, which are CRC-32; `probe verifying count` prints the number of
//!   events whose checksum isn't right. The exit status is that of a listing.
//! - `probe write-back` writes the log back, with each checksum recomputed.
mod maria_gtids;
mod numbers;
mod reading;
mod rows;
mod typed;
mod verifying;

use examples::copying::write_back;
use reading::Way;
use std::alloc::Global;
use std::io::{BufRead, Write};

/// What is measured.
#[derive(Clone, Copy)]
pub(crate) enum Mode {
    MariaGtids,
    Reading(Way),
    RowSums,
    Typed,
    Verifying { counts: bool },
    WriteBack,
}

/// The mode of this name, behind which this word stands; None if there is none.
pub(crate) fn mode_of(name: &str, word: Option<&str>) -> Option<Mode> {
    match name {
        "maria-gtids" => Some(Mode::MariaGtids),
        "reading" => way_of(word.unwrap_or("borrowed")).map(Mode::Reading),
        "row-sums" => Some(Mode::RowSums),
        "typed" => Some(Mode::Typed),
        "verifying" => Some(Mode::Verifying {
            counts: word.is_some(),
        }),
        "write-back" => Some(Mode::WriteBack),
        _ => None,
    }
}

fn way_of(word: &str) -> Option<Way> {
    match word {
        "borrowed" => Some(Way::Borrowed),
        "owned" => Some(Way::Owned),
        "slice" => Some(Way::Slice),
        "memory" => Some(Way::Memory),
        _ => None,
    }
}

/// Runs a mode over a log. The result is the exit status.
pub(crate) fn run<R: BufRead + Drop, W: Write>(
    alloc: Global,
    mode: Mode,
    input: R,
    output: &mut W,
) -> u8 {
    match mode {
        Mode::MariaGtids => crate::status(maria_gtids::write_sums(alloc, input, output).is_ok()),
        Mode::Reading(way) => crate::status(reading::write_count(
            alloc, input, way, output,
        ).is_some()),
        Mode::RowSums => crate::status(rows::write_sums(alloc, input, output).is_ok()),
        Mode::Typed => crate::status(typed::write_sums(alloc, input, output).is_ok()),
        Mode::Verifying { counts: true } => verifying::count(alloc, input, output),
        Mode::Verifying { counts: false } => verifying::list(alloc, input, output),
        Mode::WriteBack => crate::status(write_back(alloc, input, output).is_ok()),
    }
}
