//! Modes that read the whole standard input:
//!
//! - `probe events` reads the body of each event of a binary log by its type, and writes it again: a line of JSON for each item.
//! - `probe slice-listing` lists the log as `binlog_list` does, but takes it into memory first and reads it as a slice;
//!   `probe slice-listing memory` only takes it into memory. The exit status is that of `binlog_list`.
//! - `probe inflate` writes the text of a zlib stream, or the name of its refusal on standard error, and `probe zstd` does so with the
//!   content of Zstandard frames. The exit status is 0, 1 for a refusal, or 2 where input, output or memory failed.
//! - `probe frames` answers questions of Zstandard frames, each the most bytes of content, the number of bytes of the frames, both as
//!   eight bytes, the least first, and the frames. An answer is a line, the number of bytes of the content, and the content; or the
//!   name of the refusal alone.
pub(crate) mod compressed;
pub(crate) mod event_lines;
pub(crate) mod events;
pub(crate) mod frames;
pub(crate) mod slice_listing;

use std::alloc::Global;
use std::io::{BufRead, Write};

/// What is done with the input.
#[derive(Clone, Copy)]
pub(crate) enum Mode {
    Events,
    SliceListing { is_listed: bool },
    Frames,
}

/// The mode of this name, behind which a word stands or none; None if there is none.
pub(crate) fn mode_of(name: &str, has_word: bool) -> Option<Mode> {
    match name {
        "events" => Some(Mode::Events),
        "slice-listing" => Some(Mode::SliceListing {
            is_listed: !has_word,
        }),
        "frames" => Some(Mode::Frames),
        _ => None,
    }
}

/// Runs a mode. The result is the exit status.
pub(crate) fn run<R: BufRead + Drop, W: Write>(
    alloc: Global,
    mode: Mode,
    input: R,
    output: &mut W,
) -> u8 {
    match mode {
        Mode::Events => crate::status(events::write_items(alloc, input, output).is_ok()),
        Mode::SliceListing { is_listed } => slice_listing::run(alloc, is_listed, input, output),
        Mode::Frames => crate::status(frames::write_answers(alloc, input, output).is_ok()),
    }
}
