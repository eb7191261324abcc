//! A visitor that writes the line of each item.
ghost use Rattle.std.specs.Prelude.{◌≡◌, false};

use crate::item_lines::ItemLines;
use crate::output::write_line;
use crate::refusing::Refusing;
use crate::visitor::Visitor;
use binlog_file::{Error, EventRef, EventStreamReader, WriteCounted};
use std::alloc::Global;

/// Writes the line of each item that it visits, and notes errors. The output isn't flushed.
#[derive(Drop)]
pub struct LineWriter<L, W> {
    alloc: Global,
    lines: L,
    output: W,
    has_errors: bool,
}

impl<L: Drop, W> LineWriter<L, W> {
    /// Writes the lines that `lines` makes to the output.
    pub fn new(alloc: Global, lines: L, output: W) -> Self
        ensures lines { result.lines ≡ lines }
        ensures output { result.output ≡ output }
        ensures errors { result.has_errors ≡ false }
    {
        LineWriter {
            alloc,
            lines,
            output,
            has_errors: false,
        }
    }

    /// Whether an item so far was an error in the place of an event.
    pub fn has_errors(&self) -> bool
        ensures { result ≡ self.now.has_errors }
    {
        self.has_errors
    }

    /// The output.
    pub fn into_output(self) -> W
        ensures { result ≡ self.output }
    {
        self.output
    }
}

/// A visit writes the line of the item, and notes an error. It is refused with [`Error::Writer`] if the writer failed, which
/// then has a prefix of the line, or with [`Error::Memory`] if an allocation failed for the line; nothing is written then.
/// [`LineWriter::has_errors`] stays as it was.
impl<L: ItemLines, W: WriteCounted> Visitor for LineWriter<L, W> {
    ghost use Rattle.std.specs.Prelude.{◌≡◌, ◌||◌, Some, is_err};
    ghost use Rattle.binlog_visits.specs.LineVisits.{WritesItem, WritesNoItem};

    ghost visits = { λ old maps index item new.
        WritesItem L.line index item (W.contents old.output) (W.contents new.output) × (new.has_errors ≡ (old.has_errors || is_err item)) };

    ghost refuses = { λ old maps index item error new.
        WritesNoItem L.line L.takes index item (W.contents old.output) error (W.contents new.output) × (new.has_errors ≡ old.has_errors) };

    ghost count = { λ lines. Some (W.count lines.output) };

    #[inline(always)]
    fn visit_event(
        &mut self,
        index: u64,
        event: &EventRef<'_>,
        _reader: &EventStreamReader,
    ) -> Result<(), Error> {
        let line = self.lines.event_line(self.alloc, index, event)?;
        write_line(&mut self.output, line)
    }

    fn visit_error(
        &mut self,
        index: u64,
        error: &Error,
        _reader: &EventStreamReader,
    ) -> Result<(), Error> {
        let line = self.lines.error_line(self.alloc, index, error)?;
        write_line(&mut self.output, line)?;
        self.has_errors = true;
        Ok(())
    }
}

impl<L, W> Refusing for LineWriter<L, W> {
    fn refused(&self) -> u64 {
        0
    }
}
