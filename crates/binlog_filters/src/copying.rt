//! A visitor that copies events.
ghost use Rattle.std.specs.Prelude.{◌≡◌};

use binlog_file::{CountedRef, Error, EventRef, EventStreamReader};
use binlog_visits::{Refusing, Visitor, write_line};
use std::io::Write;

/// Writes all bytes of each event that it is shown, and nothing for an error. The output isn't flushed.
#[derive(Drop)]
pub struct Copier<W> {
    /// The output.
    pub output: W,
}

/// A visit of an event writes its bytes. It is refused with [`Error::Writer`] if the writer failed, which then has a
/// prefix of the bytes.
impl<W: Write> Visitor for Copier<W> {
    ghost use Rattle.binlog_filters.specs.Copying.{CopiesItem, CopiesNoItem};

    ghost visits = { λ old maps index item new. CopiesItem item (W.contents old.output) (W.contents new.output) };

    ghost refuses = { λ old maps index item error new. CopiesNoItem item (W.contents old.output) error (W.contents new.output) };

    fn visit_event(
        &mut self,
        _index: u64,
        event: &EventRef<'_>,
        _reader: &EventStreamReader,
    ) -> Result<(), Error> {
        let mut output = CountedRef::new(&mut self.output);
        write_line(&mut output, event.frame())
    }

    fn visit_error(
        &mut self,
        _index: u64,
        _error: &Error,
        _reader: &EventStreamReader,
    ) -> Result<(), Error> {
        Ok(())
    }
}

impl<W> Refusing for Copier<W> {
    fn refused(&self) -> u64 {
        0
    }
}
