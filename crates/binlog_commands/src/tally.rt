//! A visitor that counts what it is shown.
ghost use Rattle.std.specs.Prelude.{◌≡◌};
ghost use Rattle.binlog_commands.specs.Counting.{none_counted, with_cut};

use binlog_file::{Error, EventRef, EventStreamReader};
use binlog_visits::{Refusing, Visitor};

/// Counts the events of a log, their bytes, their checksums, and the errors in the places of events. A count stays at
/// 2^64 - 1.
#[derive(Clone, Copy, Debug, PartialEq, Eq, Default)]
pub struct Tally {
    /// The number of events.
    pub events: u64,
    /// The number of their bytes.
    pub bytes: u64,
    /// The number of events with a checksum.
    pub checksums: u64,
    /// The number of errors in the places of events.
    pub errors: u64,
}

impl Tally {
    /// Nothing is counted yet.
    pub fn new() -> Self
        ensures { result ≡ none_counted }
    {
        Tally {
            events: 0,
            bytes: 0,
            checksums: 0,
            errors: 0,
        }
    }

    /// The same counts, with one error more if the end of the log cuts an event.
    pub fn with_cut(self, is_cut: bool) -> Self
        ensures { result ≡ with_cut is_cut self }
    {
        if !is_cut {
            return self;
        }
        Tally {
            errors: self.errors.saturating_add(1),
            ..self
        }
    }
}

/// A visit counts the item, and is never refused.
impl Visitor for Tally {
    ghost use Rattle.binlog_commands.specs.Counting.{Counts, IsNever};

    ghost visits = { λ old maps index item new. Counts old item new };

    ghost refuses = { λ old maps index item error new. IsNever };

    fn visit_event(
        &mut self,
        _index: u64,
        event: &EventRef<'_>,
        _reader: &EventStreamReader,
    ) -> Result<(), Error> {
        self.events = self.events.saturating_add(1);
        self.bytes = self.bytes.saturating_add(event.frame().len() as u64);
        if event.checksum().is_some() {
            self.checksums = self.checksums.saturating_add(1);
        }
        Ok(())
    }

    fn visit_error(
        &mut self,
        _index: u64,
        _error: &Error,
        _reader: &EventStreamReader,
    ) -> Result<(), Error> {
        self.errors = self.errors.saturating_add(1);
        Ok(())
    }
}

impl Refusing for Tally {
    fn refused(&self) -> u64 {
        0
    }
}
