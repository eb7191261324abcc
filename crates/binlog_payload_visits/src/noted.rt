//! A visitor that notes errors inside compressed transactions.
ghost use Rattle.std.specs.Prelude.{◌≡◌, None};

use crate::part_error::PartError;
use crate::part_visitor::PartVisitor;
use crate::table_maps::PartTableMaps;
use binlog_events::EventRef;
use binlog_file::EventStreamReader;
use binlog_payloads::PayloadError;
use binlog_visits::{Refusing, Visitor};
use binlog_wire::Error;

/// Shows another visitor each item and each part, and counts the events of which a part is an error.
#[derive(Drop)]
pub struct Noted<T> {
    /// The visitor.
    pub visitor: T,
    /// The first error among the parts of the last item.
    pub first_error: Option<PartError>,
    /// The number of events so far of which a part is an error, at most 2^64 - 1.
    pub damaged: u64,
}

impl<T> Noted<T> {
    /// No error is noted yet.
    pub fn new(visitor: T) -> Self
        ensures { result ≡ record { visitor = visitor; first_error = None; damaged = 0 } }
    {
        Noted {
            visitor,
            first_error: None,
            damaged: 0,
        }
    }
}

/// A visit is one of the other visitor.
impl<T: Visitor> Visitor for Noted<T> {
    ghost use Rattle.binlog_payload_visits.specs.Noting.{NotesItem, RefusesNoted};

    ghost visits = { λ old maps index item new. NotesItem T.visits old maps index item new };

    ghost refuses = { λ old maps index item error new. RefusesNoted T.refuses old maps index item error new };

    fn visit_event(
        &mut self,
        index: u64,
        event: &EventRef<'_>,
        reader: &EventStreamReader,
    ) -> Result<(), Error> {
        self.first_error = None;
        self.visitor.visit_event(index, event, reader)
    }

    fn visit_error(
        &mut self,
        index: u64,
        error: &Error,
        reader: &EventStreamReader,
    ) -> Result<(), Error> {
        self.first_error = None;
        self.visitor.visit_error(index, error, reader)
    }
}

/// A visit is one of the other visitor, and notes an error.
impl<T: PartVisitor> PartVisitor for Noted<T> {
    ghost use Rattle.binlog_payload_visits.specs.Noting.{NotesPart, RefusesNotedPart};

    ghost visits_part = { λ old maps index number part new. NotesPart T.visits_part old maps index number part new };

    ghost refuses_part = { λ old maps index number part error new. RefusesNotedPart T.refuses_part old maps index number part error new };

    fn visit_part(
        &mut self,
        index: u64,
        number: u64,
        event: &EventRef<'_>,
        maps: &PartTableMaps<'_>,
    ) -> Result<(), Error> {
        self.visitor.visit_part(index, number, event, maps)
    }

    fn visit_part_error(
        &mut self,
        index: u64,
        number: u64,
        error: &PayloadError,
        maps: &PartTableMaps<'_>,
    ) -> Result<(), Error> {
        self.visitor.visit_part_error(index, number, error, maps)?;
        if self.first_error.is_none() {
            self.first_error = Some(PartError {
                part: number,
                error: *error,
            });
            self.damaged = self.damaged.saturating_add(1);
        }
        Ok(())
    }
}

/// An event of which a part is an error is one for the log.
impl<T> Refusing for Noted<T> {
    ghost refusals = { λ noted. noted.damaged };

    fn refused(&self) -> u64 {
        self.damaged
    }
}
