//! A visitor that checks compressed transactions.
ghost use Rattle.std.specs.Prelude.{◌≡◌};

use crate::finding::first_part_error;
use binlog_events::EventRef;
use binlog_file::EventStreamReader;
use binlog_visits::{Refusing, Visitor};
use binlog_wire::Error;
use std::alloc::Global;

/// Shows another visitor each item, and counts the events of which a part is an error.
#[derive(Drop)]
pub struct Checked<T> {
    alloc: Global,
    /// The most bytes of a content: one with more is an error.
    pub limit: usize,
    /// The visitor.
    pub visitor: T,
    /// The number of events so far of which a part is an error, at most 2^64 - 1.
    pub damaged: u64,
}

impl<T> Checked<T> {
    /// No event is counted yet. Nothing is allocated.
    pub fn new(alloc: Global, limit: usize, visitor: T) -> Self
        ensures limit { result.limit ≡ limit }
        ensures visitor { result.visitor ≡ visitor }
        ensures damaged { result.damaged ≡ 0 }
    {
        Checked {
            alloc,
            limit,
            visitor,
            damaged: 0,
        }
    }
}

/// A visit is one of the other visitor, and counts the event if a part of it is an error. It is refused with an error of the other
/// visitor, or with [`Error::Memory`] where an allocation failed for the parts; nothing is counted then.
impl<T: Visitor> Visitor for Checked<T> {
    ghost use Rattle.binlog_payload_visits.specs.Checking.{ChecksItem, RefusesChecked};

    ghost visits = { λ old maps index item new. ChecksItem T.visits old maps index item new };

    ghost refuses = { λ old maps index item error new. RefusesChecked T.visits T.refuses old maps index item error new };

    fn visit_event(
        &mut self,
        index: u64,
        event: &EventRef<'_>,
        reader: &EventStreamReader,
    ) -> Result<(), Error> {
        self.visitor.visit_event(index, event, reader)?;
        let found = first_part_error(self.alloc, self.limit, event, reader)?;
        if found.is_some() {
            self.damaged = self.damaged.saturating_add(1);
        }
        Ok(())
    }

    fn visit_error(
        &mut self,
        index: u64,
        error: &Error,
        reader: &EventStreamReader,
    ) -> Result<(), Error> {
        self.visitor.visit_error(index, error, reader)
    }
}

/// An event of which a part is an error is one for the log.
impl<T> Refusing for Checked<T> {
    ghost refusals = { λ checked. checked.damaged };

    fn refused(&self) -> u64 {
        self.damaged
    }
}
