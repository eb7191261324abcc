//! A visitor of a log that shows another one the events inside compressed transactions, too.
ghost use Rattle.std.specs.Prelude.{◌≡◌};

use crate::part_visitor::PartVisitor;
use crate::parts::visit_parts;
use binlog_events::EventRef;
use binlog_file::EventStreamReader;
use binlog_visits::{Refusing, Visitor};
use binlog_wire::Error;
use std::alloc::Global;

/// Shows a visitor each item of a log, and behind each event with a payload the events in it.
///
/// A payload is decompressed when its event is visited, and its content is let go before the next item. A payload or a content that
/// is refused has its error for its only part; behind the part that is an error of the content's bytes no other follows.
#[derive(Drop)]
pub struct Spliced<T> {
    alloc: Global,
    /// The most bytes of a content: one with more is refused.
    pub limit: usize,
    /// The visitor.
    pub visitor: T,
}

impl<T> Spliced<T> {
    /// Shows this visitor contents of at most `limit` bytes. Nothing is allocated.
    pub fn new(alloc: Global, limit: usize, visitor: T) -> Self
        ensures limit { result.limit ≡ limit }
        ensures visitor { result.visitor ≡ visitor }
    {
        Spliced {
            alloc,
            limit,
            visitor,
        }
    }
}

/// A visit of an item is one of the visitor, and then one of each part of the item. It is refused with an error of the visitor, or
/// with [`Error::Memory`] where an allocation failed for a content or for the table maps in it; the parts before are then visited.
impl<T: PartVisitor> Visitor for Spliced<T> {
    ghost use Rattle.std.specs.Prelude.{◌≡◌};
    ghost use Rattle.binlog_payload_visits.specs.PartVisits.{VisitsSpliced, RefusesSpliced};

    ghost visits = { λ old maps index item new.
        VisitsSpliced T.visits T.visits_part old.limit old.visitor maps index item new.visitor × (new.limit ≡ old.limit) };

    ghost refuses = { λ old maps index item error new.
        RefusesSpliced T.visits T.visits_part T.refuses T.refuses_part old.limit old.visitor maps index item error new.visitor × (new.limit ≡ old.limit) };

    ghost count = { λ spliced. T.count spliced.visitor };

    fn visit_event(
        &mut self,
        index: u64,
        event: &EventRef<'_>,
        reader: &EventStreamReader,
    ) -> Result<(), Error> {
        self.visitor.visit_event(index, event, reader)?;
        visit_parts(self.alloc, self.limit, index, event, &mut self.visitor)
    }

    fn visit_error(
        &mut self,
        index: u64,
        error: &Error,
        reader: &EventStreamReader,
    ) -> Result<(), Error> {
        self.visitor.visit_error(index, error, reader)
    }
}

impl<T: Refusing> Refusing for Spliced<T> {
    ghost refusals = { λ spliced. T.refusals spliced.visitor };

    fn refused(&self) -> u64 {
        self.visitor.refused()
    }
}
