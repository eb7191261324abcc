//! A visitor that counts events by type, and apart from them those inside compressed transactions.
ghost use Rattle.std.specs.Prelude.{◌≡◌};
ghost use Rattle.binlog_commands.specs.Statistics.{no_items};
ghost use Rattle.change_statistics.specs.TypeCounting.{no_type_counts};

use crate::stats::Stats;
use binlog_file::{Error, EventRef, EventStreamReader};
use binlog_payload_visits::{PartTableMaps, PartVisitor};
use binlog_payloads::PayloadError;
use binlog_visits::Visitor;
use change_statistics::TypeCounts;

/// What a log has, and apart from that what is inside its compressed transactions.
#[derive(Clone, Copy, Debug, PartialEq, Eq)]
pub struct SplicedStats {
    /// What the log has: an event with a compressed transaction is one event, with its own bytes.
    pub outside: Stats,
    /// The events inside compressed transactions, with the bytes that they have there, and the errors in the places of these.
    pub inside: TypeCounts,
}

impl SplicedStats {
    /// Nothing is counted yet.
    pub fn new() -> Self
        ensures { result ≡ record { outside = no_items; inside = no_type_counts } }
    {
        SplicedStats {
            outside: Stats::new(),
            inside: TypeCounts::none(),
        }
    }
}

/// A visit counts the item, and is never refused.
impl Visitor for SplicedStats {
    ghost use Rattle.binlog_commands.specs.Counting.{IsNever};
    ghost use Rattle.binlog_commands.specs.SplicedCounts.{CountsOutside};

    ghost visits = { λ old maps index item new. CountsOutside old index item new };

    ghost refuses = { λ old maps index item error new. IsNever };

    fn visit_event(
        &mut self,
        index: u64,
        event: &EventRef<'_>,
        reader: &EventStreamReader,
    ) -> Result<(), Error> {
        self.outside.visit_event(index, event, reader)
    }

    fn visit_error(
        &mut self,
        index: u64,
        error: &Error,
        reader: &EventStreamReader,
    ) -> Result<(), Error> {
        self.outside.visit_error(index, error, reader)
    }
}

/// A visit counts the part, and is never refused.
impl PartVisitor for SplicedStats {
    ghost use Rattle.binlog_commands.specs.Counting.{IsNever};
    ghost use Rattle.binlog_commands.specs.SplicedCounts.{CountsInside};

    ghost visits_part = { λ old maps index number part new. CountsInside old part new };

    ghost refuses_part = { λ old maps index number part error new. IsNever };

    fn visit_part(
        &mut self,
        _index: u64,
        _number: u64,
        event: &EventRef<'_>,
        _maps: &PartTableMaps<'_>,
    ) -> Result<(), Error> {
        let event_type = event.header().event_type_raw();
        self.inside.add(event_type, event.frame().len() as u64);
        Ok(())
    }

    fn visit_part_error(
        &mut self,
        _index: u64,
        _number: u64,
        _error: &PayloadError,
        _maps: &PartTableMaps<'_>,
    ) -> Result<(), Error> {
        self.inside.add_error();
        Ok(())
    }
}
