//! A visitor that collects the GTIDs of a log.
ghost use Rattle.std.specs.Prelude.{◌≡◌, []};
ghost use Rattle.binlog_gtid_listing.specs.LogItems.{log_gtids};

use binlog_file::{Error, EventRef, EventStreamReader, WriteCounted};
use binlog_gtid_listing::{LogGtids, track_log_event, write_error};
use binlog_visits::{Refusing, Visitor};
use std::alloc::Global;

/// Adds the GTIDs of each event, MySQL's or MariaDB's, to their sets, and writes the line of each error: of an item, and of an
/// event whose GTIDs can't be read. The output isn't flushed.
#[derive(Drop)]
pub struct GtidCollector<W> {
    alloc: Global,
    /// The GTIDs of the events so far.
    pub gtids: LogGtids,
    /// The number of events whose GTIDs can't be read, at most 2^64 - 1.
    pub refused: u64,
    /// The output.
    pub output: W,
}

impl<W> GtidCollector<W> {
    /// Empty sets, and no event whose GTIDs can't be read. Nothing is allocated.
    pub fn new(alloc: Global, output: W) -> Self
        ensures gtids { result.gtids ≡ log_gtids [] [] }
        ensures refused { result.refused ≡ 0 }
        ensures output { result.output ≡ output }
    {
        GtidCollector {
            alloc,
            gtids: LogGtids::new(alloc),
            refused: 0,
            output,
        }
    }
}

/// A visit adds the GTIDs of the item, or writes its line. It is refused with [`Error::Memory`] or [`Error::Writer`].
impl<W: WriteCounted> Visitor for GtidCollector<W> {
    ghost use Rattle.binlog_commands.specs.Collecting.{collected, Collects, RefusesCollected};

    ghost visits = { λ old maps index item new. Collects index item (collected W.contents old) (collected W.contents new) };

    ghost refuses = { λ old maps index item error new. RefusesCollected index item (collected W.contents old) error (collected W.contents new) };

    fn visit_event(
        &mut self,
        index: u64,
        event: &EventRef<'_>,
        _reader: &EventStreamReader,
    ) -> Result<(), Error> {
        if track_log_event(self.alloc, index, event, &mut self.gtids, &mut self.output)? {
            self.refused = self.refused.saturating_add(1);
        }
        Ok(())
    }

    fn visit_error(
        &mut self,
        index: u64,
        error: &Error,
        _reader: &EventStreamReader,
    ) -> Result<(), Error> {
        write_error(self.alloc, index, error, &mut self.output)?;
        Ok(())
    }
}

/// An event whose GTIDs can't be read is an error.
impl<W> Refusing for GtidCollector<W> {
    ghost refusals = { λ collector. collector.refused };

    fn refused(&self) -> u64 {
        self.refused
    }
}
