//! A visitor that lists MySQL's GTIDs.
ghost use Rattle.std.specs.Prelude.{◌≡◌, [], false};

use crate::parts::write_error;
use crate::tracking::track_event;
use binlog_file::{Error, EventRef, EventStreamReader, GtidTracker, WriteCounted};
use binlog_visits::Visitor;
use std::alloc::Global;

/// Adds the GTIDs of each event that it visits to a set, and writes the line of each error: of an item, and of an event whose
/// GTIDs can't be read.
#[derive(Drop)]
pub(crate) struct GtidLister<W> {
    alloc: Global,
    /// The GTIDs of the events so far.
    pub(crate) gtids: GtidTracker,
    /// The output.
    pub(crate) output: W,
    /// Whether a line of an error is written.
    pub(crate) has_errors: bool,
}

impl<W> GtidLister<W> {
    /// An empty set. Nothing is allocated.
    pub(crate) fn new(alloc: Global, output: W) -> Self
        ensures gtids { result.gtids ≡ [] }
        ensures output { result.output ≡ output }
        ensures errors { result.has_errors ≡ false }
    {
        GtidLister {
            alloc,
            gtids: GtidTracker::new(alloc),
            output,
            has_errors: false,
        }
    }
}

/// A visit adds the GTIDs of the item, or writes its line. It is refused with [`Error::Memory`] or [`Error::Writer`], which leave
/// the set as it was.
impl<W: WriteCounted> Visitor for GtidLister<W> {
    ghost use Rattle.std.specs.Prelude.{◌≡◌, Some, Err};
    ghost use Rattle.binlog_gtid_listing.specs.GtidListing.{tracked, TracksItem, ListsItemGtids};

    ghost visits = { λ old maps index item new.
        ListsItemGtids index item (tracked old.gtids (W.contents old.output)) old.has_errors (tracked new.gtids (W.contents new.output)) new.has_errors };

    ghost refuses = { λ old maps index item error new.
        TracksItem index item (tracked old.gtids (W.contents old.output)) (tracked new.gtids (W.contents new.output)) (Err error) × (new.has_errors ≡ old.has_errors) };

    ghost count = { λ lister. Some (W.count lister.output) };

    #[inline(always)]
    fn visit_event(
        &mut self,
        index: u64,
        event: &EventRef<'_>,
        _reader: &EventStreamReader,
    ) -> Result<(), Error> {
        let is_error = track_event(self.alloc, index, event, &mut self.gtids, &mut self.output)?;
        self.has_errors |= is_error;
        Ok(())
    }

    fn visit_error(
        &mut self,
        index: u64,
        error: &Error,
        _reader: &EventStreamReader,
    ) -> Result<(), Error> {
        write_error(self.alloc, index, error, &mut self.output)?;
        self.has_errors = true;
        Ok(())
    }
}
