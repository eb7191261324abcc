//! The GTIDs of a file of a log.
ghost use Rattle.std.specs.Prelude.{◌≡◌, []};
ghost use Rattle.binlog_gtid_listing.specs.LogItems.{log_gtids};
ghost use Rattle.binlog_commands.specs.Marks.{no_marks};

use crate::gtids::GtidCollector;
use crate::marks::{GtidMarks, is_front};
use binlog_file::{Counted, Error, EventRef, EventStreamReader, WriteCounted};
use binlog_visits::Visitor;
use std::alloc::Global;
use std::io;
use std::io::Sink;

/// Collects the GTIDs of a file, or those of the list at its front alone.
#[derive(Drop)]
pub struct FileGtids {
    /// The GTIDs. The lines of errors go nowhere.
    pub collector: GtidCollector<Counted<Sink>>,
    /// What the events tell of them.
    pub marks: GtidMarks,
    /// Whether only the list at the front is wanted.
    pub is_list: bool,
}

impl FileGtids {
    /// Nothing is read of a file.
    pub fn of_file(alloc: Global) -> Self
        ensures gtids { result.collector.gtids ≡ log_gtids [] [] }
        ensures refused { result.collector.refused ≡ 0 }
        ensures marks { result.marks ≡ no_marks }
    {
        FileGtids {
            collector: GtidCollector::new(alloc, Counted::new(io::sink())),
            marks: GtidMarks::new(),
            is_list: false,
        }
    }

    /// Nothing is read of a file of which only the list at the front is wanted.
    pub fn of_list(alloc: Global) -> Self
        ensures gtids { result.collector.gtids ≡ log_gtids [] [] }
        ensures refused { result.collector.refused ≡ 0 }
        ensures marks { result.marks ≡ no_marks }
    {
        FileGtids {
            is_list: true,
            ..FileGtids::of_file(alloc)
        }
    }
}

/// A visit adds the GTIDs of the item, and notes what it tells. Where only the list is wanted, the visit of the first other event is
/// refused with [`Error::WrongEventType`]; else it is refused as by a [`GtidCollector`].
impl Visitor for FileGtids {
    ghost use Rattle.binlog_commands.specs.Marks.{Notes, RefusesNoted};

    ghost visits = { λ old maps index item new. Notes ⟦<Counted<Sink> as WriteCounted>⟧.contents index item old new };

    ghost refuses = { λ old maps index item error new. RefusesNoted ⟦<Counted<Sink> as WriteCounted>⟧.contents index item old error new };

    fn visit_event(
        &mut self,
        index: u64,
        event: &EventRef<'_>,
        reader: &EventStreamReader,
    ) -> Result<(), Error> {
        let number = event.header().event_type_raw();
        if self.is_list && !is_front(number) {
            return Err(Error::WrongEventType(number));
        }
        self.collector.visit_event(index, event, reader)?;
        self.marks = self.marks.behind(event);
        Ok(())
    }

    fn visit_error(
        &mut self,
        index: u64,
        error: &Error,
        reader: &EventStreamReader,
    ) -> Result<(), Error> {
        self.collector.visit_error(index, error, reader)?;
        self.marks.has_errors = true;
        Ok(())
    }
}
