//! What is done with each item of a log.
ghost use Rattle.std.specs.Prelude.{◌≡◌, Ok, Err, Option, None, false, OnOk, IfErr};
ghost use Rattle.binlog_ends.specs.Counts.{FailureCount};
ghost use Rattle.binlog_wire.specs.Errors.{is_environment_error};
ghost use Rattle.binlog_file.specs.EventRefs.{view_of};
ghost use Rattle.binlog_file.specs.State.{state_of};
ghost use Rattle.binlog_visits.specs.KnownCounts.{CountsKnown};
ghost use Rattle.binlog_visits.specs.Visits.{VisitRelation, RefusalRelation, IsNoReaderError};

use binlog_file::{Error, EventRef, EventStreamReader};

/// Is shown the items of a log, in order, with their indexes from 0.
///
/// A visit is never refused with [`Error::Reader`] or [`Error::ReaderInFrame`]: these two state that the reader of the log
/// failed.
pub trait Visitor {
    /// What a visit of the item with this index makes of the visitor, with these table maps in force behind it.
    ghost visits: { VisitRelation Self };

    /// When a visit of the item with this index is refused with this error, and what it leaves.
    ghost refuses: { RefusalRelation Self };

    /// The count of the failures of the visitor's writer, if it has a writer that counts them.
    ghost count: { Self → Option FailureCount } = { λ _. None };

    /// Visits an event. The reader has what is in force behind it: for a row event the table map of its table id. An error
    /// ends the visits.
    fn visit_event(
        &mut self,
        index: u64,
        event: &EventRef<'_>,
        reader: &EventStreamReader,
    ) -> Result<(), Error>
        ensures ok { OnOk result (visits self.old (state_of reader.now).table_maps index (Ok (view_of event.now)) self.new) }
        ensures err { IfErr result (λ e. refuses self.old (state_of reader.now).table_maps index (Ok (view_of event.now)) e self.new) }
        ensures reader { IfErr result IsNoReaderError }
        ensures writer { CountsKnown result (count self.old) (count self.new) };

    /// Visits an error that is in the place of an event: no failure of memory or of the reader. The reader has what is in
    /// force, which the error left as it was. An error ends the visits.
    fn visit_error(
        &mut self,
        index: u64,
        error: &Error,
        reader: &EventStreamReader,
    ) -> Result<(), Error>
        requires { is_environment_error error.now ≡ false }
        ensures ok { OnOk result (visits self.old (state_of reader.now).table_maps index (Err error.now) self.new) }
        ensures err { IfErr result (λ e. refuses self.old (state_of reader.now).table_maps index (Err error.now) e self.new) }
        ensures reader { IfErr result IsNoReaderError }
        ensures writer { CountsKnown result (count self.old) (count self.new) };
}
