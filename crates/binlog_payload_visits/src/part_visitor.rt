//! What is done with each event inside a compressed transaction.
ghost use Rattle.std.specs.Prelude.{◌≡◌, Ok, Err, OnOk, IfErr};
ghost use Rattle.binlog_events.specs.EventRefs.{view_of};
ghost use Rattle.binlog_visits.specs.KnownCounts.{CountsKnown};
ghost use Rattle.binlog_visits.specs.Visits.{IsNoReaderError};
ghost use Rattle.binlog_payload_visits.specs.PartMaps.{maps_of};
ghost use Rattle.binlog_payload_visits.specs.PartVisits.{PartVisitRelation, PartRefusalRelation};

use crate::table_maps::PartTableMaps;
use binlog_events::EventRef;
use binlog_payloads::PayloadError;
use binlog_visits::Visitor;
use binlog_wire::Error;

/// Is shown the items of a log, and behind an event with a payload its parts: the events in it, in order, with their numbers from 0.
///
/// A visit is never refused with [`Error::Reader`] or [`Error::ReaderInFrame`], as in [`Visitor`].
pub trait PartVisitor: Visitor {
    /// What a visit of the part with this number, of the item with this index, makes of the visitor, with these table maps in force
    /// behind it.
    ghost visits_part: { PartVisitRelation Self };

    /// When such a visit is refused with this error, and what it leaves.
    ghost refuses_part: { PartRefusalRelation Self };

    /// Visits an event inside. It is read under the description of the event that has the payload, without a checksum. The table maps
    /// are those in force behind it: for a row event that of its table id. An error ends the visits.
    fn visit_part(
        &mut self,
        index: u64,
        number: u64,
        event: &EventRef<'_>,
        maps: &PartTableMaps<'_>,
    ) -> Result<(), Error>
        ensures ok { OnOk result (visits_part self.old (maps_of maps.now) index number (Ok (view_of event.now)) self.new) }
        ensures err { IfErr result (λ e. refuses_part self.old (maps_of maps.now) index number (Ok (view_of event.now)) e self.new) }
        ensures reader { IfErr result IsNoReaderError }
        ensures writer { CountsKnown result (Self.count self.old) (Self.count self.new) };

    /// Visits an error in the place of an event inside, or of all: why the payload is refused, its content, or the data of a table
    /// map in it. It is no failure of memory. An error ends the visits.
    fn visit_part_error(
        &mut self,
        index: u64,
        number: u64,
        error: &PayloadError,
        maps: &PartTableMaps<'_>,
    ) -> Result<(), Error>
        ensures ok { OnOk result (visits_part self.old (maps_of maps.now) index number (Err error.now) self.new) }
        ensures err { IfErr result (λ e. refuses_part self.old (maps_of maps.now) index number (Err error.now) e self.new) }
        ensures reader { IfErr result IsNoReaderError }
        ensures writer { CountsKnown result (Self.count self.old) (Self.count self.new) };
}
