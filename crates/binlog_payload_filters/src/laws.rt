//! Laws of filters by what is inside compressed transactions. Each is a function without effect whose contract states it.
ghost use Rattle.std.specs.Prelude.{◌≡◌, None, ℕ, List, Option, Result, Ok, true};
ghost use Rattle.binlog_wire.specs.declared.error.Error.{Error};
ghost use Rattle.binlog_events.specs.Events.{EventView};
ghost use Rattle.binlog_file.specs.TableMapsInForce.{TableMaps};
ghost use Rattle.binlog_visits.specs.Visits.{Visits, VisitsLog};
ghost use Rattle.binlog_filters.specs.declared.copying.Copier.{Copier};
ghost use Rattle.binlog_payload_filters.specs.Copies.{IsFilteredCopy};
ghost use Rattle.binlog_payload_filters.specs.Shown.{ShowsParts, ShowsTaken};
ghost use Rattle.binlog_payload_filters.specs.declared.filtered.PayloadFiltered.{PayloadFiltered};
ghost use Rattle.binlog_payload_filters.specs.declared.taken_parts.TakenParts.{TakenParts};
ghost use Rattle.binlog_payload_visits.specs.Parts.{Part};
ghost use Rattle.binlog_payload_visits.specs.PartVisits.{VisitsParts};

use crate::filtered::PayloadFiltered;
use crate::taken_parts::TakenParts;
use binlog_filters::{Copier, Filtered};
use binlog_payload_visits::PartVisitor;
use binlog_visits::Visitor;
use std::io::Write;

/// What the visitor is shown: if the visits of items, one after another, are Ok, it was shown exactly the items that the filter takes,
/// in order, each with its index in the log.
pub fn taken_are_shown<T: Visitor>()
    ensures { (maps : TableMaps) (index : ℕ) (items : List (Result EventView Error)) (old new : PayloadFiltered T)
        → Visits ⟦<PayloadFiltered<T> as Visitor>⟧.visits maps index items old new
        → ShowsTaken T.visits old.filtered.filter old.limit maps old.filtered.place.position old.filtered.state index items old.filtered.visitor new.filtered.visitor }
{}

/// Without conditions of tables nothing differs from [`Filtered`].
pub fn as_filtered_without_tables<T: Visitor>()
    ensures { (maps : TableMaps) (index : ℕ) (items : List (Result EventView Error)) (old new : PayloadFiltered T) → old.filtered.filter.tables ≡ None
        → Visits ⟦<PayloadFiltered<T> as Visitor>⟧.visits maps index items old new
        → Visits ⟦<Filtered<T> as Visitor>⟧.visits maps index items old.filtered new.filtered }
{}

/// The copy that a filter makes of a whole log is a log. If the filter is for a copy, and the visit of the log of these bytes is Ok,
/// the output has grown by all bytes of the events that the filter takes: those with a payload whole. As a stream these bytes have
/// exactly these events for their items, in order, each under the description under which it was read.
pub fn filtered_copies_are_logs<W: Write>()
    ensures { (bytes : List ℕ) (old new : PayloadFiltered (Copier W)) (tail_len : Option ℕ) → old.filtered.filter.is_for_copy ≡ true
        → VisitsLog ⟦<PayloadFiltered<Copier<W>> as Visitor>⟧.visits ⟦<PayloadFiltered<Copier<W>> as Visitor>⟧.refuses bytes old (Ok tail_len) new
        → IsFilteredCopy old.filtered.filter old.limit old.filtered.place.position old.filtered.state bytes (W.contents old.filtered.visitor.output) (W.contents new.filtered.visitor.output) }
{}

/// The parts that [`TakenParts`] shows: if the visits of parts, one after another, are Ok, the visitor was shown exactly those that are
/// taken, in order, each with its number.
pub fn taken_parts_are_shown<T: PartVisitor>()
    ensures { (maps : TableMaps) (index number : ℕ) (parts : List Part) (old new : TakenParts T)
        → VisitsParts ⟦<TakenParts<T> as PartVisitor>⟧.visits_part maps index number parts old new
        → ShowsParts T.visits_part old.tables maps index number parts old.visitor new.visitor × (new.tables ≡ old.tables) }
{}
