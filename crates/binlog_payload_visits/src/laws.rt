//! Laws of visits with the events inside, and of counting events whose compressed transaction can't be read. Each is a function that does
//! nothing and whose contract states the law.
ghost use Rattle.std.specs.Prelude.{◌≡◌, ℕ, ◌+◌, List, Option, Result};
ghost use Rattle.binlog_wire.specs.declared.error.Error.{Error};
ghost use Rattle.binlog_events.specs.Events.{EventView};
ghost use Rattle.binlog_file.specs.TableMapsInForce.{TableMaps};
ghost use Rattle.binlog_visits.specs.Visits.{Visits};
ghost use Rattle.binlog_payload_visits.specs.Damaged.{HaveDamaged, saturated};
ghost use Rattle.binlog_payload_visits.specs.Finding.{IsFirstError};
ghost use Rattle.binlog_payload_visits.specs.Parts.{Part, AreParts};
ghost use Rattle.binlog_payload_visits.specs.Splicing.{AreSpliced, Shown, VisitsAllSpliced};
ghost use Rattle.binlog_payload_visits.specs.declared.checked.Checked.{Checked};
ghost use Rattle.binlog_payload_visits.specs.declared.noted.Noted.{Noted};
ghost use Rattle.binlog_payload_visits.specs.declared.part_error.PartError.{PartError};
ghost use Rattle.binlog_payload_visits.specs.declared.spliced.Spliced.{Spliced};

use crate::checked::Checked;
use crate::noted::Noted;
use crate::part_visitor::PartVisitor;
use crate::spliced::Spliced;
use binlog_visits::Visitor;

/// What the visitor is shown of a log: if the visits of items, one after another, are Ok, it was shown exactly these items with the
/// contents of payloads spliced in, in order. Table maps inside a payload are in force up to its end, and those outside only outside.
pub fn items_are_spliced<T: PartVisitor>()
    ensures { (maps : TableMaps) (index : ℕ) (items : List (Result EventView Error)) (old new : Spliced T)
        → Visits ⟦<Spliced<T> as Visitor>⟧.visits maps index items old new
        → VisitsAllSpliced T.visits T.visits_part old.limit maps index items old.visitor new.visitor × (new.limit ≡ old.limit) }
{}

/// Each item has its parts, and only these; so items have one splice.
pub fn splices_are_one()
    ensures some { (limit : ℕ) (item : Result EventView Error) → (parts : List Part) × AreParts limit item parts }
    ensures parts { (limit : ℕ) (item : Result EventView Error) (parts others : List Part) → AreParts limit item parts → AreParts limit item others → parts ≡ others }
    ensures all { (limit index : ℕ) (items : List (Result EventView Error)) (shown others : List Shown) → AreSpliced limit index items shown → AreSpliced limit index items others → shown ≡ others }
{}

/// An item has one first error, or none.
pub fn first_errors_are_one()
    ensures { (limit : ℕ) (item : Result EventView Error) (found other : Option PartError) → IsFirstError limit item found → IsFirstError limit item other → found ≡ other }
{}

/// What [`Checked`] makes of items: if their visits, one after another, are Ok, the other visitor was shown exactly these, and the
/// events of which a part is an error are counted, each once.
pub fn checked_are_counted<T: Visitor>()
    ensures { (maps : TableMaps) (index : ℕ) (items : List (Result EventView Error)) (old new : Checked T) (before : ℕ) → old.damaged ≡ saturated before
        → Visits ⟦<Checked<T> as Visitor>⟧.visits maps index items old new
        → Visits T.visits maps index items old.visitor new.visitor
        × ((n : ℕ) × HaveDamaged old.limit items n × (new.damaged ≡ saturated (before + n))) }
{}

/// What [`Noted`] makes of items and their parts: the other visitor was shown exactly these, in order, and the events of which a part
/// is an error are counted, each once.
pub fn noted_are_counted<T: PartVisitor>()
    ensures { (maps : TableMaps) (index : ℕ) (items : List (Result EventView Error)) (old new : Spliced (Noted T)) (before : ℕ) → old.visitor.damaged ≡ saturated before
        → Visits ⟦<Spliced<Noted<T>> as Visitor>⟧.visits maps index items old new
        → VisitsAllSpliced T.visits T.visits_part old.limit maps index items old.visitor.visitor new.visitor.visitor
        × ((n : ℕ) × HaveDamaged old.limit items n × (new.visitor.damaged ≡ saturated (before + n))) }
{}
