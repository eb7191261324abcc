//! Laws of the definitions. Each is a function without effect whose contract states it.
ghost use Rattle.std.specs.Prelude.{◌≡◌, ◌+◌, ◌<◌, ◌≤◌, ℕ, List, [], None, Some, length};
ghost use Rattle.binlog_consts.specs.declared.version.BinlogVersion.{BinlogVersion};
ghost use Rattle.binlog_event_format.specs.FormatDescription.{default_description};
ghost use Rattle.binlog_variable_fields.specs.Sized.{Solves, least_size};
ghost use Rattle.binlog_variable_fields.specs.Varlen.{IsVarlen};
ghost use Rattle.binlog_variable_fields.specs.Repeated.{EachFits};
ghost use Rattle.binlog_gtids.specs.PreviousGtids.{FitsSid, unwritable_sids};
ghost use Rattle.binlog_gtids.specs.Formats.{sids_format};
ghost use Rattle.binlog_gtids.specs.Gtids.{gtid, anonymous, raw_type_of, unwritable, unwritable_anonymous, HasTag};
ghost use Rattle.binlog_gtids.specs.Writable.{InRange};
ghost use Rattle.binlog_gtids.specs.declared.gtid_event.GtidEvent.{GtidEvent};
ghost use Rattle.binlog_gtids.specs.declared.anonymous_gtid_event.AnonymousGtidEvent.{AnonymousGtidEvent};
ghost use Rattle.binlog_gtids.specs.declared.previous_gtids_event.PreviousGtidsEvent.{PreviousGtidsEvent};
ghost use Rattle.binlog_gtids.specs.declared.previous_gtids_sid.PreviousGtidsSid.{PreviousGtidsSid};

use crate::anonymous_gtid_event::AnonymousGtidEvent;
use crate::field_id;
use crate::gtid_event::GtidEvent;
use crate::gtid_flags::GtidFlags;
use crate::previous_gtids_event::PreviousGtidsEvent;
use crate::previous_gtids_sid::PreviousGtidsSid;
use binlog_consts::EventType;
use binlog_event_format::BinlogEvent;
use binlog_wire::MyDeserialize;
use bitflags::Flags;

/// A GTID that was read under any event type is its own normal form in the format in which it is written. So writing
/// loses nothing of it. The same holds for an anonymous GTID that was read without a tag; one that was read with a tag
/// can't be written.
pub fn read_gtids_are_normal()
    ensures gtid { (raw : ℕ) (s : List ℕ) (event : GtidEvent) (r : List ℕ) → (gtid raw).spells s event r
        → (gtid (raw_type_of event)).normal event ≡ event }
    ensures anonymous { (raw : ℕ) (s : List ℕ) (event : AnonymousGtidEvent) (r : List ℕ) → (anonymous raw).spells s event r
        → event.0.tag ≡ None → (anonymous 34).normal event ≡ event }
{}

/// A GTID whose fields are in the ranges of their types, and that writing doesn't refuse, fits the format of its event
/// type. So its written bytes read back as its normal form.
pub fn writable_gtids_fit()
    ensures { (event : GtidEvent) → InRange event → HasTag event.tag → unwritable event ≡ None → (gtid (raw_type_of event)).Fits event }
{}

/// An anonymous GTID whose fields are in the ranges of their types, and that writing doesn't refuse, fits the format
/// of its event type. So its written bytes read back as its normal form.
pub fn writable_anonymous_gtids_fit()
    ensures { (version : BinlogVersion) (event : AnonymousGtidEvent) → InRange event.0 → unwritable_anonymous event.0 ≡ None
        → (⟦<AnonymousGtidEvent as BinlogEvent<'static>>⟧.format (default_description version) (⟦<AnonymousGtidEvent as BinlogEvent<'static>>⟧.raw_type event)).Fits event }
{}

/// The written payload size counts n other bytes and its own encoding; no smaller number does, in any encoding.
pub fn payload_sizes()
    ensures solves { (n : ℕ) → n + 2 < 16384 → Solves n (least_size n) }
    ensures least { (n : ℕ) (s : List ℕ) (size : ℕ) → IsVarlen s size [] → size ≡ n + length s → least_size n ≤ size }
{}

/// Entries of previous GTIDs whose parts are in the ranges of their types, and that writing doesn't refuse, fit their
/// format.
pub fn writable_sids_fit()
    ensures { (sids : List PreviousGtidsSid) → EachFits FitsSid sids → unwritable_sids sids ≡ None → sids_format.Fits sids }
{}

/// The raw types under which events are written: 42 for a GTID with a tag, 33 for one without.
pub fn raw_types()
    ensures tagged { (event : GtidEvent) (tag : List ℕ) → event.tag ≡ Some tag → ⟦<GtidEvent as BinlogEvent<'static>>⟧.raw_type event ≡ 42 }
    ensures untagged { (event : GtidEvent) → event.tag ≡ None → ⟦<GtidEvent as BinlogEvent<'static>>⟧.raw_type event ≡ 33 }
    ensures anonymous { (event : AnonymousGtidEvent) → ⟦<AnonymousGtidEvent as BinlogEvent<'static>>⟧.raw_type event ≡ 34 }
    ensures previous { (event : PreviousGtidsEvent) → ⟦<PreviousGtidsEvent<'static> as BinlogEvent<'static>>⟧.raw_type event ≡ 35 }
{}

/// No type of this crate has a fixed size.
pub fn sizes()
    ensures gtid { ⟦<GtidEvent as MyDeserialize<'static>>⟧.size ≡ None }
    ensures anonymous { ⟦<AnonymousGtidEvent as MyDeserialize<'static>>⟧.size ≡ None }
    ensures previous { ⟦<PreviousGtidsEvent<'static> as MyDeserialize<'static>>⟧.size ≡ None }
    ensures sid { ⟦<PreviousGtidsSid<'static> as MyDeserialize<'static>>⟧.size ≡ None }
{
    prove!(matches!(GtidEvent::SIZE, None));
    prove!(matches!(AnonymousGtidEvent::SIZE, None));
    prove!(matches!(PreviousGtidsEvent::SIZE, None));
    prove!(matches!(PreviousGtidsSid::SIZE, None));
}

/// Previous GTIDs whose entries' parts are in the ranges of their types, and that writing doesn't refuse, fit the
/// format of their event type. So their written bytes read back as their normal form.
pub fn writable_previous_gtids_fit()
    ensures { (version : BinlogVersion) (event : PreviousGtidsEvent) → EachFits FitsSid event.sids → unwritable_sids event.sids ≡ None
        → (⟦<PreviousGtidsEvent<'static> as BinlogEvent<'static>>⟧.format (default_description version) (⟦<PreviousGtidsEvent<'static> as BinlogEvent<'static>>⟧.raw_type event)).Fits event }
{}

/// The event type of each body.
pub fn event_types() {
    prove!(matches!(GtidEvent::EVENT_TYPE, EventType::GTID_EVENT));
    prove!(matches!(
        AnonymousGtidEvent::EVENT_TYPE,
        EventType::ANONYMOUS_GTID_EVENT
    ));
    prove!(matches!(
        PreviousGtidsEvent::EVENT_TYPE,
        EventType::PREVIOUS_GTIDS_EVENT
    ));
}

/// The constants of GTIDs.
pub fn constants() {
    prove!(GtidEvent::POST_HEADER_LENGTH == 42);
    prove!(GtidEvent::ENCODED_SID_LENGTH == 16);
    prove!(GtidEvent::LOGICAL_TIMESTAMP_TYPECODE == 2);
    prove!(GtidEvent::TAGGED_SERIALIZATION_VERSION_V2 == 2);
    prove!(GtidEvent::COMMIT_GROUP_TICKET_UNSET == 0);
    prove!(GtidEvent::IMMEDIATE_COMMIT_TIMESTAMP_LENGTH == 7);
    prove!(GtidEvent::ORIGINAL_COMMIT_TIMESTAMP_LENGTH == 7);
    prove!(GtidEvent::UNDEFINED_SERVER_VERSION == 999_999);
    prove!(GtidEvent::IMMEDIATE_SERVER_VERSION_LENGTH == 4);
}

/// The flags of GTIDs.
pub fn flags() {
    prove!(GtidFlags::MAY_HAVE_SBR.bits() == 1);
}

/// The field ids of a GTID with a tag.
pub fn field_ids() {
    prove!(field_id::GTID_FLAGS == 0);
    prove!(field_id::SID == 1);
    prove!(field_id::GNO == 2);
    prove!(field_id::TAG == 3);
    prove!(field_id::LAST_COMMITTED == 4);
    prove!(field_id::SEQUENCE_NUMBER == 5);
    prove!(field_id::IMMEDIATE_COMMIT_TIMESTAMP == 6);
    prove!(field_id::ORIGINAL_COMMIT_TIMESTAMP == 7);
    prove!(field_id::TRANSACTION_LENGTH == 8);
    prove!(field_id::IMMEDIATE_SERVER_VERSION == 9);
    prove!(field_id::ORIGINAL_SERVER_VERSION == 10);
    prove!(field_id::COMMIT_GROUP_TICKET == 11);
}
