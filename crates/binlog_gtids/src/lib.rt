//! The events with global transaction identifiers (GTIDs): GTID, ANONYMOUS_GTID and PREVIOUS_GTIDS; and sets of
//! transaction numbers.
//!
//! The formats are defined in `specs/`: `Gtids` (the body by its raw type), `Untagged` and `Tagged` (its two forms),
//! `PreviousGtids`, and `Writable` (what can't be written).
#![tactic(auto)]

mod anonymous_gtid_event;
mod clock;
pub mod field_id;
pub mod gno_set;
mod gtid_event;
mod gtid_flags;
pub mod laws;
mod previous_gtids_event;
mod previous_gtids_sid;
mod sid;
mod tagged;
mod tagged_fields;
mod tagged_writing;
mod untagged;

pub use anonymous_gtid_event::AnonymousGtidEvent;
pub use gno_set::GnoSet;
pub use gtid_event::GtidEvent;
pub use gtid_flags::GtidFlags;
pub use previous_gtids_event::PreviousGtidsEvent;
pub use previous_gtids_sid::PreviousGtidsSid;
