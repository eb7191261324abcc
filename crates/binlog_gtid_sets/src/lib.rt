//! Sets of GTIDs: those of the events of a log, by source and tag.
//!
//! What a set contains is defined in `specs/GtidGroups`, and what an event adds in `specs/AddedGtids`.
#![tactic(auto)]

mod adding;
mod bad_gnos;
mod gtid_group;
mod gtid_tracker;
pub mod laws;
mod rooms;

pub use gtid_tracker::GtidTracker;
