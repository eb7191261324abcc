//! What is behind row events that are undone, and may be in the way of that: rows of the same tables, and events that may change any table.
//!
//! [`find_later`] goes through a log, behind those in front of it. [`UndoneEvents`] are the row events of a log that are undone, and [`LaterChanges`] has
//! what was found. `specs/Later` says which of the other events are later changes, and `specs/RowsLeft` which rows are left behind.
#![tactic(auto)]

mod finding;
mod known_rows;
mod later_change;
mod later_changes;
mod later_rules;
mod later_scan;
mod later_tables;
pub mod laws;
mod row_key;
mod rows_left;
mod saying;
mod undone_events;

pub use finding::find_later;
pub use later_change::{EventPlace, LaterChange, LaterReason};
pub use later_changes::LaterChanges;
pub use later_rules::LaterRules;
pub use undone_events::{RowsPlace, UndoneEvents};
