//! Takes some of the events of a log: by their positions, their times, their server, their type, the GTIDs of their transactions,
//! and their tables. Which events are row events, and of which table. A visitor that copies events.
#![tactic(auto)]

mod concern;
mod conditions;
mod copying;
mod filter;
mod filtered;
mod gtid_set;
pub mod laws;
mod pattern;
mod place;
mod row_events;
mod state;
mod tables;

pub use concern::{Concern, RowsConcern};
pub use conditions::Conditions;
pub use copying::Copier;
pub use filter::{Filter, begins_transaction};
pub use filtered::Filtered;
pub use gtid_set::GtidSet;
pub use pattern::Pattern;
pub use place::Place;
pub use row_events::{is_row_event, table_id};
pub use state::FilterState;
pub use tables::{TableFilter, TablePattern};
