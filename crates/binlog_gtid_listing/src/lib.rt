//! The GTIDs of a binary log, of MySQL or of MariaDB: what each item adds to them, and their lines.
//!
//! [`list_gtids`] lists MySQL's GTIDs of a log: a line for each error, and then a line for each source and tag. [`track_log_event`]
//! and [`write_log_gtids`] are for a caller who visits the items of a log, and have MariaDB's GTIDs, too.
#![tactic(auto)]

mod adding;
mod group_lines;
pub mod laws;
mod lister;
mod listing;
mod log_gtids;
mod log_lines;
mod maria_adding;
mod maria_lines;
mod parts;
mod tracking;

pub use listing::{list_gtids, list_gtids_counted};
pub use log_gtids::LogGtids;
pub use log_lines::write_log_gtids;
pub use parts::write_error;
pub use tracking::track_log_event;
