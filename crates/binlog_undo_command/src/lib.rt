//! The command `binlog undo`: its words, and the log that undoes several files, which is there whole or not at all.
#![tactic(auto)]

mod arguments;
mod descriptions;
mod later_logs;
pub mod laws;
mod log_place;
mod logs;
mod messages;
mod options;
mod reasons;
mod row_counts;
mod running;
mod scanning;
mod undoing;
mod writing;

pub use arguments::command;
pub use log_place::LogPlace;
pub use logs::{HostLogs, Logs};
pub use reasons::reason_name;
pub use running::run_undo;
pub use scanning::ScannedLog;
pub use undoing::{count_undo, undo};
