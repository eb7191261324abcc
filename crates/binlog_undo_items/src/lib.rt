//! The log that undoes logs in memory, by plain numbers and bytes: [`write_undo_log`] writes it into the caller's memory, or names what can't
//! be undone. `binlog_c` exports the call to C.
//!
//! It is the log that `binlog_undo_log` makes of files. [`UndoFailure::number`] has the numbers of errors, and `binlog_items` their names.
#![tactic(auto)]

mod failure;
pub mod laws;
mod options;
mod refusals;
mod request;
mod scanning;
mod splitting;
mod tables;
mod undoing;
mod writing;

pub use failure::UndoFailure;
pub use options::BinlogUndoOptions;
pub use refusals::BinlogRefusal;
pub use request::UndoRequest;
pub use undoing::{BinlogUndone, write_undo_log};
