//! The log that undoes a log, in two passes over a file.
//!
//! [`UndoScan`] visits the items of a file, verified, from its front to its end: it keeps the places of the row events that are undone
//! and names what can't be undone. [`write_undo`] then goes through these places from the end to the front, reads each event again at
//! its place, and writes what undoes it. `specs/Undoing` has which events are written.
#![tactic(auto)]

mod choice;
mod compressed;
mod description;
mod events;
mod files;
mod frames;
mod heads;
pub mod laws;
mod log_description;
mod looking;
mod one_transaction;
mod output;
mod primary_key;
mod rows;
mod scan;
mod slice_frames;
mod undo_error;
mod visiting;
mod writing;

pub use choice::Choice;
pub use files::{scan_file, write_file};
pub use frames::{Frames, SeekFrames};
pub use heads::is_writable;
pub use log_description::{LogDescription, read_description};
pub use one_transaction::{Commit, begin_one};
pub use output::UndoOutput;
pub use scan::UndoScan;
pub use slice_frames::SliceFrames;
pub use undo_error::UndoLogError;
pub use visiting::{RowsVisitor, visit_undone_rows};
pub use writing::write_undo;
