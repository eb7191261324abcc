//! A log that is followed: its file as a reader that gives the bytes of whole transactions and waits for more, and its state file.
//!
//! [`GrowingFile`] is a loop around [`LogFollower`](binlog_rotation::LogFollower), which says what to do next with a file:
//! `specs/CheckedFiles` says that it takes the bytes that were read, and that those given on are the ones behind these; `specs/Readings`
//! what a call gives on and which place the state has then, and the laws that calls in a row are a run of `specs/Deliveries` of
//! `binlog_rotation`. [`LogFiles`] is what is asked of a machine, [`StateFile`] the text of a state in a file.
#![tactic(auto)]

mod checked_file;
mod file_behind;
mod growing_file;
mod last_bytes;
pub mod laws;
mod log_files;
mod paths;
mod pauses;
mod state_error;
mod state_file;
mod waits;
mod written_output;

pub use file_behind::FileBehind;
pub use growing_file::GrowingFile;
pub use log_files::{FileId, LogFiles, NEW_FILE, OpenLog, file_id, missing_front};
pub use pauses::Pauses;
pub use state_error::StateFileError;
pub use state_file::StateFile;
pub use waits::{Missing, Waits};
