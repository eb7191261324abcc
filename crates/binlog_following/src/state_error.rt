//! Why following a log can't begin with a state file.

use binlog_rotation::StateError;
use std::alloc::AllocError;
use std::io;

/// Why following a log can't begin with a state file. The state isn't changed then.
#[derive(Debug, Drop)]
pub enum StateFileError {
    /// Another process has the state.
    Locked,
    /// The file beside the state that is locked can't be made or locked.
    Lock(io::Error),
    /// The state can't be read.
    Reader(io::Error),
    /// The state's text is none.
    Text(StateError),
    /// Standard output can't be cut back to what the state has of it.
    Output(io::Error),
    /// An allocation failed.
    Memory,
}

impl From<AllocError> for StateFileError {
    fn from(_error: AllocError) -> StateFileError {
        StateFileError::Memory
    }
}
