//! Why a text isn't read as a list of MariaDB's GTIDs.
use thiserror::Error;

/// What is wrong in a text that isn't that of a GTID of MariaDB.
#[derive(Clone, Copy, Debug, PartialEq, Eq, Error)]
pub enum MariaGtidFault {
    /// Fewer than two `-`.
    #[error("fewer than two hyphens")]
    Hyphens,
    /// Another byte than a decimal digit in the place of a number, or none.
    #[error("no number")]
    Number,
    /// A domain or a server id of 2^32 or more, or a sequence number of 2^64 or more.
    #[error("a number out of range")]
    Range,
}

/// Why a text wasn't read.
#[derive(Clone, Copy, Debug, PartialEq, Eq, Error)]
pub enum MariaGtidTextError {
    /// The text isn't a list of GTIDs: this is wrong in its first part that is none. The parts are counted from 1.
    #[error("{0} in GTID {1}")]
    Invalid(MariaGtidFault, usize),
    /// An allocation failed.
    #[error("out of memory")]
    Memory,
}
