//! An error inside a compressed transaction.
use binlog_payloads::PayloadError;
use thiserror::Error;

/// An error inside a compressed transaction, in the place of an event or of all events.
#[derive(Debug, PartialEq, Eq, Drop, Error)]
#[error("part {part}: {error}")]
pub struct PartError {
    /// The number of the part that it is, from 0.
    pub part: u64,
    /// Why the part is refused.
    pub error: PayloadError,
}
