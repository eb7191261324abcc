//! Why transactions can't be undone.
use thiserror::Error as ErrorMessage;

/// Why a transaction can't be undone.
#[derive(Clone, Copy, Debug, PartialEq, Eq, Hash, ErrorMessage)]
pub enum Refusal {
    /// The log ends within it, or another one begins before it ended.
    #[error("the transaction isn't finished")]
    Unfinished,
    /// It has a statement whose changes aren't in the log.
    #[error("a statement can't be undone")]
    Statement,
    /// It loads a file by a statement.
    #[error("a file was loaded by a statement")]
    LoadData,
    /// It is a part of an XA transaction.
    #[error("a part of an XA transaction")]
    Xa,
    /// It was rolled back, or a part of it, and it isn't known which changes stayed.
    #[error("changes were rolled back")]
    Rollback,
    /// Something happened to the server, as events that were lost.
    #[error("an incident")]
    Incident,
    /// It is compressed, and isn't decompressed: it is too long, or row events of it are in front.
    #[error("a compressed transaction is too long, or has row events in front of it")]
    Payload,
    /// It has row events of a form that isn't read.
    #[error("row events of a version before 5.1.16")]
    OldRows,
    /// It has an event of an unknown type.
    #[error("an event of an unknown type")]
    UnknownEvent,
    /// The events behind this one are encrypted.
    #[error("encrypted events")]
    Encrypted,
}
