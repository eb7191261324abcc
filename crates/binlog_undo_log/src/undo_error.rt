//! Why the log that undoes a file can't be written.
ghost use Rattle.std.specs.Prelude.{◌≡◌};

use binlog_undo::WriteError;
use std::alloc::AllocError;
use thiserror::Error as ErrorMessage;

/// Why the log that undoes a file can't be written.
#[derive(Clone, Copy, Debug, PartialEq, Eq, ErrorMessage)]
pub enum UndoLogError {
    /// The file isn't what it was when its places were kept: an event can't be read any more, or has another form.
    #[error("the file was changed")]
    Changed,
    /// The file can't be read.
    #[error("the file can't be read")]
    Reader,
    /// The output failed.
    #[error("the output failed")]
    Writer,
    /// An event would have more than 4,294,967,295 bytes, or the log more than 2^64 - 1.
    #[error("an event is too long")]
    TooLong,
    /// All that is undone is to be one transaction, and the logs have different format descriptions.
    #[error("another format description than that of the transaction's first events")]
    Description,
    /// Memory was refused.
    #[error("memory was refused")]
    Memory,
}

impl From<AllocError> for UndoLogError {
    ghost use Rattle.binlog_undo_log.specs.declared.undo_error.UndoLogError.TheVariants.{Memory};

    ghost from_gives = { λ _ error. error ≡ Memory };

    fn from(_: AllocError) -> UndoLogError {
        UndoLogError::Memory
    }
}

impl From<WriteError> for UndoLogError {
    ghost use Rattle.std.specs.Prelude.{⊤};

    ghost from_gives = { λ _ error. ⊤ };

    fn from(error: WriteError) -> UndoLogError {
        match error {
            WriteError::TooLong => UndoLogError::TooLong,
            WriteError::Memory => UndoLogError::Memory,
        }
    }
}
