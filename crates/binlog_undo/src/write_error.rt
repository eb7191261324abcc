//! Why events can't be written.
ghost use Rattle.std.specs.Prelude.{◌≡◌};

use std::alloc::AllocError;
use thiserror::Error as ErrorMessage;

/// Why an event can't be written.
#[derive(Clone, Copy, Debug, PartialEq, Eq, Hash, ErrorMessage)]
pub enum WriteError {
    /// It would have more than 4,294,967,295 bytes, which its header can't state; or the log more than 2^64 - 1.
    #[error("the event is too long")]
    TooLong,
    /// Memory was refused.
    #[error("memory was refused")]
    Memory,
}

impl From<AllocError> for WriteError {
    ghost use Rattle.binlog_undo.specs.declared.write_error.WriteError.TheVariants.{Memory};

    ghost from_gives = { λ _ error. error ≡ Memory };

    fn from(_: AllocError) -> WriteError {
        WriteError::Memory
    }
}
