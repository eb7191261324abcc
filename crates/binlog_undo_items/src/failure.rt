//! Why no log is written.
ghost use Rattle.std.specs.Prelude.{◌≡◌};
ghost use Rattle.binlog_undo_items.specs.Failures.{failure_number, failure_of};

use binlog_undo_log::UndoLogError;
use std::alloc::AllocError;

/// Why no log is written that undoes others.
#[derive(Clone, Copy)]
pub enum UndoFailure {
    /// A log has fewer than four bytes.
    EndOfInput,
    /// A log doesn't begin with `fe 62 69 6e`.
    InvalidFileHeader,
    /// An event would have more than 4,294,967,295 bytes.
    TooLong,
    /// Memory was refused.
    Memory,
    /// The sizes aren't those of the logs, a reason can't be skipped, a flag isn't known, or the names of tables aren't pairs.
    Options,
    /// Something can't be undone.
    Refused,
    /// All is to be one transaction, and the logs have different format descriptions.
    Description,
    /// A log was changed during the call.
    Changed,
}

impl UndoFailure {
    /// Its number, as C has it.
    pub fn number(self) -> u8
        ensures { result ≡ failure_number self }
    {
        match self {
            UndoFailure::EndOfInput => 1,
            UndoFailure::InvalidFileHeader => 2,
            UndoFailure::TooLong => 10,
            UndoFailure::Memory => 12,
            UndoFailure::Options => 118,
            UndoFailure::Refused => 119,
            UndoFailure::Description => 120,
            UndoFailure::Changed => 121,
        }
    }
}

impl From<AllocError> for UndoFailure {
    ghost use Rattle.binlog_undo_items.specs.declared.failure.UndoFailure.TheVariants.{Memory};

    ghost from_gives = { λ _ failure. failure ≡ Memory };

    fn from(_: AllocError) -> UndoFailure {
        UndoFailure::Memory
    }
}

impl From<UndoLogError> for UndoFailure {
    ghost use Rattle.binlog_undo_items.specs.Failures.{failure_of};

    ghost from_gives = { λ error failure. failure ≡ failure_of error };

    // Logs in memory are always read, and writing takes memory alone.
    fn from(error: UndoLogError) -> UndoFailure {
        match error {
            UndoLogError::Changed | UndoLogError::Reader => UndoFailure::Changed,
            UndoLogError::TooLong => UndoFailure::TooLong,
            UndoLogError::Description => UndoFailure::Description,
            UndoLogError::Writer | UndoLogError::Memory => UndoFailure::Memory,
        }
    }
}
