//! Why row events can't be undone.
ghost use Rattle.std.specs.Prelude.{◌≡◌};

use binlog_images::{RowsError, RowsEventError};
use std::alloc::AllocError;
use thiserror::Error as ErrorMessage;

/// Why a row event can't be undone.
#[derive(Clone, Copy, Debug, PartialEq, Eq, Hash, ErrorMessage)]
pub enum UndoError {
    /// The columns of the table map are refused, or the event has another number of columns.
    #[error("{0}")]
    Event(RowsEventError),
    /// A row is refused.
    #[error("{0}")]
    Rows(RowsError),
    /// The images don't have what is needed to undo the event: columns are absent.
    #[error("the images of the row event lack columns")]
    Image,
    /// This row, counted from 0, has diffs of a JSON document.
    #[error("row {0} of the event has diffs of a document")]
    PartialJson(u64),
    /// Memory was refused.
    #[error("memory was refused")]
    Memory,
}

impl From<AllocError> for UndoError {
    ghost use Rattle.binlog_undo.specs.declared.undo_error.UndoError.TheVariants.{Memory};

    ghost from_gives = { λ _ error. error ≡ Memory };

    fn from(_: AllocError) -> UndoError {
        UndoError::Memory
    }
}
