//! Why the text of a file of columns isn't read.

use crate::error::ColumnFileFault;
use crate::place::Place;
use thiserror::Error;

/// What is wrong in a text.
#[derive(Clone, Copy, Debug, PartialEq, Eq, Error)]
pub enum TextFault {
    /// The text isn't that of a file of columns.
    #[error("{0}")]
    Text(ColumnFileFault),
    /// The position of a column isn't the next one of its table.
    #[error("a column whose position isn't the next one of its table")]
    Order,
}

/// Why a text isn't read.
#[derive(Clone, Copy, Debug, PartialEq, Eq, Error)]
pub enum ReadTablesError {
    /// This is wrong first, at this place. A fault within a field is where the field begins; a position that isn't the next one is a
    /// field, too.
    #[error("line {line}, column {column}: {0}", line = .1.line, column = .1.column)]
    Fault(TextFault, Place),
    /// An allocation failed.
    #[error("out of memory")]
    Memory,
}
