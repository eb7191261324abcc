//! Why a row can't be written.
use binlog_images::ImageKind;
use thiserror::Error as ErrorMessage;

/// What is wrong with the values of a row.
#[derive(Clone, Copy, Debug, PartialEq, Eq, Hash)]
pub enum RowWriteErrorKind {
    /// An image is given that the rows of the event don't have, or one that they have isn't given.
    WrongImages,
    /// No column is present in any image, so that a row would have no bytes.
    NoColumns,
    /// An image has another number of values than of columns that are present.
    WrongCount,
    /// The value isn't one of the column's type.
    WrongType,
    /// The value is of the column's type, and doesn't fit the column.
    OutOfRange,
    /// Memory was refused.
    Memory,
}

/// Why a row can't be written.
#[derive(Clone, Copy, Debug, PartialEq, Eq, Hash, ErrorMessage)]
#[error("the row can't be written: {kind:?}")]
pub struct RowWriteError {
    /// What is wrong.
    pub kind: RowWriteErrorKind,
    /// The image in which it is; None where it is in none.
    pub image: Option<ImageKind>,
    /// The index of the column, counted from 0; None where it is in none.
    pub column: Option<u64>,
}

/// Why the values of an image can't be written.
#[derive(Clone, Copy, Debug, PartialEq, Eq, Hash)]
pub(crate) struct ImageFault {
    /// What is wrong.
    pub(crate) kind: RowWriteErrorKind,
    /// The index of the column; None where it is in none.
    pub(crate) column: Option<u64>,
}
