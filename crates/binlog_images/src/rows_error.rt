//! Why rows are refused.
ghost use Rattle.std.specs.Prelude.{◌≡◌};
ghost use Rattle.binlog_images.specs.Images.{error_in};
ghost use Rattle.binlog_images.specs.Kinds.{kind_as, kind_of};
ghost use Rattle.binlog_values.specs.Faults.{refusal_of};

use binlog_columns::ColumnError;
use binlog_values::ValueFault;
use binlog_wire::Error;
use thiserror::Error as ErrorMessage;

/// What is wrong with a row.
#[derive(Clone, Copy, Debug, PartialEq, Eq, Hash)]
pub enum RowsErrorKind {
    /// The bytes end within the value options, the diff bits or the null bitmap of an image, or within a value.
    Truncated,
    /// A value is complete and out of its column's range, or the value options are complete and neither 0 nor 1.
    BadValue,
    /// Bytes are left, and no column is present in any image, so that a row has no bytes.
    LeftOver,
}

/// One of the two images of a row.
#[derive(Clone, Copy, Debug, PartialEq, Eq, Hash)]
pub enum ImageKind {
    /// The row as it was.
    Before,
    /// The row as it is written.
    After,
}

/// Why a row is refused: the first fault, in the order of the bytes.
#[derive(Clone, Copy, Debug, PartialEq, Eq, Hash, ErrorMessage)]
#[error("row {row} of the event is refused: {kind:?}")]
pub struct RowsError {
    /// What is wrong.
    pub kind: RowsErrorKind,
    /// The index of the row, counted from 0.
    pub row: u64,
    /// The image in which it is; None for [`RowsErrorKind::LeftOver`].
    pub image: Option<ImageKind>,
    /// The index of the column, counted from 0; None where it is in no column: in the value options, the diff bits or a
    /// null bitmap, or [`RowsErrorKind::LeftOver`].
    pub column: Option<u64>,
}

/// Why the rows of an event can't be read at all.
#[derive(Clone, Copy, Debug, PartialEq, Eq, Hash, ErrorMessage)]
pub enum RowsEventError {
    /// The table map is of another table id than the event's, which is this one.
    #[error("the table map isn't of the row event's table id {0}")]
    NoTableMap(u64),
    /// The columns of the table map are refused.
    #[error("{0}")]
    Columns(ColumnError),
    /// The event has another number of columns than the table map.
    #[error("the row event has {event} columns, and the table map {table}")]
    ColumnCount {
        /// The number of columns that the event states.
        event: u64,
        /// The number of columns of the table map.
        table: u64,
    },
}

/// Why an image is refused.
#[derive(Clone, Copy, Debug, PartialEq, Eq, Hash)]
pub(crate) struct ImageError {
    /// What is wrong.
    pub(crate) kind: RowsErrorKind,
    /// The index of the column; None for the value options, the diff bits and the null bitmap.
    pub(crate) column: Option<u64>,
}

impl ImageError {
    /// The same, of an image of a row.
    pub(crate) fn in_row(self, row: u64, image: ImageKind) -> RowsError
        ensures { result ≡ error_in row image self }
    {
        RowsError {
            kind: self.kind,
            row,
            image: Some(image),
            column: self.column,
        }
    }
}

/// The kind of an error of reading what is in front of the values.
pub(crate) fn kind_of(error: Error) -> RowsErrorKind
    ensures { result ≡ kind_of error }
{
    match error {
        Error::InvalidData(_) => RowsErrorKind::BadValue,
        _ => RowsErrorKind::Truncated,
    }
}

/// The kind of a fault of reading a value.
pub(crate) fn kind_of_fault(fault: ValueFault) -> RowsErrorKind
    ensures { result ≡ kind_as (refusal_of fault) }
{
    match fault {
        ValueFault::EndOfBody => RowsErrorKind::Truncated,
        ValueFault::OutOfRange => RowsErrorKind::BadValue,
    }
}
