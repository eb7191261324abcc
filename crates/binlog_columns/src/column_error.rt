//! Why the columns of a table map are refused.
ghost use Rattle.std.specs.Prelude.{◌≡◌};
ghost use Rattle.binlog_columns.specs.Kinds.{kind_of};

use binlog_wire::Error;
use thiserror::Error as ErrorMessage;

/// What is wrong with a column of a table map, or with its metadata.
#[derive(Clone, Copy, Debug, PartialEq, Eq, Hash)]
pub enum ColumnErrorKind {
    /// The byte for the type isn't the number of a column type.
    BadType,
    /// The bytes end within the column's metadata.
    Truncated,
    /// The column's metadata is complete and not allowed for its type.
    BadMetadata,
    /// Bytes of metadata are left after the last column's.
    LeftOver,
}

/// Why the columns of a table map are refused: the first fault, from left to right.
#[derive(Clone, Copy, Debug, PartialEq, Eq, Hash, ErrorMessage)]
#[error("column {column} of the table map is refused: {kind:?}")]
pub struct ColumnError {
    /// What is wrong.
    pub kind: ColumnErrorKind,
    /// The index of the column, counted from 0; the number of columns for [`ColumnErrorKind::LeftOver`].
    pub column: u64,
}

/// The kind of an error of reading a column's metadata.
pub(crate) fn kind_of(error: Error) -> ColumnErrorKind
    ensures { result ≡ kind_of error }
{
    match error {
        Error::InvalidData(_) => ColumnErrorKind::BadMetadata,
        Error::WrongEventType(_) => ColumnErrorKind::BadType,
        _ => ColumnErrorKind::Truncated,
    }
}
