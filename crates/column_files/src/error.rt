//! Why a text isn't read as a file of columns.
ghost use Rattle.std.specs.Prelude.{◌≡◌, length};
ghost use Rattle.column_files.specs.Faults.{error_at};

use thiserror::Error;

/// What is wrong in a text that isn't that of a file of columns.
#[derive(Clone, Copy, Debug, PartialEq, Eq, Error)]
pub enum ColumnFileFault {
    /// The text doesn't begin with [`HEADER`](crate::HEADER) and the end of a line.
    #[error("no line with the names of the six columns")]
    Header,
    /// A field has bytes that aren't UTF-8.
    #[error("bytes that aren't UTF-8")]
    Encoding,
    /// A field in UTF-8 has a NUL, or a `\` without `t`, `n`, `0` or `\` behind it.
    #[error("a byte that stands for none")]
    Escape,
    /// A line ends before its sixth field, or has more than six; or the text ends within a line.
    #[error("not six fields")]
    Fields,
    /// The third field isn't a number from 1 to 4294967295 in decimal digits without a 0 before them.
    #[error("no position of a column")]
    Position,
}

/// Why a text wasn't read.
#[derive(Clone, Copy, Debug, PartialEq, Eq, Error)]
pub enum ColumnFileError {
    /// The text isn't that of a file of columns: this is wrong at this byte of the text, counted from 0; at its length if the text
    /// ends there. A fault within a field is where the field begins.
    #[error("{0} at byte {1}")]
    Invalid(ColumnFileFault, usize),
    /// An allocation failed.
    #[error("out of memory")]
    Memory,
}

/// A fault, and the number of bytes of the text from there on.
#[derive(Clone, Copy, Debug)]
pub struct Fault {
    pub(crate) kind: ColumnFileFault,
    pub(crate) left: usize,
}

impl Fault {
    /// A fault at the start of a part of the text that goes up to its end.
    pub(crate) fn new(kind: ColumnFileFault, rest: &[u8]) -> Self
        ensures { result ≡ record { kind = kind; left = length rest.now } }
    {
        Fault {
            kind,
            left: rest.len(),
        }
    }

    /// The error for a text of this length.
    pub(crate) fn in_text(self, len: usize) -> ColumnFileError
        ensures { result ≡ error_at len self }
    {
        ColumnFileError::Invalid(self.kind, len.saturating_sub(self.left))
    }
}
