//! Why a text isn't read as a set of GTIDs.
ghost use Rattle.std.specs.Prelude.{◌≡◌, length};
ghost use Rattle.binlog_gtid_text.specs.Faults.{error_at};

use thiserror::Error;

/// What is wrong in a text that isn't that of a set of GTIDs.
#[derive(Clone, Copy, Debug, PartialEq, Eq, Error)]
pub enum GtidTextFault {
    /// No UUID: 32 hexadecimal digits with hyphens after the first 8, 12, 16 and 20.
    #[error("no UUID")]
    Uuid,
    /// Another byte than `:` or `,` after a UUID or an interval.
    #[error("neither a colon nor a comma")]
    Separator,
    /// A tag of more than 32 bytes.
    #[error("a tag that is too long")]
    Tag,
    /// No `:` after a tag.
    #[error("no colon after a tag")]
    Colon,
    /// No decimal digit where a number begins.
    #[error("no number")]
    Number,
    /// A number of 2^63 or more, or 0 as the first of an interval.
    #[error("a number out of range")]
    Range,
}

/// Why a text wasn't read.
#[derive(Clone, Copy, Debug, PartialEq, Eq, Error)]
pub enum GtidTextError {
    /// The text isn't that of a set of GTIDs: this is wrong at this byte of the text, counted from 0; at its length if the
    /// text ends there.
    #[error("{0} at byte {1}")]
    Invalid(GtidTextFault, usize),
    /// An allocation failed.
    #[error("out of memory")]
    Memory,
}

/// A fault, and the number of bytes of the text from there on.
#[derive(Clone, Copy, Debug)]
pub struct Fault {
    pub(crate) kind: GtidTextFault,
    pub(crate) left: usize,
}

impl Fault {
    /// A fault at the start of a part of the text that goes up to its end.
    pub(crate) fn new(kind: GtidTextFault, rest: &[u8]) -> Self
        ensures { result ≡ record { kind = kind; left = length rest.now } }
    {
        Fault {
            kind,
            left: rest.len(),
        }
    }

    /// The error for a text of this length.
    pub(crate) fn in_text(self, len: usize) -> GtidTextError
        ensures { result ≡ error_at len self }
    {
        GtidTextError::Invalid(self.kind, len.saturating_sub(self.left))
    }
}
