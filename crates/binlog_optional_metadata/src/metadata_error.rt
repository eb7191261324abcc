//! Why the optional metadata is refused.
ghost use Rattle.std.specs.Prelude.{◌≡◌};
ghost use Rattle.binlog_optional_metadata.specs.Kinds.{kind_of};

use binlog_wire::Error;
use thiserror::Error as ErrorMessage;

/// What is wrong with a field.
#[derive(Clone, Copy, Debug, PartialEq, Eq, Hash)]
pub enum OptionalMetadataErrorKind {
    /// The bytes end within the field or its content, or a list is to have more members than bytes are left.
    Truncated,
    /// A length-encoded integer begins with `fb` or `ff`, or there is no column with an index.
    BadValue,
    /// Bytes are left after the content.
    LeftOver,
}

/// Why a field of the optional metadata is refused: its first fault, in the order of the bytes.
#[derive(Clone, Copy, Debug, PartialEq, Eq, Hash, ErrorMessage)]
#[error("a field of the optional metadata is refused: {kind:?}")]
pub struct OptionalMetadataError {
    /// What is wrong.
    pub kind: OptionalMetadataErrorKind,
    /// The number of the field's type; None where the fault is in the type or the length.
    pub field_type: Option<u8>,
}

/// The kind of an error of reading a field.
pub(crate) fn kind_of(error: Error) -> OptionalMetadataErrorKind
    ensures { result ≡ kind_of error }
{
    match error {
        Error::InvalidData(_) => OptionalMetadataErrorKind::BadValue,
        _ => OptionalMetadataErrorKind::Truncated,
    }
}
