//! Why a document can't be written.
ghost use Rattle.std.specs.Prelude.{◌≡◌};

use std::alloc::AllocError;

/// Why a document can't be written.
#[derive(Clone, Copy, Debug, PartialEq, Eq, Hash)]
pub enum JsonWriteError {
    /// Memory was refused.
    Memory,
    /// A key has more than 65,535 bytes.
    KeyTooLong,
    /// A key isn't behind the last one of its object: keys rise by length, and then by their bytes, and each comes once.
    KeyOrder,
    /// More than 100 arrays and objects would be within one another.
    TooDeep,
    /// A string, an opaque value, an array or an object would have 2^32 bytes or more.
    TooLarge,
}

/// A failed allocation is [`JsonWriteError::Memory`].
impl From<AllocError> for JsonWriteError {
    ghost use Rattle.binary_json_writing.specs.declared.error.JsonWriteError.TheVariants.{Memory};

    ghost from_gives = { λ _ error. error ≡ Memory };

    fn from(_: AllocError) -> JsonWriteError {
        JsonWriteError::Memory
    }
}

/// Why a diff can't be applied to a document.
#[derive(Clone, Copy, Debug, PartialEq, Eq)]
pub enum JsonChangeError {
    /// The document itself, at the path `$`, is inserted or removed.
    Document,
    /// A member is named of a value that is no object.
    NoObject,
    /// An element is named of a value that is no array.
    NoArray,
    /// An object has no member of this name.
    NoMember,
    /// An array has no element at this place.
    NoElement,
    /// The member that is inserted is there already.
    MemberExists,
    /// The document after can't be written, or memory was refused.
    Write(JsonWriteError),
}

impl From<JsonWriteError> for JsonChangeError {
    ghost use Rattle.binary_json_writing.specs.declared.error.JsonChangeError.TheVariants.{Write};

    ghost from_gives = { λ limit error. error ≡ Write limit };

    fn from(limit: JsonWriteError) -> JsonChangeError {
        JsonChangeError::Write(limit)
    }
}
