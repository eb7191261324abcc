//! Why a document is refused.
ghost use Rattle.std.specs.Prelude.{◌≡◌};

/// Why a document is refused.
#[derive(Clone, Copy, Debug, PartialEq, Eq)]
pub enum Refusal {
    /// More than 100 arrays and objects are within one another.
    Depth,
    /// The bytes end before the value does.
    Short,
    /// The size of an array or an object is above the number of bytes that are left.
    Size,
    /// The entries of an array or an object don't fit into its size.
    Entries,
    /// More bytes are to be read than the document has: offsets name the same bytes again and again.
    Work,
    /// A key isn't between the entries and the end of its object.
    Key,
    /// A value doesn't begin between the entries and the end of its array or object.
    Offset,
    /// A literal isn't null, true or false.
    Literal,
    /// The length of a string or an opaque value has more than five bytes, or is 2^32 or more, or the bytes end within it.
    Length,
    /// The bytes of an opaque value aren't a value of its column type.
    Opaque,
    /// A type isn't known.
    UnknownType,
}

/// Why a document is refused, and where.
#[derive(Clone, Copy, Debug, PartialEq, Eq)]
pub struct JsonError {
    /// Why it is refused.
    pub refusal: Refusal,
    /// The index of the first byte of what is refused: of an entry, or of a value.
    pub place: usize,
}

impl JsonError {
    /// A refusal at this place.
    pub(crate) fn new(refusal: Refusal, place: usize) -> JsonError
        ensures { result ≡ record { refusal = refusal; place = place } }
    {
        JsonError { refusal, place }
    }
}
