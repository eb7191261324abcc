//! Why a payload is refused.
use binlog_wire::Error as EventError;
use thiserror::Error;
use zstd_decode::ZstdError;

/// Why the data of a TRANSACTION_PAYLOAD event, its content, or an event of the content are refused. Bytes may be wrong in several
/// ways; the first that is found, from the front, is returned.
#[derive(Clone, Copy, Debug, PartialEq, Eq, Error)]
pub enum PayloadError {
    /// The data end within a field, or before the end of the fields.
    #[error("a payload event ends within its fields")]
    EventTruncated,
    /// A length-encoded number begins with `fb` or `ff`.
    #[error("a number of a payload event has no length")]
    Lenenc,
    /// A field of a known type is there twice.
    #[error("a field of a payload event is given twice")]
    FieldTwice,
    /// A value of a known type isn't as long as its number.
    #[error("a field of a payload event has a wrong length")]
    FieldLength,
    /// The compression type is neither 0, Zstandard, nor 255, none.
    #[error("the compression type {0} is not known")]
    Kind(u64),
    /// There is no payload size, or no compression type.
    #[error("a payload event has no payload size or no compression type")]
    NoField,
    /// The payload hasn't the size that is stated.
    #[error("the payload has not the size that is stated")]
    PayloadSize,
    /// The content is longer than the caller's limit, or its stated size is.
    #[error("the content is longer than the limit")]
    Limit,
    /// The content hasn't the size that is stated.
    #[error("the content has not the size that is stated")]
    UncompressedSize,
    /// The payload isn't Zstandard data.
    #[error("the payload can not be decompressed: {0}")]
    Zstd(ZstdError),
    /// The content ends within an event.
    #[error("the content ends within an event")]
    InnerTruncated,
    /// An event of the content states a size below that of its header, 19.
    #[error("an event of the content states a size below 19")]
    InnerSize,
    /// An event of the content has a type that no payload may hold: a payload (40), or a format description (15).
    #[error("an event of the content has the type {0}")]
    Type(u8),
    /// The data of an event of the content, a TABLE_MAP or a ROTATE, are refused.
    #[error("an event of the content is refused: {0}")]
    Event(EventError),
    /// An allocation failed.
    #[error("out of memory")]
    Memory,
}
