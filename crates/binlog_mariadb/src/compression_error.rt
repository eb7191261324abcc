//! Why what is stored in place of a text has none.
use thiserror::Error;

/// Why what is stored has no text.
#[derive(Clone, Copy, Debug, PartialEq, Eq, Error)]
pub enum CompressionError {
    /// The first byte is missing, or one of the bytes of the length.
    #[error("the head of the compressed data ends too early")]
    Truncated,
    /// The first byte doesn't say that zlib was used, and that 1 to 4 bytes of length follow.
    #[error("the head of the compressed data is invalid")]
    Head,
    /// The text has another length than the stated one.
    #[error("the compressed data has another length than the stated one")]
    Length,
    /// The stated length is above the limit.
    #[error("the compressed data is longer than the limit")]
    TooLong,
    /// What follows isn't a zlib stream, for this reason.
    #[error("the compressed data is damaged: {0}")]
    Stream(inflate::Error),
    /// An allocation failed.
    #[error("out of memory")]
    Memory,
}
