//! The texts of compressed statements and rows.
ghost use Rattle.std.specs.Prelude.{◌≡◌, ℕ, ◌≤◌, List, length, IfOk, IfErr};
ghost use Rattle.inflate.specs.Zlib.{IsZlibStream};
ghost use Rattle.binlog_mariadb.specs.Compressed.{number_from, Begins, HasNoHead, IsTextOf, IsCompressed, Denies, DeniesText, refusal};

use crate::compression_error::CompressionError;
use inflate::decompress_zlib;
use std::alloc::Global;

/// The text for which these bytes are stored: a byte that names the method and how many bytes of length follow, the
/// length of the text, its most significant byte first, and a zlib stream of the text. A text of more than `limit` bytes
/// is refused. Memory grows with the text that comes out, whatever length is stated.
///
/// Source: MariaDB's documentation, "Compressed Binlog Events", and its function `binlog_buf_uncompress`.
///
/// # Errors
///
/// - [`CompressionError::Truncated`] if the first byte is missing, or a byte of the length.
/// - [`CompressionError::Head`] if the first byte doesn't name zlib, or doesn't state one to four bytes of length.
/// - [`CompressionError::TooLong`] if the stated length is above `limit`. It comes before the stream is read.
/// - [`CompressionError::Stream`] if what follows isn't a zlib stream.
/// - [`CompressionError::Length`] if the stream's text has another length than the stated one.
/// - [`CompressionError::Memory`] if an allocation fails.
pub fn uncompress(alloc: Global, stored: &[u8], limit: usize) -> Result<Vec<u8>, CompressionError>
    ensures found { IfOk result (λ text. IsCompressed stored.now text.items) }
    ensures only { IfOk result (λ text. (other : List ℕ) → IsCompressed stored.now other → other ≡ text.items) }
    ensures within { IfOk result (λ text. length text.items ≤ limit) }
    ensures refused { IfErr result (λ e. Denies limit e stored.now) }
{
    let (size, stream) = split(stored)?;
    if size > limit {
        return Err(CompressionError::TooLong);
    }
    decompress(alloc, stream, size)
}

// The stated length of the text, and the stream.
fn split(stored: &[u8]) -> Result<(usize, &[u8]), CompressionError>
    ensures found { IfOk result (λ parts. Begins stored.now parts.0 parts.1.now) }
    ensures refused { IfErr result (λ e. HasNoHead e stored.now) }
{
    let Some((head, rest)) = stored.split_first() else {
        return Err(CompressionError::Truncated);
    };
    let count = usize::from(*head % 8);
    if *head / 32 != 4 || count < 1 || count > 4 {
        return Err(CompressionError::Head);
    }
    match rest.split_at_checked(count) {
        Some((size, stream)) => Ok((number_of(size), stream)),
        None => Err(CompressionError::Truncated),
    }
}

// The number that up to four bytes make, the most significant first.
fn number_of(bytes: &[u8]) -> usize
    requires { length bytes.now ≤ 4 }
    ensures { result ≡ number_from 0 bytes.now }
{
    match bytes {
        [a] => usize::from(*a),
        [a, b] => usize::from(*a) * 256 + usize::from(*b),
        [a, b, c] => (usize::from(*a) * 256 + usize::from(*b)) * 256 + usize::from(*c),
        [a, b, c, d] => {
            ((usize::from(*a) * 256 + usize::from(*b)) * 256 + usize::from(*c)) * 256
                + usize::from(*d)
        }
        _ => 0,
    }
}

// The text of a stream, which has this length.
fn decompress(alloc: Global, stream: &[u8], size: usize) -> Result<Vec<u8>, CompressionError>
    ensures found { IfOk result (λ text. IsTextOf stream.now size text.items) }
    ensures only { IfOk result (λ text. (other : List ℕ) → IsTextOf stream.now size other → other ≡ text.items) }
    ensures refused { IfErr result (λ e. DeniesText e (IsTextOf stream.now size)) }
{
    match decompress_zlib(alloc, stream, size) {
        Ok(text) => {
            if text.len() != size {
                return Err(CompressionError::Length);
            }
            Ok(text)
        }
        Err(error) => Err(refusal(error)),
    }
}

// Why a stream has no text of the stated length.
fn refusal(error: inflate::Error) -> CompressionError
    ensures { result ≡ refusal error }
{
    match error {
        inflate::Error::Memory => CompressionError::Memory,
        inflate::Error::TooLong => CompressionError::Length,
        _ => CompressionError::Stream(error),
    }
}
