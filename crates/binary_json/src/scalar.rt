//! Checking scalars.
ghost use Rattle.std.specs.Prelude.{◌≡◌, ◌+◌, ◌<◌, ◌≤◌, ◌^◌, length, IfSome, true};
ghost use Rattle.binary_json.specs.Layout.{fixed_len, is_fixed, variable_in, variable, text};
ghost use Rattle.binary_json.specs.Refusals.{spend, is_unknown, fixed_left, text_left, opaque_left};

use crate::error::{JsonError, Refusal};
use crate::opaque::is_opaque;

/// The most bytes of a length.
const LENGTH_BYTES: u8 = 5;

/// Takes so many bytes from what may still be read.
pub(crate) fn spend(count: usize, place: usize, left: usize) -> Result<usize, JsonError>
    ensures { result ≡ spend count place left }
{
    if left < count {
        return Err(JsonError::new(Refusal::Work, place));
    }
    Ok(left - count)
}

/// The number of bytes of a literal or a number.
pub(crate) fn fixed_len(kind: u8) -> usize
    ensures { result ≡ fixed_len kind }
{
    match kind {
        0..=4 => 1,
        5..=6 => 2,
        7..=8 => 4,
        _ => 8,
    }
}

/// Whether it is a literal that isn't known.
pub(crate) fn is_unknown(kind: u8, bytes: &[u8]) -> bool
    requires { 0 < length bytes.now }
    ensures { result ≡ is_unknown kind bytes.now }
{
    kind == 4 && bytes[0] > 2
}

/// Checks a literal or a number.
#[tactic(auto, unfolding(crate::specs::Refusals::fixed_left))]
pub(crate) fn check_fixed(
    kind: u8,
    place: usize,
    bytes: &[u8],
    left: usize,
) -> Result<usize, JsonError>
    requires { is_fixed kind ≡ true }
    ensures { result ≡ fixed_left kind place bytes.now left }
{
    let len = fixed_len(kind);
    if bytes.len() < len {
        return Err(JsonError::new(Refusal::Short, place));
    }
    let left = spend(len, place, left)?;
    if is_unknown(kind, bytes) {
        return Err(JsonError::new(Refusal::Literal, place));
    }
    Ok(left)
}

// A number of at most so many bytes, seven bits each, and their count.
#[tactic(auto, using(crate::proofs::Lengths::one_byte_more, crate::proofs::Lengths::some_values, crate::proofs::Lengths::few_values))]
fn variable_in(most: u8, bytes: &[u8]) -> Option<(u64, usize)>
    requires { most ≤ 5 }
    ensures is { result ≡ variable_in most bytes.now }
    ensures small { IfSome result (λ p. p.0 < 128 ^ most) }
    ensures count { IfSome result (λ p. p.1 ≤ most) }
{
    if most == 0 {
        return None;
    }
    let (byte, rest) = bytes.split_first()?;
    if *byte < 128 {
        return Some((u64::from(*byte), 1));
    }
    let (high, count) = variable_in(most - 1, rest)?;
    Some((u64::from(*byte - 128) + 128 * high, count + 1))
}

// The length at the front of the bytes, and the number of its bytes.
#[tactic(auto, unfolding(crate::specs::Layout::variable))]
fn variable(bytes: &[u8]) -> Option<(usize, usize)>
    ensures is { result ≡ variable bytes.now }
    ensures small { IfSome result (λ p. p.0 < 2 ^ 32) }
    ensures count { IfSome result (λ p. p.1 ≤ 5) }
{
    let (len, count) = variable_in(LENGTH_BYTES, bytes)?;
    if len >= 1 << 32 {
        return None;
    }
    Some((len as usize, count))
}

/// The bytes behind their length.
#[tactic(auto, unfolding(crate::specs::Layout::text))]
pub(crate) fn text(bytes: &[u8]) -> &[u8]
    ensures { result.now ≡ text bytes.now }
{
    let Some((len, count)) = variable(bytes) else {
        return &[];
    };
    let behind = &bytes[count.min(bytes.len())..];
    &behind[..len.min(behind.len())]
}

/// Checks bytes behind their length.
#[tactic(auto, unfolding(crate::specs::Refusals::text_left))]
pub(crate) fn check_text(place: usize, bytes: &[u8], left: usize) -> Result<usize, JsonError>
    ensures { result ≡ text_left place bytes.now left }
{
    let Some((len, count)) = variable(bytes) else {
        return Err(JsonError::new(Refusal::Length, place));
    };
    if bytes.len() < count + len {
        return Err(JsonError::new(Refusal::Short, place));
    }
    spend(count + len, place, left)
}

/// Checks an opaque value.
#[tactic(auto, unfolding(crate::specs::Refusals::opaque_left))]
pub(crate) fn check_opaque(place: usize, bytes: &[u8], left: usize) -> Result<usize, JsonError>
    requires { place + length bytes.now < 2 ^ 64 }
    ensures { result ≡ opaque_left place bytes.now left }
{
    let Some((kind, rest)) = bytes.split_first() else {
        return Err(JsonError::new(Refusal::Short, place));
    };
    let left = spend(1, place, left)?;
    let left = check_text(place + 1, rest, left)?;
    if !is_opaque(*kind, text(rest)) {
        return Err(JsonError::new(Refusal::Opaque, place));
    }
    Ok(left)
}
