//! The check of a whole value, depth first.
ghost use Rattle.std.specs.Prelude.{◌≡◌, ◌+◌, ◌<◌, ◌≤◌, ◌^◌, length, true};
ghost use Rattle.binary_json.specs.Layout.{is_container};
ghost use Rattle.binary_json.specs.Refusals.{scalar_left, key_left, value_left_by, entries_left, container_left, value_left};

use crate::container::Container;
use crate::error::{JsonError, Refusal};
use crate::scalar::{check_fixed, check_opaque, check_text, is_unknown, spend};

// Checks a value that is no array and no object.
#[tactic(auto, unfolding(crate::specs::Refusals::scalar_left))]
fn check_scalar(kind: u8, place: usize, bytes: &[u8], left: usize) -> Result<usize, JsonError>
    requires { place + length bytes.now < 2 ^ 64 }
    ensures { result ≡ scalar_left kind place bytes.now left }
{
    match kind {
        4..=11 => check_fixed(kind, place, bytes, left),
        12 => check_text(place, bytes, left),
        15 => check_opaque(place, bytes, left),
        _ => Err(JsonError::new(Refusal::UnknownType, place)),
    }
}

// Checks the key of an entry, if it has one.
#[tactic(auto, using(crate::proofs::Places::key_within), unfolding(crate::specs::Refusals::key_left))]
fn check_key(
    container: &Container,
    place: usize,
    index: usize,
    left: usize,
) -> Result<usize, JsonError>
    requires known { index < container.now.count }
    requires place { place + length container.now.bytes.now < 2 ^ 64 }
    ensures { result ≡ key_left container.now.kind place container.now.bytes.now index left }
{
    if !container.is_object() {
        return Ok(left);
    }
    let here = place + container.key_place(index);
    let offset = container.key_offset(index);
    let size = container.key_size(index);
    if offset < container.header() || offset + size > container.size {
        return Err(JsonError::new(Refusal::Key, here));
    }
    spend(size, here, left)
}

// Checks the value of an entry. Behind its array or object, so many may be within one another.
#[cycle(check)]
#[tactic(auto, using(crate::proofs::Places::value_within), unfolding(crate::specs::Refusals::value_left_by))]
fn check_entry(
    container: &Container,
    place: usize,
    index: usize,
    depth: usize,
    left: usize,
) -> Result<usize, JsonError>
    requires known { index < container.now.count }
    requires place { place + length container.now.bytes.now < 2 ^ 64 }
    ensures { result ≡ value_left_by (value_left depth) container.now.kind place container.now.bytes.now index left }
{
    let here = place + container.value_place(index);
    let kind = container.value_type(index);
    if container.is_inlined(kind) {
        if is_unknown(kind, container.inlined_bytes(index)) {
            return Err(JsonError::new(Refusal::Literal, here));
        }
        return Ok(left);
    }
    let offset = container.value_offset(index);
    if offset < container.header() || offset >= container.size {
        return Err(JsonError::new(Refusal::Offset, here));
    }
    check_value(
        kind,
        place + offset,
        container.placed_bytes(index),
        depth,
        left,
    )
}

// Checks all entries.
#[cycle(check)]
fn check_entries(
    container: &Container,
    place: usize,
    depth: usize,
    left: usize,
) -> Result<usize, JsonError>
    requires { place + length container.now.bytes.now < 2 ^ 64 }
    ensures { result ≡ entries_left (value_left depth) container.now.kind place container.now.bytes.now container.now.count 0 left }
{
    let mut rest = left;
    'entries: for index in 0..container.count {
        rest = check_key(container, place, index, rest)?;
        rest = check_entry(container, place, index, depth, rest)?;
    }
    Ok(rest)
}

// Checks an array or an object.
#[cycle(check)]
#[tactic(auto, unfolding(crate::specs::Refusals::container_left))]
fn check_container(
    kind: u8,
    place: usize,
    bytes: &[u8],
    depth: usize,
    left: usize,
) -> Result<usize, JsonError>
    requires known { kind < 4 }
    requires place { place + length bytes.now < 2 ^ 64 }
    ensures { result ≡ container_left (value_left depth) kind place bytes.now left }
{
    let container = Container::read(kind, place, bytes)?;
    let left = spend(container.header(), place, left)?;
    check_entries(&container, place, depth, left)
}

/// Checks the value at the front of the bytes, which begin at `place`, where so many arrays and objects may be within one
/// another. Answers what may be read behind it.
#[cycle(check)]
#[tactic(auto, unfolding(crate::specs::Refusals::value_left))]
pub(crate) fn check_value(
    kind: u8,
    place: usize,
    bytes: &[u8],
    depth: usize,
    left: usize,
) -> Result<usize, JsonError>
    requires { place + length bytes.now < 2 ^ 64 }
    ensures { result ≡ value_left depth kind place bytes.now left }
{
    if kind >= 4 {
        return check_scalar(kind, place, bytes, left);
    }
    if depth == 0 {
        return Err(JsonError::new(Refusal::Depth, place));
    }
    check_container(kind, place, bytes, depth - 1, left)
}
