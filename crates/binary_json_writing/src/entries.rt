//! Arrays and objects, written of their entries.
ghost use Rattle.std.specs.Prelude.{◌≡◌, ◌∷◌, ◌++◌, ◌+◌, ◌*◌, ◌^◌, ◌<◌, ◌≤◌, suc, length, map, true, false, IfOk, IfErr, OnOk, MatchOption};
ghost use Rattle.binary_json.specs.Layout.{width, key_len, value_len};
ghost use Rattle.binary_json_writing.specs.Written.{size, entry_size, key_entries, value_entries, keys, all_placed, keys_offset, values_offset, container, written_container};
ghost use Rattle.binary_json_writing.specs.Writable.{fits};
ghost use Rattle.binary_json_writing.specs.Views.{item, IsRefusedWhole};

use crate::entry::Entry;
use crate::error::JsonWriteError;
use crate::words::{push_word, width};
use std::alloc::{AllocError, Global};

/// From how many bytes on an array or an object can't be written.
const TOO_LARGE: usize = 1 << 32;

/// The most bytes of a small array or object.
const MOST_SMALL: usize = 65_535;

// The number of bytes that an entry takes in the header.
fn overhead(container: u8) -> usize
    ensures is { result ≡ key_len container + value_len container }
    ensures few { result ≤ 11 }
{
    if container < 2 {
        2 * width(container) + 3
    } else {
        width(container) + 1
    }
}

// A sum below 2^32.
fn plus(total: usize, count: usize) -> Option<usize>
    requires { total < 2 ^ 32 }
    ensures { MatchOption result (2 ^ 32 ≤ total + count) (λ sum. (sum ≡ total + count) × (sum < 2 ^ 32)) }
{
    if count >= TOO_LARGE - total {
        return None;
    }
    Some(total + count)
}

// A sum with what an entry takes, below 2^32.
fn plus_entry(container: u8, total: usize, entry: &Entry) -> Option<usize>
    requires { total < 2 ^ 32 }
    ensures { MatchOption result (2 ^ 32 ≤ total + entry_size container (item entry.now)) (λ sum. (sum ≡ total + entry_size container (item entry.now)) × (sum < 2 ^ 32)) }
{
    let total = plus(total, overhead(container))?;
    let total = plus(total, entry.key.len())?;
    plus(total, entry.placed(container).len())
}

// The number of bytes of an array or an object, if that is below 2^32.
#[tactic(auto, unfolding(crate::specs::Written::size))]
fn size(container: u8, entries: &[Entry]) -> Option<usize>
    ensures { MatchOption result (2 ^ 32 ≤ size container (map item entries.now)) (λ n. (n ≡ size container (map item entries.now)) × (n < 2 ^ 32)) }
{
    let mut total = 2 * width(container);
    'entries: for entry in entries {
        total = plus_entry(container, total, entry)?;
    }
    Some(total)
}

// Appends the entries of the keys, which begin at `offset`. Answers where they end.
fn push_key_entries(
    out: &mut Vec<u8>,
    container: u8,
    entries: &[Entry],
    offset: usize,
) -> Result<usize, AllocError>
    requires { offset + length (keys (map item entries.now)) < 2 ^ 64 }
    ensures { IfOk result (λ end. (out.new.items ≡ out.old.items ++ key_entries container offset (map item entries.now)) × (end ≡ offset + length (keys (map item entries.now)))) }
{
    let mut at = offset;
    'entries: for entry in entries {
        entry.push_key(out, container, at)?;
        at += entry.key.len();
    }
    Ok(at)
}

// Appends the entries of the values, which begin at `offset`.
fn push_value_entries(
    out: &mut Vec<u8>,
    container: u8,
    entries: &[Entry],
    offset: usize,
) -> Result<(), AllocError>
    requires { offset + length (all_placed container (map item entries.now)) < 2 ^ 64 }
    ensures { OnOk result (out.new.items ≡ out.old.items ++ value_entries container offset (map item entries.now)) }
{
    let mut at = offset;
    'entries: for entry in entries {
        entry.push_value(out, container, at)?;
        at += entry.placed(container).len();
    }
    Ok(())
}

// Appends the keys.
fn push_keys(out: &mut Vec<u8>, entries: &[Entry]) -> Result<(), AllocError>
    ensures { OnOk result (out.new.items ≡ out.old.items ++ keys (map item entries.now)) }
{
    'entries: for entry in entries {
        out.extend_from_slice(&entry.key)?;
    }
    Ok(())
}

// Appends the values that don't stand in their entries.
fn push_placed(out: &mut Vec<u8>, container: u8, entries: &[Entry]) -> Result<(), AllocError>
    ensures { OnOk result (out.new.items ≡ out.old.items ++ all_placed container (map item entries.now)) }
{
    'entries: for entry in entries {
        out.extend_from_slice(entry.placed(container))?;
    }
    Ok(())
}

// Appends an array or an object behind its type.
#[tactic(auto, using(crate::proofs::Containers::in_parts, crate::proofs::Layouts::size_is), unfolding(crate::specs::Written::container))]
fn push_container(
    out: &mut Vec<u8>,
    kind: u8,
    entries: &[Entry],
    bytes: usize,
) -> Result<(), AllocError>
    requires is { bytes ≡ size kind (map item entries.now) }
    requires small { bytes < 2 ^ 32 }
    ensures { OnOk result (out.new.items ≡ out.old.items ++ container kind (map item entries.now)) }
{
    push_word(out, kind, entries.len())?;
    push_word(out, kind, bytes)?;
    let keys = 2 * width(kind) + entries.len() * overhead(kind);
    let values = push_key_entries(out, kind, entries, keys)?;
    push_value_entries(out, kind, entries, values)?;
    push_keys(out, entries)?;
    push_placed(out, kind, entries)
}

// An array or an object of this type and size.
fn container(
    alloc: Global,
    kind: u8,
    entries: &[Entry],
    bytes: usize,
) -> Result<Vec<u8>, AllocError>
    requires is { bytes ≡ size kind (map item entries.now) }
    requires small { bytes < 2 ^ 32 }
    ensures { IfOk result (λ v. v.items ≡ kind ∷ container kind (map item entries.now)) }
{
    let mut out = Vec::with_capacity(alloc, bytes + 1)?;
    out.push(kind)?;
    push_container(&mut out, kind, entries, bytes)?;
    Ok(out)
}

/// The document of an array or an object of the small type `kind`, or of the large type behind it, if the small form is too large.
#[tactic(auto, unfolding(crate::specs::Written::container_type, crate::specs::Writable::fits))]
pub(crate) fn written_container(
    alloc: Global,
    kind: u8,
    entries: &[Entry],
) -> Result<Vec<u8>, JsonWriteError>
    requires { kind < 4 }
    ensures written { IfOk result (λ v. v.items ≡ written_container kind (map item entries.now)) }
    ensures fits { OnOk result (fits kind (map item entries.now) ≡ true) }
    ensures refused { IfErr result (IsRefusedWhole (fits kind (map item entries.now))) }
{
    if let Some(small) = size(kind, entries) {
        if small <= MOST_SMALL {
            return Ok(container(alloc, kind, entries, small)?);
        }
    }
    match size(kind + 1, entries) {
        Some(large) => Ok(container(alloc, kind + 1, entries, large)?),
        None => Err(JsonWriteError::TooLarge),
    }
}
