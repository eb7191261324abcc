//! Documents written anew.
ghost use Rattle.std.specs.Prelude.{◌≡◌, ◌≤◌, ◌<◌, ◌+◌, ◌++◌, ◌||◌, true, length, map, slice_range, IfOk, IfErr, OnOk};
ghost use Rattle.binary_json.specs.Views.{json};
ghost use Rattle.binary_json_writing.specs.Owned.{owned_value};
ghost use Rattle.binary_json_writing.specs.Builders.{member_in};
ghost use Rattle.binary_json_writing.specs.Changes.{entries_of, is_array, is_object, IsUnwritten, AreUnwritten};

use crate::copying::{entry_at, entry_count, is_object, push_entry};
use crate::error::JsonWriteError;
use crate::list::EntryList;
use crate::owned::OwnedDocument;
use binary_json::Value;
use std::alloc::Global;

// Appends the entry at this index.
#[cycle(owned)]
fn copy_entry(
    alloc: Global,
    list: &mut EntryList,
    value: &Value<'_>,
    index: usize,
) -> Result<(), JsonWriteError>
    requires keyed { list.old.keyed ≡ is_object (json value.now) }
    requires within { index < length (entries_of (json value.now)) }
    ensures keyed { list.new.keyed ≡ list.old.keyed }
    ensures more { OnOk result (map member_in list.new.entries.items ≡ map member_in list.old.entries.items ++ slice_range (entries_of (json value.now)) index (index + 1)) }
    ensures refused { IfErr result (AreUnwritten list.old.keyed (slice_range (entries_of (json value.now)) index (index + 1))) }
{
    match entry_at(value, index) {
        Some((key, entry)) => {
            let copy = owned(alloc, &entry)?;
            push_entry(alloc, list, key, copy)
        }
        None => Ok(()),
    }
}

/// Appends the entries of an array or an object from the index `from` on, in front of `to`.
#[cycle(owned)]
pub(crate) fn copy_entries(
    alloc: Global,
    list: &mut EntryList,
    value: &Value<'_>,
    from: usize,
    to: usize,
) -> Result<(), JsonWriteError>
    requires keyed { list.old.keyed ≡ is_object (json value.now) }
    requires order { from ≤ to }
    requires within { to ≤ length (entries_of (json value.now)) }
    ensures keyed { list.new.keyed ≡ list.old.keyed }
    ensures more { OnOk result (map member_in list.new.entries.items ≡ map member_in list.old.entries.items ++ slice_range (entries_of (json value.now)) from to) }
    ensures refused { IfErr result (AreUnwritten list.old.keyed (slice_range (entries_of (json value.now)) from to)) }
{
    'entries: for index in from..to {
        copy_entry(alloc, list, value, index)?;
    }
    Ok(())
}

// An array, or an object, whose keys stay in the order in which they are stored.
#[cycle(owned)]
fn owned_entries(alloc: Global, value: &Value<'_>) -> Result<OwnedDocument, JsonWriteError>
    requires { (is_array (json value.now) || is_object (json value.now)) ≡ true }
    ensures made { IfOk result (λ d. owned_value d ≡ json value.now) }
    ensures refused { IfErr result (IsUnwritten (json value.now)) }
{
    let mut list = EntryList::new(alloc, is_object(value));
    copy_entries(alloc, &mut list, value, 0, entry_count(value))?;
    list.finish(alloc)
}

// The value of a view.
#[cycle(owned)]
fn owned(alloc: Global, value: &Value<'_>) -> Result<OwnedDocument, JsonWriteError>
    ensures made { IfOk result (λ d. owned_value d ≡ json value.now) }
    ensures refused { IfErr result (IsUnwritten (json value.now)) }
{
    match value {
        Value::Null => Ok(OwnedDocument::null(alloc)?),
        Value::Bool(value) => Ok(OwnedDocument::boolean(alloc, *value)?),
        Value::I16(number) => Ok(OwnedDocument::int16(alloc, *number)?),
        Value::U16(number) => Ok(OwnedDocument::uint16(alloc, *number)?),
        Value::I32(number) => Ok(OwnedDocument::int32(alloc, *number)?),
        Value::U32(number) => Ok(OwnedDocument::uint32(alloc, *number)?),
        Value::I64(number) => Ok(OwnedDocument::int64(alloc, *number)?),
        Value::U64(number) => Ok(OwnedDocument::uint64(alloc, *number)?),
        Value::F64(double) => Ok(OwnedDocument::from_bits(alloc, double.to_bits())?),
        Value::String(text) => OwnedDocument::string(alloc, text),
        Value::Opaque(opaque) => OwnedDocument::opaque(alloc, opaque),
        Value::Array(_) => owned_entries(alloc, value),
        Value::Object(_) => owned_entries(alloc, value),
    }
}

/// The document of a value of another document, or of a part of one, as MySQL's serializer writes it: without gaps, and with each
/// array and object in the small form where that is small. Integers keep their width, and members their order.
///
/// # Errors
///
/// `Memory` if memory is refused, and `TooLarge` where a part would have 2^32 bytes or more. The other errors don't come for a
/// value of a document.
pub fn rewritten(alloc: Global, value: &Value<'_>) -> Result<OwnedDocument, JsonWriteError>
    ensures made { IfOk result (λ d. owned_value d ≡ json value.now) }
    ensures refused { IfErr result (IsUnwritten (json value.now)) }
{
    owned(alloc, value)
}
