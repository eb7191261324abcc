//! Entries of arrays and objects, copied.
ghost use Rattle.std.specs.Prelude.{◌≡◌, ◌++◌, ◌∷◌, [], false, length, map, slice_get, option_map, IfErr, OnOk};
ghost use Rattle.binary_json.specs.Views.{json};
ghost use Rattle.binary_json.specs.Iterators.{member_of};
ghost use Rattle.binary_json_writing.specs.Owned.{owned_value};
ghost use Rattle.binary_json_writing.specs.Builders.{member_in};
ghost use Rattle.binary_json_writing.specs.Changes.{entries_of, is_array, is_object, AreUnwritten};

use crate::error::JsonWriteError;
use crate::list::{EntryList, MOST_KEY_BYTES};
use crate::owned::OwnedDocument;
use binary_json::Value;
use std::alloc::Global;

/// Whether it is an array.
pub(crate) fn is_array(value: &Value<'_>) -> bool
    ensures { result ≡ is_array (json value.now) }
{
    match value {
        Value::Array(_) => true,
        _ => false,
    }
}

/// Whether it is an object.
pub(crate) fn is_object(value: &Value<'_>) -> bool
    ensures { result ≡ is_object (json value.now) }
{
    match value {
        Value::Object(_) => true,
        _ => false,
    }
}

/// The number of entries.
#[tactic(auto, using(crate::proofs::EntryLists::keyless_count))]
pub(crate) fn entry_count(value: &Value<'_>) -> usize
    ensures { result ≡ length (entries_of (json value.now)) }
{
    match value {
        Value::Array(array) => array.len(),
        Value::Object(object) => object.len(),
        _ => 0,
    }
}

/// The key and the value of an entry. The elements of an array have empty keys.
#[tactic(auto, using(crate::proofs::EntryLists::keyless_some, crate::proofs::EntryLists::keyless_none))]
pub(crate) fn entry_at<'a>(value: &Value<'a>, index: usize) -> Option<(&'a [u8], Value<'a>)>
    ensures { option_map member_of result ≡ slice_get (entries_of (json value.now)) index }
{
    match value {
        Value::Array(array) => match array.get(index) {
            Some(element) => Some((&[], element)),
            None => None,
        },
        Value::Object(object) => object.get_entry(index),
        _ => None,
    }
}

/// Appends an entry. In an array its key is empty.
pub(crate) fn push_entry(
    alloc: Global,
    list: &mut EntryList,
    key: &[u8],
    value: OwnedDocument,
) -> Result<(), JsonWriteError>
    requires { list.old.keyed ≡ false → key.now ≡ [] }
    ensures keyed { list.new.keyed ≡ list.old.keyed }
    ensures more { OnOk result (map member_in list.new.entries.items ≡ map member_in list.old.entries.items ++ (key.now, owned_value value) ∷ []) }
    ensures refused { IfErr result (AreUnwritten list.old.keyed ((key.now, owned_value value) ∷ [])) }
{
    if key.len() > MOST_KEY_BYTES {
        return Err(JsonWriteError::KeyTooLong);
    }
    let key = Vec::from_slice(alloc, key)?;
    list.push(key, value)?;
    Ok(())
}
