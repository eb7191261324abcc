//! What a diff does with a value.
ghost use Rattle.std.specs.Prelude.{Bool, List, ℕ, ◌≡◌, ◌<◌, ◌≤◌, ◌+◌, ◌++◌, ◌∷◌, [], ◌||◌, true, false, length, map, slice_get, bytes_eq, option_map, Some, Ok, IfOk, IfErr, OnOk};
ghost use Rattle.binary_json.specs.Views.{json};
ghost use Rattle.binary_json_writing.specs.Owned.{owned_value};
ghost use Rattle.binary_json_writing.specs.Builders.{member_in};
ghost use Rattle.binary_json_writing.specs.Paths.{member, element, from_end, leg_of};
ghost use Rattle.binary_json_writing.specs.Changes.{entries_of, is_array, is_object, with_entries, spliced, key_index, key_rank, key_of, index_in, insertion_in, place_in, taken_by, new_entries, root_changed, changed, IsUnwritten, AreUnwritten, FailsBy};

use crate::builders::is_before;
use crate::copying::{entry_at, entry_count, is_array, is_object, push_entry};
use crate::error::{JsonChangeError, JsonWriteError};
use crate::list::EntryList;
use crate::owned::OwnedDocument;
use crate::paths::JsonPathLeg;
use crate::rewriting::{copy_entries, rewritten};
use binary_json::{JsonDiffOperation, Value};
use std::alloc::Global;

// Whether these are the same bytes.
fn is_same(a: &[u8], b: &[u8]) -> bool
    ensures { result ≡ bytes_eq a.now b.now }
{
    a == b
}

// The index of the first entry with this key.
fn key_index(value: &Value<'_>, key: &[u8]) -> Option<usize>
    ensures { result ≡ key_index key.now (entries_of (json value.now)) }
{
    'entries: for index in 0..entry_count(value) {
        if is_same(key_at(value, index), key) {
            return Some(index);
        }
    }
    None
}

// How many entries come before the first one whose key isn't before this one.
fn key_rank(value: &Value<'_>, key: &[u8]) -> usize
    ensures { result ≡ key_rank key.now (entries_of (json value.now)) }
{
    let count = entry_count(value);
    'entries: for index in 0..count {
        if !is_before(key_at(value, index), key) {
            return index;
        }
    }
    count
}

// The key of an entry.
#[tactic(auto, using(crate::proofs::EntryKeys::no_key))]
fn key_at<'a>(value: &Value<'a>, index: usize) -> &'a [u8]
    requires { index < length (entries_of (json value.now)) }
    ensures { option_map (λ p. p.0) (slice_get (entries_of (json value.now)) index) ≡ Some result.now }
{
    match entry_at(value, index) {
        Some((key, _)) => key,
        None => &[],
    }
}

// The index of the member of this name.
fn member_index(value: &Value<'_>, name: &[u8]) -> Result<usize, JsonChangeError>
    ensures { result ≡ index_in (member name.now) (json value.now) }
{
    if !is_object(value) {
        return Err(JsonChangeError::NoObject);
    }
    match key_index(value, name) {
        Some(index) => Ok(index),
        None => Err(JsonChangeError::NoMember),
    }
}

// The index of the element at this place.
fn element_index(value: &Value<'_>, place: usize) -> Result<usize, JsonChangeError>
    ensures { result ≡ index_in (element place) (json value.now) }
{
    if !is_array(value) {
        return Err(JsonChangeError::NoArray);
    }
    if place < entry_count(value) {
        Ok(place)
    } else {
        Err(JsonChangeError::NoElement)
    }
}

// The index of the element at this place from the end.
fn last_index(value: &Value<'_>, place: usize) -> Result<usize, JsonChangeError>
    ensures { result ≡ index_in (from_end place) (json value.now) }
{
    if !is_array(value) {
        return Err(JsonChangeError::NoArray);
    }
    let count = entry_count(value);
    if place < count {
        Ok(count - (place + 1))
    } else {
        Err(JsonChangeError::NoElement)
    }
}

// Where a member that isn't there yet is inserted.
fn member_insertion(value: &Value<'_>, name: &[u8]) -> Result<usize, JsonChangeError>
    ensures { result ≡ insertion_in (member name.now) (json value.now) }
{
    if !is_object(value) {
        return Err(JsonChangeError::NoObject);
    }
    match key_index(value, name) {
        Some(_) => Err(JsonChangeError::MemberExists),
        None => Ok(key_rank(value, name)),
    }
}

// Where an element is inserted.
fn element_insertion(value: &Value<'_>, place: usize) -> Result<usize, JsonChangeError>
    ensures { result ≡ insertion_in (element place) (json value.now) }
{
    if !is_array(value) {
        return Err(JsonChangeError::NoArray);
    }
    Ok(place.min(entry_count(value)))
}

// Where an element is inserted whose place is one from the end.
fn last_insertion(value: &Value<'_>, place: usize) -> Result<usize, JsonChangeError>
    ensures { result ≡ insertion_in (from_end place) (json value.now) }
{
    if !is_array(value) {
        return Err(JsonChangeError::NoArray);
    }
    Ok(entry_count(value).saturating_sub(place).saturating_sub(1))
}

impl JsonPathLeg {
    // The key of an entry to which it leads.
    fn key(&self) -> &[u8]
        ensures { result.now ≡ key_of (leg_of self.now) }
    {
        match self {
            JsonPathLeg::Member(name) => name,
            _ => &[],
        }
    }

    // The index of the entry to which it leads.
    fn index_in(&self, value: &Value<'_>) -> Result<usize, JsonChangeError>
        ensures { result ≡ index_in (leg_of self.now) (json value.now) }
    {
        match self {
            JsonPathLeg::Member(name) => member_index(value, name),
            JsonPathLeg::Element(place) => element_index(value, *place),
            JsonPathLeg::FromEnd(place) => last_index(value, *place),
        }
    }

    // Where an entry is inserted.
    fn insertion_in(&self, value: &Value<'_>) -> Result<usize, JsonChangeError>
        ensures { result ≡ insertion_in (leg_of self.now) (json value.now) }
    {
        match self {
            JsonPathLeg::Member(name) => member_insertion(value, name),
            JsonPathLeg::Element(place) => element_insertion(value, *place),
            JsonPathLeg::FromEnd(place) => last_insertion(value, *place),
        }
    }

    // Where an operation takes place.
    fn place_in(
        &self,
        operation: JsonDiffOperation,
        value: &Value<'_>,
    ) -> Result<usize, JsonChangeError>
        ensures { result ≡ place_in operation (leg_of self.now) (json value.now) }
    {
        match operation {
            JsonDiffOperation::Insert => self.insertion_in(value),
            JsonDiffOperation::Replace => self.index_in(value),
            JsonDiffOperation::Remove => self.index_in(value),
        }
    }
}

// How many entries an operation takes away.
fn taken_by(operation: JsonDiffOperation) -> usize
    ensures is { result ≡ taken_by operation }
    ensures few { result ≤ 1 }
{
    match operation {
        JsonDiffOperation::Insert => 0,
        JsonDiffOperation::Replace => 1,
        JsonDiffOperation::Remove => 1,
    }
}

// ---- entries in place of others

// The document of what comes in, if something does.
fn owned_new(
    alloc: Global,
    new: &Option<Value<'_>>,
) -> Result<Option<OwnedDocument>, JsonWriteError>
    ensures made { IfOk result (λ o. option_map owned_value o ≡ option_map json new.now) }
    ensures refused { IfErr result (λ e. (keyed : Bool) (key : List ℕ) → AreUnwritten keyed (new_entries key (option_map json new.now)) e) }
{
    match new {
        Some(value) => Ok(Some(rewritten(alloc, value)?)),
        None => Ok(None),
    }
}

// Appends the entry that comes in, if one does.
fn push_new(
    alloc: Global,
    list: &mut EntryList,
    key: &[u8],
    new: Option<OwnedDocument>,
) -> Result<(), JsonWriteError>
    requires { list.old.keyed ≡ false → key.now ≡ [] }
    ensures keyed { list.new.keyed ≡ list.old.keyed }
    ensures more { OnOk result (map member_in list.new.entries.items ≡ map member_in list.old.entries.items ++ new_entries key.now (option_map owned_value new)) }
    ensures refused { IfErr result (AreUnwritten list.old.keyed (new_entries key.now (option_map owned_value new))) }
{
    match new {
        Some(value) => push_entry(alloc, list, key, value),
        None => Ok(()),
    }
}

// The array or the object with what comes in, at this index, in place of so many entries.
fn spliced(
    alloc: Global,
    value: &Value<'_>,
    key: &[u8],
    index: usize,
    taken: usize,
    new: Option<OwnedDocument>,
) -> Result<OwnedDocument, JsonWriteError>
    requires container { (is_array (json value.now) || is_object (json value.now)) ≡ true }
    requires keyless { is_object (json value.now) ≡ false → key.now ≡ [] }
    requires within { index + taken ≤ length (entries_of (json value.now)) }
    ensures made { IfOk result (λ d. owned_value d ≡ with_entries (json value.now) (spliced index taken (new_entries key.now (option_map owned_value new)) (entries_of (json value.now)))) }
    ensures refused { IfErr result (IsUnwritten (with_entries (json value.now) (spliced index taken (new_entries key.now (option_map owned_value new)) (entries_of (json value.now))))) }
{
    let count = entry_count(value);
    let mut list = EntryList::new(alloc, is_object(value));
    copy_entries(alloc, &mut list, value, 0, index)?;
    push_new(alloc, &mut list, key, new)?;
    copy_entries(alloc, &mut list, value, index + taken, count)?;
    list.finish(alloc)
}

// ---- changes

// The document itself, changed.
fn root_changed(
    alloc: Global,
    operation: JsonDiffOperation,
    new: &Option<Value<'_>>,
) -> Result<OwnedDocument, JsonChangeError>
    ensures made { IfOk result (λ d. root_changed operation (option_map json new.now) ≡ Ok (owned_value d)) }
    ensures refused { IfErr result (FailsBy (root_changed operation (option_map json new.now))) }
{
    match operation {
        JsonDiffOperation::Replace => match new {
            Some(value) => Ok(rewritten(alloc, value)?),
            None => Err(JsonChangeError::Document),
        },
        JsonDiffOperation::Insert => Err(JsonChangeError::Document),
        JsonDiffOperation::Remove => Err(JsonChangeError::Document),
    }
}

// An array or an object, changed at an entry of its own.
fn entry_changed(
    alloc: Global,
    operation: JsonDiffOperation,
    new: &Option<Value<'_>>,
    leg: &JsonPathLeg,
    value: &Value<'_>,
) -> Result<OwnedDocument, JsonChangeError>
    ensures made { IfOk result (λ d. changed operation (option_map json new.now) (leg_of leg.now ∷ []) (json value.now) ≡ Ok (owned_value d)) }
    ensures refused { IfErr result (FailsBy (changed operation (option_map json new.now) (leg_of leg.now ∷ []) (json value.now))) }
{
    let index = leg.place_in(operation, value)?;
    let new = owned_new(alloc, new)?;
    let document = spliced(alloc, value, leg.key(), index, taken_by(operation), new)?;
    Ok(document)
}

/// The document of a value with a change at the end of these legs.
pub(crate) fn changed(
    alloc: Global,
    operation: JsonDiffOperation,
    new: &Option<Value<'_>>,
    legs: &[JsonPathLeg],
    value: &Value<'_>,
) -> Result<OwnedDocument, JsonChangeError>
    ensures made { IfOk result (λ d. changed operation (option_map json new.now) (map leg_of legs.now) (json value.now) ≡ Ok (owned_value d)) }
    ensures refused { IfErr result (FailsBy (changed operation (option_map json new.now) (map leg_of legs.now) (json value.now))) }
{
    let Some((leg, rest)) = legs.split_first() else {
        return root_changed(alloc, operation, new);
    };
    if rest.is_empty() {
        return entry_changed(alloc, operation, new, leg, value);
    }
    let index = leg.index_in(value)?;
    let Some((_, entry)) = entry_at(value, index) else {
        return Err(JsonChangeError::NoElement);
    };
    let inner = changed(alloc, operation, new, rest, &entry)?;
    let document = spliced(alloc, value, leg.key(), index, 1, Some(inner))?;
    Ok(document)
}
