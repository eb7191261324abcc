//! Views of arrays and objects.
ghost use Rattle.std.specs.Prelude.{◌≡◌, ◌≢◌, ◌<◌, ◌≤◌, true};
ghost use Rattle.std.specs.Bool.{OnTrue, OnFalse};
ghost use Rattle.binary_json.specs.Decoding.{is_readable};

use crate::container::Container;
use crate::value::Value;

/// An array. Its values may share bytes.
#[derive(Clone, Copy, Debug)]
pub struct Array<'a> {
    pub(crate) container: Container<'a>,
    ghost is_array: { 2 ≤ container.kind },
    ghost checked: { is_readable container.kind container.bytes.now ≡ true },
}

/// An object: members in the order in which they are stored. A key may come twice, which servers don't write.
#[derive(Clone, Copy, Debug)]
pub struct Object<'a> {
    pub(crate) container: Container<'a>,
    ghost is_object: { container.kind < 2 },
    ghost checked: { is_readable container.kind container.bytes.now ≡ true },
}

// The parts of an array or an object whose bytes are checked.
#[tactic(auto, using(crate::proofs::Reading::at_header))]
fn checked_container(kind: u8, bytes: &[u8]) -> Container<'_>
    requires known { kind < 4 }
    requires checked { is_readable kind bytes.now ≡ true }
    ensures kind { result.kind ≡ kind }
    ensures bytes { result.bytes.now ≡ bytes.now }
{
    match Container::read(kind, 0, bytes) {
        Ok(container) => container,
        Err(_) => unreachable!(),
    }
}

// Whether these are the same bytes.
#[tactic(auto, using(crate::proofs::Keys::same_bytes, crate::proofs::Keys::other_bytes))]
fn are_same(a: &[u8], b: &[u8]) -> bool
    ensures same { OnTrue result (a.now ≡ b.now) }
    ensures other { OnFalse result (a.now ≢ b.now) }
{
    a == b
}

impl<'a> Container<'a> {
    ghost use Rattle.std.specs.Prelude.{◌≡◌, ◌<◌, true, slice_get, Some};
    ghost use Rattle.binary_json.specs.Values.{values};
    ghost use Rattle.binary_json.specs.Decoding.{is_readable, entries_in};
    ghost use Rattle.binary_json.specs.Views.{json};

    // The value of an entry.
    #[tactic(auto, using(crate::proofs::Reading::at_inlined, crate::proofs::Reading::at_placed))]
    fn value(&self, index: usize) -> Value<'a>
        requires known { index < self.now.count }
        requires checked { is_readable self.now.kind self.now.bytes.now ≡ true }
        ensures { slice_get (values (entries_in self.now.kind self.now.bytes.now)) index ≡ Some (json result) }
    {
        let kind = self.value_type(index);
        if self.is_inlined(kind) {
            Value::fixed(kind, self.inlined_bytes(index))
        } else {
            Value::new(kind, self.placed_bytes(index))
        }
    }
}

impl<'a> Array<'a> {
    ghost use Rattle.std.specs.Prelude.{◌≡◌, ◌≤◌, ◌<◌, length, true, option_map, slice_get, IsTrue, ◌↔◌};
    ghost use Rattle.binary_json.specs.Decoding.{is_readable};
    ghost use Rattle.binary_json.specs.Views.{elements, json};

    /// The array at the front of bytes that are checked.
    pub(crate) fn new(kind: u8, bytes: &'a [u8]) -> Array<'a>
        requires low { 2 ≤ kind }
        requires high { kind ≤ 3 }
        requires checked { is_readable kind bytes.now ≡ true }
        ensures kind { result.container.kind ≡ kind }
        ensures bytes { result.container.bytes.now ≡ bytes.now }
    {
        Array {
            container: checked_container(kind, bytes),
        }
    }

    /// The number of values.
    #[tactic(auto, using(crate::proofs::Reading::values_count))]
    pub fn len(&self) -> usize
        ensures { result ≡ length (elements self.now) }
    {
        self.container.count
    }

    /// Whether there is no value.
    #[tactic(auto, using(crate::proofs::Reading::values_count))]
    pub fn is_empty(&self) -> bool
        ensures { IsTrue result ↔ (length (elements self.now) ≡ 0) }
    {
        self.container.count == 0
    }

    /// The value at this index; None if it isn't below the number of values.
    #[tactic(auto, using(crate::proofs::Reading::values_count, crate::proofs::Reading::none_past))]
    pub fn get(&self, index: usize) -> Option<Value<'a>>
        ensures { option_map json result ≡ slice_get (elements self.now) index }
    {
        if index >= self.container.count {
            return None;
        }
        Some(self.container.value(index))
    }
}

impl<'a> Object<'a> {
    ghost use Rattle.std.specs.Prelude.{◌≡◌, ◌≤◌, ◌<◌, length, true, Some, option_map, slice_get, IsTrue, ◌↔◌, MatchOption};
    ghost use Rattle.binary_json.specs.Values.{IsFirstOfKey, HasNoKey};
    ghost use Rattle.binary_json.specs.Decoding.{is_readable};
    ghost use Rattle.binary_json.specs.Views.{members, json};

    /// The object at the front of bytes that are checked.
    pub(crate) fn new(kind: u8, bytes: &'a [u8]) -> Object<'a>
        requires high { kind < 2 }
        requires checked { is_readable kind bytes.now ≡ true }
        ensures kind { result.container.kind ≡ kind }
        ensures bytes { result.container.bytes.now ≡ bytes.now }
    {
        Object {
            container: checked_container(kind, bytes),
        }
    }

    /// The number of members.
    #[tactic(auto, using(crate::proofs::Reading::members_count))]
    pub fn len(&self) -> usize
        ensures { result ≡ length (members self.now) }
    {
        self.container.count
    }

    /// Whether there is no member.
    #[tactic(auto, using(crate::proofs::Reading::members_count))]
    pub fn is_empty(&self) -> bool
        ensures { IsTrue result ↔ (length (members self.now) ≡ 0) }
    {
        self.container.count == 0
    }

    /// The key and the value of the member at this index; None if it isn't below the number of members.
    #[tactic(auto, using(crate::proofs::Reading::members_count, crate::proofs::Reading::at_member, crate::proofs::Reading::none_past))]
    pub fn get_entry(&self, index: usize) -> Option<(&'a [u8], Value<'a>)>
        ensures { option_map (λ p. (p.0.now, json p.1)) result ≡ slice_get (members self.now) index }
    {
        if index >= self.container.count {
            return None;
        }
        Some((self.container.key(index), self.container.value(index)))
    }

    // The key of a member.
    #[tactic(auto, using(crate::proofs::Reading::members_count, crate::proofs::Reading::at_member))]
    fn key(&self, index: usize) -> &'a [u8]
        requires { index < length (members self.now) }
        ensures { option_map (λ m. m.0) (slice_get (members self.now) index) ≡ Some result.now }
    {
        self.container.key(index)
    }

    /// The value of the first member with this key; None if there is no such member. It looks at one key after the other: that
    /// servers keep keys in order isn't relied on.
    #[tactic(auto, using(crate::proofs::Reading::members_count))]
    pub fn get(&self, key: &str) -> Option<Value<'a>>
        ensures { MatchOption result (HasNoKey key.now (members self.now)) (λ value. IsFirstOfKey key.now (json value) (members self.now)) }
    {
        'members: for index in 0..self.container.count {
            if are_same(self.key(index), key.as_bytes()) {
                return Some(self.container.value(index));
            }
        }
        None
    }
}
