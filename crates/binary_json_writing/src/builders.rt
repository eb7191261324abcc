//! Building arrays and objects.
ghost use Rattle.std.specs.Prelude.{◌≡◌, map, true, false, length, nat_lt, ◌==◌};
ghost use Rattle.binary_json_writing.specs.Stored.{key_in};
ghost use Rattle.binary_json_writing.specs.Keys.{bytes_before, is_before, rises};

use crate::error::JsonWriteError;
use crate::list::{EntryList, MOST_KEY_BYTES};
use crate::owned::OwnedDocument;
use std::alloc::{AllocError, Global};

/// An array that is built of its elements.
#[derive(Debug, Drop)]
pub struct ArrayBuilder {
    alloc: Global,
    list: EntryList,
    ghost array: { list.keyed ≡ false },
}

/// An object that is built of its members, in the order of their keys.
#[derive(Debug, Drop)]
pub struct ObjectBuilder {
    alloc: Global,
    list: EntryList,
    ghost object: { list.keyed ≡ true },
    ghost ordered: { rises (map key_in list.entries.items) ≡ true },
}

// Whether bytes come before others, of which there are as many.
fn bytes_before(a: &[u8], b: &[u8]) -> bool
    requires { length a.now ≡ length b.now }
    ensures { result ≡ bytes_before a.now b.now }
{
    'bytes: for index in 0..a.len() {
        if a[index] != b[index] {
            return a[index] < b[index];
        }
    }
    false
}

// Whether a key comes before another one: a shorter one does, and of two that are as long that with the smaller bytes.
#[tactic(auto, unfolding(crate::specs::Keys::is_before))]
pub(crate) fn is_before(a: &[u8], b: &[u8]) -> bool
    ensures { result ≡ is_before a.now b.now }
{
    if a.len() == b.len() {
        bytes_before(a, b)
    } else {
        a.len() < b.len()
    }
}

impl ArrayBuilder {
    ghost use Rattle.std.specs.Prelude.{◌≡◌, ◌++◌, ◌∷◌, [], OnOk, OnErr, IfOk, IfErr, false};
    ghost use Rattle.binary_json.specs.Values.{array};
    ghost use Rattle.binary_json_writing.specs.Owned.{owned_value};
    ghost use Rattle.binary_json_writing.specs.Stored.{IsRefusedEnd};
    ghost use Rattle.binary_json_writing.specs.Builders.{elements, of_elements};

    /// An array without elements. No memory is allocated.
    pub fn new(alloc: Global) -> ArrayBuilder
        ensures { elements result ≡ [] }
    {
        ArrayBuilder {
            alloc,
            list: EntryList::new(alloc, false),
        }
    }

    /// Appends an element.
    ///
    /// # Errors
    ///
    /// `AllocError` if memory is refused. The builder has the same elements then.
    pub fn push(&mut self, value: OwnedDocument) -> Result<(), AllocError>
        ensures more { OnOk result (elements self.new ≡ elements self.old ++ owned_value value ∷ []) }
        ensures same { OnErr result (elements self.new ≡ elements self.old) }
    {
        self.list.push(Vec::new(self.alloc), value)
    }

    /// The document of the array, in the small form if that has at most 65,535 bytes, and else in the large one.
    ///
    /// # Errors
    ///
    /// `TooDeep` exactly if more than 100 arrays and objects would be within one another; else `TooLarge` exactly if it would have
    /// 2^32 bytes or more; else `Memory` if memory is refused.
    pub fn finish(self) -> Result<OwnedDocument, JsonWriteError>
        ensures made { IfOk result (λ d. owned_value d ≡ array (of_elements (elements self))) }
        ensures refused { IfErr result (IsRefusedEnd false (of_elements (elements self))) }
    {
        let ArrayBuilder { alloc, list } = self;
        list.finish(alloc)
    }
}

impl ObjectBuilder {
    ghost use Rattle.std.specs.Prelude.{◌≡◌, ◌++◌, ◌∷◌, [], OnOk, OnErr, IfOk, IfErr, true, map};
    ghost use Rattle.binary_json.specs.Values.{object};
    ghost use Rattle.binary_json_writing.specs.Keys.{may_follow, rises};
    ghost use Rattle.binary_json_writing.specs.Owned.{owned_value};
    ghost use Rattle.binary_json_writing.specs.Stored.{IsRefusedEnd, key_in};
    ghost use Rattle.binary_json_writing.specs.Builders.{members, of_members, IsRefusedMember};

    /// An object without members. No memory is allocated.
    pub fn new(alloc: Global) -> ObjectBuilder
        ensures { members result ≡ [] }
    {
        ObjectBuilder {
            alloc,
            list: EntryList::new(alloc, true),
        }
    }

    // Whether a key may be that of the next member.
    fn may_follow(&self, key: &[u8]) -> bool
        ensures { result ≡ may_follow (map key_in self.now.list.entries.items) key.now }
    {
        match self.list.entries.last() {
            Some(last) => is_before(&last.key, key),
            None => true,
        }
    }

    /// Appends a member. Its key comes behind that of the last one: keys rise by length, and then by their bytes.
    ///
    /// # Errors
    ///
    /// `KeyTooLong` exactly if the key has more than 65,535 bytes; else `KeyOrder` exactly if it doesn't come behind that of the
    /// last member; else `Memory` if memory is refused. The builder has the same members then.
    pub fn push(&mut self, key: &[u8], value: OwnedDocument) -> Result<(), JsonWriteError>
        ensures more { OnOk result (members self.new ≡ members self.old ++ (key.now, owned_value value) ∷ []) }
        ensures ordered { OnOk result (may_follow (map (λ m. m.0) (members self.old)) key.now ≡ true) }
        ensures same { OnErr result (members self.new ≡ members self.old) }
        ensures refused { IfErr result (IsRefusedMember key.now (members self.old)) }
    {
        if key.len() > MOST_KEY_BYTES {
            return Err(JsonWriteError::KeyTooLong);
        }
        if !self.may_follow(key) {
            return Err(JsonWriteError::KeyOrder);
        }
        let key = Vec::from_slice(self.alloc, key)?;
        self.list.push(key, value)?;
        Ok(())
    }

    /// The document of the object, in the small form if that has at most 65,535 bytes, and else in the large one.
    ///
    /// # Errors
    ///
    /// `TooDeep` exactly if more than 100 arrays and objects would be within one another; else `TooLarge` exactly if it would have
    /// 2^32 bytes or more; else `Memory` if memory is refused.
    pub fn finish(self) -> Result<OwnedDocument, JsonWriteError>
        ensures made { IfOk result (λ d. owned_value d ≡ object (of_members (members self))) }
        ensures ordered { OnOk result (rises (map (λ m. m.0) (members self)) ≡ true) }
        ensures refused { IfErr result (IsRefusedEnd true (of_members (members self))) }
    {
        let ObjectBuilder { alloc, list } = self;
        list.finish(alloc)
    }
}
