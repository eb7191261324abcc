//! The entries of an array or an object that is built.
ghost use Rattle.std.specs.Prelude.{◌≡◌, ◌≤◌, map, max, true};
ghost use Rattle.binary_json.specs.Values.{entries_nesting};
ghost use Rattle.binary_json_writing.specs.Written.{items};
ghost use Rattle.binary_json_writing.specs.Writable.{are_writable};
ghost use Rattle.binary_json_writing.specs.Views.{item};
ghost use Rattle.binary_json_writing.specs.Stored.{small_type, stored};

use crate::entries::written_container;
use crate::entry::Entry;
use crate::error::JsonWriteError;
use crate::owned::OwnedDocument;
use std::alloc::{AllocError, Global};

/// The most bytes of a key.
pub(crate) const MOST_KEY_BYTES: usize = 65_535;

/// How many arrays and objects may be within one another.
const MOST_NESTED: usize = 100;

/// Entries, with keys or without. It knows how many arrays and objects are within one another in their values.
#[derive(Debug, Drop)]
pub(crate) struct EntryList {
    pub(crate) keyed: bool,
    pub(crate) entries: Vec<Entry>,
    pub(crate) depth: usize,
    ghost exact: { items (stored keyed entries.items) ≡ map item entries.items },
    ghost possible: { are_writable keyed (stored keyed entries.items) ≡ true },
    ghost deep: { depth ≡ entries_nesting (stored keyed entries.items) },
    ghost shallow: { depth ≤ 100 },
}

// The greater of two depths.
fn deeper(a: usize, b: usize) -> usize
    ensures { result ≡ max a b }
{
    if a < b { b } else { a }
}

// The small type of an object or an array.
fn small_type(keyed: bool) -> u8
    ensures is { result ≡ small_type keyed }
    ensures low { result ≤ 2 }
{
    if keyed { 0 } else { 2 }
}

impl EntryList {
    ghost use Rattle.std.specs.Prelude.{◌≡◌, ◌++◌, ◌∷◌, [], true, OnOk, OnErr, IfOk, IfErr};
    ghost use Rattle.binary_json_writing.specs.Writable.{is_writable_key};
    ghost use Rattle.binary_json_writing.specs.Owned.{owned_value};
    ghost use Rattle.binary_json_writing.specs.Stored.{stored, stored_key, stored_value, held, IsRefusedEnd};

    /// No entries. No memory is allocated.
    pub(crate) fn new(alloc: Global, keyed: bool) -> EntryList
        ensures keyed { result.keyed ≡ keyed }
        ensures none { result.entries.items ≡ [] }
    {
        EntryList {
            keyed,
            entries: Vec::new(alloc),
            depth: 0,
        }
    }

    /// Appends an entry. Nothing changes where memory is refused.
    #[tactic(auto, using(crate::proofs::Stored::one_more))]
    pub(crate) fn push(&mut self, key: Vec<u8>, value: OwnedDocument) -> Result<(), AllocError>
        requires key { is_writable_key self.old.keyed (stored_key self.old.keyed key.items) ≡ true }
        requires held { held self.old.keyed key.items ≡ key.items }
        ensures keyed { self.new.keyed ≡ self.old.keyed }
        ensures more { OnOk result (self.new.entries.items ≡ self.old.entries.items ++ (record { key = key; value = value.bytes }) ∷ []) }
        ensures same { OnErr result (self.new.entries.items ≡ self.old.entries.items) }
    {
        let OwnedDocument { bytes, depth } = value;
        self.entries.push(Entry { key, value: bytes })?;
        self.depth = deeper(self.depth, depth);
        Ok(())
    }

    /// The array or the object of the entries.
    pub(crate) fn finish(self, alloc: Global) -> Result<OwnedDocument, JsonWriteError>
        ensures made { IfOk result (λ d. owned_value d ≡ stored_value self.keyed (stored self.keyed self.entries.items)) }
        ensures refused { IfErr result (IsRefusedEnd self.keyed (stored self.keyed self.entries.items)) }
    {
        let EntryList {
            keyed,
            entries,
            depth,
        } = self;
        if depth >= MOST_NESTED {
            return Err(JsonWriteError::TooDeep);
        }
        let bytes = written_container(alloc, small_type(keyed), &entries)?;
        Ok(OwnedDocument {
            bytes,
            depth: depth + 1,
        })
    }
}
