//! An entry of an array or an object that is written.

ghost use Rattle.std.specs.Prelude.{◌≡◌, ◌++◌, replicate, OnOk};
ghost use Rattle.binary_json.specs.Layout.{is_inlined};

use crate::words::{push_short, push_word, width};
use std::alloc::AllocError;

/// An entry: its key, which is empty in an array, and the document of its value.
#[derive(Debug, Drop)]
pub(crate) struct Entry {
    pub(crate) key: Vec<u8>,
    pub(crate) value: Vec<u8>,
}

/// Whether values of a type stand in the entries of an array or an object of the type `container`.
fn is_inlined(container: u8, kind: u8) -> bool
    ensures { result ≡ is_inlined container kind }
{
    kind >= 4 && kind <= (if container % 2 == 1 { 8 } else { 6 })
}

// Appends a byte, so many times.
fn push_filling(out: &mut Vec<u8>, count: usize, filling: u8) -> Result<(), AllocError>
    ensures { OnOk result (out.new.items ≡ out.old.items ++ replicate count filling) }
{
    'filled: for _index in 0..count {
        out.push(filling)?;
    }
    Ok(())
}

impl Entry {
    ghost use Rattle.std.specs.Prelude.{◌≡◌, ◌++◌, ◌-◌, length, replicate, OnOk};
    ghost use Rattle.binary_json.specs.Layout.{width};
    ghost use Rattle.binary_json_writing.specs.Written.{kind, bytes, placed, filling, key_entry, value_entry};
    ghost use Rattle.binary_json_writing.specs.Views.{item};

    /// The type of its value.
    fn kind(&self) -> u8
        ensures { result ≡ kind (item self.now) }
    {
        match self.value.first() {
            Some(kind) => *kind,
            None => 0,
        }
    }

    /// The bytes of its value.
    fn bytes(&self) -> &[u8]
        ensures { result.now ≡ bytes (item self.now) }
    {
        match self.value.split_first() {
            Some((_, bytes)) => bytes,
            None => &[],
        }
    }

    /// The bytes of its value that don't stand in the entry.
    #[tactic(auto, unfolding(crate::specs::Written::placed))]
    pub(crate) fn placed(&self, container: u8) -> &[u8]
        ensures { result.now ≡ placed container (item self.now) }
    {
        if is_inlined(container, self.kind()) {
            &[]
        } else {
            self.bytes()
        }
    }

    // What fills the bytes that a value leaves of its entry.
    fn filling(&self) -> u8
        ensures { result ≡ filling (item self.now) }
    {
        match self.bytes().get(1) {
            Some(high) if self.kind() == 5 && *high >= 128 => 255,
            _ => 0,
        }
    }

    /// Appends the entry of its key, in an array or an object of the type `container`.
    #[tactic(auto, unfolding(crate::specs::Written::key_entry))]
    pub(crate) fn push_key(
        &self,
        out: &mut Vec<u8>,
        container: u8,
        offset: usize,
    ) -> Result<(), AllocError>
        ensures { OnOk result (out.new.items ≡ out.old.items ++ key_entry container offset (item self.now)) }
    {
        if container >= 2 {
            return Ok(());
        }
        push_word(out, container, offset)?;
        push_short(out, self.key.len())
    }

    // Appends the bytes of its value, and what fills the rest of the entry.
    fn push_inlined(&self, out: &mut Vec<u8>, container: u8) -> Result<(), AllocError>
        ensures { OnOk result (out.new.items ≡ out.old.items ++ (bytes (item self.now) ++ replicate (width container - length (bytes (item self.now))) (filling (item self.now)))) }
    {
        let bytes = self.bytes();
        out.extend_from_slice(bytes)?;
        let rest = width(container).saturating_sub(bytes.len());
        push_filling(out, rest, self.filling())
    }

    /// Appends the entry of its value, in an array or an object of the type `container`.
    #[tactic(auto, unfolding(crate::specs::Written::value_entry))]
    pub(crate) fn push_value(
        &self,
        out: &mut Vec<u8>,
        container: u8,
        offset: usize,
    ) -> Result<(), AllocError>
        ensures { OnOk result (out.new.items ≡ out.old.items ++ value_entry container offset (item self.now)) }
    {
        out.push(self.kind())?;
        if is_inlined(container, self.kind()) {
            self.push_inlined(out, container)
        } else {
            push_word(out, container, offset)
        }
    }
}
