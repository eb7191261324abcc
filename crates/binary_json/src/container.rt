//! The parts of an array or an object.
ghost use Rattle.std.specs.Prelude.{◌≡◌, ◌+◌, ◌*◌, ◌<◌, ◌≤◌, ◌^◌, length, IfOk, IfErr, Ok, Err, true};
ghost use Rattle.binary_json.specs.Layout.{width, word, is_object, key_len, value_len, entry_count, byte_size, header_len, key_place, key_offset, key_size, key_bytes, value_place, value_type, value_offset, is_inlined, inlined_bytes, placed_bytes};
ghost use Rattle.binary_json.specs.Refusals.{header_of};

use crate::error::{JsonError, Refusal};
use byteorder::{ByteOrder, LittleEndian};

/// The bytes of an array or an object, whose header fits into its size, and that into the bytes.
#[derive(Clone, Copy, Debug)]
pub(crate) struct Container<'a> {
    pub(crate) kind: u8,
    pub(crate) bytes: &'a [u8],
    pub(crate) count: usize,
    pub(crate) size: usize,
    ghost known: { kind < 4 },
    ghost count_is: { count ≡ entry_count kind bytes.now },
    ghost size_is: { size ≡ byte_size kind bytes.now },
    ghost room: { header_len kind bytes.now ≤ size },
    ghost within: { size ≤ length bytes.now },
    ghost few: { count < 2 ^ 32 },
    ghost small: { size < 2 ^ 32 },
}

/// The number of bytes of a number in an array or an object of this type.
pub(crate) fn width(kind: u8) -> usize
    ensures is { result ≡ width kind }
    ensures small { result ≤ 4 }
    ensures some { 2 ≤ result }
{
    if kind % 2 == 1 { 4 } else { 2 }
}

// The number at the front of the bytes.
fn word(kind: u8, bytes: &[u8]) -> usize
    requires { width kind ≤ length bytes.now }
    ensures is { result ≡ word kind bytes.now }
    ensures small { result < 2 ^ 32 }
{
    if kind % 2 == 1 {
        LittleEndian::read_u32(bytes) as usize
    } else {
        usize::from(LittleEndian::read_u16(bytes))
    }
}

// The number of bytes of the entry of a key.
fn key_len(kind: u8) -> usize
    ensures is { result ≡ key_len kind }
    ensures small { result ≤ 6 }
{
    if kind < 2 { width(kind) + 2 } else { 0 }
}

impl<'a> Container<'a> {
    /// The array or object at the front of the bytes, which begin at `place`.
    #[tactic(auto, unfolding(crate::specs::Refusals::header_of, crate::specs::Layout::entry_count, crate::specs::Layout::byte_size, crate::specs::Layout::header_len))]
    pub(crate) fn read(kind: u8, place: usize, bytes: &'a [u8]) -> Result<Container<'a>, JsonError>
        requires { kind < 4 }
        ensures read { IfOk result (λ c. (header_of kind place bytes.now ≡ Ok (header_len kind bytes.now)) × (c.kind ≡ kind) × (c.bytes.now ≡ bytes.now)) }
        ensures refused { IfErr result (λ e. header_of kind place bytes.now ≡ Err e) }
    {
        let width = width(kind);
        if bytes.len() < 2 * width {
            return Err(JsonError::new(Refusal::Short, place));
        }
        let count = word(kind, bytes);
        let size = word(kind, &bytes[width..]);
        if bytes.len() < size {
            return Err(JsonError::new(Refusal::Size, place));
        }
        let header = header_len(kind, count);
        if size < header {
            return Err(JsonError::new(Refusal::Entries, place));
        }
        Ok(Container {
            kind,
            bytes,
            count,
            size,
        })
    }

    /// Whether it is an object.
    pub(crate) fn is_object(&self) -> bool
        ensures { result ≡ is_object self.now.kind }
    {
        self.kind < 2
    }

    /// Whether values of this type stand in their entries.
    pub(crate) fn is_inlined(&self, kind: u8) -> bool
        ensures { result ≡ is_inlined self.now.kind kind }
    {
        kind >= 4 && kind <= (if self.kind % 2 == 1 { 8 } else { 6 })
    }

    /// The number of bytes of the header.
    #[tactic(auto, using(crate::proofs::Places::few_entries), unfolding(crate::specs::Layout::header_len))]
    pub(crate) fn header(&self) -> usize
        ensures { result ≡ header_len self.now.kind self.now.bytes.now }
    {
        header_len(self.kind, self.count)
    }

    /// Where the entry of a key begins.
    #[tactic(auto, using(crate::proofs::Places::few_entries), unfolding(crate::specs::Layout::key_place))]
    pub(crate) fn key_place(&self, index: usize) -> usize
        requires { index < self.now.count }
        ensures { result ≡ key_place self.now.kind index }
    {
        2 * width(self.kind) + index * key_len(self.kind)
    }

    /// Where the entry of a value begins.
    #[tactic(auto, using(crate::proofs::Places::few_entries), unfolding(crate::specs::Layout::value_place))]
    pub(crate) fn value_place(&self, index: usize) -> usize
        requires { index < self.now.count }
        ensures { result ≡ value_place self.now.kind self.now.bytes.now index }
    {
        2 * width(self.kind) + self.count * key_len(self.kind) + index * (width(self.kind) + 1)
    }

    /// The offset of a key.
    #[tactic(auto, using(crate::proofs::Places::key_within), unfolding(crate::specs::Layout::key_offset))]
    pub(crate) fn key_offset(&self, index: usize) -> usize
        requires object { is_object self.now.kind ≡ true }
        requires known { index < self.now.count }
        ensures is { result ≡ key_offset self.now.kind self.now.bytes.now index }
        ensures small { result < 2 ^ 32 }
    {
        word(self.kind, &self.bytes[self.key_place(index)..])
    }

    /// The number of bytes of a key.
    #[tactic(auto, using(crate::proofs::Places::key_within), unfolding(crate::specs::Layout::key_size))]
    pub(crate) fn key_size(&self, index: usize) -> usize
        requires object { is_object self.now.kind ≡ true }
        requires known { index < self.now.count }
        ensures is { result ≡ key_size self.now.kind self.now.bytes.now index }
        ensures small { result < 2 ^ 16 }
    {
        usize::from(LittleEndian::read_u16(&self.bytes[self.key_place(index) + width(self.kind)..]))
    }

    /// The bytes of a key.
    #[tactic(auto, unfolding(crate::specs::Layout::key_bytes))]
    pub(crate) fn key(&self, index: usize) -> &'a [u8]
        requires object { is_object self.now.kind ≡ true }
        requires known { index < self.now.count }
        requires within { key_offset self.now.kind self.now.bytes.now index + key_size self.now.kind self.now.bytes.now index ≤ self.now.size }
        ensures { result.now ≡ key_bytes self.now.kind self.now.bytes.now index }
    {
        let offset = self.key_offset(index);
        &self.bytes[offset..offset + self.key_size(index)]
    }

    /// The type of a value.
    #[tactic(auto, using(crate::proofs::Places::value_within), unfolding(crate::specs::Layout::value_type))]
    pub(crate) fn value_type(&self, index: usize) -> u8
        requires { index < self.now.count }
        ensures { result ≡ value_type self.now.kind self.now.bytes.now index }
    {
        self.bytes[self.value_place(index)]
    }

    /// The offset of a value that doesn't stand in its entry.
    #[tactic(auto, using(crate::proofs::Places::value_within), unfolding(crate::specs::Layout::value_offset))]
    pub(crate) fn value_offset(&self, index: usize) -> usize
        requires { index < self.now.count }
        ensures is { result ≡ value_offset self.now.kind self.now.bytes.now index }
        ensures small { result < 2 ^ 32 }
    {
        word(self.kind, &self.bytes[self.value_place(index) + 1..])
    }

    /// The bytes of a value that stands in its entry.
    #[tactic(auto, using(crate::proofs::Places::value_within), unfolding(crate::specs::Layout::inlined_bytes))]
    pub(crate) fn inlined_bytes(&self, index: usize) -> &'a [u8]
        requires { index < self.now.count }
        ensures is { result.now ≡ inlined_bytes self.now.kind self.now.bytes.now index }
        ensures len { length result.now ≡ width self.now.kind }
    {
        let start = self.value_place(index) + 1;
        &self.bytes[start..start + width(self.kind)]
    }

    /// The bytes from the offset of a value on.
    #[tactic(auto, unfolding(crate::specs::Layout::placed_bytes))]
    pub(crate) fn placed_bytes(&self, index: usize) -> &'a [u8]
        requires known { index < self.now.count }
        requires within { value_offset self.now.kind self.now.bytes.now index ≤ self.now.size }
        ensures is { result.now ≡ placed_bytes self.now.kind self.now.bytes.now index }
        ensures len { length result.now + value_offset self.now.kind self.now.bytes.now index ≡ self.now.size }
    {
        &self.bytes[self.value_offset(index)..self.size]
    }
}

// The number of bytes of the header, by the number of entries.
#[tactic(auto, using(crate::proofs::Places::few_entries))]
fn header_len(kind: u8, count: usize) -> usize
    requires { count < 2 ^ 32 }
    ensures { result ≡ 2 * width kind + count * (key_len kind + value_len kind) }
{
    2 * width(kind) + count * (key_len(kind) + width(kind) + 1)
}
