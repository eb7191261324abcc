//! Documents that own their bytes.
ghost use Rattle.std.specs.Prelude.{◌≡◌, ◌≤◌, true};
ghost use Rattle.binary_json.specs.Values.{nesting};
ghost use Rattle.binary_json.specs.Decoding.{document_value};
ghost use Rattle.binary_json_writing.specs.Written.{written};
ghost use Rattle.binary_json_writing.specs.Writable.{is_writable};

use crate::error::JsonWriteError;
use crate::words::{document, push_counted};
use binary_json::{Document, OpaqueValue};
use std::alloc::{AllocError, Global};

/// From how many bytes on a string or an opaque value can't be written.
const TOO_LARGE: usize = 1 << 32;

/// A document that was written: its bytes are those that MySQL's serializer writes for its value.
#[derive(Debug, Drop)]
pub struct OwnedDocument {
    pub(crate) bytes: Vec<u8>,
    pub(crate) depth: usize,
    ghost exact: { written (document_value bytes.items) ≡ bytes.items },
    ghost possible: { is_writable (document_value bytes.items) ≡ true },
    ghost deep: { depth ≡ nesting (document_value bytes.items) },
    ghost shallow: { depth ≤ 100 },
}

impl OwnedDocument {
    ghost use Rattle.std.specs.Prelude.{◌≡◌, ◌∷◌, ◌⊎◌, ◌≤◌, ◌^◌, length, true, IfOk, IfErr};
    ghost use Rattle.binary_json.specs.Values.{Scalar, scalar, null, boolean, int16, uint16, int32, uint32, int64, uint64, double, string, opaque};
    ghost use Rattle.binary_json.specs.Grammar.{IsDocument};
    ghost use Rattle.binary_json.specs.Views.{document_json};
    ghost use Rattle.binary_json_writing.specs.Written.{written, written_scalar};
    ghost use Rattle.binary_json_writing.specs.Writable.{is_writable_scalar};
    ghost use Rattle.binary_json_writing.specs.Owned.{owned_value, smallest_signed, smallest_unsigned};
    ghost use Rattle.binary_json_writing.specs.Views.{IsRefusedText};

    /// The bytes of the document.
    pub fn as_bytes(&self) -> &[u8]
        ensures value { IsDocument result.now (owned_value self.now) }
        ensures exact { result.now ≡ written (owned_value self.now) }
    {
        &self.bytes
    }

    /// The document, to be read.
    pub fn document(&self) -> Document<'_>
        ensures { document_json result ≡ owned_value self.now }
    {
        match Document::read(self.as_bytes()) {
            Ok(document) => document,
            Err(_) => unreachable!(),
        }
    }

    /// The bytes of the document.
    pub fn into_bytes(self) -> Vec<u8>
        ensures value { IsDocument result.items (owned_value self) }
        ensures exact { result.items ≡ written (owned_value self) }
    {
        let OwnedDocument { bytes, depth: _ } = self;
        bytes
    }

    // The document of a scalar.
    fn of_scalar(bytes: Vec<u8>) -> OwnedDocument
        requires { (x : Scalar) × (bytes.items ≡ written_scalar x) × (is_writable_scalar x ≡ true) }
        ensures { (x : Scalar) → bytes.items ≡ written_scalar x → is_writable_scalar x ≡ true → owned_value result ≡ scalar x }
    {
        OwnedDocument { bytes, depth: 0 }
    }

    // The document of a scalar of this type and these bytes.
    fn number(alloc: Global, kind: u8, bytes: &[u8]) -> Result<OwnedDocument, AllocError>
        requires { (x : Scalar) × (kind ∷ bytes.now ≡ written_scalar x) × (is_writable_scalar x ≡ true) }
        ensures { (x : Scalar) → kind ∷ bytes.now ≡ written_scalar x → is_writable_scalar x ≡ true → IfOk result (λ d. owned_value d ≡ scalar x) }
    {
        let bytes = document(alloc, kind, bytes)?;
        Ok(OwnedDocument::of_scalar(bytes))
    }

    /// `null`.
    pub fn null(alloc: Global) -> Result<OwnedDocument, AllocError>
        ensures { IfOk result (λ d. owned_value d ≡ scalar null) }
    {
        OwnedDocument::number(alloc, 4, &[0])
    }

    /// `true` or `false`.
    pub fn boolean(alloc: Global, value: bool) -> Result<OwnedDocument, AllocError>
        ensures { IfOk result (λ d. owned_value d ≡ scalar (boolean value)) }
    {
        if value {
            OwnedDocument::number(alloc, 4, &[1])
        } else {
            OwnedDocument::number(alloc, 4, &[2])
        }
    }

    /// A signed integer of two bytes.
    pub(crate) fn int16(alloc: Global, value: i16) -> Result<OwnedDocument, AllocError>
        ensures { IfOk result (λ d. owned_value d ≡ scalar (int16 value)) }
    {
        OwnedDocument::number(alloc, 5, &value.to_le_bytes())
    }

    /// An unsigned integer of two bytes.
    pub(crate) fn uint16(alloc: Global, value: u16) -> Result<OwnedDocument, AllocError>
        ensures { IfOk result (λ d. owned_value d ≡ scalar (uint16 value)) }
    {
        OwnedDocument::number(alloc, 6, &value.to_le_bytes())
    }

    /// A signed integer of four bytes.
    pub(crate) fn int32(alloc: Global, value: i32) -> Result<OwnedDocument, AllocError>
        ensures { IfOk result (λ d. owned_value d ≡ scalar (int32 value)) }
    {
        OwnedDocument::number(alloc, 7, &value.to_le_bytes())
    }

    /// An unsigned integer of four bytes.
    pub(crate) fn uint32(alloc: Global, value: u32) -> Result<OwnedDocument, AllocError>
        ensures { IfOk result (λ d. owned_value d ≡ scalar (uint32 value)) }
    {
        OwnedDocument::number(alloc, 8, &value.to_le_bytes())
    }

    /// A signed integer of eight bytes.
    pub(crate) fn int64(alloc: Global, value: i64) -> Result<OwnedDocument, AllocError>
        ensures { IfOk result (λ d. owned_value d ≡ scalar (int64 value)) }
    {
        OwnedDocument::number(alloc, 9, &value.to_le_bytes())
    }

    /// An unsigned integer of eight bytes.
    pub(crate) fn uint64(alloc: Global, value: u64) -> Result<OwnedDocument, AllocError>
        ensures { IfOk result (λ d. owned_value d ≡ scalar (uint64 value)) }
    {
        OwnedDocument::number(alloc, 10, &value.to_le_bytes())
    }

    /// A floating-point number of eight bytes, by its bits. Servers store no infinity and no NaN.
    pub fn from_bits(alloc: Global, bits: u64) -> Result<OwnedDocument, AllocError>
        ensures { IfOk result (λ d. owned_value d ≡ scalar (double bits)) }
    {
        OwnedDocument::number(alloc, 11, &bits.to_le_bytes())
    }

    /// A signed integer, in the first of two, four and eight bytes that holds it.
    pub fn signed(alloc: Global, value: i64) -> Result<OwnedDocument, AllocError>
        ensures { IfOk result (λ d. owned_value d ≡ scalar (smallest_signed value)) }
    {
        if value >= -32_768 && value < 32_768 {
            OwnedDocument::int16(alloc, value as i16)
        } else if value >= -2_147_483_648 && value < 2_147_483_648 {
            OwnedDocument::int32(alloc, value as i32)
        } else {
            OwnedDocument::int64(alloc, value)
        }
    }

    /// An unsigned integer, in the first of two, four and eight bytes that holds it.
    pub fn unsigned(alloc: Global, value: u64) -> Result<OwnedDocument, AllocError>
        ensures { IfOk result (λ d. owned_value d ≡ scalar (smallest_unsigned value)) }
    {
        if value < 65_536 {
            OwnedDocument::uint16(alloc, value as u16)
        } else if value < 4_294_967_296 {
            OwnedDocument::uint32(alloc, value as u32)
        } else {
            OwnedDocument::uint64(alloc, value)
        }
    }

    /// A string, by its bytes. Servers write UTF-8.
    ///
    /// # Errors
    ///
    /// `TooLarge` exactly if it has 2^32 bytes or more, and else `Memory` if memory is refused.
    pub fn string(alloc: Global, text: &[u8]) -> Result<OwnedDocument, JsonWriteError>
        ensures made { IfOk result (λ d. owned_value d ≡ scalar (string text.now)) }
        ensures refused { IfErr result (IsRefusedText (length text.now)) }
    {
        if text.len() >= TOO_LARGE {
            return Err(JsonWriteError::TooLarge);
        }
        let mut bytes = document(alloc, 12, &[])?;
        push_counted(&mut bytes, text)?;
        Ok(OwnedDocument::of_scalar(bytes))
    }

    /// An opaque value.
    ///
    /// # Errors
    ///
    /// `TooLarge` exactly if it has 2^32 bytes or more, and else `Memory` if memory is refused.
    pub fn opaque(alloc: Global, value: &OpaqueValue<'_>) -> Result<OwnedDocument, JsonWriteError>
        ensures made { IfOk result (λ d. owned_value d ≡ scalar (opaque value.now.column value.now.bytes.now)) }
        ensures refused { IfErr result (IsRefusedText (length value.now.bytes.now)) }
    {
        let text = value.data();
        if text.len() >= TOO_LARGE {
            return Err(JsonWriteError::TooLarge);
        }
        let mut bytes = document(alloc, 15, &[value.value_type()])?;
        push_counted(&mut bytes, text)?;
        Ok(OwnedDocument::of_scalar(bytes))
    }
}
