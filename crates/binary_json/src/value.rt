//! Views of values.
ghost use Rattle.std.specs.Prelude.{◌≡◌, false, from_bits, true, option_map, IfSome, IsNone};
ghost use Rattle.std.specs.Float.{binary64};
ghost use Rattle.binary_json.specs.Opaques.{is_opaque, decimal_of, packed_of};

use crate::containers::{Array, Object};
use crate::decimal::{Decimal, decimal_in};
use crate::opaque::{is_opaque, is_temporal};
use crate::scalar::text;
use crate::temporal::Temporal;
use byteorder::{ByteOrder, LittleEndian};
use std::num::f64_from_bits_with_nan;

/// A floating-point number of eight bytes (IEEE 754, binary64).
#[derive(Clone, Copy, Debug)]
pub struct Double {
    pub(crate) bits: u64,
}

/// An opaque value: a value of a column type that JSON doesn't have, as a decimal number, a date, a time, or bytes.
#[derive(Clone, Copy, Debug)]
pub struct OpaqueValue<'a> {
    pub(crate) column: u8,
    pub(crate) bytes: &'a [u8],
    ghost fits: { is_opaque column bytes.now ≡ true },
}

/// A value of a document. It takes no memory: strings, arrays and objects are parts of the document's bytes.
#[derive(Clone, Copy, Debug)]
pub enum Value<'a> {
    /// `null`.
    Null,
    /// `true` or `false`.
    Bool(bool),
    /// A signed integer of two bytes.
    I16(i16),
    /// An unsigned integer of two bytes.
    U16(u16),
    /// A signed integer of four bytes.
    I32(i32),
    /// An unsigned integer of four bytes.
    U32(u32),
    /// A signed integer of eight bytes.
    I64(i64),
    /// An unsigned integer of eight bytes.
    U64(u64),
    /// A floating-point number.
    F64(Double),
    /// A string. Servers write UTF-8, which isn't checked.
    String(&'a [u8]),
    /// A value of a column type that JSON doesn't have.
    Opaque(OpaqueValue<'a>),
    /// An array.
    Array(Array<'a>),
    /// An object.
    Object(Object<'a>),
}

impl Double {
    /// Its bits. Any of them are a value, though servers store no infinity and no NaN.
    pub fn to_bits(&self) -> u64
        ensures { result ≡ self.now.bits }
    {
        self.bits
    }

    /// The number; a NaN for the bits of any NaN.
    pub fn to_f64(&self) -> f64
        ensures { result ≡ from_bits binary64 self.now.bits }
    {
        f64_from_bits_with_nan(self.bits)
    }
}

impl<'a> OpaqueValue<'a> {
    /// An opaque value of this column type, as the binary log numbers them, and of these bytes; None exactly if the bytes can't be of the
    /// type. Those of a DECIMAL (246) are a precision of 1 to 81, a scale of at most 38 and at most the precision, and the packed digits;
    /// those of a TIMESTAMP (7), a DATE (10), a TIME (11) or a DATETIME (12) are the packed number, eight bytes, the least significant first;
    /// those of any other type are any bytes. Source: MySQL's documentation of its source code, `json_binary.h`, `decimal.h` and `my_time.h`.
    pub fn new(value_type: u8, bytes: &'a [u8]) -> Option<OpaqueValue<'a>>
        ensures some { IfSome result (λ value. (value.column ≡ value_type) × (value.bytes.now ≡ bytes.now) × (is_opaque value_type bytes.now ≡ true)) }
        ensures none { IsNone result → is_opaque value_type bytes.now ≡ false }
    {
        if !is_opaque(value_type, bytes) {
            return None;
        }
        Some(OpaqueValue {
            column: value_type,
            bytes,
        })
    }

    /// The column type, as the binary log numbers them: 246 is DECIMAL, 10 DATE, 11 TIME, 12 DATETIME, 7 TIMESTAMP.
    pub fn value_type(&self) -> u8
        ensures { result ≡ self.now.column }
    {
        self.column
    }

    /// The bytes. Those of a DECIMAL begin with its precision and its scale, and those of a temporal type are eight.
    pub fn data(&self) -> &'a [u8]
        ensures { result.now ≡ self.now.bytes.now }
    {
        self.bytes
    }

    /// The decimal number, if the column type is DECIMAL; else None.
    #[tactic(auto, unfolding(crate::specs::Opaques::is_opaque))]
    pub fn decimal(&self) -> Option<Decimal<'a>>
        ensures { option_map (λ d. (d.precision, d.scale, d.digits.now)) result ≡ decimal_of self.now.column self.now.bytes.now }
    {
        match self.column {
            246 => decimal_in(self.bytes),
            _ => None,
        }
    }

    /// The number into which a DATE, a TIME, a DATETIME or a TIMESTAMP is packed, if the column type is one of these; else None. The
    /// absolute value has 24 bits for the microsecond, six each for the second and the minute, and the hour: ten bits of a TIME, and
    /// else five, with five more for the day, and the month, counted through years of 13.
    #[tactic(auto, using(crate::proofs::DecimalParts::eight_bytes))]
    pub fn packed_time(&self) -> Option<i64>
        ensures { result ≡ packed_of self.now.column self.now.bytes.now }
    {
        if !is_temporal(self.column) {
            return None;
        }
        Some(LittleEndian::read_i64(self.bytes))
    }

    /// The date and the time, if the column type is DATE, TIME, DATETIME or TIMESTAMP; else None.
    pub fn temporal(&self) -> Option<Temporal>
        ensures packed { option_map (λ t. t.packed) result ≡ packed_of self.now.column self.now.bytes.now }
        ensures column { IfSome result (λ t. t.column ≡ self.now.column) }
    {
        match self.packed_time() {
            Some(packed) => Some(Temporal {
                column: self.column,
                packed,
            }),
            None => None,
        }
    }
}

impl<'a> Value<'a> {
    ghost use Rattle.std.specs.Prelude.{◌≡◌, ◌≤◌, length, true};
    ghost use Rattle.binary_json.specs.Layout.{is_fixed, fixed_len, fixed, literal};
    ghost use Rattle.binary_json.specs.Values.{scalar};
    ghost use Rattle.binary_json.specs.Decoding.{is_readable, value_in};
    ghost use Rattle.binary_json.specs.Views.{json};

    /// The value at the front of bytes that are checked.
    #[tactic(auto, using(crate::proofs::Reading::at_array, crate::proofs::Reading::at_object, crate::proofs::Reading::at_string, crate::proofs::Reading::at_opaque, crate::proofs::Reading::at_fixed))]
    pub(crate) fn new(kind: u8, bytes: &'a [u8]) -> Value<'a>
        requires { is_readable kind bytes.now ≡ true }
        ensures { json result ≡ value_in kind bytes.now }
    {
        match kind {
            0..=1 => Value::Object(Object::new(kind, bytes)),
            2..=3 => Value::Array(Array::new(kind, bytes)),
            12 => Value::String(text(bytes)),
            15 => Value::Opaque(OpaqueValue {
                column: bytes[0],
                bytes: text(&bytes[1..]),
            }),
            _ => Value::fixed(kind, bytes),
        }
    }

    /// The literal or number at the front of the bytes.
    #[tactic(auto, unfolding(crate::specs::Layout::fixed))]
    pub(crate) fn fixed(kind: u8, bytes: &'a [u8]) -> Value<'a>
        requires known { is_fixed kind ≡ true }
        requires enough { fixed_len kind ≤ length bytes.now }
        ensures { json result ≡ scalar (fixed kind bytes.now) }
    {
        match kind {
            4 => Value::literal(bytes[0]),
            5 => Value::I16(LittleEndian::read_i16(bytes)),
            6 => Value::U16(LittleEndian::read_u16(bytes)),
            7 => Value::I32(LittleEndian::read_i32(bytes)),
            8 => Value::U32(LittleEndian::read_u32(bytes)),
            9 => Value::I64(LittleEndian::read_i64(bytes)),
            10 => Value::U64(LittleEndian::read_u64(bytes)),
            _ => Value::F64(Double {
                bits: LittleEndian::read_u64(bytes),
            }),
        }
    }

    // A literal.
    fn literal(number: u8) -> Value<'a>
        ensures { json result ≡ scalar (literal number) }
    {
        if number == 0 {
            Value::Null
        } else {
            Value::Bool(number == 1)
        }
    }
}
