//! Floating-point numbers.
ghost use Rattle.std.specs.Prelude.{◌≡◌, ◌<◌, ◌^◌, from_bits};
ghost use Rattle.std.specs.Float.{binary32, binary64};

use std::num::{f32_from_bits_with_nan, f64_from_bits_with_nan};

/// The value of a FLOAT column: a floating-point number of four bytes (IEEE 754, binary32).
#[derive(Clone, Copy, Debug, PartialEq, Eq, Hash)]
pub struct Float {
    // Eight bytes, as the numbers of other values have, so that no byte of it lies beside the kind of a `Value`.
    pub(crate) bits: u64,
    ghost fits: { bits < 2 ^ 32 },
}

impl Float {
    /// Its bits. Any of them are a value, though servers store no infinity and no NaN.
    pub fn to_bits(&self) -> u32
        ensures { result ≡ self.now.bits }
    {
        self.bits as u32
    }

    /// The number; a NaN for the bits of any NaN.
    pub fn to_f32(&self) -> f32
        ensures { result ≡ from_bits binary32 self.now.bits }
    {
        f32_from_bits_with_nan(self.to_bits())
    }
}

/// The value of a DOUBLE column: a floating-point number of eight bytes (IEEE 754, binary64).
#[derive(Clone, Copy, Debug, PartialEq, Eq, Hash)]
pub struct Double {
    pub(crate) bits: u64,
}

impl Double {
    /// Its bits. Any of them are a value, though servers store no infinity and no NaN.
    pub fn to_bits(&self) -> u64
        ensures { result ≡ self.now.bits }
    {
        self.bits
    }

    /// The number; a NaN for the bits of any NaN.
    pub fn to_f64(&self) -> f64
        ensures { result ≡ from_bits binary64 self.now.bits }
    {
        f64_from_bits_with_nan(self.bits)
    }
}
