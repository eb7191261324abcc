//! How the values of a column are encoded.

/// How the values of a column are encoded. The column's type and metadata determine it.
#[derive(Clone, Copy, Debug, PartialEq, Eq, Hash)]
pub enum Layout {
    /// No bytes: the value is NULL.
    Nothing,
    /// A little-endian number of this many bytes, 1 to 8.
    Number(u8),
    /// This many bits, 1 to 64, in whole bytes, most significant byte first.
    Bits(u8),
    /// Seconds and a fraction of this many decimal digits, 0 to 6.
    Timestamp2(u8),
    /// A date, a time and a fraction of this many decimal digits, 0 to 6.
    DateTime2(u8),
    /// A time and a fraction of this many decimal digits, 0 to 6.
    Time2(u8),
    /// A decimal number of `precision` digits, 1 to 65, of which `scale`, at most 38, are after the point.
    Decimal {
        /// The number of digits, 1 to 65.
        precision: u8,
        /// The number of digits after the point, at most 38.
        scale: u8,
    },
    /// Bytes, at most `max`, after their length in `prefix` bytes, 1 to 4.
    Counted {
        /// The number of bytes of the length, 1 to 4.
        prefix: u8,
        /// The greatest number of bytes of a value.
        max: u32,
    },
    /// Numbers of four bytes each, after their length in this many bytes, 1 to 4.
    Vector(u8),
}
