//! The values that rows are made from.
use crate::new_decimal::NewDecimal;

/// A date, by its parts. No calendar is checked: each part has to fit its bits.
#[derive(Clone, Copy, Debug, PartialEq, Eq, Hash)]
pub struct NewDate {
    /// The year.
    pub year: u16,
    /// The month, from 1; 0 is allowed.
    pub month: u8,
    /// The day, from 1; 0 is allowed.
    pub day: u8,
}

/// A time of day, or a length of time, by its parts.
#[derive(Clone, Copy, Debug, PartialEq, Eq, Hash)]
pub struct NewTime {
    /// The hour.
    pub hour: u16,
    /// The minute.
    pub minute: u8,
    /// The second.
    pub second: u8,
    /// The microsecond, below a million. Its digits beyond those of the column's fraction have to be 0.
    pub microsecond: u32,
}

/// A value to write into a column. It borrows its bytes.
///
/// Each is for columns of some types, and has to fit the column that it is written into.
#[derive(Clone, Copy, Debug)]
pub enum NewValue<'a> {
    /// NULL, for any column.
    Null,
    /// TINY, SHORT, INT24, LONG or LONGLONG, as an UNSIGNED column has it: at most all bits of the column's size.
    Unsigned(u64),
    /// TINY, SHORT, INT24, LONG or LONGLONG, as a signed column has it: in two's complement of the column's size.
    Signed(i64),
    /// FLOAT: the bits of the number (IEEE 754, binary32); any of them is a value.
    Float(u32),
    /// DOUBLE: the bits of the number (IEEE 754, binary64); any of them is a value.
    Double(u64),
    /// NEWDECIMAL: of the column's precision and scale.
    Decimal(&'a NewDecimal),
    /// DATE or NEWDATE: the year at most 32,767, the month at most 15, the day at most 31.
    Date(NewDate),
    /// YEAR: 0, or 1901 to 2155.
    Year(u16),
    /// TIMESTAMP, without microseconds, or TIMESTAMP2: seconds since 1970 UTC, below 2^32. All zero is the zero timestamp.
    Timestamp {
        /// The seconds.
        seconds: u64,
        /// The microseconds, below a million, with no digits beyond those of the column's fraction.
        microseconds: u32,
    },
    /// TIME, without microseconds, or TIME2. A time below zero isn't all zeros.
    ///
    /// - TIME: the minute and the second at most 99; `hhhmmss`, as a decimal number, at most 8388607, below zero 8388608.
    /// - TIME2: the hour at most 1,023, the minute and the second at most 63.
    Time {
        /// Whether the time is below zero.
        is_negative: bool,
        /// The time without its sign.
        time: NewTime,
    },
    /// DATETIME, without microseconds, or DATETIME2.
    ///
    /// - DATETIME: the month, the day, the hour, the minute and the second at most 99.
    /// - DATETIME2: the month at most 12, the day and the hour at most 31, the minute and the second at most 63, and 13
    ///   times the year, with the month, below 2^17.
    DateTime {
        /// The date.
        date: NewDate,
        /// The time of day.
        time: NewTime,
    },
    /// BIT: no bits beyond the column's.
    Bit(u64),
    /// ENUM: the index of the member, from 1, in the column's one or two bytes; 0 is the empty string of an invalid value.
    Enum(u64),
    /// SET: bit 0 is the first member; no bits beyond the column's bytes.
    Set(u64),
    /// STRING, VARCHAR, VAR_STRING or one of the four BLOB types: at most the column's greatest length.
    Bytes(&'a [u8]),
    /// JSON: a document in MySQL's binary JSON, which isn't checked.
    Json(&'a [u8]),
    /// GEOMETRY: its SRID in four bytes, and then WKB, which isn't checked.
    Geometry(&'a [u8]),
    /// VECTOR: floating-point numbers of four bytes each, little-endian.
    Vector(&'a [u8]),
    /// BLOB_COMPRESSED or VARCHAR_COMPRESSED: as it is stored, which isn't checked.
    Compressed(&'a [u8]),
}
