//! Types without members.
ghost use Rattle.std.specs.Prelude.{◌≡◌};
ghost use Rattle.column_files.specs.SimpleTypes.{unsigned_in, packed_in, old_in, integer, floating, decimal, no_number, one_number, temporal, string, large, year, simple_type};

use crate::type_ending::Ending;
use crate::type_numbers::Numbers;
use crate::type_word::Word;

/// How large the integers of a column are.
#[derive(Clone, Copy, Debug, PartialEq, Eq)]
pub enum IntegerSize {
    /// One byte.
    Tiny,
    /// Two bytes.
    Small,
    /// Three bytes.
    Medium,
    /// Four bytes.
    Regular,
    /// Eight bytes.
    Big,
}

/// What a column of times holds.
#[derive(Clone, Copy, Debug, PartialEq, Eq)]
pub enum TemporalKind {
    /// A time: TIME.
    Time,
    /// A date and a time of day: DATETIME.
    DateTime,
    /// A point in time: TIMESTAMP.
    Timestamp,
}

/// How many bytes state the length of a value of a TEXT or a BLOB.
#[derive(Clone, Copy, Debug, PartialEq, Eq)]
pub enum LengthSize {
    /// One byte: TINYTEXT, TINYBLOB.
    Tiny,
    /// Two bytes: TEXT, BLOB.
    Regular,
    /// Three bytes: MEDIUMTEXT, MEDIUMBLOB.
    Medium,
    /// Four bytes: LONGTEXT, LONGBLOB.
    Long,
}

/// A type without members.
#[derive(Clone, Copy, Debug, PartialEq, Eq)]
pub enum SimpleType {
    /// An integer.
    Integer {
        size: IntegerSize,
        is_unsigned: bool,
    },
    /// FLOAT.
    Float {
        is_unsigned: bool,
    },
    /// DOUBLE.
    Double {
        is_unsigned: bool,
    },
    /// DECIMAL, with the number of its digits, and of those behind the point.
    Decimal {
        precision: u32,
        scale: u32,
        is_unsigned: bool,
    },
    /// BIT, with the number of bits.
    Bit(u32),
    /// YEAR.
    Year,
    /// DATE.
    Date,
    /// A type of times, with the number of digits behind the second; in the format of servers before MariaDB 10.1 and MySQL 5.6
    /// if it is stated to be old.
    Temporal {
        kind: TemporalKind,
        digits: u32,
        is_old: bool,
    },
    /// CHAR, with its length in characters.
    Char(u32),
    /// BINARY, with its length in bytes.
    Binary(u32),
    /// VARCHAR, with its greatest length in characters.
    VarChar {
        length: u32,
        is_compressed: bool,
    },
    /// VARBINARY, with its greatest length in bytes.
    VarBinary {
        length: u32,
        is_compressed: bool,
    },
    /// A TEXT.
    Text {
        size: LengthSize,
        is_compressed: bool,
    },
    /// A BLOB.
    Blob {
        size: LengthSize,
        is_compressed: bool,
    },
    /// GEOMETRY, or a type of geometries of one kind.
    Geometry,
    /// MySQL's JSON.
    Json,
    /// MariaDB's INET4.
    Inet4,
    /// MariaDB's INET6.
    Inet6,
    /// MariaDB's UUID.
    Uuid,
    /// VECTOR, with the number of its entries.
    Vector(u32),
}

// Whether the ending states a number without sign, if it is an ending of a number.
fn unsigned_in(ending: Ending) -> Option<bool>
    ensures { result ≡ unsigned_in ending }
{
    match ending {
        Ending::Nothing => Some(false),
        Ending::Unsigned | Ending::UnsignedZerofill => Some(true),
        _ => None,
    }
}

// Whether the ending states compressed values, if it is an ending of a string.
fn packed_in(ending: Ending) -> Option<bool>
    ensures { result ≡ packed_in ending }
{
    match ending {
        Ending::Nothing => Some(false),
        Ending::Compressed => Some(true),
        _ => None,
    }
}

// Whether the ending states the old format, if it is an ending of a type of times.
fn old_in(ending: Ending) -> Option<bool>
    ensures { result ≡ old_in ending }
{
    match ending {
        Ending::Nothing => Some(false),
        Ending::Old | Ending::OldBinary => Some(true),
        _ => None,
    }
}

// An integer; in parentheses it may have a width of display, which means nothing.
fn integer(size: IntegerSize, numbers: Numbers, ending: Ending) -> Option<SimpleType>
    ensures { result ≡ integer size numbers ending }
{
    let is_unsigned = unsigned_in(ending)?;
    match numbers {
        Numbers::Two(_, _) => None,
        _ => Some(SimpleType::Integer { size, is_unsigned }),
    }
}

// A floating-point number; in parentheses it may have its digits as they are shown.
fn floating(is_double: bool, numbers: Numbers, ending: Ending) -> Option<SimpleType>
    ensures { result ≡ floating is_double numbers ending }
{
    let is_unsigned = unsigned_in(ending)?;
    match numbers {
        Numbers::One(_) => None,
        _ if is_double => Some(SimpleType::Double { is_unsigned }),
        _ => Some(SimpleType::Float { is_unsigned }),
    }
}

// A decimal number.
fn decimal(numbers: Numbers, ending: Ending) -> Option<SimpleType>
    ensures { result ≡ decimal numbers ending }
{
    let is_unsigned = unsigned_in(ending)?;
    match numbers {
        Numbers::Two(precision, scale) => Some(SimpleType::Decimal {
            precision,
            scale,
            is_unsigned,
        }),
        _ => None,
    }
}

// A type of times.
fn temporal(kind: TemporalKind, numbers: Numbers, ending: Ending) -> Option<SimpleType>
    ensures { result ≡ temporal kind numbers ending }
{
    let is_old = old_in(ending)?;
    match numbers {
        Numbers::None => Some(SimpleType::Temporal {
            kind,
            digits: 0,
            is_old,
        }),
        Numbers::One(digits) => Some(SimpleType::Temporal {
            kind,
            digits,
            is_old,
        }),
        Numbers::Two(_, _) => None,
    }
}

// The type, if nothing is behind its word.
fn no_number(found: SimpleType, numbers: Numbers, ending: Ending) -> Option<SimpleType>
    ensures { result ≡ no_number found numbers ending }
{
    match (numbers, ending) {
        (Numbers::None, Ending::Nothing) => Some(found),
        _ => None,
    }
}

// The number, if one is behind the word, and no ending.
fn one_number(numbers: Numbers, ending: Ending) -> Option<u32>
    ensures { result ≡ one_number numbers ending }
{
    match (numbers, ending) {
        (Numbers::One(number), Ending::Nothing) => Some(number),
        _ => None,
    }
}

// A string of a greatest length.
fn string(is_binary: bool, numbers: Numbers, ending: Ending) -> Option<SimpleType>
    ensures { result ≡ string is_binary numbers ending }
{
    let is_compressed = packed_in(ending)?;
    match numbers {
        Numbers::One(length) if is_binary => Some(SimpleType::VarBinary {
            length,
            is_compressed,
        }),
        Numbers::One(length) => Some(SimpleType::VarChar {
            length,
            is_compressed,
        }),
        _ => None,
    }
}

// A TEXT or a BLOB; in parentheses it may have its greatest length, as under `sql_mode=ORACLE`.
fn large(is_blob: bool, size: LengthSize, numbers: Numbers, ending: Ending) -> Option<SimpleType>
    ensures { result ≡ large is_blob size numbers ending }
{
    let is_compressed = packed_in(ending)?;
    match numbers {
        Numbers::Two(_, _) => None,
        _ if is_blob => Some(SimpleType::Blob {
            size,
            is_compressed,
        }),
        _ => Some(SimpleType::Text {
            size,
            is_compressed,
        }),
    }
}

// A YEAR; in parentheses it may have the number of its digits as they are shown.
fn year(numbers: Numbers, ending: Ending) -> Option<SimpleType>
    ensures { result ≡ year numbers ending }
{
    match (numbers, ending) {
        (Numbers::None | Numbers::One(2 | 4), Ending::Nothing) => Some(SimpleType::Year),
        _ => None,
    }
}

/// The type with this word, these numbers and this ending; None for ENUM and SET, and if there is none.
pub(crate) fn simple_type(word: Word, numbers: Numbers, ending: Ending) -> Option<SimpleType>
    ensures { result ≡ simple_type word numbers ending }
{
    match word {
        Word::TinyInt => integer(IntegerSize::Tiny, numbers, ending),
        Word::SmallInt => integer(IntegerSize::Small, numbers, ending),
        Word::MediumInt => integer(IntegerSize::Medium, numbers, ending),
        Word::Int => integer(IntegerSize::Regular, numbers, ending),
        Word::BigInt => integer(IntegerSize::Big, numbers, ending),
        Word::Float => floating(false, numbers, ending),
        Word::Double => floating(true, numbers, ending),
        Word::Decimal => decimal(numbers, ending),
        Word::Year => year(numbers, ending),
        Word::Date => no_number(SimpleType::Date, numbers, ending),
        Word::Time => temporal(TemporalKind::Time, numbers, ending),
        Word::DateTime => temporal(TemporalKind::DateTime, numbers, ending),
        Word::Timestamp => temporal(TemporalKind::Timestamp, numbers, ending),
        Word::VarChar => string(false, numbers, ending),
        Word::VarBinary => string(true, numbers, ending),
        Word::TinyText => large(false, LengthSize::Tiny, numbers, ending),
        Word::Text => large(false, LengthSize::Regular, numbers, ending),
        Word::MediumText => large(false, LengthSize::Medium, numbers, ending),
        Word::LongText => large(false, LengthSize::Long, numbers, ending),
        Word::TinyBlob => large(true, LengthSize::Tiny, numbers, ending),
        Word::Blob => large(true, LengthSize::Regular, numbers, ending),
        Word::MediumBlob => large(true, LengthSize::Medium, numbers, ending),
        Word::LongBlob => large(true, LengthSize::Long, numbers, ending),
        Word::Bit => Some(SimpleType::Bit(one_number(numbers, ending)?)),
        Word::Char => Some(SimpleType::Char(one_number(numbers, ending)?)),
        Word::Binary => Some(SimpleType::Binary(one_number(numbers, ending)?)),
        Word::Vector => Some(SimpleType::Vector(one_number(numbers, ending)?)),
        Word::Json => no_number(SimpleType::Json, numbers, ending),
        Word::Inet4 => no_number(SimpleType::Inet4, numbers, ending),
        Word::Inet6 => no_number(SimpleType::Inet6, numbers, ending),
        Word::Uuid => no_number(SimpleType::Uuid, numbers, ending),
        Word::Enum | Word::Set => None,
        _ => no_number(SimpleType::Geometry, numbers, ending),
    }
}
