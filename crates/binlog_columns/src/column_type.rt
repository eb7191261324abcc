//! The types of columns.
use thiserror::Error;

/// The type of a column, as a table map states it in one byte. For the metadata of each type see
/// [`Column`](crate::Column).
///
/// Source: MySQL's documentation of its source code, `enum_field_types`; MariaDB's for the compressed types.
#[allow(non_camel_case_types)]
#[derive(Clone, Copy, Debug, PartialEq, Eq, Hash)]
pub enum ColumnType {
    /// An integer of one byte.
    MYSQL_TYPE_TINY = 1,
    /// An integer of two bytes.
    MYSQL_TYPE_SHORT = 2,
    /// An integer of four bytes.
    MYSQL_TYPE_LONG = 3,
    /// A floating-point number of four bytes.
    MYSQL_TYPE_FLOAT = 4,
    /// A floating-point number of eight bytes.
    MYSQL_TYPE_DOUBLE = 5,
    /// NULL, which takes no bytes; no server writes it.
    MYSQL_TYPE_NULL = 6,
    /// Seconds since 1970 UTC.
    MYSQL_TYPE_TIMESTAMP = 7,
    /// An integer of eight bytes.
    MYSQL_TYPE_LONGLONG = 8,
    /// An integer of three bytes.
    MYSQL_TYPE_INT24 = 9,
    /// A date.
    MYSQL_TYPE_DATE = 10,
    /// A time of whole seconds, in decimal digits.
    MYSQL_TYPE_TIME = 11,
    /// A date and a time of whole seconds, in decimal digits.
    MYSQL_TYPE_DATETIME = 12,
    /// A year.
    MYSQL_TYPE_YEAR = 13,
    /// A date.
    MYSQL_TYPE_NEWDATE = 14,
    /// A string of variable length: VARCHAR or VARBINARY.
    MYSQL_TYPE_VARCHAR = 15,
    /// Up to 64 bits.
    MYSQL_TYPE_BIT = 16,
    /// Seconds since 1970 UTC, with a fraction.
    MYSQL_TYPE_TIMESTAMP2 = 17,
    /// A date and a time, with a fraction.
    MYSQL_TYPE_DATETIME2 = 18,
    /// A time, with a fraction.
    MYSQL_TYPE_TIME2 = 19,
    /// A compressed BLOB or TEXT of MariaDB.
    MYSQL_TYPE_BLOB_COMPRESSED = 140,
    /// A compressed VARCHAR or VARBINARY of MariaDB.
    MYSQL_TYPE_VARCHAR_COMPRESSED = 141,
    /// A vector of floating-point numbers, of MySQL 9.
    MYSQL_TYPE_VECTOR = 242,
    /// A document in MySQL's binary JSON.
    MYSQL_TYPE_JSON = 245,
    /// A decimal number: DECIMAL or NUMERIC.
    MYSQL_TYPE_NEWDECIMAL = 246,
    /// One of up to 65,535 strings; servers write such columns as STRING.
    MYSQL_TYPE_ENUM = 247,
    /// Some of up to 64 strings; servers write such columns as STRING.
    MYSQL_TYPE_SET = 248,
    /// A BLOB or TEXT; servers write such columns as BLOB.
    MYSQL_TYPE_TINY_BLOB = 249,
    /// A BLOB or TEXT; servers write such columns as BLOB.
    MYSQL_TYPE_MEDIUM_BLOB = 250,
    /// A BLOB or TEXT; servers write such columns as BLOB.
    MYSQL_TYPE_LONG_BLOB = 251,
    /// A BLOB or TEXT of any size.
    MYSQL_TYPE_BLOB = 252,
    /// A string of variable length, as older servers write it.
    MYSQL_TYPE_VAR_STRING = 253,
    /// A string of fixed length, an ENUM or a SET; the metadata states which.
    MYSQL_TYPE_STRING = 254,
    /// A geometry: its SRID, and then well-known binary (WKB).
    MYSQL_TYPE_GEOMETRY = 255,
}

/// A byte that isn't the number of a column type.
#[derive(Clone, Copy, Debug, PartialEq, Eq, Hash, Error)]
#[error("the column type {0} is not known")]
pub struct UnknownColumnType(pub u8);

/// The column type with this number; any other number is [`UnknownColumnType`] with that number.
impl TryFrom<u8> for ColumnType {
    ghost use Rattle.std.specs.Prelude.{◌≡◌};
    ghost use Rattle.binlog_columns.specs.ColumnTypes.{column_type_of};

    type Error = UnknownColumnType;

    ghost try_from_gives = { λ number answer. answer ≡ column_type_of number };

    #[inline(always)]
    fn try_from(number: u8) -> Result<ColumnType, UnknownColumnType> {
        match number {
            1 => Ok(ColumnType::MYSQL_TYPE_TINY),
            2 => Ok(ColumnType::MYSQL_TYPE_SHORT),
            3 => Ok(ColumnType::MYSQL_TYPE_LONG),
            4 => Ok(ColumnType::MYSQL_TYPE_FLOAT),
            5 => Ok(ColumnType::MYSQL_TYPE_DOUBLE),
            6 => Ok(ColumnType::MYSQL_TYPE_NULL),
            7 => Ok(ColumnType::MYSQL_TYPE_TIMESTAMP),
            8 => Ok(ColumnType::MYSQL_TYPE_LONGLONG),
            9 => Ok(ColumnType::MYSQL_TYPE_INT24),
            10 => Ok(ColumnType::MYSQL_TYPE_DATE),
            11 => Ok(ColumnType::MYSQL_TYPE_TIME),
            12 => Ok(ColumnType::MYSQL_TYPE_DATETIME),
            13 => Ok(ColumnType::MYSQL_TYPE_YEAR),
            14 => Ok(ColumnType::MYSQL_TYPE_NEWDATE),
            15 => Ok(ColumnType::MYSQL_TYPE_VARCHAR),
            16 => Ok(ColumnType::MYSQL_TYPE_BIT),
            17 => Ok(ColumnType::MYSQL_TYPE_TIMESTAMP2),
            18 => Ok(ColumnType::MYSQL_TYPE_DATETIME2),
            19 => Ok(ColumnType::MYSQL_TYPE_TIME2),
            140 => Ok(ColumnType::MYSQL_TYPE_BLOB_COMPRESSED),
            141 => Ok(ColumnType::MYSQL_TYPE_VARCHAR_COMPRESSED),
            242 => Ok(ColumnType::MYSQL_TYPE_VECTOR),
            245 => Ok(ColumnType::MYSQL_TYPE_JSON),
            246 => Ok(ColumnType::MYSQL_TYPE_NEWDECIMAL),
            247 => Ok(ColumnType::MYSQL_TYPE_ENUM),
            248 => Ok(ColumnType::MYSQL_TYPE_SET),
            249 => Ok(ColumnType::MYSQL_TYPE_TINY_BLOB),
            250 => Ok(ColumnType::MYSQL_TYPE_MEDIUM_BLOB),
            251 => Ok(ColumnType::MYSQL_TYPE_LONG_BLOB),
            252 => Ok(ColumnType::MYSQL_TYPE_BLOB),
            253 => Ok(ColumnType::MYSQL_TYPE_VAR_STRING),
            254 => Ok(ColumnType::MYSQL_TYPE_STRING),
            255 => Ok(ColumnType::MYSQL_TYPE_GEOMETRY),
            0 => Err(UnknownColumnType(number)),
            20..=139 => Err(UnknownColumnType(number)),
            142..=241 => Err(UnknownColumnType(number)),
            243 => Err(UnknownColumnType(number)),
            244 => Err(UnknownColumnType(number)),
        }
    }
}

/// The number of the column type.
impl From<ColumnType> for u8 {
    ghost use Rattle.std.specs.Prelude.{◌≡◌};
    ghost use Rattle.binlog_columns.specs.ColumnTypes.{column_number};

    ghost from_gives = { λ column_type number. number ≡ column_number column_type };

    #[inline(always)]
    fn from(column_type: ColumnType) -> u8 {
        column_type as u8
    }
}
