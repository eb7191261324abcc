//! How the values of a column are read.
ghost use Rattle.std.specs.Prelude.{◌≡◌};
ghost use Rattle.binlog_columns.specs.Decoders.{decoder_by, number_decoder, bytes_decoder};

use crate::column_type::ColumnType;
use crate::layout::Layout;

/// How a value of a column is read: its kind, and what its bytes' widths and limits are. The column's type and metadata determine
/// it. It is made once, when the column is read, so that one test for each value finds what a value is.
#[derive(Clone, Copy, Debug, PartialEq, Eq, Hash)]
pub enum Decoder {
    /// No bytes: the value is NULL.
    Nothing,
    /// An integer of this many bytes, 1, 2, 3, 4 or 8.
    Integer(u8),
    /// A floating-point number of four bytes.
    Float,
    /// A floating-point number of eight bytes.
    Double,
    /// A date of three bytes.
    Date,
    /// A year of one byte.
    Year,
    /// Seconds since 1970 UTC in four bytes.
    Timestamp,
    /// A time of whole seconds in three bytes.
    Time,
    /// A date and a time of whole seconds in eight bytes.
    DateTime,
    /// The index of an ENUM's member in this many bytes, 1 or 2.
    Enum(u8),
    /// The members of a SET in this many bytes, 1 to 8.
    Set(u8),
    /// This many bits, 1 to 64.
    Bits(u8),
    /// Seconds and a fraction of this many decimal digits, 0 to 6.
    Timestamp2(u8),
    /// A date, a time and a fraction of this many decimal digits, 0 to 6.
    DateTime2(u8),
    /// A time and a fraction of this many decimal digits, 0 to 6.
    Time2(u8),
    /// A decimal number.
    Decimal {
        /// The number of digits, 1 to 65.
        precision: u8,
        /// The number of digits after the point, at most 38.
        scale: u8,
    },
    /// A string: bytes after their length.
    Bytes {
        /// The number of bytes of the length, 1 to 4.
        prefix: u8,
        /// The greatest number of bytes of a value.
        max: u32,
    },
    /// A document: bytes after their length.
    Json {
        /// The number of bytes of the length, 1 to 4.
        prefix: u8,
        /// The greatest number of bytes of a value.
        max: u32,
    },
    /// A geometry: bytes after their length.
    Geometry {
        /// The number of bytes of the length, 1 to 4.
        prefix: u8,
        /// The greatest number of bytes of a value.
        max: u32,
    },
    /// A compressed string: bytes after their length.
    Compressed {
        /// The number of bytes of the length, 1 to 4.
        prefix: u8,
        /// The greatest number of bytes of a value.
        max: u32,
    },
    /// Numbers of four bytes each, after their length in this many bytes, 1 to 4.
    Vector(u8),
}

impl Decoder {
    /// The decoder for a column of this type and metadata, whose values have this layout.
    pub(crate) fn new(column_type: ColumnType, states_enum: bool, layout: Layout) -> Self
        ensures { result ≡ decoder_by column_type states_enum layout }
    {
        match layout {
            Layout::Nothing => Decoder::Nothing,
            Layout::Number(len) => number_decoder(column_type, states_enum, len),
            Layout::Bits(count) => Decoder::Bits(count),
            Layout::Timestamp2(digits) => Decoder::Timestamp2(digits),
            Layout::DateTime2(digits) => Decoder::DateTime2(digits),
            Layout::Time2(digits) => Decoder::Time2(digits),
            Layout::Decimal { precision, scale } => Decoder::Decimal { precision, scale },
            Layout::Counted { prefix, max } => bytes_decoder(column_type, prefix, max),
            Layout::Vector(prefix) => Decoder::Vector(prefix),
        }
    }
}

/// The decoder for a column of this type, whose values are numbers of this many bytes.
fn number_decoder(column_type: ColumnType, states_enum: bool, len: u8) -> Decoder
    ensures { result ≡ number_decoder column_type states_enum len }
{
    match column_type {
        ColumnType::MYSQL_TYPE_FLOAT => Decoder::Float,
        ColumnType::MYSQL_TYPE_DOUBLE => Decoder::Double,
        ColumnType::MYSQL_TYPE_DATE | ColumnType::MYSQL_TYPE_NEWDATE => Decoder::Date,
        ColumnType::MYSQL_TYPE_YEAR => Decoder::Year,
        ColumnType::MYSQL_TYPE_TIMESTAMP => Decoder::Timestamp,
        ColumnType::MYSQL_TYPE_TIME => Decoder::Time,
        ColumnType::MYSQL_TYPE_DATETIME => Decoder::DateTime,
        ColumnType::MYSQL_TYPE_STRING | ColumnType::MYSQL_TYPE_ENUM | ColumnType::MYSQL_TYPE_SET =>
            {
                if states_enum {
                    Decoder::Enum(len)
                } else {
                    Decoder::Set(len)
                }
            }
        _ => Decoder::Integer(len),
    }
}

/// The decoder for a column of this type, whose values are bytes after their length.
fn bytes_decoder(column_type: ColumnType, prefix: u8, max: u32) -> Decoder
    ensures { result ≡ bytes_decoder column_type prefix max }
{
    match column_type {
        ColumnType::MYSQL_TYPE_JSON => Decoder::Json { prefix, max },
        ColumnType::MYSQL_TYPE_GEOMETRY => Decoder::Geometry { prefix, max },
        ColumnType::MYSQL_TYPE_BLOB_COMPRESSED | ColumnType::MYSQL_TYPE_VARCHAR_COMPRESSED => {
            Decoder::Compressed { prefix, max }
        }
        _ => Decoder::Bytes { prefix, max },
    }
}
