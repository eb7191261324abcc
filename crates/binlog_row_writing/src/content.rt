//! What is stored for a value.
ghost use Rattle.std.specs.Prelude.{◌≡◌, ◌≤◌, ◌<◌, ◌^◌, length};
ghost use Rattle.binlog_columns.specs.Columns.{typed_of};
ghost use Rattle.binlog_values.specs.Contents.{number_in, bytes_in};
ghost use Rattle.binlog_row_writing.specs.NewContents.{content_for, number_in_column, listed_number, decimal_of, bytes_in_column, string_bytes, json_bytes, geometry_bytes, vector_bytes, compressed_bytes, number_if, bytes_if, fits_bytes, fits_bits};
ghost use Rattle.binlog_row_writing.specs.Stored.{stored_content, answer_stored, answer_bytes, answer_decimal};

use crate::new_decimal::NewDecimal;
use crate::new_value::NewValue;
use crate::numbers::{
    bit_number, double_number, enum_number, float_number, integer_number, set_number, year_number,
};
use crate::row_write_error::RowWriteErrorKind;
use crate::times::{
    date_number, datetime_number, datetime2_number, time_number, time2_number, timestamp_number,
    timestamp2_number,
};
use binlog_columns::{Column, ColumnType, Layout};

/// What is stored for a value.
#[derive(Clone, Copy, Debug)]
pub(crate) enum Stored<'a> {
    /// A number.
    Number(u64),
    /// Bytes.
    Bytes(&'a [u8]),
}

/// Whether a number fits this many bytes, at most 8.
fn fits_bytes(len: u8, number: u64) -> bool
    requires { len ≤ 8 }
    ensures { result ≡ fits_bytes len number }
{
    match len {
        0 => number == 0,
        1 => number < 1 << 8,
        2 => number < 1 << 16,
        3 => number < 1 << 24,
        4 => number < 1 << 32,
        5 => number < 1 << 40,
        6 => number < 1 << 48,
        7 => number < 1 << 56,
        _ => true,
    }
}

/// Whether a number fits this many bits, at most 64.
fn fits_bits(count: u8, number: u64) -> bool
    requires { count ≤ 64 }
    ensures { result ≡ fits_bits count number }
{
    count == 64 || number < 1 << count
}

/// The number that is stored for a value in an ENUM or a SET.
fn listed_number(column: &Column, value: NewValue<'_>) -> Result<u64, RowWriteErrorKind>
    ensures { result ≡ listed_number (typed_of column.now).1 value.entry }
{
    if column.states_enum() {
        enum_number(value)
    } else {
        set_number(value)
    }
}

/// The number that is stored for a value in a column whose numbers have `len` bytes.
fn number_in_column(len: u8, column: &Column, value: NewValue<'_>) -> Result<u64, RowWriteErrorKind>
    requires low { 1 ≤ len }
    requires high { len ≤ 8 }
    ensures { result ≡ number_in_column len (typed_of column.now).0 (typed_of column.now).1 value.entry }
{
    match column.column_type() {
        ColumnType::MYSQL_TYPE_FLOAT => float_number(value),
        ColumnType::MYSQL_TYPE_DOUBLE => double_number(value),
        ColumnType::MYSQL_TYPE_DATE | ColumnType::MYSQL_TYPE_NEWDATE => date_number(value),
        ColumnType::MYSQL_TYPE_YEAR => year_number(value),
        ColumnType::MYSQL_TYPE_TIMESTAMP => timestamp_number(value),
        ColumnType::MYSQL_TYPE_TIME => time_number(value),
        ColumnType::MYSQL_TYPE_DATETIME => datetime_number(value),
        ColumnType::MYSQL_TYPE_STRING | ColumnType::MYSQL_TYPE_ENUM | ColumnType::MYSQL_TYPE_SET =>
            listed_number(column, value),
        _ => integer_number(len, value),
    }
}

/// The decimal number.
fn decimal_of<'v>(value: NewValue<'v>) -> Result<&'v NewDecimal, RowWriteErrorKind>
    ensures { answer_decimal result ≡ decimal_of value.entry }
{
    match value {
        NewValue::Decimal(decimal) => Ok(decimal),
        _ => Err(RowWriteErrorKind::WrongType),
    }
}

/// The bytes of a string.
fn string_bytes<'v>(value: NewValue<'v>) -> Result<&'v [u8], RowWriteErrorKind>
    ensures { answer_bytes result ≡ string_bytes value.entry }
{
    match value {
        NewValue::Bytes(bytes) => Ok(bytes),
        _ => Err(RowWriteErrorKind::WrongType),
    }
}

/// The bytes of a JSON document.
fn json_bytes<'v>(value: NewValue<'v>) -> Result<&'v [u8], RowWriteErrorKind>
    ensures { answer_bytes result ≡ json_bytes value.entry }
{
    match value {
        NewValue::Json(bytes) => Ok(bytes),
        _ => Err(RowWriteErrorKind::WrongType),
    }
}

/// The bytes of a geometry.
fn geometry_bytes<'v>(value: NewValue<'v>) -> Result<&'v [u8], RowWriteErrorKind>
    ensures { answer_bytes result ≡ geometry_bytes value.entry }
{
    match value {
        NewValue::Geometry(bytes) => Ok(bytes),
        _ => Err(RowWriteErrorKind::WrongType),
    }
}

/// The bytes of a vector.
fn vector_bytes<'v>(value: NewValue<'v>) -> Result<&'v [u8], RowWriteErrorKind>
    ensures { answer_bytes result ≡ vector_bytes value.entry }
{
    match value {
        NewValue::Vector(bytes) => Ok(bytes),
        _ => Err(RowWriteErrorKind::WrongType),
    }
}

/// The bytes of a compressed string.
fn compressed_bytes<'v>(value: NewValue<'v>) -> Result<&'v [u8], RowWriteErrorKind>
    ensures { answer_bytes result ≡ compressed_bytes value.entry }
{
    match value {
        NewValue::Compressed(bytes) => Ok(bytes),
        _ => Err(RowWriteErrorKind::WrongType),
    }
}

/// The bytes of a value in a column of this type whose values are bytes after their length.
fn bytes_in_column<'v>(
    column_type: ColumnType,
    value: NewValue<'v>,
) -> Result<&'v [u8], RowWriteErrorKind>
    ensures { answer_bytes result ≡ bytes_in_column column_type value.entry }
{
    match column_type {
        ColumnType::MYSQL_TYPE_JSON => json_bytes(value),
        ColumnType::MYSQL_TYPE_GEOMETRY => geometry_bytes(value),
        ColumnType::MYSQL_TYPE_BLOB_COMPRESSED | ColumnType::MYSQL_TYPE_VARCHAR_COMPRESSED => {
            compressed_bytes(value)
        }
        _ => string_bytes(value),
    }
}

/// A number, if it fits.
fn number_if<'v>(fits: bool, number: u64) -> Result<Stored<'v>, RowWriteErrorKind>
    ensures { answer_stored result ≡ number_if fits number }
{
    if fits {
        Ok(Stored::Number(number))
    } else {
        Err(RowWriteErrorKind::OutOfRange)
    }
}

/// Bytes, if they fit.
fn bytes_if<'v>(fits: bool, bytes: &'v [u8]) -> Result<Stored<'v>, RowWriteErrorKind>
    ensures { answer_stored result ≡ bytes_if fits bytes.now }
{
    if fits {
        Ok(Stored::Bytes(bytes))
    } else {
        Err(RowWriteErrorKind::OutOfRange)
    }
}

/// What is stored for a value in a column.
pub(crate) fn stored_in<'v>(
    column: &Column,
    value: NewValue<'v>,
) -> Result<Stored<'v>, RowWriteErrorKind>
    ensures { answer_stored result ≡ content_for (typed_of column.now) value.entry }
{
    match column.layout() {
        Layout::Nothing => Err(RowWriteErrorKind::WrongType),
        Layout::Number(len) => {
            let number = number_in_column(len, column, value)?;
            number_if(fits_bytes(len, number), number)
        }
        Layout::Bits(count) => {
            let number = bit_number(value)?;
            number_if(fits_bits(count, number), number)
        }
        Layout::Timestamp2(digits) => {
            let number = timestamp2_number(digits, value)?;
            Ok(Stored::Number(number))
        }
        Layout::DateTime2(digits) => {
            let number = datetime2_number(digits, value)?;
            Ok(Stored::Number(number))
        }
        Layout::Time2(digits) => {
            let number = time2_number(digits, value)?;
            Ok(Stored::Number(number))
        }
        Layout::Decimal { precision, scale } => {
            let decimal = decimal_of(value)?;
            let fits = decimal.precision() == precision && decimal.scale() == scale;
            bytes_if(fits, decimal.as_bytes())
        }
        Layout::Counted { prefix, max } => {
            let bytes = bytes_in_column(column.column_type(), value)?;
            bytes_if(bytes.len() as u64 <= u64::from(max), bytes)
        }
        Layout::Vector(prefix) => {
            let bytes = vector_bytes(value)?;
            let len = bytes.len() as u64;
            bytes_if(len % 4 == 0 && fits_bytes(prefix, len), bytes)
        }
    }
}
