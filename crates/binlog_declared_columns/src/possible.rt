//! Which column of a log a column of a declared type may be.
ghost use Rattle.std.specs.Prelude.{◌≡◌, ◌==◌, ◌+◌, length};
ghost use Rattle.binlog_columns.specs.Columns.{typed_of};
ghost use Rattle.column_files.specs.Types.{type_of};
ghost use Rattle.binlog_declared_columns.specs.Possible.{is_integer, is_varchar, is_string, is_old_temporal, has_digits, has_bits, has_precision, has_max, has_prefix, has_size, prefix_of, has_characters, is_temporal, is_var_binary, is_var_char, is_large, is_stored, is_simple, enum_size, set_size, is_possible};

use crate::widths::bytes_per_character;
use binlog_columns::{Column, ColumnType, Layout};
use character_sets::CharacterSet;
use column_files::{DeclaredType, IntegerSize, LengthSize, SimpleType, TemporalKind};

// Whether integers of this size are of the type.
fn is_integer(size: IntegerSize, column_type: ColumnType) -> bool
    ensures { result ≡ is_integer size column_type }
{
    match size {
        IntegerSize::Tiny => matches!(column_type, ColumnType::MYSQL_TYPE_TINY),
        IntegerSize::Small => matches!(column_type, ColumnType::MYSQL_TYPE_SHORT),
        IntegerSize::Medium => matches!(column_type, ColumnType::MYSQL_TYPE_INT24),
        IntegerSize::Regular => matches!(column_type, ColumnType::MYSQL_TYPE_LONG),
        IntegerSize::Big => matches!(column_type, ColumnType::MYSQL_TYPE_LONGLONG),
    }
}

// Whether the type is that of strings of variable length.
fn is_varchar(column_type: ColumnType) -> bool
    ensures { result ≡ is_varchar column_type }
{
    matches!(
        column_type,
        ColumnType::MYSQL_TYPE_VARCHAR | ColumnType::MYSQL_TYPE_VAR_STRING
    )
}

// Whether the type is that of strings of fixed length.
fn is_string(column_type: ColumnType) -> bool
    ensures { result ≡ is_string column_type }
{
    matches!(column_type, ColumnType::MYSQL_TYPE_STRING)
}

// Whether the type is that of times of old servers, without a fraction.
fn is_old_temporal(kind: TemporalKind, column_type: ColumnType) -> bool
    ensures { result ≡ is_old_temporal kind column_type }
{
    match kind {
        TemporalKind::Time => matches!(column_type, ColumnType::MYSQL_TYPE_TIME),
        TemporalKind::DateTime => matches!(column_type, ColumnType::MYSQL_TYPE_DATETIME),
        TemporalKind::Timestamp => matches!(column_type, ColumnType::MYSQL_TYPE_TIMESTAMP),
    }
}

// Whether the values have a fraction of this many digits.
fn has_digits(kind: TemporalKind, digits: u32, layout: Layout) -> bool
    ensures { result ≡ has_digits kind digits layout }
{
    match (kind, layout) {
        (TemporalKind::Time, Layout::Time2(stated)) => u32::from(stated) == digits,
        (TemporalKind::DateTime, Layout::DateTime2(stated)) => u32::from(stated) == digits,
        (TemporalKind::Timestamp, Layout::Timestamp2(stated)) => u32::from(stated) == digits,
        _ => false,
    }
}

// Whether the values have this many bits.
fn has_bits(count: u32, layout: Layout) -> bool
    ensures { result ≡ has_bits count layout }
{
    match layout {
        Layout::Bits(stated) => u32::from(stated) == count,
        _ => false,
    }
}

// Whether the values are decimal numbers of these digits.
fn has_precision(precision: u32, scale: u32, layout: Layout) -> bool
    ensures { result ≡ has_precision precision scale layout }
{
    match layout {
        Layout::Decimal {
            precision: stated_precision,
            scale: stated_scale,
        } => u32::from(stated_precision) == precision && u32::from(stated_scale) == scale,
        _ => false,
    }
}

// Whether this is the greatest number of bytes.
fn has_max(max: u64, layout: Layout) -> bool
    ensures { result ≡ has_max max layout }
{
    match layout {
        Layout::Counted { max: stated, .. } => u64::from(stated) == max,
        _ => false,
    }
}

// Whether the length of a value takes this many bytes.
fn has_prefix(prefix: u8, layout: Layout) -> bool
    ensures { result ≡ has_prefix prefix layout }
{
    match layout {
        Layout::Counted { prefix: stated, .. } => stated == prefix,
        _ => false,
    }
}

// Whether a value is a number of this many bytes.
fn has_size(size: u8, layout: Layout) -> bool
    ensures { result ≡ has_size size layout }
{
    match layout {
        Layout::Number(stated) => stated == size,
        _ => false,
    }
}

// The bytes of the length of a value.
fn prefix_of(size: LengthSize) -> u8
    ensures { result ≡ prefix_of size }
{
    match size {
        LengthSize::Tiny => 1,
        LengthSize::Regular => 2,
        LengthSize::Medium => 3,
        LengthSize::Long => 4,
    }
}

// Whether the bytes of as many characters, and this many more, are the greatest number of bytes.
fn has_characters(count: u32, more: u8, set: Option<CharacterSet>, layout: Layout) -> bool
    ensures { result ≡ has_characters count more set layout }
{
    match set {
        Some(set) => {
            let max = u64::from(count) * bytes_per_character(set) + u64::from(more);
            has_max(max, layout)
        }
        None => false,
    }
}

// Whether the column may be of a type of times. Of the old ones only values without a fraction are read.
fn is_temporal(
    kind: TemporalKind,
    digits: u32,
    is_old: bool,
    column_type: ColumnType,
    layout: Layout,
) -> bool
    ensures { result ≡ is_temporal kind digits is_old column_type layout }
{
    if is_old {
        digits == 0 && is_old_temporal(kind, column_type)
    } else {
        has_digits(kind, digits, layout) || digits == 0 && is_old_temporal(kind, column_type)
    }
}

// Whether the column may be a VARBINARY of this length.
fn is_var_binary(count: u32, is_compressed: bool, column_type: ColumnType, layout: Layout) -> bool
    ensures { result ≡ is_var_binary count is_compressed column_type layout }
{
    if is_compressed {
        matches!(column_type, ColumnType::MYSQL_TYPE_VARCHAR_COMPRESSED)
            && has_max(u64::from(count) + 1, layout)
    } else {
        is_varchar(column_type) && has_max(u64::from(count), layout)
    }
}

// Whether the column may be a VARCHAR of this length in characters.
fn is_var_char(
    count: u32,
    is_compressed: bool,
    set: Option<CharacterSet>,
    column_type: ColumnType,
    layout: Layout,
) -> bool
    ensures { result ≡ is_var_char count is_compressed set column_type layout }
{
    if is_compressed {
        matches!(column_type, ColumnType::MYSQL_TYPE_VARCHAR_COMPRESSED)
            && has_characters(count, 1, set, layout)
    } else {
        is_varchar(column_type) && has_characters(count, 0, set, layout)
    }
}

// Whether the column may be a TEXT or a BLOB.
fn is_large(size: LengthSize, is_compressed: bool, column_type: ColumnType, layout: Layout) -> bool
    ensures { result ≡ is_large size is_compressed column_type layout }
{
    if is_compressed {
        matches!(column_type, ColumnType::MYSQL_TYPE_BLOB_COMPRESSED)
            && has_prefix(prefix_of(size), layout)
    } else {
        matches!(column_type, ColumnType::MYSQL_TYPE_BLOB) && has_prefix(prefix_of(size), layout)
    }
}

// Whether the column may be of a type of strings, or of one that is stored as bytes.
fn is_stored(
    simple_type: SimpleType,
    set: Option<CharacterSet>,
    column_type: ColumnType,
    layout: Layout,
) -> bool
    ensures { result ≡ is_stored simple_type set column_type layout }
{
    match simple_type {
        SimpleType::Char(count) => is_string(column_type) && has_characters(count, 0, set, layout),
        SimpleType::Binary(count) => is_string(column_type) && has_max(u64::from(count), layout),
        SimpleType::VarChar {
            length,
            is_compressed,
        } => is_var_char(length, is_compressed, set, column_type, layout),
        SimpleType::VarBinary {
            length,
            is_compressed,
        } => is_var_binary(length, is_compressed, column_type, layout),
        SimpleType::Text {
            size,
            is_compressed,
        }
        | SimpleType::Blob {
            size,
            is_compressed,
        } => { is_large(size, is_compressed, column_type, layout) }
        SimpleType::Geometry => matches!(column_type, ColumnType::MYSQL_TYPE_GEOMETRY),
        SimpleType::Json => matches!(column_type, ColumnType::MYSQL_TYPE_JSON),
        SimpleType::Inet4 => is_string(column_type) && has_max(4, layout),
        SimpleType::Inet6 | SimpleType::Uuid => is_string(column_type) && has_max(16, layout),
        SimpleType::Vector(count) => {
            matches!(column_type, ColumnType::MYSQL_TYPE_VECTOR)
                || is_varchar(column_type) && has_max(4 * u64::from(count), layout)
        }
        _ => false,
    }
}

// Whether the column may be of a type without members.
fn is_simple(
    simple_type: SimpleType,
    set: Option<CharacterSet>,
    column_type: ColumnType,
    layout: Layout,
) -> bool
    ensures { result ≡ is_simple simple_type set column_type layout }
{
    match simple_type {
        SimpleType::Integer { size, .. } => is_integer(size, column_type),
        SimpleType::Float { .. } => matches!(column_type, ColumnType::MYSQL_TYPE_FLOAT),
        SimpleType::Double { .. } => matches!(column_type, ColumnType::MYSQL_TYPE_DOUBLE),
        SimpleType::Decimal {
            precision,
            scale,
            ..
        } => has_precision(precision, scale, layout),
        SimpleType::Bit(count) => has_bits(count, layout),
        SimpleType::Year => matches!(column_type, ColumnType::MYSQL_TYPE_YEAR),
        SimpleType::Date => matches!(
            column_type,
            ColumnType::MYSQL_TYPE_DATE | ColumnType::MYSQL_TYPE_NEWDATE
        ),
        SimpleType::Temporal {
            kind,
            digits,
            is_old,
        } => is_temporal(kind, digits, is_old, column_type, layout),
        _ => is_stored(simple_type, set, column_type, layout),
    }
}

// The bytes of the values of an ENUM with this many members.
fn enum_size(count: usize) -> u8
    ensures { result ≡ enum_size count }
{
    if count <= 255 { 1 } else { 2 }
}

// The bytes of the values of a SET with this many members.
fn set_size(count: usize) -> u8
    ensures { result ≡ set_size count }
{
    if count <= 8 {
        1
    } else if count <= 16 {
        2
    } else if count <= 24 {
        3
    } else if count <= 32 {
        4
    } else {
        8
    }
}

/// Whether a column of a log may be one of this declared type, with this character set, by its type and metadata.
#[tactic(auto, using(crate::proofs::Members::are_as_many))]
pub(crate) fn is_possible(
    declared: &DeclaredType,
    set: Option<CharacterSet>,
    column: &Column,
) -> bool
    ensures { result ≡ is_possible (type_of declared.now) set (typed_of column.now) }
{
    let column_type = column.real_type();
    let layout = column.layout();
    match declared {
        DeclaredType::Simple(simple_type) => is_simple(*simple_type, set, column_type, layout),
        DeclaredType::Enum(members) => {
            matches!(column_type, ColumnType::MYSQL_TYPE_ENUM)
                && has_size(enum_size(members.len()), layout)
        }
        DeclaredType::Set(members) => {
            matches!(column_type, ColumnType::MYSQL_TYPE_SET)
                && has_size(set_size(members.len()), layout)
        }
    }
}
