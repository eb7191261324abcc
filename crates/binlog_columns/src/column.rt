//! A column: its type and its metadata.
ghost use Rattle.std.specs.Prelude.{◌≡◌, ◌==◌, ◌<◌, true};
ghost use Rattle.std.specs.Prelude.{◌+◌, ◌*◌};
ghost use Rattle.binlog_wire.specs.Fields.{number_at};
ghost use Rattle.binlog_wire.specs.Reading.{Gives};
ghost use Rattle.binlog_columns.specs.Decoders.{decoder_of, layout_in};
ghost use Rattle.binlog_columns.specs.Layouts.{layout_of, layout_as, real_layout, string_layout, blob_layout, IsLayout};
ghost use Rattle.binlog_columns.specs.declared.layout.Layout.TheVariants.{Bits, Decimal, Number};
ghost use Rattle.binlog_columns.specs.RealTypes.{real_as, real_type};
ghost use Rattle.binlog_columns.specs.Metadata.{metadata_len, first_byte, second_byte, bit_count, high_bits, real_number, string_length, is_size, is_fraction, is_decimal, is_bit, is_enum_or_set, is_string, is_metadata};

use crate::column_type::ColumnType;
use crate::decoder::Decoder;
use crate::layout::Layout;
use binlog_wire::{Error, IntRepr, Invalid, LeU16, ParseBuf};

/// A column of a table: its type, and the metadata that the table map states for it.
///
/// The metadata that is allowed for each type:
///
/// | Type | Metadata |
/// |---|---|
/// | FLOAT, DOUBLE | the size in bytes: 4, 8 |
/// | NEWDECIMAL | the precision, 1 to 65, and the scale, at most 38 and not above the precision |
/// | TIMESTAMP2, DATETIME2, TIME2 | the digits of the fraction, 0 to 6 |
/// | BIT | the number of bits over whole bytes, 0 to 7, and the number of whole bytes; 1 to 64 bits in all |
/// | VARCHAR, VAR_STRING, VARCHAR_COMPRESSED | the greatest length in bytes, two bytes |
/// | the four BLOB types, JSON, GEOMETRY, VECTOR, BLOB_COMPRESSED | the size of the length in bytes, 1 to 4 |
/// | STRING | the real type and the greatest length in bytes, 0 to 1,023 |
/// | ENUM, SET, also as the real type of a STRING | the real type and the size in bytes: ENUM 1 or 2, SET 1 to 8 |
/// | any other | none |
#[derive(Clone, Copy, Debug, PartialEq, Eq, Hash)]
pub struct Column {
    column_type: ColumnType,
    metadata: u16,
    decoder: Decoder,
    ghost is_allowed: { is_metadata column_type metadata ≡ true },
    ghost decodes: { decoder ≡ decoder_of (column_type, metadata) },
}

impl Column {
    ghost use Rattle.binlog_columns.specs.Metadata.{column};
    ghost use Rattle.binlog_columns.specs.Columns.{typed_of, answer_typed};

    /// Takes the metadata of a column from the start of `buf`; the byte `number` states the column's type.
    ///
    /// # Errors
    ///
    /// - [`Error::WrongEventType`] with `number` if it isn't the number of a column type.
    /// - [`Error::EndOfBody`] if the bytes end within the metadata.
    /// - [`Error::InvalidData`] if the metadata isn't allowed for the type.
    #[inline(always)]
    pub fn read(number: u8, buf: &mut ParseBuf<'_>) -> Result<Self, Error>
        ensures { Gives ⊥ buf.new (answer_typed result) ((column number).reads buf.old) }
    {
        let Ok(column_type) = ColumnType::try_from(number) else {
            return Err(Error::WrongEventType(number));
        };
        let metadata = read_metadata(metadata_bytes(column_type), buf)?;
        if !is_allowed(column_type, metadata) {
            return Err(Error::InvalidData(Invalid::FieldRange(u64::from(number))));
        }
        let layout = layout_as(column_type, metadata);
        Ok(Column {
            column_type,
            metadata,
            decoder: Decoder::new(column_type, real_number(metadata) == 247, layout),
        })
    }

    /// The type that the table map states.
    #[inline(always)]
    pub fn column_type(&self) -> ColumnType
        ensures { result ≡ (typed_of self.now).0 }
    {
        self.column_type
    }

    /// The metadata as a little-endian number; 0 if the type has none.
    #[inline(always)]
    pub fn metadata(&self) -> u16
        ensures { result ≡ (typed_of self.now).1 }
    {
        self.metadata
    }

    /// The real type. For the types STRING, ENUM and SET the metadata states it: STRING, ENUM or SET. Any other type is
    /// its own real type.
    #[inline(always)]
    pub fn real_type(&self) -> ColumnType
        ensures { result ≡ real_type (typed_of self.now) }
    {
        match self.column_type {
            ColumnType::MYSQL_TYPE_STRING
            | ColumnType::MYSQL_TYPE_ENUM
            | ColumnType::MYSQL_TYPE_SET => real_type_in(self.metadata),
            other => other,
        }
    }

    /// Whether the metadata of a STRING, an ENUM or a SET states that the real type is ENUM.
    #[inline(always)]
    pub fn states_enum(&self) -> bool
        ensures { result ≡ (real_number (typed_of self.now).1 == 247) }
    {
        real_number(self.metadata) == 247
    }

    /// How the values of the column are encoded.
    #[tactic(auto, using(crate::specs::LayoutLaws::sound_layout))]
    #[inline(always)]
    pub fn layout(&self) -> Layout
        ensures layout { result ≡ layout_of (typed_of self.now) }
        ensures ranges { IsLayout result }
    {
        layout_as(self.column_type, self.metadata)
    }

    /// How the values of the column are read.
    #[tactic(auto, using(crate::specs::DecoderLaws::sound_decoder, crate::specs::DecoderLaws::decoder_has_layout))]
    #[inline(always)]
    pub fn decoder(&self) -> Decoder
        ensures decoder { result ≡ decoder_of (typed_of self.now) }
        ensures layout { layout_in result ≡ layout_of (typed_of self.now) }
        ensures ranges { IsLayout (layout_in result) }
    {
        // The metadata is read, so that its range is known.
        let _metadata = self.metadata;
        self.decoder
    }
}

/// How the values of a column of this type and metadata are encoded.
#[tactic(auto, using(crate::specs::LayoutLaws::sound_layout))]
#[inline(always)]
fn layout_as(column_type: ColumnType, metadata: u16) -> Layout
    requires { is_metadata column_type metadata ≡ true }
    ensures { result ≡ layout_as column_type metadata }
{
    match column_type {
        ColumnType::MYSQL_TYPE_NULL => Layout::Nothing,
        ColumnType::MYSQL_TYPE_TINY | ColumnType::MYSQL_TYPE_YEAR => Layout::Number(1),
        ColumnType::MYSQL_TYPE_SHORT => Layout::Number(2),
        ColumnType::MYSQL_TYPE_INT24
        | ColumnType::MYSQL_TYPE_DATE
        | ColumnType::MYSQL_TYPE_NEWDATE
        | ColumnType::MYSQL_TYPE_TIME => Layout::Number(3),
        ColumnType::MYSQL_TYPE_LONG
        | ColumnType::MYSQL_TYPE_FLOAT
        | ColumnType::MYSQL_TYPE_TIMESTAMP => Layout::Number(4),
        ColumnType::MYSQL_TYPE_LONGLONG
        | ColumnType::MYSQL_TYPE_DOUBLE
        | ColumnType::MYSQL_TYPE_DATETIME => Layout::Number(8),
        ColumnType::MYSQL_TYPE_BIT => bit_layout(metadata),
        ColumnType::MYSQL_TYPE_TIMESTAMP2 => Layout::Timestamp2(metadata as u8),
        ColumnType::MYSQL_TYPE_DATETIME2 => Layout::DateTime2(metadata as u8),
        ColumnType::MYSQL_TYPE_TIME2 => Layout::Time2(metadata as u8),
        ColumnType::MYSQL_TYPE_NEWDECIMAL => decimal_layout(metadata),
        ColumnType::MYSQL_TYPE_ENUM | ColumnType::MYSQL_TYPE_SET => number_layout(metadata),
        ColumnType::MYSQL_TYPE_STRING => string_layout_in(metadata),
        ColumnType::MYSQL_TYPE_VARCHAR
        | ColumnType::MYSQL_TYPE_VAR_STRING
        | ColumnType::MYSQL_TYPE_VARCHAR_COMPRESSED => string_layout(metadata),
        ColumnType::MYSQL_TYPE_VECTOR => Layout::Vector(metadata as u8),
        _ => blob_layout(metadata),
    }
}

/// The real type that the metadata of a STRING states.
#[inline(always)]
fn real_type_in(metadata: u16) -> ColumnType
    ensures { result ≡ real_as metadata }
{
    match real_number(metadata) {
        254 => ColumnType::MYSQL_TYPE_STRING,
        247 => ColumnType::MYSQL_TYPE_ENUM,
        _ => ColumnType::MYSQL_TYPE_SET,
    }
}

/// Takes this many bytes of metadata, at most two, from the start of `buf`.
#[inline(always)]
fn read_metadata(len: usize, buf: &mut ParseBuf<'_>) -> Result<u16, Error>
    requires { len < 3 }
    ensures { Gives ⊥ buf.new result (number_at len buf.old) }
{
    match len {
        0 => Ok(0),
        1 => Ok(u16::from(<u8 as IntRepr>::read(buf)?)),
        _ => LeU16::read(buf),
    }
}

/// The number of the real type in the metadata of a STRING.
#[inline(always)]
fn real_number(metadata: u16) -> u16
    ensures { result ≡ real_number metadata }
{
    metadata % 256 + 16 * (3 - metadata % 256 / 16 % 4)
}

/// The length in bytes in the metadata of a STRING, at most 1,023.
#[inline(always)]
fn string_len(metadata: u16) -> u16
    ensures length { result ≡ string_length metadata }
    ensures small { result < 1024 }
{
    metadata / 256 + 256 * (3 - metadata % 256 / 16 % 4)
}

/// Whether the metadata is allowed for a BIT.
#[inline(always)]
fn is_bit(metadata: u16) -> bool
    ensures { result ≡ is_bit metadata }
{
    let bits = 8 * u32::from(metadata / 256) + u32::from(metadata % 256);
    metadata % 256 <= 7 && 1 <= bits && bits <= 64
}

/// Whether the metadata is allowed for a NEWDECIMAL.
#[inline(always)]
fn is_decimal(metadata: u16) -> bool
    ensures { result ≡ is_decimal metadata }
{
    let precision = metadata % 256;
    let scale = metadata / 256;
    1 <= precision && precision <= 65 && scale <= precision && scale <= 38
}

/// Whether the metadata is allowed for an ENUM or a SET.
#[inline(always)]
fn is_enum_or_set(metadata: u16) -> bool
    ensures { result ≡ is_enum_or_set metadata }
{
    let number = real_number(metadata);
    let size = string_len(metadata);
    number == 247 && 1 <= size && size <= 2 || number == 248 && 1 <= size && size <= 8
}

/// Whether the metadata is allowed for a column of this type.
#[inline(always)]
fn is_allowed(column_type: ColumnType, metadata: u16) -> bool
    ensures { result ≡ is_metadata column_type metadata }
{
    match column_type {
        ColumnType::MYSQL_TYPE_FLOAT => metadata == 4,
        ColumnType::MYSQL_TYPE_DOUBLE => metadata == 8,
        ColumnType::MYSQL_TYPE_TIMESTAMP2
        | ColumnType::MYSQL_TYPE_DATETIME2
        | ColumnType::MYSQL_TYPE_TIME2 => metadata <= 6,
        ColumnType::MYSQL_TYPE_BLOB_COMPRESSED
        | ColumnType::MYSQL_TYPE_VECTOR
        | ColumnType::MYSQL_TYPE_JSON
        | ColumnType::MYSQL_TYPE_TINY_BLOB
        | ColumnType::MYSQL_TYPE_MEDIUM_BLOB
        | ColumnType::MYSQL_TYPE_LONG_BLOB
        | ColumnType::MYSQL_TYPE_BLOB
        | ColumnType::MYSQL_TYPE_GEOMETRY => 1 <= metadata && metadata <= 4,
        ColumnType::MYSQL_TYPE_BIT => is_bit(metadata),
        ColumnType::MYSQL_TYPE_NEWDECIMAL => is_decimal(metadata),
        ColumnType::MYSQL_TYPE_ENUM | ColumnType::MYSQL_TYPE_SET => is_enum_or_set(metadata),
        ColumnType::MYSQL_TYPE_STRING => real_number(metadata) == 254 || is_enum_or_set(metadata),
        _ => true,
    }
}

/// The number of bytes of metadata that a column of this type has, at most 2.
#[inline(always)]
fn metadata_bytes(column_type: ColumnType) -> usize
    ensures count { result ≡ metadata_len column_type }
    ensures small { result < 3 }
{
    match column_type {
        ColumnType::MYSQL_TYPE_FLOAT
        | ColumnType::MYSQL_TYPE_DOUBLE
        | ColumnType::MYSQL_TYPE_TIMESTAMP2
        | ColumnType::MYSQL_TYPE_DATETIME2
        | ColumnType::MYSQL_TYPE_TIME2
        | ColumnType::MYSQL_TYPE_BLOB_COMPRESSED
        | ColumnType::MYSQL_TYPE_VECTOR
        | ColumnType::MYSQL_TYPE_JSON
        | ColumnType::MYSQL_TYPE_TINY_BLOB
        | ColumnType::MYSQL_TYPE_MEDIUM_BLOB
        | ColumnType::MYSQL_TYPE_LONG_BLOB
        | ColumnType::MYSQL_TYPE_BLOB
        | ColumnType::MYSQL_TYPE_GEOMETRY => 1,
        ColumnType::MYSQL_TYPE_VARCHAR
        | ColumnType::MYSQL_TYPE_BIT
        | ColumnType::MYSQL_TYPE_VARCHAR_COMPRESSED
        | ColumnType::MYSQL_TYPE_NEWDECIMAL
        | ColumnType::MYSQL_TYPE_ENUM
        | ColumnType::MYSQL_TYPE_SET
        | ColumnType::MYSQL_TYPE_VAR_STRING
        | ColumnType::MYSQL_TYPE_STRING => 2,
        _ => 0,
    }
}

/// The layout for a BIT.
#[tactic(auto, using(crate::specs::LayoutLaws::bit_is))]
#[inline(always)]
fn bit_layout(metadata: u16) -> Layout
    requires { is_bit metadata ≡ true }
    ensures { result ≡ Bits (bit_count metadata) }
{
    Layout::Bits((8 * u32::from(metadata / 256) + u32::from(metadata % 256)) as u8)
}

/// The layout for a NEWDECIMAL.
#[inline(always)]
fn decimal_layout(metadata: u16) -> Layout
    ensures { result ≡ Decimal (first_byte metadata) (second_byte metadata) }
{
    Layout::Decimal {
        precision: (metadata % 256) as u8,
        scale: (metadata / 256) as u8,
    }
}

/// The layout for an ENUM or a SET.
#[tactic(auto, using(crate::specs::LayoutLaws::enum_or_set_is))]
#[inline(always)]
fn number_layout(metadata: u16) -> Layout
    requires { is_enum_or_set metadata ≡ true }
    ensures { result ≡ Number (string_length metadata) }
{
    Layout::Number(string_len(metadata) as u8)
}

/// The layout for a STRING.
#[inline(always)]
fn string_layout_in(metadata: u16) -> Layout
    requires { is_string metadata ≡ true }
    ensures { result ≡ real_layout metadata }
{
    if real_number(metadata) == 254 {
        string_layout(string_len(metadata))
    } else {
        number_layout(metadata)
    }
}

/// The layout for strings of at most this many bytes.
#[inline(always)]
fn string_layout(max: u16) -> Layout
    ensures { result ≡ string_layout max }
{
    Layout::Counted {
        prefix: if max <= 255 { 1 } else { 2 },
        max: u32::from(max),
    }
}

/// The layout for strings whose length takes this many bytes.
#[tactic(auto, using(crate::specs::LayoutLaws::size_is))]
#[inline(always)]
fn blob_layout(size: u16) -> Layout
    requires { is_size size ≡ true }
    ensures { result ≡ blob_layout size }
{
    let max = match size {
        1 => 0xff,
        2 => 0xffff,
        3 => 0xff_ffff,
        _ => 0xffff_ffff,
    };
    Layout::Counted {
        prefix: size as u8,
        max,
    }
}
