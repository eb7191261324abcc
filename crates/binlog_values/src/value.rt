//! The values of columns.
ghost use Rattle.std.specs.Prelude.{◌≡◌, IfOk};
ghost use Rattle.binlog_wire.specs.Reading.{Gives};
ghost use Rattle.binlog_columns.specs.Columns.{typed_of};
ghost use Rattle.binlog_columns.specs.Decoders.{layout_in};
ghost use Rattle.binlog_columns.specs.Layouts.{layout_of, IsLayout};
ghost use Rattle.binlog_values.specs.Contents.{content_in};
ghost use Rattle.binlog_values.specs.Decoding.{DecodesBy};
ghost use Rattle.binlog_values.specs.Faults.{Decodes};
ghost use Rattle.binlog_values.specs.Values.{answer_content, decoded_content, meaning_of, meaning_in};

use crate::decimal::Decimal;
use crate::decoding::{
    read_bits, read_bytes, read_compressed, read_date, read_datetime, read_datetime2, read_decimal,
    read_double, read_enum, read_float, read_geometry, read_integer, read_json, read_set,
    read_time, read_time2, read_timestamp, read_timestamp2, read_vector, read_year,
};
use crate::fault::ValueFault;
use crate::floats::{Double, Float};
use crate::numbers::{Bit, Integer};
use crate::times::{Date, DateTime, DateTime2, Time, Time2, Timestamp2, Year};
use binlog_columns::{Column, Decoder};
use binlog_wire::{Error, ParseBuf};

/// The value of a column. It borrows its bytes and allocates nothing.
#[derive(Clone, Copy, Debug, PartialEq, Eq, Hash)]
pub enum Value<'a> {
    /// NULL: the only value of a column of type NULL, which servers don't write.
    Null,
    /// An integer.
    Integer(Integer),
    /// A floating-point number of four bytes.
    Float(Float),
    /// A floating-point number of eight bytes.
    Double(Double),
    /// A decimal number.
    Decimal(Decimal<'a>),
    /// A date.
    Date(Date),
    /// A year.
    Year(Year),
    /// Seconds since 1970 UTC, below 2^32; 0 is the zero timestamp.
    Timestamp(u64),
    /// A time without a fraction, as decimal digits.
    Time(Time),
    /// A date and a time without a fraction, as decimal digits.
    DateTime(DateTime),
    /// Seconds since 1970 UTC with a fraction.
    Timestamp2(Timestamp2),
    /// A date and a time with a fraction.
    DateTime2(DateTime2),
    /// A time with a fraction.
    Time2(Time2),
    /// Bits.
    Bit(Bit),
    /// The index of an ENUM's member, from 1, below 2^16; 0 is the empty string of an invalid value. It may be above
    /// the number of members.
    Enum(u64),
    /// The members of a SET: bit 0 is the first member. Bits beyond the members may be set.
    Set(u64),
    /// The bytes of a string; for a BINARY column without its trailing zeros.
    Bytes(&'a [u8]),
    /// A document in MySQL's binary JSON; not checked.
    Json(&'a [u8]),
    /// A geometry: its SRID in four bytes, and then WKB; not checked.
    Geometry(&'a [u8]),
    /// Floating-point numbers of four bytes each, little-endian.
    Vector(&'a [u8]),
    /// A compressed string of MariaDB, as it is stored; not checked.
    Compressed(&'a [u8]),
}

impl<'a> Value<'a> {
    /// Takes a value of this column from the start of `buf`.
    ///
    /// # Errors
    ///
    /// - [`Error::EndOfBody`] if the bytes end within the value.
    /// - [`Error::InvalidData`] if the value is complete and out of its range.
    #[tactic(auto, using(crate::specs::Faults::refused_as))]
    #[inline(always)]
    pub fn read(column: &Column, buf: &mut ParseBuf<'a>) -> Result<Self, Error>
        ensures content { Gives ⊥ buf.new (answer_content result) ((content_in (layout_of (typed_of column.now))).reads buf.old) }
        ensures meaning { IfOk result (λ value. meaning_of value ≡ meaning_in (typed_of column.now)) }
    {
        match Value::decode(column, buf) {
            Ok(value) => Ok(value),
            Err(fault) => Err(fault.into()),
        }
    }

    /// Takes a value of this column from the start of `buf`, as [`Value::read`] does.
    ///
    /// # Errors
    ///
    /// - [`ValueFault::EndOfBody`] if the bytes end within the value.
    /// - [`ValueFault::OutOfRange`] if the value is complete and out of its range.
    #[tactic(auto, using(crate::specs::DecoderLaws::decoder_means))]
    #[inline(always)]
    pub fn decode(column: &Column, buf: &mut ParseBuf<'a>) -> Result<Self, ValueFault>
        ensures content { Decodes buf.new (decoded_content result) ((content_in (layout_of (typed_of column.now))).reads buf.old) }
        ensures meaning { IfOk result (λ value. meaning_of value ≡ meaning_in (typed_of column.now)) }
    {
        Value::decode_by(column.decoder(), buf)
    }

    /// Takes the value that a decoder reads from the start of `buf`.
    #[inline(always)]
    fn decode_by(decoder: Decoder, buf: &mut ParseBuf<'a>) -> Result<Self, ValueFault>
        requires { IsLayout (layout_in decoder) }
        ensures { DecodesBy decoder buf.old result buf.new }
    {
        match decoder {
            Decoder::Nothing => Ok(Value::Null),
            Decoder::Integer(size) => read_integer(size, buf),
            Decoder::Float => read_float(buf),
            Decoder::Double => read_double(buf),
            Decoder::Date => read_date(buf),
            Decoder::Year => read_year(buf),
            Decoder::Timestamp => read_timestamp(buf),
            Decoder::Time => read_time(buf),
            Decoder::DateTime => read_datetime(buf),
            Decoder::Enum(size) => read_enum(size, buf),
            Decoder::Set(size) => read_set(size, buf),
            Decoder::Bits(count) => read_bits(count, buf),
            Decoder::Timestamp2(digits) => read_timestamp2(digits, buf),
            Decoder::DateTime2(digits) => read_datetime2(digits, buf),
            Decoder::Time2(digits) => read_time2(digits, buf),
            Decoder::Decimal { precision, scale } => read_decimal(precision, scale, buf),
            Decoder::Bytes { prefix, max } => read_bytes(prefix, max, buf),
            Decoder::Json { prefix, max } => read_json(prefix, max, buf),
            Decoder::Geometry { prefix, max } => read_geometry(prefix, max, buf),
            Decoder::Compressed { prefix, max } => read_compressed(prefix, max, buf),
            Decoder::Vector(prefix) => read_vector(prefix, buf),
        }
    }
}
