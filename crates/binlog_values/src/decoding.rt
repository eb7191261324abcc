//! Values, each of the kind that a decoder reads.
ghost use Rattle.std.specs.Prelude.{◌≤◌};
ghost use Rattle.binlog_columns.specs.declared.decoder.Decoder.TheVariants as decoders;
ghost use Rattle.binlog_values.specs.Decoding.{DecodesBy};

use crate::content;
use crate::decimal::Decimal;
use crate::fault::ValueFault;
use crate::floats::{Double, Float};
use crate::numbers::{Bit, Integer};
use crate::times::{Date, DateTime, DateTime2, Time, Time2, Timestamp2, Year};
use crate::value::Value;
use binlog_wire::ParseBuf;

/// Takes an integer of this many bytes, 1 to 8, from the start of `buf`.
#[inline(always)]
pub(crate) fn read_integer<'a>(size: u8, buf: &mut ParseBuf<'_>) -> Result<Value<'a>, ValueFault>
    requires some { 1 ≤ size }
    requires most { size ≤ 8 }
    ensures { DecodesBy (decoders.Integer size) buf.old result buf.new }
{
    let bits = content::read_number(usize::from(size), buf)?;
    Ok(Value::Integer(Integer { bits, size }))
}

/// Takes a floating-point number of four bytes from the start of `buf`.
#[inline(always)]
pub(crate) fn read_float<'a>(buf: &mut ParseBuf<'_>) -> Result<Value<'a>, ValueFault>
    ensures { DecodesBy decoders.Float buf.old result buf.new }
{
    let bits = content::read_number_outlined(4, buf)?;
    Ok(Value::Float(Float { bits }))
}

/// Takes a floating-point number of eight bytes from the start of `buf`.
#[inline(always)]
pub(crate) fn read_double<'a>(buf: &mut ParseBuf<'_>) -> Result<Value<'a>, ValueFault>
    ensures { DecodesBy decoders.Double buf.old result buf.new }
{
    let bits = content::read_number(8, buf)?;
    Ok(Value::Double(Double { bits }))
}

/// Takes a date from the start of `buf`.
#[inline(always)]
pub(crate) fn read_date<'a>(buf: &mut ParseBuf<'_>) -> Result<Value<'a>, ValueFault>
    ensures { DecodesBy decoders.Date buf.old result buf.new }
{
    let bits = content::read_number(3, buf)?;
    Ok(Value::Date(Date { bits }))
}

/// Takes a year from the start of `buf`.
#[inline(always)]
pub(crate) fn read_year<'a>(buf: &mut ParseBuf<'_>) -> Result<Value<'a>, ValueFault>
    ensures { DecodesBy decoders.Year buf.old result buf.new }
{
    let byte = content::read_number_outlined(1, buf)?;
    Ok(Value::Year(Year { byte }))
}

/// Takes seconds without a fraction from the start of `buf`.
#[inline(always)]
pub(crate) fn read_timestamp<'a>(buf: &mut ParseBuf<'_>) -> Result<Value<'a>, ValueFault>
    ensures { DecodesBy decoders.Timestamp buf.old result buf.new }
{
    let seconds = content::read_number_outlined(4, buf)?;
    Ok(Value::Timestamp(seconds))
}

/// Takes a time without a fraction from the start of `buf`.
#[inline(always)]
pub(crate) fn read_time<'a>(buf: &mut ParseBuf<'_>) -> Result<Value<'a>, ValueFault>
    ensures { DecodesBy decoders.Time buf.old result buf.new }
{
    let bits = content::read_number_outlined(3, buf)?;
    Ok(Value::Time(Time { bits }))
}

/// Takes a date and a time without a fraction from the start of `buf`.
#[inline(always)]
pub(crate) fn read_datetime<'a>(buf: &mut ParseBuf<'_>) -> Result<Value<'a>, ValueFault>
    ensures { DecodesBy decoders.DateTime buf.old result buf.new }
{
    let digits = content::read_number_outlined(8, buf)?;
    Ok(Value::DateTime(DateTime { digits }))
}

/// Takes the index of an ENUM's member, of this many bytes, 1 to 8, from the start of `buf`.
#[inline(always)]
pub(crate) fn read_enum<'a>(size: u8, buf: &mut ParseBuf<'_>) -> Result<Value<'a>, ValueFault>
    requires some { 1 ≤ size }
    requires most { size ≤ 8 }
    ensures { DecodesBy (decoders.Enum size) buf.old result buf.new }
{
    let index = content::read_number(usize::from(size), buf)?;
    Ok(Value::Enum(index))
}

/// Takes the members of a SET, of this many bytes, 1 to 8, from the start of `buf`.
#[inline(always)]
pub(crate) fn read_set<'a>(size: u8, buf: &mut ParseBuf<'_>) -> Result<Value<'a>, ValueFault>
    requires some { 1 ≤ size }
    requires most { size ≤ 8 }
    ensures { DecodesBy (decoders.Set size) buf.old result buf.new }
{
    let members = content::read_number_outlined(usize::from(size), buf)?;
    Ok(Value::Set(members))
}

/// Takes this many bits, 1 to 64, from the start of `buf`.
#[inline(always)]
pub(crate) fn read_bits<'a>(count: u8, buf: &mut ParseBuf<'_>) -> Result<Value<'a>, ValueFault>
    requires some { 1 ≤ count }
    requires most { count ≤ 64 }
    ensures { DecodesBy (decoders.Bits count) buf.old result buf.new }
{
    let bits = content::read_bits(count, buf)?;
    Ok(Value::Bit(Bit { bits, count }))
}

/// Takes seconds and a fraction of this many decimal digits from the start of `buf`.
#[inline(always)]
pub(crate) fn read_timestamp2<'a>(
    digits: u8,
    buf: &mut ParseBuf<'_>,
) -> Result<Value<'a>, ValueFault>
    requires { digits ≤ 6 }
    ensures { DecodesBy (decoders.Timestamp2 digits) buf.old result buf.new }
{
    let number = content::read_timestamp2(digits, buf)?;
    Ok(Value::Timestamp2(Timestamp2::new(number, digits)))
}

/// Takes a date, a time and a fraction of this many decimal digits from the start of `buf`.
#[inline(always)]
pub(crate) fn read_datetime2<'a>(
    digits: u8,
    buf: &mut ParseBuf<'_>,
) -> Result<Value<'a>, ValueFault>
    requires { digits ≤ 6 }
    ensures { DecodesBy (decoders.DateTime2 digits) buf.old result buf.new }
{
    let number = content::read_datetime2(digits, buf)?;
    Ok(Value::DateTime2(DateTime2::new(number, digits)))
}

/// Takes a time and a fraction of this many decimal digits from the start of `buf`.
#[inline(always)]
pub(crate) fn read_time2<'a>(digits: u8, buf: &mut ParseBuf<'_>) -> Result<Value<'a>, ValueFault>
    requires { digits ≤ 6 }
    ensures { DecodesBy (decoders.Time2 digits) buf.old result buf.new }
{
    let number = content::read_time2(digits, buf)?;
    Ok(Value::Time2(Time2::new(number, digits)))
}

/// Takes a decimal number from the start of `buf`.
#[inline(always)]
pub(crate) fn read_decimal<'a>(
    precision: u8,
    scale: u8,
    buf: &mut ParseBuf<'a>,
) -> Result<Value<'a>, ValueFault>
    requires some { 1 ≤ precision }
    requires most { precision ≤ 65 }
    requires within { scale ≤ precision }
    ensures { DecodesBy (decoders.Decimal precision scale) buf.old result buf.new }
{
    let bytes = content::read_decimal(precision, scale, buf)?;
    Ok(Value::Decimal(Decimal {
        bytes,
        precision,
        scale,
    }))
}

/// Takes the bytes of a string, at most `max`, after their length in `prefix` bytes, from the start of `buf`.
#[inline(always)]
pub(crate) fn read_bytes<'a>(
    prefix: u8,
    max: u32,
    buf: &mut ParseBuf<'a>,
) -> Result<Value<'a>, ValueFault>
    requires some { 1 ≤ prefix }
    requires most { prefix ≤ 4 }
    ensures { DecodesBy (decoders.Bytes prefix max) buf.old result buf.new }
{
    let bytes = content::read_counted(usize::from(prefix), u64::from(max), buf)?;
    Ok(Value::Bytes(bytes))
}

/// Takes the bytes of a document, at most `max`, after their length in `prefix` bytes, from the start of `buf`.
#[inline(always)]
pub(crate) fn read_json<'a>(
    prefix: u8,
    max: u32,
    buf: &mut ParseBuf<'a>,
) -> Result<Value<'a>, ValueFault>
    requires some { 1 ≤ prefix }
    requires most { prefix ≤ 4 }
    ensures { DecodesBy (decoders.Json prefix max) buf.old result buf.new }
{
    let bytes = content::read_counted_outlined(usize::from(prefix), u64::from(max), buf)?;
    Ok(Value::Json(bytes))
}

/// Takes the bytes of a geometry, at most `max`, after their length in `prefix` bytes, from the start of `buf`.
#[inline(always)]
pub(crate) fn read_geometry<'a>(
    prefix: u8,
    max: u32,
    buf: &mut ParseBuf<'a>,
) -> Result<Value<'a>, ValueFault>
    requires some { 1 ≤ prefix }
    requires most { prefix ≤ 4 }
    ensures { DecodesBy (decoders.Geometry prefix max) buf.old result buf.new }
{
    let bytes = content::read_counted_outlined(usize::from(prefix), u64::from(max), buf)?;
    Ok(Value::Geometry(bytes))
}

/// Takes the bytes of a compressed string, at most `max`, after their length in `prefix` bytes, from the start of `buf`.
#[inline(always)]
pub(crate) fn read_compressed<'a>(
    prefix: u8,
    max: u32,
    buf: &mut ParseBuf<'a>,
) -> Result<Value<'a>, ValueFault>
    requires some { 1 ≤ prefix }
    requires most { prefix ≤ 4 }
    ensures { DecodesBy (decoders.Compressed prefix max) buf.old result buf.new }
{
    let bytes = content::read_counted_outlined(usize::from(prefix), u64::from(max), buf)?;
    Ok(Value::Compressed(bytes))
}

/// Takes numbers of four bytes each, after their length in `prefix` bytes, from the start of `buf`.
#[inline(always)]
pub(crate) fn read_vector<'a>(prefix: u8, buf: &mut ParseBuf<'a>) -> Result<Value<'a>, ValueFault>
    requires some { 1 ≤ prefix }
    requires most { prefix ≤ 4 }
    ensures { DecodesBy (decoders.Vector prefix) buf.old result buf.new }
{
    let bytes = content::read_vector(usize::from(prefix), buf)?;
    Ok(Value::Vector(bytes))
}
