//! The numbers that are stored for integers, years, bits, ENUMs and SETs.
ghost use Rattle.std.specs.Prelude.{◌≡◌, ◌≤◌, ◌-◌, ◌*◌, ◌^◌};
ghost use Rattle.binlog_row_writing.specs.Numbers.{integer_number, signed_number, float_number, double_number, year_number, bit_number, enum_number, set_number};

use crate::new_value::NewValue;
use crate::row_write_error::RowWriteErrorKind;

/// From which number on the numbers of this many bytes, 1 to 8, are negative ones in two's complement.
fn least_negative(size: u8) -> u64
    requires low { 1 ≤ size }
    requires high { size ≤ 8 }
    ensures least { result ≡ 2 ^ (8 * size - 1) }
    ensures some { 1 ≤ result }
    ensures small { result ≤ 2 ^ 63 }
{
    match size {
        1 => 1 << 7,
        2 => 1 << 15,
        3 => 1 << 23,
        4 => 1 << 31,
        5 => 1 << 39,
        6 => 1 << 47,
        7 => 1 << 55,
        _ => 1 << 63,
    }
}

/// The number of this many bytes, 1 to 8, that is a signed number in two's complement.
fn signed_number(size: u8, number: i64) -> Result<u64, RowWriteErrorKind>
    requires low { 1 ≤ size }
    requires high { size ≤ 8 }
    ensures { result ≡ signed_number size number }
{
    let least = least_negative(size);
    if number >= 0 {
        let above = number as u64;
        if above < least {
            return Ok(above);
        }
        return Err(RowWriteErrorKind::OutOfRange);
    }
    let below = (-1 - number) as u64;
    if below < least {
        return Ok(least - 1 - below + least);
    }
    Err(RowWriteErrorKind::OutOfRange)
}

/// The number of an integer column of this many bytes, 1 to 8.
pub(crate) fn integer_number(size: u8, value: NewValue<'_>) -> Result<u64, RowWriteErrorKind>
    requires low { 1 ≤ size }
    requires high { size ≤ 8 }
    ensures { result ≡ integer_number size value.entry }
{
    match value {
        NewValue::Unsigned(number) => Ok(number),
        NewValue::Signed(number) => signed_number(size, number),
        _ => Err(RowWriteErrorKind::WrongType),
    }
}

/// The number of a FLOAT.
pub(crate) fn float_number(value: NewValue<'_>) -> Result<u64, RowWriteErrorKind>
    ensures { result ≡ float_number value.entry }
{
    match value {
        NewValue::Float(bits) => Ok(u64::from(bits)),
        _ => Err(RowWriteErrorKind::WrongType),
    }
}

/// The number of a DOUBLE.
pub(crate) fn double_number(value: NewValue<'_>) -> Result<u64, RowWriteErrorKind>
    ensures { result ≡ double_number value.entry }
{
    match value {
        NewValue::Double(bits) => Ok(bits),
        _ => Err(RowWriteErrorKind::WrongType),
    }
}

/// The number of a YEAR.
pub(crate) fn year_number(value: NewValue<'_>) -> Result<u64, RowWriteErrorKind>
    ensures { result ≡ year_number value.entry }
{
    match value {
        NewValue::Year(0) => Ok(0),
        NewValue::Year(year) => {
            if year >= 1901 {
                Ok(u64::from(year) - 1900)
            } else {
                Err(RowWriteErrorKind::OutOfRange)
            }
        }
        _ => Err(RowWriteErrorKind::WrongType),
    }
}

/// The number of a BIT.
pub(crate) fn bit_number(value: NewValue<'_>) -> Result<u64, RowWriteErrorKind>
    ensures { result ≡ bit_number value.entry }
{
    match value {
        NewValue::Bit(bits) => Ok(bits),
        _ => Err(RowWriteErrorKind::WrongType),
    }
}

/// The number of an ENUM.
pub(crate) fn enum_number(value: NewValue<'_>) -> Result<u64, RowWriteErrorKind>
    ensures { result ≡ enum_number value.entry }
{
    match value {
        NewValue::Enum(index) => Ok(index),
        _ => Err(RowWriteErrorKind::WrongType),
    }
}

/// The number of a SET.
pub(crate) fn set_number(value: NewValue<'_>) -> Result<u64, RowWriteErrorKind>
    ensures { result ≡ set_number value.entry }
{
    match value {
        NewValue::Set(members) => Ok(members),
        _ => Err(RowWriteErrorKind::WrongType),
    }
}
