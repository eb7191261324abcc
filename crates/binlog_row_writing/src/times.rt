//! The numbers that are stored for dates and times.
ghost use Rattle.std.specs.Prelude.{◌≡◌, ◌≤◌, ◌<◌, ◌+◌, ◌-◌, ◌*◌, ◌/◌, ◌^◌, ◌==◌};
ghost use Rattle.binlog_values.specs.Contents.{fraction_len};
ghost use Rattle.binlog_row_writing.specs.Times.{is_fraction, fraction_number, with_fraction, is_date, date_bits, date_number, is_digital, time_digits, time_bits, time_number, datetime_digits, datetime_number, timestamp_number, timestamp2_number, is_clock, clock_bits, datetime2_bits, is_datetime2_date, datetime2_number, time2_number, time2_bits};

use crate::new_value::{NewDate, NewTime, NewValue};
use crate::row_write_error::RowWriteErrorKind;

/// The number of bytes of a fraction of this many decimal digits, 0 to 6.
fn fraction_len(digits: u8) -> usize
    requires { digits ≤ 6 }
    ensures len { result ≡ fraction_len digits }
    ensures small { result ≤ 3 }
{
    (usize::from(digits) + 1) / 2
}

/// 256 to the power of `len`, at most 3.
fn pow_256(len: usize) -> u64
    requires { len ≤ 3 }
    ensures power { result ≡ 256 ^ len }
    ensures high { result ≤ 2 ^ 24 }
{
    match len {
        0 => 1,
        1 => 256,
        2 => 65_536,
        _ => 16_777_216,
    }
}

/// The unit of the last of so many decimal digits of a fraction, 0 to 6, in microseconds.
fn last_unit(digits: u8) -> u32
    requires { digits ≤ 6 }
    ensures unit { result ≡ 10 ^ (6 - digits) }
    ensures some { 1 ≤ result }
{
    match digits {
        0 => 1_000_000,
        1 => 100_000,
        2 => 10_000,
        3 => 1_000,
        4 => 100,
        5 => 10,
        _ => 1,
    }
}

/// Whether microseconds can be stored as a fraction of this many decimal digits.
fn is_fraction(digits: u8, microseconds: u32) -> bool
    requires { digits ≤ 6 }
    ensures { result ≡ is_fraction digits microseconds }
{
    microseconds < 1_000_000 && microseconds % last_unit(digits) == 0
}

/// The number that is stored for microseconds.
fn fraction_number(digits: u8, microseconds: u32) -> u64
    requires digits { digits ≤ 6 }
    requires below { microseconds < 1000000 }
    ensures number { result ≡ fraction_number digits microseconds }
    ensures small { result < 2 ^ 24 }
{
    let number = u64::from(microseconds);
    match fraction_len(digits) {
        0 => number / 1_000_000,
        1 => number / 10_000,
        2 => number / 100,
        _ => number,
    }
}

/// A number, with a fraction behind it.
fn with_fraction(digits: u8, number: u64, microseconds: u32) -> u64
    requires digits { digits ≤ 6 }
    requires below { microseconds < 1000000 }
    requires high { number < 2 ^ 40 }
    ensures { result ≡ with_fraction digits number microseconds }
{
    number * pow_256(fraction_len(digits)) + fraction_number(digits, microseconds)
}

/// The number of a DATE.
pub(crate) fn date_number(value: NewValue<'_>) -> Result<u64, RowWriteErrorKind>
    ensures { result ≡ date_number value.entry }
{
    let NewValue::Date(date) = value else {
        return Err(RowWriteErrorKind::WrongType);
    };
    if date.month < 16 && date.day < 32 {
        Ok(u64::from(date.year) * 512 + u64::from(date.month) * 32 + u64::from(date.day))
    } else {
        Err(RowWriteErrorKind::OutOfRange)
    }
}

/// Whether the minute and the second have two decimal digits, and there are no microseconds.
fn is_digital(time: NewTime) -> bool
    ensures { result ≡ is_digital time }
{
    time.minute < 100 && time.second < 100 && time.microsecond == 0
}

/// The decimal digits of a time: hours, minutes, seconds.
fn time_digits(time: NewTime) -> u64
    ensures digits { result ≡ time_digits time }
    ensures small { result < 2 ^ 30 }
{
    u64::from(time.hour) * 10_000 + u64::from(time.minute) * 100 + u64::from(time.second)
}

/// The two's complement of a time in three bytes, by its decimal digits.
fn time_bits(is_negative: bool, digits: u64) -> Result<u64, RowWriteErrorKind>
    ensures { result ≡ time_bits is_negative digits }
{
    if !is_negative && digits < 1 << 23 {
        return Ok(digits);
    }
    if is_negative && 1 <= digits && digits <= 1 << 23 {
        return Ok((1 << 24) - digits);
    }
    Err(RowWriteErrorKind::OutOfRange)
}

/// The number of a TIME.
pub(crate) fn time_number(value: NewValue<'_>) -> Result<u64, RowWriteErrorKind>
    ensures { result ≡ time_number value.entry }
{
    let NewValue::Time { is_negative, time } = value else {
        return Err(RowWriteErrorKind::WrongType);
    };
    if is_digital(time) {
        time_bits(is_negative, time_digits(time))
    } else {
        Err(RowWriteErrorKind::OutOfRange)
    }
}

/// The decimal digits of a date and a time: the year, and two digits for each other part.
fn datetime_digits(date: NewDate, time: NewTime) -> u64
    ensures { result ≡ datetime_digits date time }
{
    let day = u64::from(date.year) * 10_000 + u64::from(date.month) * 100 + u64::from(date.day);
    day * 1_000_000 + time_digits(time)
}

/// The number of a DATETIME.
pub(crate) fn datetime_number(value: NewValue<'_>) -> Result<u64, RowWriteErrorKind>
    ensures { result ≡ datetime_number value.entry }
{
    let NewValue::DateTime { date, time } = value else {
        return Err(RowWriteErrorKind::WrongType);
    };
    if date.month < 100 && date.day < 100 && time.hour < 100 && is_digital(time) {
        Ok(datetime_digits(date, time))
    } else {
        Err(RowWriteErrorKind::OutOfRange)
    }
}

/// The number of a TIMESTAMP.
pub(crate) fn timestamp_number(value: NewValue<'_>) -> Result<u64, RowWriteErrorKind>
    ensures { result ≡ timestamp_number value.entry }
{
    let NewValue::Timestamp {
        seconds,
        microseconds,
    } = value
    else {
        return Err(RowWriteErrorKind::WrongType);
    };
    if microseconds == 0 {
        Ok(seconds)
    } else {
        Err(RowWriteErrorKind::OutOfRange)
    }
}

/// The number of a TIMESTAMP2 with a fraction of this many digits.
pub(crate) fn timestamp2_number(digits: u8, value: NewValue<'_>) -> Result<u64, RowWriteErrorKind>
    requires { digits ≤ 6 }
    ensures { result ≡ timestamp2_number digits value.entry }
{
    let NewValue::Timestamp {
        seconds,
        microseconds,
    } = value
    else {
        return Err(RowWriteErrorKind::WrongType);
    };
    if seconds < 1 << 32 && is_fraction(digits, microseconds) {
        Ok(with_fraction(digits, seconds, microseconds))
    } else {
        Err(RowWriteErrorKind::OutOfRange)
    }
}

/// Whether the minute and the second fit six bits each, and the microseconds a fraction of this many digits.
fn is_clock(digits: u8, time: NewTime) -> bool
    requires { digits ≤ 6 }
    ensures { result ≡ is_clock digits time }
{
    time.minute < 64 && time.second < 64 && is_fraction(digits, time.microsecond)
}

/// A time in bits: the hour, six bits for the minute, and six for the second.
fn clock_bits(time: NewTime) -> u64
    ensures bits { result ≡ clock_bits time }
    ensures small { result < 2 ^ 29 }
{
    u64::from(time.hour) * (1 << 12) + u64::from(time.minute) * (1 << 6) + u64::from(time.second)
}

/// Whether the date and the hour fit their bits of a DATETIME2.
fn is_datetime2_date(date: NewDate, hour: u16) -> bool
    ensures { result ≡ is_datetime2_date date hour }
{
    date.month < 13
        && date.day < 32
        && hour < 32
        && 13 * u32::from(date.year) + u32::from(date.month) < 1 << 17
}

/// A date and a time in bits: the sign, 13 times the year plus the month, five bits for the day, and those of the time.
fn datetime2_bits(date: NewDate, time: NewTime) -> u64
    requires month { 13 * date.year + date.month < 2 ^ 17 }
    requires day { date.day < 32 }
    requires hour { time.hour < 32 }
    requires minute { time.minute < 64 }
    requires second { time.second < 64 }
    ensures bits { result ≡ datetime2_bits date time }
    ensures small { result < 2 ^ 40 }
{
    let month = 13 * u64::from(date.year) + u64::from(date.month);
    (1 << 39) + month * (1 << 22) + u64::from(date.day) * (1 << 17) + clock_bits(time)
}

/// The number of a DATETIME2 with a fraction of this many digits.
pub(crate) fn datetime2_number(digits: u8, value: NewValue<'_>) -> Result<u64, RowWriteErrorKind>
    requires { digits ≤ 6 }
    ensures { result ≡ datetime2_number digits value.entry }
{
    let NewValue::DateTime { date, time } = value else {
        return Err(RowWriteErrorKind::WrongType);
    };
    if is_datetime2_date(date, time.hour) && is_clock(digits, time) {
        let bits = datetime2_bits(date, time);
        Ok(with_fraction(digits, bits, time.microsecond))
    } else {
        Err(RowWriteErrorKind::OutOfRange)
    }
}

/// The number of a TIME2, by its distance from zero: the distance is taken over all bytes, so that the fraction of a
/// negative time borrows from the seconds. Zero has no sign.
fn time2_bits(digits: u8, is_negative: bool, distance: u64) -> Result<u64, RowWriteErrorKind>
    requires digits { digits ≤ 6 }
    requires small { distance < 2 ^ 22 * 256 ^ fraction_len digits }
    ensures { result ≡ time2_bits digits is_negative distance }
{
    let zero = (1 << 23) * pow_256(fraction_len(digits));
    match (is_negative, distance) {
        (false, _) => Ok(zero + distance),
        (true, 0) => Err(RowWriteErrorKind::OutOfRange),
        (true, _) => Ok(zero - distance),
    }
}

/// The number of a TIME2 with a fraction of this many digits.
#[tactic(auto, using(crate::specs::TimeLaws::distance_small))]
pub(crate) fn time2_number(digits: u8, value: NewValue<'_>) -> Result<u64, RowWriteErrorKind>
    requires { digits ≤ 6 }
    ensures { result ≡ time2_number digits value.entry }
{
    let NewValue::Time { is_negative, time } = value else {
        return Err(RowWriteErrorKind::WrongType);
    };
    if time.hour < 1024 && is_clock(digits, time) {
        let distance = with_fraction(digits, clock_bits(time), time.microsecond);
        time2_bits(digits, is_negative, distance)
    } else {
        Err(RowWriteErrorKind::OutOfRange)
    }
}
