//! Dates and times. No calendar is checked: a value is what its bits say.
ghost use Rattle.std.specs.Prelude.{◌≡◌, ◌≤◌, ◌<◌, ◌+◌, ◌-◌, ◌*◌, ◌/◌, ◌%◌, ◌^◌, nat_le, nat_lt};
ghost use Rattle.binlog_values.specs.Contents.{fraction_len, fraction_of, before_fraction, time2_zero, time2_distance};
ghost use Rattle.binlog_values.specs.Times.{microseconds_of, date_time_of, time_distance, year_of};

use crate::content::{before_fraction, fraction_len, time2_distance, time2_zero};

/// The value of a DATE column.
#[derive(Clone, Copy, Debug, PartialEq, Eq, Hash)]
pub struct Date {
    pub(crate) bits: u64,
}

impl Date {
    /// The year, 0 to 32,767 in three bytes; servers write 0 to 9,999.
    #[inline]
    pub fn year(&self) -> u64
        ensures { result ≡ self.now.bits / 512 }
    {
        self.bits / 512
    }

    /// The month, 0 to 15; servers write 0 to 12.
    #[inline]
    pub fn month(&self) -> u8
        ensures { result ≡ self.now.bits / 32 % 16 }
    {
        (self.bits / 32 % 16) as u8
    }

    /// The day, 0 to 31.
    #[inline]
    pub fn day(&self) -> u8
        ensures { result ≡ self.now.bits % 32 }
    {
        (self.bits % 32) as u8
    }
}

/// The value of a YEAR column.
#[derive(Clone, Copy, Debug, PartialEq, Eq, Hash)]
pub struct Year {
    // Eight bytes, as the numbers of other values have, so that no byte of it lies beside the kind of a `Value`.
    pub(crate) byte: u64,
    ghost fits: { byte < 2 ^ 8 },
}

impl Year {
    /// The year: 0, or 1901 to 2155.
    #[inline]
    pub fn year(&self) -> u16
        ensures { result ≡ year_of self.now.byte }
    {
        if self.byte == 0 {
            0
        } else {
            1_900 + self.byte as u16
        }
    }
}

/// The value of a TIME column without a fraction, as decimal digits.
#[derive(Clone, Copy, Debug, PartialEq, Eq, Hash)]
pub struct Time {
    pub(crate) bits: u64,
}

impl Time {
    /// Whether the time is negative.
    #[inline]
    pub fn is_negative(&self) -> bool
        ensures { result ≡ nat_le (2 ^ 23) self.now.bits }
    {
        self.bits >= 1 << 23
    }

    /// The time without its sign: six or seven decimal digits, hours, minutes and seconds.
    #[inline]
    fn distance(&self) -> u64
        ensures { result ≡ time_distance self.now.bits }
    {
        if self.is_negative() {
            (1u64 << 24).saturating_sub(self.bits)
        } else {
            self.bits
        }
    }

    /// The hour, at most 838.
    #[inline]
    pub fn hour(&self) -> u64
        ensures { result ≡ time_distance self.now.bits / 10000 }
    {
        self.distance() / 10_000
    }

    /// The minute, 0 to 99; servers write at most 59.
    #[inline]
    pub fn minute(&self) -> u8
        ensures { result ≡ time_distance self.now.bits / 100 % 100 }
    {
        (self.distance() / 100 % 100) as u8
    }

    /// The second, 0 to 99; servers write at most 59.
    #[inline]
    pub fn second(&self) -> u8
        ensures { result ≡ time_distance self.now.bits % 100 }
    {
        (self.distance() % 100) as u8
    }
}

/// The value of a DATETIME column without a fraction, as decimal digits.
#[derive(Clone, Copy, Debug, PartialEq, Eq, Hash)]
pub struct DateTime {
    pub(crate) digits: u64,
}

impl DateTime {
    /// The year, at most 1,844,674,407; servers write 0 to 9,999.
    #[inline]
    pub fn year(&self) -> u64
        ensures { result ≡ self.now.digits / 10000000000 }
    {
        self.digits / 10_000_000_000
    }

    /// The month, 0 to 99; servers write at most 12.
    #[inline]
    pub fn month(&self) -> u8
        ensures { result ≡ self.now.digits / 100000000 % 100 }
    {
        (self.digits / 100_000_000 % 100) as u8
    }

    /// The day, 0 to 99; servers write at most 31.
    #[inline]
    pub fn day(&self) -> u8
        ensures { result ≡ self.now.digits / 1000000 % 100 }
    {
        (self.digits / 1_000_000 % 100) as u8
    }

    /// The hour, 0 to 99; servers write at most 23.
    #[inline]
    pub fn hour(&self) -> u8
        ensures { result ≡ self.now.digits / 10000 % 100 }
    {
        (self.digits / 10_000 % 100) as u8
    }

    /// The minute, 0 to 99; servers write at most 59.
    #[inline]
    pub fn minute(&self) -> u8
        ensures { result ≡ self.now.digits / 100 % 100 }
    {
        (self.digits / 100 % 100) as u8
    }

    /// The second, 0 to 99; servers write at most 59.
    #[inline]
    pub fn second(&self) -> u8
        ensures { result ≡ self.now.digits % 100 }
    {
        (self.digits % 100) as u8
    }
}

/// The microseconds of a fraction in the last `len` bytes of a number, at most 3.
#[inline]
fn microseconds_in(len: usize, number: u64) -> u64
    requires { len ≤ 3 }
    ensures { result ≡ number % 256 ^ len * 100 ^ (3 - len) }
{
    match len {
        0 => 0,
        1 => number % 256 * 10_000,
        2 => number % 65_536 * 100,
        _ => number % 16_777_216,
    }
}

/// The microseconds of the fraction at the end of a number.
#[inline]
fn microseconds(digits: u8, number: u64) -> u64
    requires { digits ≤ 6 }
    ensures { result ≡ microseconds_of digits number }
{
    microseconds_in(fraction_len(digits), number)
}

/// The value of a TIMESTAMP column with a fraction.
#[derive(Clone, Copy, Debug, PartialEq, Eq, Hash)]
pub struct Timestamp2 {
    pub(crate) number: u64,
    pub(crate) digits: u8,
    ghost digits_small: { digits ≤ 6 },
}

impl Timestamp2 {
    /// The value of this number, with a fraction of this many decimal digits.
    #[inline]
    pub(crate) fn new(number: u64, digits: u8) -> Self
        requires { digits ≤ 6 }
        ensures number { result.number ≡ number }
        ensures digits { result.digits ≡ digits }
    {
        Timestamp2 { number, digits }
    }

    /// The seconds since 1970 UTC; 0, without a fraction, for the zero timestamp.
    #[inline]
    pub fn seconds(&self) -> u64
        ensures { result ≡ before_fraction self.now.digits self.now.number }
    {
        before_fraction(self.digits, self.number)
    }

    /// The microseconds, below a million.
    #[inline]
    pub fn microseconds(&self) -> u64
        ensures { result ≡ microseconds_of self.now.digits self.now.number }
    {
        microseconds(self.digits, self.number)
    }

    /// The number of decimal digits of the column's fraction, 0 to 6.
    #[inline]
    pub fn digits(&self) -> u8
        ensures { result ≡ self.now.digits }
    {
        self.digits
    }
}

/// The date and the time in a number with a fraction of this many decimal digits, without the sign that is always set.
#[inline]
fn date_time_in(digits: u8, number: u64) -> u64
    requires { digits ≤ 6 }
    ensures { result ≡ date_time_of digits number }
{
    before_fraction(digits, number).saturating_sub(1 << 39)
}

/// The value of a DATETIME column with a fraction.
#[derive(Clone, Copy, Debug, PartialEq, Eq, Hash)]
pub struct DateTime2 {
    pub(crate) number: u64,
    pub(crate) digits: u8,
    date_time: u64,
    ghost digits_small: { digits ≤ 6 },
    ghost has_parts: { date_time ≡ date_time_of digits number },
}

impl DateTime2 {
    /// The value of this number, with a fraction of this many decimal digits.
    #[inline]
    pub(crate) fn new(number: u64, digits: u8) -> Self
        requires { digits ≤ 6 }
        ensures number { result.number ≡ number }
        ensures digits { result.digits ≡ digits }
    {
        DateTime2 {
            number,
            digits,
            date_time: date_time_in(digits, number),
        }
    }

    /// The year, at most 10,082 in five bytes; servers write 0 to 9,999.
    #[inline]
    pub fn year(&self) -> u64
        ensures { result ≡ date_time_of self.now.digits self.now.number / 2 ^ 22 / 13 }
    {
        self.date_time / (1 << 22) / 13
    }

    /// The month, 0 to 12.
    #[inline]
    pub fn month(&self) -> u8
        ensures { result ≡ date_time_of self.now.digits self.now.number / 2 ^ 22 % 13 }
    {
        (self.date_time / (1 << 22) % 13) as u8
    }

    /// The day, 0 to 31.
    #[inline]
    pub fn day(&self) -> u8
        ensures { result ≡ date_time_of self.now.digits self.now.number / 2 ^ 17 % 32 }
    {
        (self.date_time / (1 << 17) % 32) as u8
    }

    /// The hour, 0 to 31; servers write at most 23.
    #[inline]
    pub fn hour(&self) -> u8
        ensures { result ≡ date_time_of self.now.digits self.now.number / 2 ^ 12 % 32 }
    {
        (self.date_time / (1 << 12) % 32) as u8
    }

    /// The minute, 0 to 63; servers write at most 59.
    #[inline]
    pub fn minute(&self) -> u8
        ensures { result ≡ date_time_of self.now.digits self.now.number / 2 ^ 6 % 64 }
    {
        (self.date_time / (1 << 6) % 64) as u8
    }

    /// The second, 0 to 63; servers write at most 59.
    #[inline]
    pub fn second(&self) -> u8
        ensures { result ≡ date_time_of self.now.digits self.now.number % 64 }
    {
        (self.date_time % 64) as u8
    }

    /// The microseconds, below a million.
    #[inline]
    pub fn microseconds(&self) -> u64
        ensures { result ≡ microseconds_of self.now.digits self.now.number }
    {
        microseconds(self.digits, self.number)
    }

    /// The number of decimal digits of the column's fraction, 0 to 6.
    #[inline]
    pub fn digits(&self) -> u8
        ensures { result ≡ self.now.digits }
    {
        self.digits
    }
}

/// The time in a number with a fraction of this many decimal digits, without its sign and fraction.
#[inline]
fn time_in(digits: u8, number: u64) -> u64
    requires { digits ≤ 6 }
    ensures { result ≡ before_fraction digits (time2_distance digits number) }
{
    before_fraction(digits, time2_distance(digits, number))
}

/// The value of a TIME column with a fraction.
#[derive(Clone, Copy, Debug, PartialEq, Eq, Hash)]
pub struct Time2 {
    pub(crate) number: u64,
    pub(crate) digits: u8,
    time: u64,
    ghost digits_small: { digits ≤ 6 },
    ghost has_parts: { time ≡ before_fraction digits (time2_distance digits number) },
}

impl Time2 {
    /// The value of this number, with a fraction of this many decimal digits.
    #[inline]
    pub(crate) fn new(number: u64, digits: u8) -> Self
        requires { digits ≤ 6 }
        ensures number { result.number ≡ number }
        ensures digits { result.digits ≡ digits }
    {
        Time2 {
            number,
            digits,
            time: time_in(digits, number),
        }
    }

    /// Whether the time is negative.
    #[inline]
    pub fn is_negative(&self) -> bool
        ensures { result ≡ nat_lt self.now.number (time2_zero self.now.digits) }
    {
        self.number < time2_zero(self.digits)
    }

    /// The hour, 0 to 1,023; servers write at most 838.
    #[inline]
    pub fn hour(&self) -> u64
        ensures { result ≡ before_fraction self.now.digits (time2_distance self.now.digits self.now.number) / 2 ^ 12 }
    {
        self.time / (1 << 12)
    }

    /// The minute, 0 to 63; servers write at most 59.
    #[inline]
    pub fn minute(&self) -> u8
        ensures { result ≡ before_fraction self.now.digits (time2_distance self.now.digits self.now.number) / 2 ^ 6 % 64 }
    {
        (self.time / (1 << 6) % 64) as u8
    }

    /// The second, 0 to 63; servers write at most 59.
    #[inline]
    pub fn second(&self) -> u8
        ensures { result ≡ before_fraction self.now.digits (time2_distance self.now.digits self.now.number) % 64 }
    {
        (self.time % 64) as u8
    }

    /// The microseconds, below a million.
    #[inline]
    pub fn microseconds(&self) -> u64
        ensures { result ≡ microseconds_of self.now.digits (time2_distance self.now.digits self.now.number) }
    {
        microseconds(self.digits, time2_distance(self.digits, self.number))
    }

    /// The number of decimal digits of the column's fraction, 0 to 6.
    #[inline]
    pub fn digits(&self) -> u8
        ensures { result ≡ self.now.digits }
    {
        self.digits
    }
}
