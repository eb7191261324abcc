//! Writing dates and times at an index of memory that has room for them. Each function returns the index after them.
ghost use Rattle.std.specs.Prelude.{◌≡◌, ◌+◌, ◌<◌, ◌≤◌, ◌++◌, ◌∷◌, [], length, take};
ghost use Rattle.std.specs.Fmt.{decimal};
ghost use Rattle.json.specs.Filled.{Placed};
ghost use Rattle.json_line.specs.Moments.{pair, two_digits, year_text, date_text, clock_text, six_digits, fraction_text};

use crate::moment::{DateParts, TimeParts};
use crate::place::{place_byte, place_number};

/// Writes the two digits of a number below 100.
#[inline(always)]
fn place_pair(memory: &mut [u8], at: usize, number: u8) -> usize
    requires { (number < 100) × (at + 2 ≤ length memory.old) }
    ensures { Placed memory.old memory.new at (pair number) result }
{
    let next = place_byte(memory, at, b'0' + number / 10);
    place_byte(memory, next, b'0' + number % 10)
}

// A part that no calendar and no clock has.
#[cold]
#[inline(never)]
fn place_rare_number(memory: &mut [u8], at: usize, number: u64) -> usize
    requires { at + 20 ≤ length memory.old }
    ensures placed { Placed memory.old memory.new at (decimal number) result }
    ensures short { result ≤ at + 20 }
{
    place_number(memory, at, number)
}

/// Writes a number in two digits or more.
#[inline(always)]
fn place_two_digits(memory: &mut [u8], at: usize, number: u64) -> usize
    requires { at + 20 ≤ length memory.old }
    ensures placed { Placed memory.old memory.new at (two_digits number) result }
    ensures short { result ≤ at + 20 }
{
    if number < 100 {
        place_pair(memory, at, number as u8)
    } else {
        place_rare_number(memory, at, number)
    }
}

/// Writes a year in four digits or more.
#[inline(always)]
fn place_year(memory: &mut [u8], at: usize, year: u64) -> usize
    requires { at + 20 ≤ length memory.old }
    ensures placed { Placed memory.old memory.new at (year_text year) result }
    ensures short { result ≤ at + 20 }
{
    if year < 10_000 {
        let next = place_pair(memory, at, (year / 100) as u8);
        place_pair(memory, next, (year % 100) as u8)
    } else {
        place_rare_number(memory, at, year)
    }
}

/// Writes a date.
#[inline(always)]
pub(crate) fn place_date(memory: &mut [u8], at: usize, date: &DateParts) -> usize
    requires { at + 62 ≤ length memory.old }
    ensures placed { Placed memory.old memory.new at (date_text date.now.year date.now.month date.now.day) result }
    ensures short { result ≤ at + 62 }
{
    let year = place_year(memory, at, date.year);
    let dash = place_byte(memory, year, b'-');
    let month = place_two_digits(memory, dash, u64::from(date.month));
    let dash = place_byte(memory, month, b'-');
    place_two_digits(memory, dash, u64::from(date.day))
}

/// Writes hours, minutes and seconds.
#[inline(always)]
fn place_clock(memory: &mut [u8], at: usize, time: &TimeParts) -> usize
    requires { at + 62 ≤ length memory.old }
    ensures placed { Placed memory.old memory.new at (clock_text time.now.hour time.now.minute time.now.second) result }
    ensures short { result ≤ at + 62 }
{
    let hour = place_two_digits(memory, at, time.hour);
    let colon = place_byte(memory, hour, b':');
    let minute = place_two_digits(memory, colon, u64::from(time.minute));
    let colon = place_byte(memory, minute, b':');
    place_two_digits(memory, colon, u64::from(time.second))
}

/// Writes the last six digits of a number.
#[inline(always)]
fn place_six_digits(memory: &mut [u8], at: usize, number: u64) -> usize
    requires { at + 6 ≤ length memory.old }
    ensures { Placed memory.old memory.new at (six_digits number) result }
{
    let second = place_pair(memory, at, (number / 10_000 % 100) as u8);
    let third = place_pair(memory, second, (number / 100 % 100) as u8);
    place_pair(memory, third, (number % 100) as u8)
}

/// Writes a point, and the first of the last six digits of a number, this many.
// All six are stored, and those that are wanted are counted.
#[inline(always)]
fn place_part(memory: &mut [u8], at: usize, digits: u8, number: u64) -> usize
    requires { (digits ≤ 6) × (at + 7 ≤ length memory.old) }
    ensures { Placed memory.old memory.new at (46 ∷ take digits (six_digits number)) result }
{
    let point = place_byte(memory, at, b'.');
    place_six_digits(memory, point, number);
    point + usize::from(digits)
}

/// Writes the fraction of a second, if it has digits.
#[inline(always)]
fn place_fraction(memory: &mut [u8], at: usize, digits: u8, microseconds: u64) -> usize
    requires { (digits ≤ 6) × (at + 7 ≤ length memory.old) }
    ensures placed { Placed memory.old memory.new at (fraction_text digits microseconds) result }
    ensures short { result ≤ at + 7 }
{
    if digits == 0 {
        at
    } else {
        place_part(memory, at, digits, microseconds)
    }
}

/// Writes a time and its fraction.
#[inline(always)]
pub(crate) fn place_time(memory: &mut [u8], at: usize, time: &TimeParts) -> usize
    requires { at + 69 ≤ length memory.old }
    ensures placed { Placed memory.old memory.new at (clock_text time.now.hour time.now.minute time.now.second ++ fraction_text time.now.digits time.now.microseconds) result }
    ensures short { result ≤ at + 69 }
{
    let clock = place_clock(memory, at, time);
    place_fraction(memory, clock, time.digits, time.microseconds)
}
