//! Writing decimal numbers at an index of memory that has room for them. Each function returns the index after them.
ghost use Rattle.std.specs.Prelude.{◌≡◌, ◌+◌, ◌*◌, ◌%◌, ◌^◌, ◌<◌, ◌≤◌, ◌++◌, ◌∷◌, length};
ghost use Rattle.std.specs.Fmt.{decimal};
ghost use Rattle.json.specs.Filled.{Placed};
ghost use Rattle.json_line.specs.Decimals.{last_codes, nines_text, scale_text};

use crate::decimal_parts::DecimalParts;
use crate::place::{place_byte, place_number};
use itoa::write_digits;

/// 10 to the power of `exponent`, at most 9.
#[inline(always)]
fn pow_10(exponent: u8) -> u64
    requires { exponent ≤ 9 }
    ensures power { result ≡ 10 ^ exponent }
    ensures some { 1 ≤ result }
    ensures small { result ≤ 10 ^ 9 }
{
    match exponent {
        0 => 1,
        1 => 10,
        2 => 100,
        3 => 1_000,
        4 => 10_000,
        5 => 100_000,
        6 => 1_000_000,
        7 => 10_000_000,
        8 => 100_000_000,
        _ => 1_000_000_000,
    }
}

/// The number of the last digits, by their power of ten.
// Numbers of groups are below it, and then nothing is divided.
#[inline(always)]
fn last_number(number: u64, power: u64) -> u64
    requires { 1 ≤ power }
    ensures is { result ≡ number % power }
    ensures small { result < power }
{
    if number < power {
        number
    } else {
        number % power
    }
}

/// Writes a byte and the last digits of a number, this many.
// They are the digits behind the first one of a number with a one before them, which keeps the zeros in front. The byte is stored
// over the one.
#[inline(always)]
fn place_behind(memory: &mut [u8], at: usize, byte: u8, digits: u8, number: u64) -> usize
    requires { (digits ≤ 9) × (at + 10 ≤ length memory.old) }
    ensures placed { Placed memory.old memory.new at (byte ∷ last_codes digits number) result }
    ensures end { result ≡ at + 1 + digits }
{
    let power = pow_10(digits);
    let last = last_number(number, power);
    let end = at + 1 + usize::from(digits);
    write_digits(power + last, memory, end);
    memory[at] = byte;
    end
}

/// Writes the last digits of a number, this many, behind a byte that stays as it is.
#[inline(always)]
fn place_last(memory: &mut [u8], at: usize, digits: u8, number: u64) -> usize
    requires { (digits ≤ 9) × (1 ≤ at) × (at + 9 ≤ length memory.old) }
    ensures placed { Placed memory.old memory.new at (last_codes digits number) result }
    ensures end { result ≡ at + digits }
{
    let front = at - 1;
    let byte = memory[front];
    place_behind(memory, front, byte, digits, number)
}

/// Writes groups of nine digits.
#[inline(always)]
fn place_nines(memory: &mut [u8], at: usize, groups: &[u64]) -> usize
    requires { (1 ≤ at) × (at + 9 * length groups.now ≤ length memory.old) }
    ensures placed { Placed memory.old memory.new at (nines_text groups.now) result }
    ensures end { result ≡ at + 9 * length groups.now }
{
    let mut place = at;
    'groups: for group in groups {
        place = place_last(memory, place, 9, *group);
    }
    place
}

/// Writes the point and the digits behind it.
#[inline(always)]
fn place_digits(memory: &mut [u8], at: usize, parts: &DecimalParts<'_>) -> usize
    requires { at + 10 + 9 * length parts.now.part.now ≤ length memory.old }
    ensures placed { Placed memory.old memory.new at (46 ∷ (nines_text parts.now.part.now ++ last_codes (parts.now.scale % 9) parts.now.last)) result }
    ensures short { result ≤ at + 10 + 9 * length parts.now.part.now }
{
    let nines = place_byte(memory, at, b'.');
    let last = place_nines(memory, nines, parts.part);
    place_last(memory, last, parts.scale % 9, parts.last)
}

/// Writes the point and the digits behind it, if there are any.
#[inline(always)]
fn place_scale(memory: &mut [u8], at: usize, parts: &DecimalParts<'_>) -> usize
    requires { at + 10 + 9 * length parts.now.part.now ≤ length memory.old }
    ensures placed { Placed memory.old memory.new at (scale_text parts.now.scale parts.now.part.now parts.now.last) result }
    ensures short { result ≤ at + 10 + 9 * length parts.now.part.now }
{
    let scale = parts.scale;
    if scale == 0 {
        at
    } else {
        place_digits(memory, at, parts)
    }
}

/// Writes a decimal number without its sign.
#[inline(always)]
pub(crate) fn place_decimal(memory: &mut [u8], at: usize, parts: &DecimalParts<'_>) -> usize
    requires { (1 ≤ at) × (at + 93 ≤ length memory.old) }
    ensures placed { Placed memory.old memory.new at (decimal parts.now.first ++ (nines_text parts.now.whole.now ++ scale_text parts.now.scale parts.now.part.now parts.now.last)) result }
    ensures short { result ≤ at + 93 }
{
    let nines = place_number(memory, at, parts.first);
    let point = place_nines(memory, nines, parts.whole);
    place_scale(memory, point, parts)
}
