//! The bytes of decimal numbers.
ghost use Rattle.std.specs.Prelude.{◌≡◌, ◌≤◌, ◌<◌, ◌+◌, ◌-◌, ◌*◌, ◌/◌, ◌%◌, ◌^◌, ◌∷◌, ◌++◌, [], length, drop, nat_lt, replicate};
ghost use Rattle.byteorder.specs.Endian.{big_number};
ghost use Rattle.binlog_values.specs.Contents.{digits_len, decimal_len, magnitude, is_decimal_bytes, groups_fit};
ghost use Rattle.binlog_values.specs.DecimalLaws.{adjusted};
ghost use Rattle.binlog_values.specs.DecimalGroups.{group_at};

use crate::text::pow_10;
use byteorder::{BigEndian, ByteOrder};

/// The number of bytes of a group of this many decimal digits, at most nine.
#[inline(always)]
pub(crate) fn digits_len(digits: u8) -> usize
    requires { digits ≤ 9 }
    ensures len { result ≡ digits_len digits }
    ensures small { result ≤ 4 }
{
    if digits == 9 {
        4
    } else {
        (usize::from(digits) + 1) / 2
    }
}

#[tactic(auto, using(crate::specs::DecimalLaws::decimal_count))]
/// The number of bytes of a decimal number of this precision and scale, at most 31.
#[inline(always)]
pub(crate) fn decimal_len(precision: u8, scale: u8) -> usize
    requires high { precision ≤ 65 }
    requires scale { scale ≤ precision }
    ensures { result ≡ decimal_len precision scale }
{
    let whole = precision - scale;
    let nines = whole / 9 + scale / 9;
    digits_len(whole % 9) + 4 * usize::from(nines) + digits_len(scale % 9)
}

/// 256 to the power of `len`, 1 to 4.
#[inline(always)]
fn pow_256(len: usize) -> u64
    requires low { 1 ≤ len }
    requires high { len ≤ 4 }
    ensures power { result ≡ 256 ^ len }
    ensures some { 2 ≤ result }
{
    match len {
        1 => 1 << 8,
        2 => 1 << 16,
        3 => 1 << 24,
        _ => 1 << 32,
    }
}

/// The number of a group, by its stored number: the top bit of the first group is the sign, and all bits of a negative
/// number are complemented.
#[inline(always)]
fn adjusted(at: usize, is_positive: bool, all: u64, stored: u64) -> u64
    requires { 2 ≤ all }
    ensures { result ≡ adjusted at is_positive all stored }
{
    match (at, is_positive) {
        (0, true) => stored.saturating_sub(all / 2),
        (0, false) => (all / 2 - 1).saturating_sub(stored),
        (_, true) => stored,
        (_, false) => (all - 1).saturating_sub(stored),
    }
}

/// The number of the group of `len` bytes, 1 to 4, from the index `at`, as it is stored.
// A copy whose length is a constant is one load.
#[tactic(auto, using(crate::proofs::Loads::big_front))]
#[inline(always)]
fn stored_group(bytes: &[u8], at: usize, len: usize) -> u64
    requires low { 1 ≤ len }
    requires high { len ≤ 4 }
    requires room { at + len ≤ length bytes.now }
    ensures { result ≡ big_number len (drop at bytes.now) }
{
    let group = &bytes[at..];
    match len {
        1 => BigEndian::read_uint(group, 1),
        2 => BigEndian::read_uint(group, 2),
        3 => BigEndian::read_uint(group, 3),
        _ => BigEndian::read_uint(group, 4),
    }
}

/// The number of the group of `len` bytes, 1 to 4, from the index `at`.
#[tactic(auto, using(crate::specs::DecimalLaws::group_is))]
#[inline(always)]
fn group(bytes: &[u8], at: usize, len: usize) -> u64
    requires low { 1 ≤ len }
    requires high { len ≤ 4 }
    requires room { at + len ≤ length bytes.now }
    ensures { result ≡ big_number len (drop at (magnitude bytes.now)) }
{
    let stored = stored_group(bytes, at, len);
    adjusted(at, bytes[0] >= 128, pow_256(len), stored)
}

/// The number of the group of this many digits, at most nine, from the index `at`; 0 for no digits.
#[inline(always)]
pub(crate) fn group_number(bytes: &[u8], at: usize, digits: u8) -> u64
    requires digits { digits ≤ 9 }
    requires room { at + digits_len digits ≤ length bytes.now }
    ensures { result ≡ group_at at digits (magnitude bytes.now) }
{
    match digits_len(digits) {
        0 => 0,
        len => group(bytes, at, len),
    }
}

/// Whether the group of this many digits, at most nine, from the index `at` is a number with as many digits.
#[inline(always)]
fn group_fits(bytes: &[u8], at: usize, digits: u8) -> bool
    requires digits { digits ≤ 9 }
    requires room { at + digits_len digits ≤ length bytes.now }
    ensures { result ≡ nat_lt (big_number (digits_len digits) (drop at (magnitude bytes.now))) (10 ^ digits) }
{
    let len = digits_len(digits);
    len == 0 || group(bytes, at, len) < pow_10(digits)
}

/// Whether each of `count` groups of nine digits from the index `at`, and one of `tail` digits after them, is a number
/// with as many digits.
#[inline(always)]
fn groups_fit(bytes: &[u8], at: usize, count: u8, tail: u8) -> bool
    requires digits { tail ≤ 9 }
    requires room { at + 4 * count + digits_len tail ≤ length bytes.now }
    ensures { result ≡ groups_fit (replicate count 9 ++ tail ∷ []) (drop at (magnitude bytes.now)) }
{
    let mut place = at;
    for _index in 0..count {
        if !group_fits(bytes, place, 9) {
            return false;
        }
        place += 4;
    }
    group_fits(bytes, place, tail)
}

#[tactic(auto, using(crate::specs::DecimalLaws::decimal_count))]
/// Whether these bytes, as many as a decimal number of this precision and scale has, are one: each of its groups has to
/// be a number with as many digits as the group has.
#[inline(never)]
pub(crate) fn is_decimal(precision: u8, scale: u8, bytes: &[u8]) -> bool
    requires high { precision ≤ 65 }
    requires scale { scale ≤ precision }
    requires len { length bytes.now ≡ decimal_len precision scale }
    ensures { result ≡ is_decimal_bytes precision scale bytes.now }
{
    let whole = precision - scale;
    let lead = whole % 9;
    group_fits(bytes, 0, lead)
        && groups_fit(bytes, digits_len(lead), whole / 9 + scale / 9, scale % 9)
}
