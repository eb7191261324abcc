//! Writing bytes at an index of memory that has room for them. Each function returns the index after them.
ghost use Rattle.std.specs.Prelude.{◌≡◌, ◌+◌, ◌*◌, ◌<◌, ◌≤◌, [], ◌∷◌, length, take};
ghost use Rattle.std.specs.Fmt.{decimal};
ghost use Rattle.hex.specs.Hex.{encode_lower};
ghost use Rattle.json.specs.Filled.{Placed};
ghost use Rattle.json_line.specs.Buffers.{comma, minus};

use crate::decimal::decimal_len;
use hex::encode_to_slice;
use itoa::write_digits;
use std::simd::Simd;

/// Writes a byte.
#[inline(always)]
pub(crate) fn place_byte(memory: &mut [u8], at: usize, byte: u8) -> usize
    requires { at < length memory.old }
    ensures { Placed memory.old memory.new at (byte ∷ []) result }
{
    memory[at] = byte;
    at + 1
}

/// Writes a comma if wanted.
// The comma is always stored, and counted only if wanted.
#[inline(always)]
pub(crate) fn place_comma(memory: &mut [u8], at: usize, wanted: bool) -> usize
    requires { at < length memory.old }
    ensures { Placed memory.old memory.new at (comma wanted) result }
{
    memory[at] = b',';
    if wanted { at + 1 } else { at }
}

/// Writes a minus sign if wanted.
// The sign is always stored, and counted only if wanted.
#[inline(always)]
pub(crate) fn place_minus(memory: &mut [u8], at: usize, wanted: bool) -> usize
    requires { at < length memory.old }
    ensures placed { Placed memory.old memory.new at (minus wanted) result }
    ensures short { result ≤ at + 1 }
{
    memory[at] = b'-';
    if wanted { at + 1 } else { at }
}

/// Writes the first N bytes.
// The first N bytes are one load and one store.
#[inline(always)]
pub(crate) fn place_front<const N: usize>(memory: &mut [u8], at: usize, bytes: &[u8]) -> usize
    requires { (N ≤ length bytes.now) × (at + N ≤ length memory.old) }
    ensures { Placed memory.old memory.new at (take N bytes.now) result }
{
    Simd::<u8, N>::from_slice(bytes).copy_to_slice(&mut memory[at..]);
    at + N
}

/// Writes N to 2N bytes.
// The first N bytes and the last N may overlap.
#[inline(always)]
pub(crate) fn place_ends<const N: usize>(memory: &mut [u8], at: usize, bytes: &[u8]) -> usize
    requires fits { at + length bytes.now ≤ length memory.old }
    requires covers { (N ≤ length bytes.now) × (length bytes.now ≤ N + N) }
    ensures { Placed memory.old memory.new at bytes.now result }
{
    let last = bytes.len() - N;
    place_front::<N>(memory, at, bytes);
    place_front::<N>(memory, at + last, &bytes[last..])
}

/// Writes the first `len` bytes, at most 32, of as many.
// All 32 are stored, and those that are wanted are counted.
#[inline(always)]
pub(crate) fn place_short(memory: &mut [u8], at: usize, bytes: &[u8], len: usize) -> usize
    requires { (len ≤ 32) × (32 ≤ length bytes.now) × (at + 32 ≤ length memory.old) }
    ensures { Placed memory.old memory.new at (take len bytes.now) result }
{
    place_front::<32>(memory, at, bytes);
    at + len
}

/// Writes 32 or more bytes.
#[inline(always)]
fn place_long(memory: &mut [u8], at: usize, bytes: &[u8]) -> usize
    requires { (32 ≤ length bytes.now) × (at + length bytes.now ≤ length memory.old) }
    ensures { Placed memory.old memory.new at bytes.now result }
{
    let mut done = 0;
    while bytes.len() - done > 64 {
        place_front::<32>(memory, at + done, &bytes[done..]);
        done += 32;
    }
    place_ends::<32>(memory, at + done, &bytes[done..])
}

/// Writes the bytes.
// Most texts are short, and two stores cost less than a call.
#[inline(always)]
pub(crate) fn place_bytes(memory: &mut [u8], at: usize, bytes: &[u8]) -> usize
    requires { at + length bytes.now ≤ length memory.old }
    ensures { Placed memory.old memory.new at bytes.now result }
{
    let len = bytes.len();
    if len > 32 {
        place_long(memory, at, bytes)
    } else if len >= 16 {
        place_ends::<16>(memory, at, bytes)
    } else if len >= 8 {
        place_ends::<8>(memory, at, bytes)
    } else if len >= 4 {
        place_ends::<4>(memory, at, bytes)
    } else if len >= 2 {
        place_ends::<2>(memory, at, bytes)
    } else if len == 1 {
        place_front::<1>(memory, at, bytes)
    } else {
        at
    }
}

/// Writes a decimal number.
// A 64-bit number has at most 20 digits, and many have one.
#[inline(always)]
pub(crate) fn place_number(memory: &mut [u8], at: usize, number: u64) -> usize
    requires { at + 20 ≤ length memory.old }
    ensures placed { Placed memory.old memory.new at (decimal number) result }
    ensures short { result ≤ at + 20 }
{
    if number < 10 {
        return place_byte(memory, at, b'0' + number as u8);
    }
    let end = at + decimal_len(number);
    write_digits(number, memory, end);
    end
}

/// Writes the bytes as lower-case hexadecimal digits.
#[inline(always)]
pub(crate) fn place_hexadecimal(memory: &mut [u8], at: usize, bytes: &[u8]) -> usize
    requires { at + 2 * length bytes.now ≤ length memory.old }
    ensures placed { Placed memory.old memory.new at (encode_lower bytes.now) result }
    ensures end { result ≡ at + 2 * length bytes.now }
{
    let end = at + 2 * bytes.len();
    match encode_to_slice(bytes, &mut memory[at..end]) {
        Ok(()) => end,
        Err(_) => unreachable!(),
    }
}
