//! The first character of some bytes, and the bytes behind it.
ghost use Rattle.std.specs.Prelude.{◌≡◌, true, Some};
ghost use Rattle.std.specs.Option.{option_and_then};
ghost use Rattle.std.specs.Char.Utf16.{is_high_surrogate, is_low_surrogate, surrogate_pair_char};
ghost use Rattle.character_sets.specs.Spellings.{unit};
ghost use Rattle.character_sets.specs.Decoding.{Gives, first_unit, first_byte, first_of_ucs2, surrogate_pair, first_of_utf16, first_of_utf32, first_character, unit_char, number_char};

use crate::character_set::CharacterSet;
use crate::coding::{ByteOrder, Coding, coding_of};
use crate::single_byte::byte_character;

fn unit(order: ByteOrder, bytes: [u8; 2]) -> u16
    ensures { result ≡ unit order bytes }
{
    match order {
        ByteOrder::BigEndian => u16::from_be_bytes(bytes),
        ByteOrder::LittleEndian => u16::from_le_bytes(bytes),
    }
}

#[tactic(auto, unfolding(crate::specs::Decoding::first_unit))]
fn first_unit(order: ByteOrder, bytes: &[u8]) -> Option<(u16, &[u8])>
    ensures { Gives (λ x. (x.0, x.1.now)) result (first_unit order bytes.now) }
{
    let (first, rest) = bytes.split_first_chunk::<2>()?;
    Some((unit(order, *first), rest))
}

#[tactic(auto, unfolding(crate::specs::Decoding::first_byte))]
fn first_byte(set: CharacterSet, bytes: &[u8]) -> Option<(char, &[u8])>
    ensures { Gives (λ x. (x.0, x.1.now)) result (first_byte set bytes.now) }
{
    let (byte, rest) = bytes.split_first()?;
    let character = byte_character(set, *byte)?;
    Some((character, rest))
}

// The character of a unit that is in no pair.
fn unit_char(unit: u16) -> Option<char>
    ensures { result ≡ unit_char unit }
{
    char::from_u32(u32::from(unit))
}

#[tactic(auto, unfolding(crate::specs::Decoding::first_of_ucs2))]
fn first_of_ucs2(bytes: &[u8]) -> Option<(char, &[u8])>
    ensures { Gives (λ x. (x.0, x.1.now)) result (first_of_ucs2 bytes.now) }
{
    let (unit, rest) = first_unit(ByteOrder::BigEndian, bytes)?;
    let character = unit_char(unit)?;
    Some((character, rest))
}

// The first unit of a pair.
fn is_high_surrogate(unit: u16) -> bool
    ensures { result ≡ is_high_surrogate unit }
{
    0xd800 <= unit && unit < 0xdc00
}

// The second unit of a pair.
fn is_low_surrogate(unit: u16) -> bool
    ensures { result ≡ is_low_surrogate unit }
{
    0xdc00 <= unit && unit < 0xe000
}

// The character of a pair of units.
fn surrogate_pair_char(high: u16, low: u16) -> Option<char>
    requires high { is_high_surrogate high ≡ true }
    requires low { is_low_surrogate low ≡ true }
    ensures { result ≡ Some (surrogate_pair_char high low) }
{
    let above_basic = (u32::from(high) - 0xd800) * 0x400 + (u32::from(low) - 0xdc00);
    char::from_u32(0x1_0000 + above_basic)
}

// A character whose first unit is a high surrogate.
fn first_of_pair(order: ByteOrder, high: u16, bytes: &[u8]) -> Option<(char, &[u8])>
    requires { is_high_surrogate high ≡ true }
    ensures { Gives (λ x. (x.0, x.1.now)) result (option_and_then (surrogate_pair high) (first_unit order bytes.now)) }
{
    let (low, rest) = first_unit(order, bytes)?;
    if !is_low_surrogate(low) {
        return None;
    }
    let character = surrogate_pair_char(high, low)?;
    Some((character, rest))
}

#[tactic(auto, unfolding(crate::specs::Decoding::first_of_utf16, crate::specs::Decoding::first_behind_unit))]
fn first_of_utf16(order: ByteOrder, bytes: &[u8]) -> Option<(char, &[u8])>
    ensures { Gives (λ x. (x.0, x.1.now)) result (first_of_utf16 order bytes.now) }
{
    let (unit, rest) = first_unit(order, bytes)?;
    if is_high_surrogate(unit) {
        return first_of_pair(order, unit, rest);
    }
    let character = unit_char(unit)?;
    Some((character, rest))
}

fn number_char(number: u32) -> Option<char>
    ensures { result ≡ number_char number }
{
    char::from_u32(number)
}

#[tactic(auto, unfolding(crate::specs::Decoding::first_of_utf32))]
fn first_of_utf32(bytes: &[u8]) -> Option<(char, &[u8])>
    ensures { Gives (λ x. (x.0, x.1.now)) result (first_of_utf32 bytes.now) }
{
    let (first, rest) = bytes.split_first_chunk::<4>()?;
    let character = number_char(u32::from_be_bytes(*first))?;
    Some((character, rest))
}

/// The first character of the bytes in a set, and the bytes behind it. UTF-8 has none here.
#[tactic(auto, unfolding(crate::specs::Decoding::first_character))]
pub(crate) fn first_character(set: CharacterSet, bytes: &[u8]) -> Option<(char, &[u8])>
    ensures { Gives (λ x. (x.0, x.1.now)) result (first_character set bytes.now) }
{
    match coding_of(set) {
        Coding::SingleByte => first_byte(set, bytes),
        Coding::Ucs2 => first_of_ucs2(bytes),
        Coding::Utf16 => first_of_utf16(ByteOrder::BigEndian, bytes),
        Coding::Utf16le => first_of_utf16(ByteOrder::LittleEndian, bytes),
        Coding::Utf32 => first_of_utf32(bytes),
        _ => None,
    }
}
