//! The paths of diffs.
ghost use Rattle.std.specs.Prelude.{◌≡◌, ◌⊎◌, ◌<◌, ◌≤◌, ◌^◌, ◌++◌, ◌∷◌, [], map, nat_lt, length, EachIndex, slice_index, option_map, option_copied, Some, None, Ok, Err, IfOk, IfErr, OnOk, IfSome, if◌then◌else◌};
ghost use Rattle.std.specs.Char.{is_ascii_digit, IsAsciiDigit};
ghost use Rattle.std.specs.List.{prefix_len};
ghost use Rattle.std.specs.Str.Parse.{digits_value};
ghost use Rattle.std.specs.Result.{result_map_both};
ghost use Rattle.binary_json_writing.specs.declared.paths.JsonPathError.TheVariants.{Memory};
ghost use Rattle.binary_json_writing.specs.Paths.{behind, is_name_byte, begins_with_digit, bare_in, escape_of, hex_of, ascii_of, unicode_in, escape_in, unit_in, number_in, last_in, place_in, leg_of, IsQuoted, IsNamed, IsLegIn, named, from_last, closed, element, AreLegs, AreRefused};

use std::alloc::{AllocError, Global};

/// From which number on a place can't be stated.
const TOO_GREAT: u64 = 1 << 32;

/// A part of a path: a member of an object, or a place in an array.
#[derive(Debug, Drop)]
pub enum JsonPathLeg {
    /// The member of this name: `.name`, or `."any name"`.
    Member(Vec<u8>),
    /// The element at this place, from 0 on: `[0]`.
    Element(usize),
    /// The element at this place from the end, where 0 is the last one: `[last]`, `[last-1]`.
    FromEnd(usize),
}

/// The path of a diff: `$`, and its legs, which lead from the document to a value within.
#[derive(Debug, Drop)]
pub struct JsonPath {
    pub(crate) legs: Vec<JsonPathLeg>,
}

/// Why bytes are no path.
#[derive(Clone, Copy, Debug, PartialEq, Eq)]
pub enum JsonPathError {
    /// Memory was refused.
    Memory,
    /// The path doesn't begin with `$`.
    Root,
    /// A leg begins neither with `.` nor with `[`.
    Leg,
    /// A name without quotes isn't of letters, digits, `_`, `$` and bytes beyond ASCII, or begins with a digit.
    Name,
    /// The bytes end within a name in quotes.
    Quote,
    /// `\` in a name in quotes isn't followed by one of `"\/bfnrt`, nor by `u00` and two hexadecimal digits below 80.
    Escape,
    /// `[` isn't followed by a number below 2^32, `last`, or `last-` and such a number, and `]`.
    Place,
}

/// A failed allocation is [`JsonPathError::Memory`].
impl From<AllocError> for JsonPathError {
    ghost use Rattle.binary_json_writing.specs.declared.paths.JsonPathError.TheVariants.{Memory};

    ghost from_gives = { λ _ error. error ≡ Memory };

    fn from(_: AllocError) -> JsonPathError {
        JsonPathError::Memory
    }
}

// What is behind a byte, if the bytes begin with it.
fn behind(byte: u8, bytes: &[u8]) -> Option<&[u8]>
    ensures is { option_copied result ≡ behind byte bytes.now }
    ensures less { IfSome result (λ rest. length rest.now < length bytes.now) }
{
    match bytes.split_first() {
        Some((first, rest)) if *first == byte => Some(rest),
        _ => None,
    }
}

// ---- names

fn is_name_byte(byte: u8) -> bool
    ensures { result ≡ is_name_byte byte }
{
    byte >= b'a' && byte <= b'z'
        || byte >= b'A' && byte <= b'Z'
        || byte >= b'0' && byte <= b'9'
        || byte == b'_'
        || byte == b'$'
        || byte >= 128
}

fn begins_with_digit(bytes: &[u8]) -> bool
    ensures { result ≡ begins_with_digit bytes.now }
{
    match bytes.first() {
        Some(byte) => *byte >= b'0' && *byte <= b'9',
        None => false,
    }
}

// The number of bytes of names in front of the first other one.
fn name_len(bytes: &[u8]) -> usize
    ensures is { result ≡ prefix_len is_name_byte bytes.now }
    ensures within { result ≤ length bytes.now }
{
    bytes.iter().take_while(|byte| is_name_byte(**byte)).count()
}

// A name without quotes, and what is behind it.
#[tactic(auto, unfolding(crate::specs::Paths::bare_in))]
fn bare(bytes: &[u8]) -> Result<(&[u8], &[u8]), JsonPathError>
    ensures is { result_map_both (λ p. (p.0.now, p.1.now)) (λ e. e) result ≡ bare_in bytes.now }
    ensures less { IfOk result (λ p. length p.1.now < length bytes.now) }
{
    let len = name_len(bytes);
    if len == 0 || begins_with_digit(bytes) {
        return Err(JsonPathError::Name);
    }
    Ok(bytes.split_at(len))
}

// What `\` and this byte stand for.
fn escape_of(byte: u8) -> Option<u8>
    ensures { result ≡ escape_of byte }
{
    match byte {
        b'"' | b'\\' | b'/' => Some(byte),
        b'b' => Some(8),
        b'f' => Some(12),
        b'n' => Some(10),
        b'r' => Some(13),
        b't' => Some(9),
        _ => None,
    }
}

// The value of a hexadecimal digit.
fn hex_of(byte: u8) -> Option<u8>
    ensures is { result ≡ hex_of byte }
    ensures small { IfSome result (λ n. n < 16) }
{
    match byte {
        b'0'..=b'9' => Some(byte - b'0'),
        b'a'..=b'f' => Some(byte - b'a' + 10),
        b'A'..=b'F' => Some(byte - b'A' + 10),
        _ => None,
    }
}

// The character of ASCII with this number, and what is behind it.
fn ascii_of(high: Option<u8>, low: Option<u8>, rest: &[u8]) -> Result<(u8, &[u8]), JsonPathError>
    requires { IfSome low (λ n. n < 16) }
    ensures is { result_map_both (λ p. (p.0, p.1.now)) (λ e. e) result ≡ ascii_of high low rest.now }
    ensures same { IfOk result (λ p. p.1.now ≡ rest.now) }
{
    match (high, low) {
        (Some(high), Some(low)) if high < 8 => Ok((16 * high + low, rest)),
        _ => Err(JsonPathError::Escape),
    }
}

// What stands behind `\u`, and what is behind it.
fn unicode(bytes: &[u8]) -> Result<(u8, &[u8]), JsonPathError>
    ensures is { result_map_both (λ p. (p.0, p.1.now)) (λ e. e) result ≡ unicode_in bytes.now }
    ensures less { IfOk result (λ p. length p.1.now < length bytes.now) }
{
    match bytes {
        [a, b, high, low, rest @ ..] if *a == b'0' && *b == b'0' => {
            ascii_of(hex_of(*high), hex_of(*low), rest)
        }
        _ => Err(JsonPathError::Escape),
    }
}

// What stands behind `\`, and what is behind it.
fn escape(bytes: &[u8]) -> Result<(u8, &[u8]), JsonPathError>
    ensures is { result_map_both (λ p. (p.0, p.1.now)) (λ e. e) result ≡ escape_in bytes.now }
    ensures less { IfOk result (λ p. length p.1.now < length bytes.now) }
{
    let Some((letter, rest)) = bytes.split_first() else {
        return Err(JsonPathError::Escape);
    };
    if *letter == b'u' {
        return unicode(rest);
    }
    match escape_of(*letter) {
        Some(byte) => Ok((byte, rest)),
        None => Err(JsonPathError::Escape),
    }
}

// A byte of a name in quotes, and what is behind it.
#[tactic(auto, unfolding(crate::specs::Paths::unit_in))]
fn unit(bytes: &[u8]) -> Result<(u8, &[u8]), JsonPathError>
    ensures is { result_map_both (λ p. (p.0, p.1.now)) (λ e. e) result ≡ unit_in bytes.now }
    ensures less { IfOk result (λ p. length p.1.now < length bytes.now) }
{
    let Some((first, rest)) = bytes.split_first() else {
        return Err(JsonPathError::Quote);
    };
    if *first == b'\\' {
        return escape(rest);
    }
    Ok((*first, rest))
}

// A name in quotes, behind the first quote, and what is behind the second.
fn quoted(alloc: Global, bytes: &[u8]) -> Result<(Vec<u8>, &[u8]), JsonPathError>
    ensures found { IfOk result (λ p. IsQuoted (Ok (p.0.items, p.1.now)) bytes.now) }
    ensures refused { IfErr result (λ e. (e ≡ Memory) ⊎ IsQuoted (Err e) bytes.now) }
    ensures less { IfOk result (λ p. length p.1.now < length bytes.now) }
{
    let mut name = Vec::new(alloc);
    let mut rest = bytes;
    'bytes: while !rest.is_empty() {
        if let Some(others) = behind(b'"', rest) {
            return Ok((name, others));
        }
        let (byte, others) = unit(rest)?;
        name.extend_from_slice(&[byte])?;
        rest = others;
    }
    Err(JsonPathError::Quote)
}

// The member of a name without quotes, and what is behind it.
fn bare_member(alloc: Global, bytes: &[u8]) -> Result<(JsonPathLeg, &[u8]), JsonPathError>
    ensures found { IfOk result (λ p. named (bare_in bytes.now) ≡ Ok (leg_of p.0, p.1.now)) }
    ensures refused { IfErr result (λ e. (e ≡ Memory) ⊎ (named (bare_in bytes.now) ≡ Err e)) }
    ensures less { IfOk result (λ p. length p.1.now < length bytes.now) }
{
    let (name, rest) = bare(bytes)?;
    let name = Vec::from_slice(alloc, name)?;
    Ok((JsonPathLeg::Member(name), rest))
}

// The member behind `.`, and what is behind it.
fn member(alloc: Global, bytes: &[u8]) -> Result<(JsonPathLeg, &[u8]), JsonPathError>
    ensures found { IfOk result (λ p. IsNamed (Ok (leg_of p.0, p.1.now)) (behind 34 bytes.now) bytes.now) }
    ensures refused { IfErr result (λ e. (e ≡ Memory) ⊎ IsNamed (Err e) (behind 34 bytes.now) bytes.now) }
    ensures less { IfOk result (λ p. length p.1.now < length bytes.now) }
{
    let Some(spelled) = behind(b'"', bytes) else {
        return bare_member(alloc, bytes);
    };
    let (name, rest) = quoted(alloc, spelled)?;
    Ok((JsonPathLeg::Member(name), rest))
}

// ---- places

// The number of decimal digits in front of the first other byte.
fn digits_len(bytes: &[u8]) -> usize
    ensures is { result ≡ prefix_len is_ascii_digit bytes.now }
    ensures within { result ≤ length bytes.now }
{
    bytes
        .iter()
        .take_while(|byte| byte.is_ascii_digit())
        .count()
}

// The value of decimal digits, if it is below 2^32.
fn number_of(digits: &[u8]) -> Option<usize>
    requires { EachIndex digits.now (λ i. IsAsciiDigit (slice_index digits.now i)) }
    ensures { result ≡ (if nat_lt (digits_value 10 digits.now) (2 ^ 32) then Some (digits_value 10 digits.now) else None) }
{
    let mut number: u64 = 0;
    for digit in digits {
        number = number * 10 + u64::from(*digit - b'0');
        if number >= TOO_GREAT {
            return None;
        }
    }
    Some(number as usize)
}

// A number below 2^32, and what is behind it.
#[tactic(auto, unfolding(crate::specs::Paths::number_in))]
fn number(bytes: &[u8]) -> Option<(usize, &[u8])>
    ensures is { option_map (λ p. (p.0, p.1.now)) result ≡ number_in bytes.now }
    ensures less { IfSome result (λ p. length p.1.now < length bytes.now) }
{
    let len = digits_len(bytes);
    if len == 0 {
        return None;
    }
    let (digits, rest) = bytes.split_at(len);
    match number_of(digits) {
        Some(number) => Some((number, rest)),
        None => None,
    }
}

// What is behind `last`.
fn behind_last(bytes: &[u8]) -> Option<&[u8]>
    ensures is { option_copied result ≡ last_in bytes.now }
    ensures less { IfSome result (λ rest. length rest.now < length bytes.now) }
{
    let rest = behind(b'l', bytes)?;
    let rest = behind(b'a', rest)?;
    let rest = behind(b's', rest)?;
    behind(b't', rest)
}

// The element at a place from the front, behind `[`, and what is behind it.
fn element(bytes: &[u8]) -> Result<(JsonPathLeg, &[u8]), JsonPathError>
    ensures is { result_map_both (λ p. (leg_of p.0, p.1.now)) (λ e. e) result ≡ closed element (number_in bytes.now) }
    ensures less { IfOk result (λ p. length p.1.now < length bytes.now) }
{
    let Some((place, rest)) = number(bytes) else {
        return Err(JsonPathError::Place);
    };
    match behind(b']', rest) {
        Some(rest) => Ok((JsonPathLeg::Element(place), rest)),
        None => Err(JsonPathError::Place),
    }
}

// The element at a place from the end, behind `[last`, and what is behind it.
fn element_from_end(bytes: &[u8]) -> Result<(JsonPathLeg, &[u8]), JsonPathError>
    ensures is { result_map_both (λ p. (leg_of p.0, p.1.now)) (λ e. e) result ≡ from_last (behind 45 bytes.now) bytes.now }
    ensures less { IfOk result (λ p. length p.1.now < length bytes.now) }
{
    let (place, rest) = match behind(b'-', bytes) {
        Some(digits) => match number(digits) {
            Some(found) => found,
            None => return Err(JsonPathError::Place),
        },
        None => (0, bytes),
    };
    match behind(b']', rest) {
        Some(rest) => Ok((JsonPathLeg::FromEnd(place), rest)),
        None => Err(JsonPathError::Place),
    }
}

// The element behind `[`, and what is behind it.
#[tactic(auto, unfolding(crate::specs::Paths::place_in))]
fn place(bytes: &[u8]) -> Result<(JsonPathLeg, &[u8]), JsonPathError>
    ensures is { result_map_both (λ p. (leg_of p.0, p.1.now)) (λ e. e) result ≡ place_in bytes.now }
    ensures less { IfOk result (λ p. length p.1.now < length bytes.now) }
{
    match behind_last(bytes) {
        Some(rest) => element_from_end(rest),
        None => element(bytes),
    }
}

// ---- legs

// The leg at the front, and what is behind it.
#[tactic(auto, unfolding(crate::specs::Paths::IsLegIn))]
fn leg(alloc: Global, bytes: &[u8]) -> Result<(JsonPathLeg, &[u8]), JsonPathError>
    ensures found { IfOk result (λ p. IsLegIn (Ok (leg_of p.0, p.1.now)) bytes.now) }
    ensures refused { IfErr result (λ e. (e ≡ Memory) ⊎ IsLegIn (Err e) bytes.now) }
    ensures less { IfOk result (λ p. length p.1.now < length bytes.now) }
{
    if let Some(rest) = behind(b'.', bytes) {
        return member(alloc, rest);
    }
    if let Some(rest) = behind(b'[', bytes) {
        return place(rest);
    }
    Err(JsonPathError::Leg)
}

// Appends a leg.
fn push(legs: &mut Vec<JsonPathLeg>, leg: JsonPathLeg) -> Result<(), AllocError>
    ensures { OnOk result (legs.new.items ≡ legs.old.items ++ leg ∷ []) }
{
    legs.push(leg)?;
    Ok(())
}

// The legs behind `$`, up to the last byte.
fn legs(alloc: Global, bytes: &[u8]) -> Result<Vec<JsonPathLeg>, JsonPathError>
    ensures found { IfOk result (λ legs. AreLegs (map leg_of legs.items) bytes.now []) }
    ensures refused { IfErr result (λ e. (e ≡ Memory) ⊎ AreRefused e bytes.now) }
{
    let mut legs = Vec::new(alloc);
    let mut rest = bytes;
    'legs: while !rest.is_empty() {
        let (leg, others) = leg(alloc, rest)?;
        push(&mut legs, leg)?;
        rest = others;
    }
    Ok(legs)
}

impl JsonPath {
    ghost use Rattle.std.specs.Prelude.{◌≡◌, ◌⊎◌, IfOk, IfErr};
    ghost use Rattle.binary_json_writing.specs.declared.paths.JsonPathError.TheVariants.{Memory};
    ghost use Rattle.binary_json_writing.specs.Paths.{legs_of, IsPath, IsRefusedPath};

    /// The path that the bytes spell: `$`, and then members, `.name` or `."any name"`, and places in arrays, `[0]`, `[last]` or
    /// `[last-1]`. There is no whitespace, and there are no wildcards and ranges, which no diff has. A name without quotes has
    /// letters, digits, `_`, `$` and bytes beyond ASCII, and doesn't begin with a digit. In quotes `\` stands in front of one of
    /// `"\/bfnrt`, or of `u00` and two hexadecimal digits below 80.
    ///
    /// # Errors
    ///
    /// The first refusal, from the first byte on; or `Memory`, if memory is refused before.
    pub fn parse(alloc: Global, bytes: &[u8]) -> Result<JsonPath, JsonPathError>
        ensures found { IfOk result (λ path. IsPath (legs_of path) bytes.now) }
        ensures refused { IfErr result (λ e. (e ≡ Memory) ⊎ IsRefusedPath e bytes.now) }
    {
        let Some(spelled) = behind(b'$', bytes) else {
            return Err(JsonPathError::Root);
        };
        let legs = legs(alloc, spelled)?;
        Ok(JsonPath { legs })
    }

    /// Its legs, from the document on.
    pub fn legs(&self) -> &[JsonPathLeg]
        ensures { result.now ≡ self.now.legs.items }
    {
        &self.legs
    }
}
