//! Reading the parts at the start of a text. Each is read with the whitespace after it.
ghost use Rattle.std.specs.Prelude.{◌≡◌, ◌^◌, ◌<◌, ◌≤◌, ℕ, true, length, nat_lt, option_copied, Some, None, IfOk, IfSome, if◌then◌else◌};
ghost use Rattle.std.specs.Char.{is_ascii_digit};
ghost use Rattle.std.specs.List.{prefix_len};
ghost use Rattle.std.specs.Str.{all_ascii_digits};
ghost use Rattle.binlog_variable_fields.specs.Tags.{is_first, is_later};
ghost use Rattle.binlog_gtid_text.specs.Reading.{Gives, is_space, skip, after, uuid_at, value_in, number_at, interval_at, IsInRange, begins_tag, named_at, tag_at, source_at, numbers_at, piece_at};

use crate::error::{Fault, GtidTextFault};
use crate::piece::Piece;
use binlog_variable_fields::{GnoInterval, Tag};
use uuid::Uuid;

/// The length of a UUID's text.
const UUID_LEN: usize = 36;

/// The number after the greatest transaction number.
const GNO_END: u64 = 1 << 63;

// Whether a byte is whitespace.
fn is_space(byte: u8) -> bool
    ensures { result ≡ is_space byte }
{
    byte == b' ' || (byte >= b'\t' && byte <= b'\r')
}

// The number of bytes of whitespace at the start.
fn spaces_len(text: &[u8]) -> usize
    ensures count { result ≡ prefix_len is_space text.now }
    ensures within { result ≤ length text.now }
{
    text.iter().take_while(|byte| is_space(**byte)).count()
}

/// What is left after whitespace.
pub(crate) fn skip_spaces(text: &[u8]) -> &[u8]
    ensures value { result.now ≡ skip text.now }
    ensures short { length result.now ≤ length text.now }
{
    let count = spaces_len(text);
    &text[count..]
}

// What is left after a byte and whitespace, if the text begins with the byte.
fn after(text: &[u8], byte: u8) -> Option<&[u8]>
    ensures value { option_copied result ≡ after byte text.now }
    ensures short { IfSome result (λ rest. length rest.now < length text.now) }
{
    match text.split_first() {
        Some((first, rest)) if *first == byte => Some(skip_spaces(rest)),
        _ => None,
    }
}

/// Reads a UUID.
#[tactic(auto, unfolding(crate::specs::Reading::uuid_at))]
pub(crate) fn uuid_at(text: &[u8]) -> Result<([u8; 16], &[u8]), Fault>
    ensures value { Gives (λ x. (x.0, x.1.now)) result (uuid_at text.now) }
    ensures short { IfOk result (λ x. length x.1.now ≤ length text.now) }
{
    if text.len() < UUID_LEN {
        return Err(Fault::new(GtidTextFault::Uuid, text));
    }
    match Uuid::try_parse_ascii(&text[..UUID_LEN]) {
        Ok(uuid) => Ok((uuid.into_bytes(), skip_spaces(&text[UUID_LEN..]))),
        Err(_) => Err(Fault::new(GtidTextFault::Uuid, text)),
    }
}

// The number of decimal digits at the start.
fn digits_len(text: &[u8]) -> usize
    ensures count { result ≡ prefix_len is_ascii_digit text.now }
    ensures within { result ≤ length text.now }
{
    text.iter().take_while(|byte| byte.is_ascii_digit()).count()
}

// The number, if it is below 2^63.
fn in_range(number: u64) -> Option<u64>
    ensures value { result ≡ (if nat_lt number (2 ^ 63) then Some number else None) }
    ensures small { IfSome result (λ n. n < 2 ^ 63) }
{
    if number < GNO_END { Some(number) } else { None }
}

// The value of decimal digits, if it is below 2^63.
fn value_of(digits: &[u8]) -> Option<u64>
    requires some { 0 < length digits.now }
    requires digits { all_ascii_digits digits.now ≡ true }
    ensures value { result ≡ value_in digits.now }
    ensures small { IfSome result (λ n. n < 2 ^ 63) }
{
    let Ok(text) = str::from_utf8(digits) else {
        return None;
    };
    match text.parse::<u64>() {
        Ok(number) => in_range(number),
        Err(_) => None,
    }
}

// Reads a number below 2^63.
#[tactic(auto, unfolding(crate::specs::Reading::number_at))]
fn number_at(text: &[u8]) -> Result<(u64, &[u8]), Fault>
    ensures value { Gives (λ x. (x.0, x.1.now)) result (number_at text.now) }
    ensures small { IfOk result (λ x. x.0 < 2 ^ 63) }
    ensures short { IfOk result (λ x. length x.1.now ≤ length text.now) }
{
    let count = digits_len(text);
    if count == 0 {
        return Err(Fault::new(GtidTextFault::Number, text));
    }
    match value_of(&text[..count]) {
        Some(number) => Ok((number, skip_spaces(&text[count..]))),
        None => Err(Fault::new(GtidTextFault::Range, text)),
    }
}

// Reads an interval: a number, or two with a `-` between.
#[tactic(auto, unfolding(crate::specs::Reading::interval_at))]
fn interval_at(text: &[u8]) -> Result<(GnoInterval, &[u8]), Fault>
    ensures value { Gives (λ x. (x.0, x.1.now)) result (interval_at text.now) }
    ensures positive { IfOk result (λ x. 1 ≤ x.0.start) }
    ensures small { IfOk result (λ x. x.0.end ≤ 2 ^ 63) }
    ensures short { IfOk result (λ x. length x.1.now ≤ length text.now) }
{
    let (first, rest) = number_at(text)?;
    if first == 0 {
        return Err(Fault::new(GtidTextFault::Range, text));
    }
    match after(rest, b'-') {
        None => Ok((GnoInterval::new(first, first + 1), rest)),
        Some(rest) => {
            let (last, rest) = number_at(rest)?;
            Ok((GnoInterval::new(first, last + 1), rest))
        }
    }
}

// Whether a tag begins here.
fn begins_tag(text: &[u8]) -> bool
    ensures { result ≡ begins_tag text.now }
{
    match text.first() {
        Some(byte) => byte.is_ascii_alphabetic() || *byte == b'_',
        None => false,
    }
}

// The number of bytes at the start that can be later bytes of a tag.
fn tag_len(text: &[u8]) -> usize
    ensures count { result ≡ prefix_len is_later text.now }
    ensures within { result ≤ length text.now }
{
    text.iter()
        .take_while(|byte| byte.is_ascii_alphanumeric() || **byte == b'_')
        .count()
}

// Reads a tag and a `:`.
#[tactic(auto, unfolding(crate::specs::Reading::named_at))]
fn named_at(text: &[u8]) -> Result<(Option<Tag<'_>>, &[u8]), Fault>
    ensures value { Gives (λ x. (x.0, x.1.now)) result (named_at text.now) }
    ensures short { IfOk result (λ x. length x.1.now ≤ length text.now) }
{
    let count = tag_len(text);
    let rest = skip_spaces(&text[count..]);
    match Tag::from_bytes(&text[..count]) {
        Err(_) => Err(Fault::new(GtidTextFault::Tag, text)),
        Ok(tag) => match after(rest, b':') {
            Some(rest) => Ok((Some(tag), rest)),
            None => Err(Fault::new(GtidTextFault::Colon, rest)),
        },
    }
}

// Reads a tag and a `:`, if there is a tag.
#[tactic(auto, unfolding(crate::specs::Reading::tag_at))]
fn tag_at(text: &[u8]) -> Result<(Option<Tag<'_>>, &[u8]), Fault>
    ensures value { Gives (λ x. (x.0, x.1.now)) result (tag_at text.now) }
    ensures short { IfOk result (λ x. length x.1.now ≤ length text.now) }
{
    if begins_tag(text) {
        named_at(text)
    } else {
        Ok((None, text))
    }
}

// Reads a UUID as a piece.
#[tactic(auto, unfolding(crate::specs::Reading::source_at))]
fn source_at(text: &[u8]) -> Result<(Piece<'_>, &[u8]), Fault>
    ensures value { Gives (λ x. (x.0, x.1.now)) result (source_at text.now) }
    ensures bounds { IfOk result (λ x. IsInRange x.0) }
    ensures short { IfOk result (λ x. length x.1.now ≤ length text.now) }
{
    let (sid, rest) = uuid_at(text)?;
    Ok((Piece::Source(sid), rest))
}

// Reads an interval, after a tag if there is one.
#[tactic(auto, unfolding(crate::specs::Reading::numbers_at))]
fn numbers_at(text: &[u8]) -> Result<(Piece<'_>, &[u8]), Fault>
    ensures value { Gives (λ x. (x.0, x.1.now)) result (numbers_at text.now) }
    ensures bounds { IfOk result (λ x. IsInRange x.0) }
    ensures short { IfOk result (λ x. length x.1.now ≤ length text.now) }
{
    let (tag, rest) = tag_at(text)?;
    let (interval, rest) = interval_at(rest)?;
    Ok((Piece::Numbers(tag, interval), rest))
}

/// Reads a UUID after a `,`, or an interval after a `:`.
#[tactic(auto, unfolding(crate::specs::Reading::piece_at))]
pub(crate) fn piece_at(text: &[u8]) -> Result<(Piece<'_>, &[u8]), Fault>
    ensures value { Gives (λ x. (x.0, x.1.now)) result (piece_at text.now) }
    ensures bounds { IfOk result (λ x. IsInRange x.0) }
    ensures shorter { IfOk result (λ x. length x.1.now < length text.now) }
{
    if let Some(rest) = after(text, b',') {
        return source_at(rest);
    }
    match after(text, b':') {
        Some(rest) => numbers_at(rest),
        None => Err(Fault::new(GtidTextFault::Separator, text)),
    }
}
