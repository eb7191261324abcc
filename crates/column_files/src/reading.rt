//! Reading the parts at the start of a text, each with the byte that ends it.
ghost use Rattle.std.specs.Prelude.{◌≡◌, ◌^◌, ◌<◌, ◌≤◌, true, length, IfOk};
ghost use Rattle.std.specs.Char.{is_ascii_digit};
ghost use Rattle.std.specs.List.{list_all, prefix_len};
ghost use Rattle.std.specs.Str.{all_ascii_digits, is_utf8};
ghost use Rattle.std.specs.Str.Lines.{strip_carriage_return};
ghost use Rattle.column_files.specs.Reading.{Gives, is_inside, ended, text_of, field_at, last_field_at, value_in, is_number, number_in, number_at};

use crate::error::{ColumnFileFault, Fault};
use crate::field::Field;
use std::str;

// Whether a byte doesn't end a field.
fn is_inside(byte: u8) -> bool
    ensures { result ≡ is_inside byte }
{
    byte != b'\t' && byte != b'\n'
}

// The number of bytes before the end of a field.
fn field_len(text: &[u8]) -> usize
    ensures count { result ≡ prefix_len is_inside text.now }
    ensures within { result ≤ length text.now }
{
    text.iter().take_while(|byte| is_inside(**byte)).count()
}

// What is left behind the byte that ends a field.
fn behind(rest: &[u8], end: u8) -> Result<&[u8], Fault>
    ensures value { Gives (λ left. left.now) result (ended end rest.now) }
    ensures short { IfOk result (λ left. length left.now < length rest.now) }
{
    match rest.split_first() {
        Some((first, left)) if *first == end => Ok(left),
        _ => Err(Fault::new(ColumnFileFault::Fields, rest)),
    }
}

// Whether the bytes are UTF-8.
fn is_utf8(bytes: &[u8]) -> bool
    ensures { result ≡ is_utf8 bytes.now }
{
    match str::from_utf8(bytes) {
        Ok(_) => true,
        Err(_) => false,
    }
}

// The field of these bytes, with which the text begins.
fn field_of<'a>(text: &[u8], raw: &'a [u8]) -> Result<Field<'a>, Fault>
    ensures { Gives (λ field. field) result (text_of text.now raw.now) }
{
    if !is_utf8(raw) {
        return Err(Fault::new(ColumnFileFault::Encoding, text));
    }
    match Field::new(raw) {
        Some(field) => Ok(field),
        None => Err(Fault::new(ColumnFileFault::Escape, text)),
    }
}

/// Reads a field that this byte ends.
#[tactic(auto, unfolding(crate::specs::Reading::field_at))]
pub(crate) fn field_at(text: &[u8], end: u8) -> Result<(Field<'_>, &[u8]), Fault>
    ensures value { Gives (λ x. (x.0, x.1.now)) result (field_at end text.now) }
    ensures short { IfOk result (λ x. length x.1.now < length text.now) }
{
    let count = field_len(text);
    let field = field_of(text, &text[..count])?;
    let rest = behind(&text[count..], end)?;
    Ok((field, rest))
}

// The bytes without a carriage return at their end.
fn before_carriage_return(bytes: &[u8]) -> &[u8]
    ensures { result.now ≡ strip_carriage_return bytes.now }
{
    if bytes.is_empty() {
        return bytes;
    }
    let last = bytes.len() - 1;
    if bytes[last] == b'\r' {
        &bytes[..last]
    } else {
        bytes
    }
}

/// Reads the last field of a line, and the end of the line.
#[tactic(auto, unfolding(crate::specs::Reading::last_field_at))]
pub(crate) fn last_field_at(text: &[u8]) -> Result<(Field<'_>, &[u8]), Fault>
    ensures value { Gives (λ x. (x.0, x.1.now)) result (last_field_at text.now) }
    ensures short { IfOk result (λ x. length x.1.now < length text.now) }
{
    let count = field_len(text);
    let field = field_of(text, before_carriage_return(&text[..count]))?;
    let rest = behind(&text[count..], b'\n')?;
    Ok((field, rest))
}

/// Whether all bytes are decimal digits.
pub(crate) fn are_digits(bytes: &[u8]) -> bool
    ensures { result ≡ list_all is_ascii_digit bytes.now }
{
    bytes.iter().all(|byte| byte.is_ascii_digit())
}

// Whether this is a number from 1 on in decimal digits, without a 0 before them.
#[tactic(auto, using(crate::proofs::Numbers::number_of_digits))]
fn is_number(field: &[u8]) -> bool
    ensures { result ≡ is_number field.now }
{
    match field.split_first() {
        Some((first, _)) => *first != b'0' && are_digits(field),
        None => false,
    }
}

/// The value of decimal digits, if it has 32 bits.
pub(crate) fn value_of(digits: &[u8]) -> Option<u32>
    requires some { 0 < length digits.now }
    requires digits { all_ascii_digits digits.now ≡ true }
    ensures { result ≡ value_in digits.now }
{
    let Ok(text) = str::from_utf8(digits) else {
        return None;
    };
    text.parse::<u32>().ok()
}

// The number that a field is, if it has 32 bits.
#[tactic(auto, using(crate::proofs::Numbers::has_digits, crate::proofs::Numbers::has_some))]
fn number_in(field: &[u8]) -> Option<u32>
    ensures { result ≡ number_in field.now }
{
    if is_number(field) {
        value_of(field)
    } else {
        None
    }
}

/// Reads the position of a column, and the tab behind it.
#[tactic(auto, unfolding(crate::specs::Reading::number_at))]
pub(crate) fn number_at(text: &[u8]) -> Result<(u32, &[u8]), Fault>
    ensures value { Gives (λ x. (x.0, x.1.now)) result (number_at text.now) }
    ensures short { IfOk result (λ x. length x.1.now < length text.now) }
{
    let count = field_len(text);
    match number_in(&text[..count]) {
        Some(number) => {
            let rest = behind(&text[count..], b'\t')?;
            Ok((number, rest))
        }
        None => Err(Fault::new(ColumnFileFault::Position, text)),
    }
}
