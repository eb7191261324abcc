//! The numbers in the parentheses of a type.
ghost use Rattle.std.specs.Prelude.{◌≡◌, ◌≤◌, length, option_map};
ghost use Rattle.std.specs.List.{prefix_len};
ghost use Rattle.column_files.specs.TypeNumbers.{is_digits, number_in, is_inside, is_before_comma, numbers_in, closed, numbers_at};

use crate::reading::{are_digits, value_of};

/// The numbers in the parentheses of a type.
#[derive(Clone, Copy, Debug, PartialEq, Eq)]
pub(crate) enum Numbers {
    /// There are no parentheses.
    None,
    /// `(n)`.
    One(u32),
    /// `(m,n)`.
    Two(u32, u32),
}

// Whether these are decimal digits, at least one.
fn is_digits(text: &[u8]) -> bool
    ensures { result ≡ is_digits text.now }
{
    match text.split_first() {
        Some(_) => are_digits(text),
        None => false,
    }
}

// The number that a text is, if it has 32 bits.
#[tactic(auto, using(crate::proofs::Numbers::all_digits, crate::proofs::Numbers::some_digits))]
fn number_in(text: &[u8]) -> Option<u32>
    ensures { result ≡ number_in text.now }
{
    if is_digits(text) {
        value_of(text)
    } else {
        None
    }
}

// The number of bytes before the first comma.
fn comma_place(inside: &[u8]) -> usize
    ensures count { result ≡ prefix_len is_before_comma inside.now }
    ensures within { result ≤ length inside.now }
{
    inside.iter().take_while(|byte| **byte != b',').count()
}

// The numbers between parentheses.
fn numbers_in(inside: &[u8]) -> Option<Numbers>
    ensures { result ≡ numbers_in inside.now }
{
    let count = comma_place(inside);
    let first = number_in(&inside[..count])?;
    match inside[count..].split_first() {
        Some((_, behind)) => {
            let second = number_in(behind)?;
            Some(Numbers::Two(first, second))
        }
        None => Some(Numbers::One(first)),
    }
}

// The number of bytes before the first closing parenthesis.
fn closing_place(text: &[u8]) -> usize
    ensures count { result ≡ prefix_len is_inside text.now }
    ensures within { result ≤ length text.now }
{
    text.iter().take_while(|byte| **byte != b')').count()
}

// The numbers behind an opening parenthesis, and what is behind the closing one.
fn closed(text: &[u8]) -> Option<(Numbers, &[u8])>
    ensures { option_map (λ x. (x.0, x.1.now)) result ≡ closed text.now }
{
    let count = closing_place(text);
    let (_, behind) = text[count..].split_first()?;
    let numbers = numbers_in(&text[..count])?;
    Some((numbers, behind))
}

/// The numbers in the parentheses with which a text begins, if it does, and what is behind them.
pub(crate) fn numbers_at(text: &[u8]) -> Option<(Numbers, &[u8])>
    ensures { option_map (λ x. (x.0, x.1.now)) result ≡ numbers_at text.now }
{
    match text.split_first() {
        Some((b'(', inside)) => closed(inside),
        _ => Some((Numbers::None, text)),
    }
}
