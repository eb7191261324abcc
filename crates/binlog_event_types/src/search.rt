//! The event types with a name.
ghost use Rattle.std.specs.Prelude.{◌↔◌, ℕ, map, IfOk, IsTrue, MatchOption, OnOk, ◌≡◌, ◌⊎◌};
ghost use Rattle.binlog_event_types.specs.TypeNames.{is_among, IsNamed, IsNamedBy, IsNameOf, IsShort};

use crate::numbers::name_of_number;
use std::alloc::{AllocError, Global};

/// The numbers of all event types that have one of these names, in ascending order. A name is that of a type of either
/// server, with or without its `_EVENT`, in any case of letters. It may be that of two types, one of each: `GTID`.
///
/// # Errors
///
/// An allocation fails.
pub fn numbers_with_names(alloc: Global, names: &[&str]) -> Result<Vec<u8>, AllocError>
    ensures { IfOk result (λ numbers. (number : ℕ) → IsTrue (is_among number numbers.items) ↔ IsNamedBy number (map (λ name. name.now) names.now)) }
{
    let mut numbers = Vec::new(alloc);
    for number in 0..256_u16 {
        add_if_named(&mut numbers, number as u8, names)?;
    }
    Ok(numbers)
}

// Adds a number if it is that of a type with one of these names.
fn add_if_named(numbers: &mut Vec<u8>, number: u8, names: &[&str]) -> Result<(), AllocError>
    ensures { OnOk result ((other : ℕ) → IsTrue (is_among other numbers.new.items) ↔ (IsTrue (is_among other numbers.old.items) ⊎ ((other ≡ number) × IsNamedBy number (map (λ name. name.now) names.now)))) }
{
    if has_one_of(number, names) {
        numbers.push(number)?;
    }
    Ok(())
}

// Whether the type with this number has one of these names.
fn has_one_of(number: u8, names: &[&str]) -> bool
    ensures { IsTrue result ↔ IsNamedBy number (map (λ name. name.now) names.now) }
{
    for name in names.iter() {
        if has_name(number, name) {
            return true;
        }
    }
    false
}

/// The first number of an event type with this name; None if no type has it. The name is that of a type of either server,
/// with or without its `_EVENT`, in any case of letters.
pub fn number_with_name(name: &str) -> Option<u8>
    ensures { MatchOption result ((number : ℕ) → IsNamed number name.now → ⊥) (λ number. IsNamed number name.now) }
{
    for number in 0..256_u16 {
        if has_name(number as u8, name) {
            return Some(number as u8);
        }
    }
    None
}

/// Whether the event type with this number has this name, with or without its `_EVENT`, in any case of letters.
pub fn has_name(number: u8, name: &str) -> bool
    ensures { IsTrue result ↔ IsNamed number name.now }
{
    match name_of_number(number) {
        Some(whole) => is_name_of(whole, name),
        None => false,
    }
}

// Whether a name is the whole one, with or without its `_EVENT`, in any case.
fn is_name_of(whole: &str, name: &str) -> bool
    ensures { IsTrue result ↔ IsNameOf whole.now name.now }
{
    name.eq_ignore_ascii_case(whole) || is_short(whole, name)
}

// Whether a name is the whole one up to its `_EVENT`, in any case.
fn is_short(whole: &str, name: &str) -> bool
    ensures { IsTrue result ↔ IsShort whole.now name.now }
{
    match whole.strip_suffix("_EVENT") {
        Some(short) => name.eq_ignore_ascii_case(short),
        None => false,
    }
}
