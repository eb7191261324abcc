//! Decimal numbers as text.
#![tactic(auto, using(std::proofs::Common::append_assoc))]

ghost use Rattle.std.specs.Prelude.{◌≡◌, ◌≤◌, ◌<◌, ◌+◌, ◌-◌, ◌*◌, ◌/◌, ◌%◌, ◌^◌, ◌++◌, OnOk, OnErr, is_ok, length, if◌then◌else◌};
ghost use Rattle.std.specs.String.{string_bytes};
ghost use Rattle.binlog_values.specs.Contents.{digits_len, magnitude};
ghost use Rattle.binlog_values.specs.Texts.{StartsWith};
ghost use Rattle.binlog_values.specs.DecimalGroups.{group_text, nines_text, whole_text, part_text, scale_text, whole_len};

use crate::digits::{digits_len, group_number};
use crate::text::{push_last_digits, push_number};
use std::alloc::AllocError;

/// Appends a group before the point, without the zeros before the first digit that isn't zero.
fn push_group(text: &mut String, is_begun: bool, digits: u8, number: u64) -> Result<(), AllocError>
    requires { digits ≤ 9 }
    ensures { string_bytes text.new ≡ (if is_ok result then string_bytes text.old ++ group_text is_begun digits number else string_bytes text.old) }
{
    if is_begun {
        push_last_digits(text, digits, number)
    } else if number == 0 {
        Ok(())
    } else {
        push_number(text, number)
    }
}

/// Appends this many digits before the point.
#[tactic(auto, using(std::proofs::Common::append_assoc), unfolding(crate::specs::DecimalGroups::whole_text))]
pub(crate) fn push_whole(text: &mut String, bytes: &[u8], digits: u8) -> Result<(), AllocError>
    requires { whole_len digits ≤ length bytes.now }
    ensures ok { OnOk result (string_bytes text.new ≡ string_bytes text.old ++ whole_text digits (magnitude bytes.now)) }
    ensures err { OnErr result (StartsWith (string_bytes text.old) (string_bytes text.new)) }
{
    let lead = digits % 9;
    let first = group_number(bytes, 0, lead);
    push_group(text, false, lead, first)?;
    push_nines(text, bytes, digits_len(lead), digits / 9, first != 0)
}

/// Appends this many groups of nine digits before the point.
fn push_nines(
    text: &mut String,
    bytes: &[u8],
    start: usize,
    count: u8,
    was_begun: bool,
) -> Result<(), AllocError>
    requires { start + 4 * count ≤ length bytes.now }
    ensures ok { OnOk result (string_bytes text.new ≡ string_bytes text.old ++ nines_text count start was_begun (magnitude bytes.now)) }
    ensures err { OnErr result (StartsWith (string_bytes text.old) (string_bytes text.new)) }
{
    let mut place = start;
    let mut is_begun = was_begun;
    for _index in 0..count {
        let number = group_number(bytes, place, 9);
        push_group(text, is_begun, 9, number)?;
        is_begun |= number != 0;
        place += 4;
    }
    if is_begun {
        return Ok(());
    }
    text.push_str("0")
}

/// Appends this many groups of nine digits after the point, and a group of `tail` digits.
fn push_part(
    text: &mut String,
    bytes: &[u8],
    start: usize,
    count: u8,
    tail: u8,
) -> Result<(), AllocError>
    requires tail { tail ≤ 9 }
    requires room { start + 4 * count + digits_len tail ≤ length bytes.now }
    ensures ok { OnOk result (string_bytes text.new ≡ string_bytes text.old ++ part_text count start tail (magnitude bytes.now)) }
    ensures err { OnErr result (StartsWith (string_bytes text.old) (string_bytes text.new)) }
{
    let mut place = start;
    for _index in 0..count {
        push_last_digits(text, 9, group_number(bytes, place, 9))?;
        place += 4;
    }
    push_last_digits(text, tail, group_number(bytes, place, tail))
}

/// Appends the point and the digits after it, if there are any.
#[tactic(auto, using(std::proofs::Common::append_assoc), unfolding(crate::specs::DecimalGroups::scale_text))]
pub(crate) fn push_scale(
    text: &mut String,
    bytes: &[u8],
    start: usize,
    scale: u8,
) -> Result<(), AllocError>
    requires { start + 4 * (scale / 9) + digits_len (scale % 9) ≤ length bytes.now }
    ensures ok { OnOk result (string_bytes text.new ≡ string_bytes text.old ++ scale_text scale start (magnitude bytes.now)) }
    ensures err { OnErr result (StartsWith (string_bytes text.old) (string_bytes text.new)) }
{
    if scale == 0 {
        return Ok(());
    }
    text.push_str(".")?;
    push_part(text, bytes, start, scale / 9, scale % 9)
}
