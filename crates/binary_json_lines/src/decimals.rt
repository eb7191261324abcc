//! Decimal numbers as text.
#![tactic(auto, using(std::proofs::Common::append_assoc))]

ghost use Rattle.std.specs.Prelude.{◌≡◌, ◌≤◌, ◌<◌, ◌+◌, ◌-◌, ◌*◌, ◌/◌, ◌%◌, ◌^◌, ◌∷◌, ◌++◌, [], OnOk, IfOk, string_bytes, if◌then◌else◌};
ghost use Rattle.binary_json.specs.Opaques.{digits_len, groups, groups_len, magnitude};
ghost use Rattle.binary_json_lines.specs.Digits.{last_digits, is_begun_by, digit_text, digits_text, nines_digits, whole_digits, whole_len, whole_text, scale_text, sign_text, decimal_text};

use binary_json::Decimal;
use binary_json::decimal::{digits_len, pow_10};
use std::alloc::AllocError;

// Appends a digit, if it is shown.
fn push_digit(text: &mut String, is_shown: bool, digit: u64) -> Result<(), AllocError>
    requires { digit < 10 }
    ensures { OnOk result (string_bytes text.new ≡ string_bytes text.old ++ digit_text is_shown digit) }
{
    if !is_shown {
        return Ok(());
    }
    text.push(char::from(b'0' + digit as u8))
}

/// Appends the last `count` decimal digits of a number. Zeros in front are left out, unless a digit before them isn't zero, as
/// `is_begun` says. Answers whether there is one now.
#[tactic(auto, using(std::proofs::Common::append_assoc, crate::proofs::DigitLemmas::first_digit, crate::proofs::DigitLemmas::first_begun))]
pub(crate) fn push_digits(
    text: &mut String,
    is_begun: bool,
    count: u8,
    number: u64,
) -> Result<bool, AllocError>
    requires { count ≤ 9 }
    ensures text { OnOk result (string_bytes text.new ≡ string_bytes text.old ++ digits_text is_begun (last_digits count number)) }
    ensures begun { IfOk result (λ begun. begun ≡ is_begun_by is_begun (last_digits count number)) }
{
    if count == 0 {
        return Ok(is_begun);
    }
    let digit = number / pow_10(count - 1) % 10;
    let is_shown = is_begun | (digit != 0);
    push_digit(text, is_shown, digit)?;
    push_digits(text, is_shown, count - 1, number)
}

// Appends so many groups of nine digits from the index `at`.
#[tactic(auto, using(std::proofs::Common::append_assoc, crate::proofs::DigitLemmas::first_nine, crate::proofs::DigitLemmas::nine_begun))]
fn push_nines(
    text: &mut String,
    is_begun: bool,
    decimal: &Decimal<'_>,
    at: usize,
    count: u8,
) -> Result<bool, AllocError>
    requires room { at + 4 * count ≤ groups_len (groups decimal.now.precision decimal.now.scale) }
    requires small { at + 4 * count < 2 ^ 32 }
    ensures text { OnOk result (string_bytes text.new ≡ string_bytes text.old ++ digits_text is_begun (nines_digits count at (magnitude decimal.now.digits.now))) }
    ensures begun { IfOk result (λ begun. begun ≡ is_begun_by is_begun (nines_digits count at (magnitude decimal.now.digits.now))) }
{
    if count == 0 {
        return Ok(is_begun);
    }
    let is_shown = push_digits(text, is_begun, 9, decimal.group(at, 9))?;
    push_nines(text, is_shown, decimal, at + 4, count - 1)
}

/// Appends a minus sign for a negative number.
pub(crate) fn push_sign(text: &mut String, is_negative: bool) -> Result<(), AllocError>
    ensures { OnOk result (string_bytes text.new ≡ string_bytes text.old ++ sign_text is_negative) }
{
    if is_negative {
        text.push_str("-")?;
    }
    Ok(())
}

// Appends a zero, if no digit is begun.
fn push_zero(text: &mut String, is_begun: bool) -> Result<(), AllocError>
    ensures { OnOk result (string_bytes text.new ≡ string_bytes text.old ++ (if is_begun then [] else 48 ∷ [])) }
{
    if is_begun {
        return Ok(());
    }
    text.push_str("0")
}

// Appends so many digits before the point.
#[tactic(auto, using(std::proofs::Common::append_assoc, crate::proofs::DigitLemmas::whole_shown))]
fn push_whole(text: &mut String, decimal: &Decimal<'_>, count: u8) -> Result<(), AllocError>
    requires { whole_len count ≤ groups_len (groups decimal.now.precision decimal.now.scale) }
    ensures { OnOk result (string_bytes text.new ≡ string_bytes text.old ++ whole_text (whole_digits count (magnitude decimal.now.digits.now))) }
{
    let lead = count % 9;
    let is_begun = push_digits(text, false, lead, decimal.group(0, lead))?;
    let is_begun = push_nines(text, is_begun, decimal, digits_len(lead), count / 9)?;
    push_zero(text, is_begun)
}

// Appends the point and so many digits behind it, whose bytes begin at the index `at`.
#[tactic(auto, using(std::proofs::Common::append_assoc, crate::proofs::DigitLemmas::scale_shown))]
fn push_scale(
    text: &mut String,
    decimal: &Decimal<'_>,
    at: usize,
    scale: u8,
) -> Result<(), AllocError>
    requires room { at + 4 * (scale / 9) + digits_len (scale % 9) ≤ groups_len (groups decimal.now.precision decimal.now.scale) }
    requires small { at < 2 ^ 16 }
    ensures { OnOk result (string_bytes text.new ≡ string_bytes text.old ++ scale_text scale at (magnitude decimal.now.digits.now)) }
{
    if scale == 0 {
        return Ok(());
    }
    text.push_str(".")?;
    push_nines(text, true, decimal, at, scale / 9)?;
    let tail = at + 4 * usize::from(scale / 9);
    push_digits(text, true, scale % 9, decimal.group(tail, scale % 9))?;
    Ok(())
}

/// Appends a decimal number with all digits after the point.
#[tactic(auto, using(std::proofs::Common::append_assoc, crate::proofs::DigitLemmas::digits_room), unfolding(crate::specs::Digits::decimal_text))]
pub(crate) fn push_decimal(text: &mut String, decimal: &Decimal<'_>) -> Result<(), AllocError>
    ensures { OnOk result (string_bytes text.new ≡ string_bytes text.old ++ decimal_text decimal.now.precision decimal.now.scale decimal.now.digits.now) }
{
    let whole = decimal.precision() - decimal.scale();
    let point = digits_len(whole % 9) + 4 * usize::from(whole / 9);
    push_sign(text, decimal.is_negative())?;
    push_whole(text, decimal, whole)?;
    push_scale(text, decimal, point, decimal.scale())
}
