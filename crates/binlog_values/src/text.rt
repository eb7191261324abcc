//! Text of numbers, which the text of decimal numbers, dates and times shares.
ghost use Rattle.std.specs.Prelude.{◌≡◌, ◌≤◌, ◌+◌, ◌%◌, ◌^◌, ◌++◌, is_ok, if◌then◌else◌};
ghost use Rattle.std.specs.String.{string_bytes};
ghost use Rattle.std.specs.Fmt.{decimal};
ghost use Rattle.binlog_values.specs.Texts.{digits_text, sign_text};

use itoa::Buffer;
use std::alloc::AllocError;

/// 10 to the power of `exponent`, at most 9.
#[inline(always)]
pub fn pow_10(exponent: u8) -> u64
    requires { exponent ≤ 9 }
    ensures power { result ≡ 10 ^ exponent }
    ensures some { 1 ≤ result }
    ensures small { result ≤ 10 ^ 9 }
{
    match exponent {
        0 => 1,
        1 => 10,
        2 => 100,
        3 => 1_000,
        4 => 10_000,
        5 => 100_000,
        6 => 1_000_000,
        7 => 10_000_000,
        8 => 100_000_000,
        _ => 1_000_000_000,
    }
}

/// Appends the last `count` decimal digits of a number, at most nine.
///
/// # Errors
///
/// `AllocError` if memory is refused. The text is then as it was.
// They are the digits behind the first one of a number with a one before them, which keeps the zeros in front. Inlined, since
// most callers know the count: the digits are then a load and a store.
#[inline(always)]
pub fn push_last_digits(text: &mut String, count: u8, number: u64) -> Result<(), AllocError>
    requires { count ≤ 9 }
    ensures { string_bytes text.new ≡ (if is_ok result then string_bytes text.old ++ digits_text count number else string_bytes text.old) }
{
    let power = pow_10(count);
    let mut buffer = Buffer::new();
    let digits = buffer.format(power + number % power);
    text.push_str(&digits[1..1 + usize::from(count)])
}

/// Appends a number in decimal.
///
/// # Errors
///
/// `AllocError` if memory is refused. The text is then as it was.
pub fn push_number(text: &mut String, number: u64) -> Result<(), AllocError>
    ensures { string_bytes text.new ≡ (if is_ok result then string_bytes text.old ++ decimal number else string_bytes text.old) }
{
    let mut buffer = Buffer::new();
    text.push_str(buffer.format(number))
}

/// Appends a minus sign for a negative number.
///
/// # Errors
///
/// `AllocError` if memory is refused. The text is then as it was.
pub fn push_sign(text: &mut String, is_negative: bool) -> Result<(), AllocError>
    ensures { string_bytes text.new ≡ (if is_ok result then string_bytes text.old ++ sign_text is_negative else string_bytes text.old) }
{
    if is_negative {
        text.push_str("-")?;
    }
    Ok(())
}
