//! Dates and times as text.
#![tactic(auto, using(std::proofs::Common::append_assoc))]

ghost use Rattle.std.specs.Prelude.{◌≡◌, ◌≤◌, ◌<◌, ◌/◌, ◌%◌, ◌^◌, ◌∷◌, [], ◌++◌, OnOk, string_bytes};
ghost use Rattle.json.specs.Token.{string};
ghost use Rattle.json_line.specs.Tokens.{Adds};
ghost use Rattle.binary_json_lines.specs.Digits.{padded_text};
ghost use Rattle.binary_json_lines.specs.Times.{date_text, clock_text, size_text, time_text};

use crate::decimals::{push_digits, push_sign};
use binary_json::decimal::pow_10;
use itoa::Buffer;
use json_line::{DateParts, Line, TimeParts};
use std::alloc::AllocError;

/// The column type of DATE.
const DATE: u8 = 10;

/// The column type of TIME.
const TIME: u8 = 11;

// Appends a number in so many digits or more.
fn push_padded(text: &mut String, count: u8, number: u64) -> Result<(), AllocError>
    requires { count ≤ 9 }
    ensures { OnOk result (string_bytes text.new ≡ string_bytes text.old ++ padded_text count number) }
{
    if number < pow_10(count) {
        push_digits(text, true, count, number)?;
        return Ok(());
    }
    let mut buffer = Buffer::new();
    text.push_str(buffer.format(number))
}

// Appends a date by its number.
#[tactic(auto, using(std::proofs::Common::append_assoc), unfolding(crate::specs::Times::date_text))]
fn push_date(text: &mut String, date: u64) -> Result<(), AllocError>
    ensures { OnOk result (string_bytes text.new ≡ string_bytes text.old ++ date_text date) }
{
    push_padded(text, 4, date / 32 / 13)?;
    text.push_str("-")?;
    push_padded(text, 2, date / 32 % 13)?;
    text.push_str("-")?;
    push_padded(text, 2, date % 32)
}

// Appends a clock time of this hour.
#[tactic(auto, using(std::proofs::Common::append_assoc), unfolding(crate::specs::Times::clock_text))]
fn push_clock(text: &mut String, hour: u64, packed: u64) -> Result<(), AllocError>
    ensures { OnOk result (string_bytes text.new ≡ string_bytes text.old ++ clock_text hour packed) }
{
    push_padded(text, 2, hour)?;
    text.push_str(":")?;
    push_padded(text, 2, packed / 1_073_741_824 % 64)?;
    text.push_str(":")?;
    push_padded(text, 2, packed / 16_777_216 % 64)?;
    text.push_str(".")?;
    push_padded(text, 6, packed % 16_777_216)
}

// Appends the absolute value of a packed number.
#[tactic(auto, using(std::proofs::Common::append_assoc), unfolding(crate::specs::Times::size_text))]
fn push_size(text: &mut String, column: u8, packed: u64) -> Result<(), AllocError>
    ensures { OnOk result (string_bytes text.new ≡ string_bytes text.old ++ size_text column packed) }
{
    let hours = packed / 68_719_476_736;
    if column == TIME {
        return push_clock(text, hours % 1_024, packed);
    }
    if column == DATE {
        return push_date(text, hours / 32);
    }
    push_date(text, hours / 32)?;
    text.push_str(" ")?;
    push_clock(text, hours % 32, packed)
}

// Appends a TIMESTAMP, DATE, TIME or DATETIME.
#[tactic(auto, using(std::proofs::Common::append_assoc), unfolding(crate::specs::Times::time_text))]
fn push_time(text: &mut String, column: u8, packed: i64) -> Result<(), AllocError>
    ensures { OnOk result (string_bytes text.new ≡ string_bytes text.old ++ time_text column packed) }
{
    push_sign(text, packed < 0)?;
    push_size(text, column, packed.unsigned_abs())
}

// The parts of a date by its number.
fn date_parts(date: u64) -> DateParts
    ensures year { result.year ≡ date / 2 ^ 5 / 13 }
    ensures month { result.month ≡ date / 2 ^ 5 % 13 }
    ensures day { result.day ≡ date % 2 ^ 5 }
{
    DateParts {
        year: date / 32 / 13,
        month: (date / 32 % 13) as u8,
        day: (date % 32) as u8,
    }
}

// The parts of a clock time of this hour.
fn time_parts(hour: u64, packed: u64) -> TimeParts
    ensures hour { result.hour ≡ hour }
    ensures minute { result.minute ≡ packed / 2 ^ 30 % 2 ^ 6 }
    ensures second { result.second ≡ packed / 2 ^ 24 % 2 ^ 6 }
    ensures digits { result.digits ≡ 6 }
    ensures microseconds { result.microseconds ≡ packed % 2 ^ 24 }
{
    TimeParts {
        hour,
        minute: (packed / 1_073_741_824 % 64) as u8,
        second: (packed / 16_777_216 % 64) as u8,
        digits: 6,
        microseconds: packed % 16_777_216,
    }
}

// Writes a packed number that isn't negative, with fewer than a million microseconds.
#[tactic(auto, using(crate::proofs::TimeTexts::date_same, crate::proofs::TimeTexts::time_same, crate::proofs::TimeTexts::moment_same), unfolding(crate::specs::Times::size_text))]
fn write_size(line: &mut Line, column: u8, packed: u64) -> Result<(), AllocError>
    requires { packed % 2 ^ 24 < 10 ^ 6 }
    ensures { Adds result line.old line.new (string (size_text column packed) ∷ []) }
{
    let hours = packed / 68_719_476_736;
    if column == TIME {
        return line.time(false, &time_parts(hours % 1_024, packed));
    }
    let date = date_parts(hours / 32);
    if column == DATE {
        return line.date(&date);
    }
    line.date_time(&date, &time_parts(hours % 32, packed))
}

/// Writes a TIMESTAMP, DATE, TIME or DATETIME, as the column type says, by its packed number.
// A negative one, and one with a million microseconds or more, go through memory that is used again.
#[tactic(auto, using(crate::proofs::TimeTexts::positive))]
pub(crate) fn write_time(
    line: &mut Line,
    memory: &mut String,
    column: u8,
    packed: i64,
) -> Result<(), AllocError>
    ensures { Adds result line.old line.new (string (time_text column packed) ∷ []) }
{
    let size = packed.unsigned_abs();
    if packed < 0 || size % 16_777_216 >= 1_000_000 {
        memory.clear();
        push_time(memory, column, packed)?;
        return line.string(memory);
    }
    write_size(line, column, size)
}
