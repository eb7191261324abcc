//! Floating-point numbers as JSON, as MySQL lays them out.
ghost use Rattle.std.specs.Prelude.{◌≡◌, ◌∷◌, [], Some, IsTrue, from_bits};
ghost use Rattle.std.specs.Bool.{OnTrue};
ghost use Rattle.std.specs.Float.{binary64, float_is_finite};
ghost use Rattle.ryu.specs.Parse.{parse_float};
ghost use Rattle.json.specs.Print.{IsNumber};
ghost use Rattle.binary_json_lines.specs.Parts.{Writes, reading_back};

use binary_json::Double;
use fast_float::parse;
use json::is_number;
use json_line::Line;
use ryu::Buffer;
use std::alloc::AllocError;

/// The greatest power of ten by which MySQL divides without an exponent, and the most digits that it shows before the point.
const MOST_PLACES: u8 = 15;

// Appends the digits, one before the point, of a number that has 16 of them before the point.
fn push_large(text: &mut String, whole: &str) -> Result<(), AllocError> {
    let digits = whole.trim_end_matches('0');
    let mut rest = digits.chars();
    if let Some(first) = rest.next() {
        text.push(first)?;
    }
    if !rest.as_str().is_empty() {
        text.push_str(".")?;
        text.push_str(rest.as_str())?;
    }
    text.push_str("e15")
}

// Appends the digits behind a point and zeros: those of a number that is divided by a power of ten.
fn push_small(text: &mut String, digits: &str, places: u8) -> Result<(), AllocError> {
    text.push_str("0.")?;
    for _ in 1..places {
        text.push_str("0")?;
    }
    for part in digits.split('.') {
        text.push_str(part)?;
    }
    Ok(())
}

// Appends a number without a sign, where MySQL lays it out otherwise than `ryu`. Answers whether it does.
fn push_laid_out(text: &mut String, shortest: &str) -> Result<bool, AllocError> {
    if let Some((digits, exponent)) = shortest.split_once('e') {
        let Some(size) = exponent.strip_prefix('-') else {
            return Ok(false);
        };
        let Ok(places) = size.parse::<u8>() else {
            return Ok(false);
        };
        if places > MOST_PLACES {
            return Ok(false);
        }
        push_small(text, digits, places)?;
        return Ok(true);
    }
    let Some(whole) = shortest.strip_suffix(".0") else {
        return Ok(false);
    };
    if whole.len() <= usize::from(MOST_PLACES) {
        return Ok(false);
    }
    push_large(text, whole)?;
    Ok(true)
}

// The same of a number with a sign.
fn push_signed(text: &mut String, shortest: &str) -> Result<bool, AllocError> {
    match shortest.strip_prefix("-") {
        Some(size) => {
            text.push_str("-")?;
            push_laid_out(text, size)
        }
        None => push_laid_out(text, shortest),
    }
}

// Whether a text reads as the number whose shortest text this is.
#[tactic(auto, using(crate::proofs::DoubleLemmas::same_number))]
fn reads_as(text: &str, shortest: &str, number: f64) -> bool
    requires { parse_float binary64 shortest.now ≡ Some number }
    ensures { OnTrue result (parse_float binary64 text.now ≡ Some number) }
{
    let Ok(read) = parse::<f64, &str>(text) else {
        return false;
    };
    let mut buffer = Buffer::new();
    buffer.format(read) == shortest
}

/// Writes a floating-point number, which is finite.
// It is written as MySQL lays it out. That this reads back is looked at where `ryu`, whose text does, lays it out otherwise.
#[tactic(auto, using(crate::proofs::DoubleLemmas::shows_double))]
pub(crate) fn write_double(
    line: &mut Line,
    memory: &mut String,
    double: &Double,
) -> Result<(), AllocError>
    requires { IsTrue (float_is_finite (from_bits binary64 double.now.bits)) }
    ensures { Writes result line.old line.new (reading_back double.now.bits ∷ []) }
{
    let number = double.to_f64();
    let mut buffer = Buffer::new();
    let shortest = buffer.format_finite(number);
    memory.clear();
    if push_signed(memory, shortest)? {
        let text = memory.as_str();
        if is_number(text) {
            if reads_as(text, shortest, number) {
                return line.number_text(text);
            }
        }
    }
    line.number_text(shortest)
}
