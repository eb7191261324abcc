//! Opaque values as JSON.
#![tactic(auto, using(std::proofs::Common::append_assoc))]

ghost use Rattle.std.specs.Prelude.{◌≡◌, ◌∷◌, [], ◌++◌, OnOk, string_bytes};
ghost use Rattle.json.specs.Token.{number};
ghost use Rattle.json_line.specs.Tokens.{Adds};
ghost use Rattle.binary_json_lines.specs.Digits.{decimal_text};
ghost use Rattle.binary_json_lines.specs.Opaques.{base64_text, other_text, opaque_token};

use crate::decimals::push_decimal;
use crate::times::write_time;
use base64::engine::general_purpose::STANDARD;
use binary_json::{Decimal, OpaqueValue};
use itoa::Buffer;
use json_line::Line;
use std::alloc::AllocError;

// The number of bytes of a line of base64, which has 76 characters.
const LINE_BYTES: usize = 57;

// Appends bytes in lines of base64, with a line feed between two of them.
#[tactic(auto, using(std::proofs::Common::append_assoc, crate::proofs::Lines::line_step), unfolding(crate::specs::Opaques::base64_text))]
fn push_base64(text: &mut String, bytes: &[u8]) -> Result<(), AllocError>
    ensures { OnOk result (string_bytes text.new ≡ string_bytes text.old ++ base64_text bytes.now) }
{
    let count = bytes.len().saturating_sub(1) / LINE_BYTES;
    'lines: for index in 0..count {
        let line = &bytes[index * LINE_BYTES..(index + 1) * LINE_BYTES];
        STANDARD.encode_string(line, text)?;
        text.push_str("\n")?;
    }
    STANDARD.encode_string(&bytes[count * LINE_BYTES..], text)
}

// Appends the column type and the bytes.
#[tactic(auto, using(std::proofs::Common::append_assoc), unfolding(crate::specs::Opaques::other_text))]
fn push_other(text: &mut String, opaque: &OpaqueValue<'_>) -> Result<(), AllocError>
    ensures { OnOk result (string_bytes text.new ≡ string_bytes text.old ++ other_text opaque.now.column opaque.now.bytes.now) }
{
    let mut buffer = Buffer::new();
    text.push_str("base64:type")?;
    text.push_str(buffer.format(opaque.value_type()))?;
    text.push_str(":")?;
    push_base64(text, opaque.data())
}

// Writes a decimal number.
#[tactic(auto, using(std::proofs::Common::append_assoc, crate::proofs::NumberTexts::decimal_is_number))]
fn write_decimal(
    line: &mut Line,
    memory: &mut String,
    decimal: &Decimal<'_>,
) -> Result<(), AllocError>
    ensures { Adds result line.old line.new (number (decimal_text decimal.now.precision decimal.now.scale decimal.now.digits.now) ∷ []) }
{
    memory.clear();
    push_decimal(memory, decimal)?;
    line.number_text(memory)
}

/// Writes an opaque value: a decimal number, a string with a date or a time, or a string with the column type and the bytes.
pub(crate) fn write_opaque(
    line: &mut Line,
    memory: &mut String,
    opaque: &OpaqueValue<'_>,
) -> Result<(), AllocError>
    ensures { Adds result line.old line.new (opaque_token opaque.now.column opaque.now.bytes.now ∷ []) }
{
    if let Some(decimal) = opaque.decimal() {
        return write_decimal(line, memory, &decimal);
    }
    if let Some(packed) = opaque.packed_time() {
        return write_time(line, memory, opaque.value_type(), packed);
    }
    memory.clear();
    push_other(memory, opaque)?;
    line.string(memory)
}
