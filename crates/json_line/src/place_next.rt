//! Writing what stands next in a line at the beginning of memory that has room for it: a comma if wanted, and a text, a name or a
//! number. Each function returns how many bytes it wrote.
ghost use Rattle.std.specs.Prelude.{◌≡◌, ◌+◌, ◌≤◌, [], ◌∷◌, ◌++◌, length, take};
ghost use Rattle.std.specs.Fmt.{decimal, signed_decimal};
ghost use Rattle.json.specs.Filled.{Placed};
ghost use Rattle.json_line.specs.Buffers.{comma};
ghost use Rattle.json_line.specs.Decimals.{decimal_text};

use crate::decimal_parts::DecimalParts;
use crate::place::{place_byte, place_bytes, place_comma, place_minus, place_number, place_short};
use crate::place_decimal::place_decimal;

/// Writes a comma if wanted, and the bytes.
#[inline(always)]
pub(crate) fn place_next_bytes(memory: &mut [u8], after_value: bool, text: &[u8]) -> usize
    requires { length text.now + 1 ≤ length memory.old }
    ensures { Placed memory.old memory.new 0 (comma after_value ++ text.now) result }
{
    let at = place_comma(memory, 0, after_value);
    place_bytes(memory, at, text)
}

/// Writes a comma if wanted, and the first `len` bytes, at most 32, of as many.
#[inline(always)]
pub(crate) fn place_next_short(
    memory: &mut [u8],
    after_value: bool,
    bytes: &[u8],
    len: usize,
) -> usize
    requires { (len ≤ 32) × (32 ≤ length bytes.now) × (33 ≤ length memory.old) }
    ensures { Placed memory.old memory.new 0 (comma after_value ++ take len bytes.now) result }
{
    let at = place_comma(memory, 0, after_value);
    place_short(memory, at, bytes, len)
}

/// Writes a comma if wanted, and the bytes in quotation marks.
#[inline(always)]
pub(crate) fn place_next_quoted(memory: &mut [u8], after_value: bool, text: &[u8]) -> usize
    requires { length text.now + 3 ≤ length memory.old }
    ensures { Placed memory.old memory.new 0 (comma after_value ++ 34 ∷ (text.now ++ 34 ∷ [])) result }
{
    let at = place_comma(memory, 0, after_value);
    let at = place_byte(memory, at, b'"');
    let at = place_bytes(memory, at, text);
    place_byte(memory, at, b'"')
}

/// Writes a comma if wanted, the bytes in quotation marks, and a colon.
#[inline(always)]
pub(crate) fn place_next_name(memory: &mut [u8], after_value: bool, name: &[u8]) -> usize
    requires { length name.now + 4 ≤ length memory.old }
    ensures placed { Placed memory.old memory.new 0 (comma after_value ++ 34 ∷ (name.now ++ 34 ∷ 58 ∷ [])) result }
    ensures short { result ≤ length name.now + 4 }
{
    let at = place_comma(memory, 0, after_value);
    let at = place_byte(memory, at, b'"');
    let at = place_bytes(memory, at, name);
    let at = place_byte(memory, at, b'"');
    place_byte(memory, at, b':')
}

/// Writes a comma if wanted, and three texts.
#[inline(always)]
pub(crate) fn place_next_between(
    memory: &mut [u8],
    after_value: bool,
    before: &[u8],
    text: &[u8],
    after: &[u8],
) -> usize
    requires { length before.now + length text.now + length after.now + 1 ≤ length memory.old }
    ensures { Placed memory.old memory.new 0 (comma after_value ++ (before.now ++ (text.now ++ after.now))) result }
{
    let at = place_comma(memory, 0, after_value);
    let at = place_bytes(memory, at, before);
    let at = place_bytes(memory, at, text);
    place_bytes(memory, at, after)
}

/// Writes a comma if wanted, and a decimal number.
#[inline(always)]
pub(crate) fn place_next_number(memory: &mut [u8], after_value: bool, number: u64) -> usize
    requires { 21 ≤ length memory.old }
    ensures { Placed memory.old memory.new 0 (comma after_value ++ decimal number) result }
{
    let at = place_comma(memory, 0, after_value);
    place_number(memory, at, number)
}

/// Writes a comma if wanted, the bytes in quotation marks, a colon, and a decimal number.
#[inline(always)]
pub(crate) fn place_next_named_number(
    memory: &mut [u8],
    after_value: bool,
    name: &[u8],
    number: u64,
) -> usize
    requires { length name.now + 24 ≤ length memory.old }
    ensures { Placed memory.old memory.new 0 (comma after_value ++ (34 ∷ (name.now ++ 34 ∷ 58 ∷ [])) ++ decimal number) result }
{
    let at = place_next_name(memory, after_value, name);
    place_number(memory, at, number)
}

/// Writes a comma if wanted, and a signed decimal number.
#[inline(always)]
pub(crate) fn place_next_signed(memory: &mut [u8], after_value: bool, number: i64) -> usize
    requires { 22 ≤ length memory.old }
    ensures { Placed memory.old memory.new 0 (comma after_value ++ signed_decimal number) result }
{
    let at = place_comma(memory, 0, after_value);
    let at = place_minus(memory, at, number < 0);
    place_number(memory, at, number.unsigned_abs())
}

/// Writes a comma if wanted, and a decimal number in quotation marks.
#[inline(always)]
pub(crate) fn place_next_decimal(
    memory: &mut [u8],
    after_value: bool,
    parts: &DecimalParts<'_>,
) -> usize
    requires { 97 ≤ length memory.old }
    ensures { Placed memory.old memory.new 0 (comma after_value ++ 34 ∷ (decimal_text parts.now.is_negative parts.now.first parts.now.whole.now parts.now.scale parts.now.part.now parts.now.last ++ 34 ∷ [])) result }
{
    let at = place_comma(memory, 0, after_value);
    let at = place_byte(memory, at, b'"');
    let at = place_minus(memory, at, parts.is_negative);
    let at = place_decimal(memory, at, parts);
    place_byte(memory, at, b'"')
}
