//! Numbers as JSON.
ghost use Rattle.std.specs.Prelude.{◌≡◌, ◌≤◌, ◌<◌, ◌-◌, ◌*◌, ◌^◌, ◌++◌, IsTrue};
ghost use Rattle.std.specs.Float.{float_is_finite};
ghost use Rattle.json_line.specs.Tokens.{Adds};
ghost use Rattle.binlog_json_values.specs.Numbers.{integer_value, single_parts, double_parts};
ghost use Rattle.binlog_json_values.specs.Parts.{Writes};

use binlog_values::{Double, Float, Integer};
use json_line::Line;
use ryu::Buffer;
use std::alloc::AllocError;

/// Writes an integer of an UNSIGNED column, or of a signed one.
#[inline(always)]
pub(crate) fn write_integer(
    line: &mut Line,
    is_unsigned: bool,
    integer: &Integer,
) -> Result<(), AllocError>
    ensures { Adds result line.old line.new (integer_value is_unsigned integer.now.size integer.now.bits) }
{
    if is_unsigned {
        return line.number(integer.unsigned());
    }
    line.signed_number(integer.signed())
}

/// Writes a floating-point number of four bytes; null if it isn't finite.
pub(crate) fn write_single(line: &mut Line, float: Float) -> Result<(), AllocError>
    ensures { Writes result line.old line.new (single_parts float.bits) }
{
    let number = float.to_f32();
    if !number.is_finite() {
        return line.null();
    }
    let mut buffer = Buffer::new();
    line.number_text(buffer.format_finite(number))
}

/// Writes a floating-point number of eight bytes; null if it isn't finite.
#[inline(always)]
pub(crate) fn write_double(line: &mut Line, double: Double) -> Result<(), AllocError>
    ensures { Writes result line.old line.new (double_parts double.bits) }
{
    let number = double.to_f64();
    if !number.is_finite() {
        return line.null();
    }
    let mut buffer = Buffer::new();
    line.number_text(buffer.format_finite(number))
}
