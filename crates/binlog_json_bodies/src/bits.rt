//! Bits as arrays of booleans.
ghost use Rattle.json_line.specs.Tokens.{Adds};
ghost use Rattle.binlog_json_bodies.specs.Bits.{bits_value};

use binlog_file::BitView;
use json_line::Line;
use std::alloc::AllocError;

/// Writes the bits as an array of booleans.
#[tactic(auto, unfolding(crate::specs::Bits::bits_value))]
pub(crate) fn write_bits(line: &mut Line, bits: BitView<'_>) -> Result<(), AllocError>
    ensures { Adds result line.old line.new (bits_value (bits.entry.len, bits.entry.bytes.now)) }
{
    line.begin_array()?;
    'bits: for index in 0..bits.len() {
        match bits.bit(index) {
            Some(bit) => line.boolean(bit)?,
            None => unreachable!(),
        }
    }
    line.end_array()
}
