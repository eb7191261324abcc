//! Strings as JSON.

ghost use Rattle.std.specs.Prelude.{◌≡◌};
ghost use Rattle.json_line.specs.Tokens.{Adds, bytes_value};
ghost use Rattle.binlog_optional_metadata.specs.Facts.{facts_of};
ghost use Rattle.binlog_json_values.specs.Values.{padded, string_value};

use binlog_optional_metadata::ColumnFacts;
use json_line::Line;
use std::alloc::AllocError;

/// Writes the bytes of a string of a column of which these facts are known.
#[inline(always)]
pub(crate) fn write_string(
    line: &mut Line,
    memory: &mut Vec<u8>,
    facts: &ColumnFacts<'_>,
    bytes: &[u8],
) -> Result<(), AllocError>
    ensures { Adds result line.old line.new (string_value (facts_of facts.now) bytes.now) }
{
    if facts.is_binary() {
        write_padded(line, memory, facts.padded_length as usize, bytes)
    } else {
        line.text_in_stated(facts.character_set, bytes)
    }
}

/// Writes the hexadecimal digits of bytes that are padded with zeros to this length.
#[tactic(auto, using(crate::proofs::Padding::long_enough))]
fn write_padded(
    line: &mut Line,
    memory: &mut Vec<u8>,
    length: usize,
    bytes: &[u8],
) -> Result<(), AllocError>
    ensures { Adds result line.old line.new (bytes_value (padded length bytes.now)) }
{
    if bytes.len() >= length {
        return line.bytes(bytes);
    }
    memory.clear();
    memory.extend_from_slice(bytes)?;
    memory.resize(length, 0)?;
    line.bytes(memory)
}
