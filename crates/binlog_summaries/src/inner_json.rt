//! The lines of JSON of statistics by type of the events inside compressed transactions.
ghost use Rattle.std.specs.Io.KnownBytes.{Appends};
ghost use Rattle.std.specs.Prelude.{◌≡◌, ◌++◌, OnOk};
ghost use Rattle.binlog_summaries.specs.InnerTypes.{head_object, inner_json, line_at, lines_below, type_object};
ghost use Rattle.binlog_summaries.specs.JsonLines.{line_of};

use crate::inner_text::is_empty;
use crate::json_lines::end_line;
use crate::type_json::write_type_members;
use binlog_file::Error;
use change_statistics::TypeCounts;
use json_line::Line;
use std::alloc::{AllocError, Global};
use std::io::Write;

/// Writes what is counted of the events inside compressed transactions as lines of JSON: an object of all types, and one for each type with
/// events. Nothing is written if there is no such event, and no error in the place of one.
///
/// # Errors
///
/// - [`Error::Memory`] if an allocation fails for a line.
/// - [`Error::Writer`] if the writer fails.
pub fn write_inner_types_json<W: Write>(
    alloc: Global,
    counts: &TypeCounts,
    output: &mut W,
) -> Result<(), Error>
    ensures { OnOk result (Appends (W.contents output.old) (W.contents output.new) (inner_json counts.now)) }
{
    if is_empty(counts) {
        return Ok(());
    }
    let mut line = Line::new(alloc);
    write_objects(&mut line, counts, output)
}

// Writes the line of all types, and those of the types.
#[tactic(auto, using(change_statistics::proofs::WrittenTexts::appends_both))]
fn write_objects<W: Write>(
    line: &mut Line,
    counts: &TypeCounts,
    output: &mut W,
) -> Result<(), Error>
    ensures { OnOk result (Appends (W.contents output.old) (W.contents output.new) (line_of (head_object counts.now) ++ lines_below 256 counts.now)) }
{
    write_head_line(line, counts, output)?;
    write_lines(line, counts, output)
}

// Makes the line of all types, and writes it.
fn write_head_line<W: Write>(
    line: &mut Line,
    counts: &TypeCounts,
    output: &mut W,
) -> Result<(), Error>
    ensures { OnOk result (Appends (W.contents output.old) (W.contents output.new) (line_of (head_object counts.now))) }
{
    write_head(line, counts)?;
    end_line(line, output)
}

// Writes the lines of the types.
#[tactic(auto, using(crate::proofs::InnerLines::line_appended, crate::proofs::InnerLines::no_line_appended))]
fn write_lines<W: Write>(line: &mut Line, counts: &TypeCounts, output: &mut W) -> Result<(), Error>
    ensures { OnOk result (Appends (W.contents output.old) (W.contents output.new) (lines_below 256 counts.now)) }
{
    for number in 0..256 {
        write_line(
            line,
            number as u8,
            counts.events[number],
            counts.bytes[number],
            output,
        )?;
    }
    Ok(())
}

// Makes the line of a type that has events, and writes it.
fn write_line<W: Write>(
    line: &mut Line,
    number: u8,
    events: u64,
    bytes: u64,
    output: &mut W,
) -> Result<(), Error>
    ensures { OnOk result (Appends (W.contents output.old) (W.contents output.new) (line_at number events bytes)) }
{
    if events == 0 {
        return Ok(());
    }
    write_type(line, number, events, bytes)?;
    end_line(line, output)
}

// Makes the line of the object above the types.
fn write_head(line: &mut Line, counts: &TypeCounts) -> Result<(), AllocError>
    ensures { OnOk result (line.new ≡ head_object counts.now) }
{
    line.clear();
    line.begin_object()?;
    line.number_member("inside_events", counts.all_events())?;
    line.number_member("inside_bytes", counts.all_bytes())?;
    line.number_member("inside_damaged", counts.errors)?;
    line.end_object()?;
    Ok(())
}

// Makes the line of a type.
fn write_type(line: &mut Line, number: u8, events: u64, bytes: u64) -> Result<(), AllocError>
    ensures { OnOk result (line.new ≡ type_object number events bytes) }
{
    line.clear();
    line.begin_object()?;
    write_type_members(line, number)?;
    line.number_member("inside_events", events)?;
    line.number_member("inside_bytes", bytes)?;
    line.end_object()?;
    Ok(())
}
