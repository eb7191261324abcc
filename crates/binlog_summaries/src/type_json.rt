//! The lines of JSON of statistics by type.
ghost use Rattle.std.specs.Io.KnownBytes.{Appends};
ghost use Rattle.std.specs.Prelude.{◌≡◌, OnOk, codes};
ghost use Rattle.json_line.specs.Tokens.{Adds, member, or_null};
ghost use Rattle.binlog_summaries.specs.JsonLines.{line_of};
ghost use Rattle.binlog_summaries.specs.TypeJson.{counts_members, largest_members, largest_object, lines_below, name_value, type_line, type_members, type_object, times_members, types_json, types_object};

use crate::json_lines::{end_line, write_time};
use binlog_commands::{Largest, Stats};
use binlog_event_types::name_of_number;
use binlog_file::Error;
use json_line::Line;
use std::alloc::{AllocError, Global};
use std::io::Write;

/// Writes statistics by type as lines of JSON: an object of all types, and one for each type with events, in ascending order of their
/// numbers.
///
/// # Errors
///
/// - [`Error::Memory`] if an allocation fails for a line.
/// - [`Error::Writer`] if the writer fails.
pub fn write_types_json<W: Write>(alloc: Global, stats: &Stats, output: &mut W) -> Result<(), Error>
    ensures { OnOk result (Appends (W.contents output.old) (W.contents output.new) (types_json stats.now)) }
{
    let mut line = Line::new(alloc);
    write_objects(&mut line, stats, output)
}

// Writes the line of all types, and those of the types.
#[tactic(auto, using(change_statistics::proofs::WrittenTexts::appends_both))]
fn write_objects<W: Write>(line: &mut Line, stats: &Stats, output: &mut W) -> Result<(), Error>
    ensures { OnOk result (Appends (W.contents output.old) (W.contents output.new) (types_json stats.now)) }
{
    write_head_line(line, stats, output)?;
    write_lines(line, stats, output)
}

// Makes the line of all types, and writes it.
fn write_head_line<W: Write>(line: &mut Line, stats: &Stats, output: &mut W) -> Result<(), Error>
    ensures { OnOk result (Appends (W.contents output.old) (W.contents output.new) (line_of (types_object stats.now))) }
{
    write_head(line, stats)?;
    end_line(line, output)
}

// Writes the lines of the types.
#[tactic(auto, using(crate::proofs::TypeLines::line_appended, crate::proofs::TypeLines::no_line_appended))]
fn write_lines<W: Write>(line: &mut Line, stats: &Stats, output: &mut W) -> Result<(), Error>
    ensures { OnOk result (Appends (W.contents output.old) (W.contents output.new) (lines_below 256 stats.now)) }
{
    for number in 0..256 {
        write_line(
            line,
            number as u8,
            stats.events[number],
            stats.bytes[number],
            output,
        )?;
    }
    Ok(())
}

// Makes the line of a type that has events, and writes it.
fn write_line<W: Write>(
    line: &mut Line,
    number: u8,
    events: u64,
    bytes: u64,
    output: &mut W,
) -> Result<(), Error>
    ensures { OnOk result (Appends (W.contents output.old) (W.contents output.new) (type_line number events bytes)) }
{
    if events == 0 {
        return Ok(());
    }
    write_type(line, number, events, bytes)?;
    end_line(line, output)
}

// Makes the line of the object above the types.
fn write_head(line: &mut Line, stats: &Stats) -> Result<(), AllocError>
    ensures { OnOk result (line.new ≡ types_object stats.now) }
{
    line.clear();
    line.begin_object()?;
    write_counts(line, stats)?;
    write_times(line, stats)?;
    write_largest(line, stats.largest)?;
    line.end_object()?;
    Ok(())
}

// Writes the members of the counts of all types.
fn write_counts(line: &mut Line, stats: &Stats) -> Result<(), AllocError>
    ensures { Adds result line.old line.new (counts_members stats.now) }
{
    line.number_member("events", stats.all_events())?;
    line.number_member("bytes", stats.all_bytes())?;
    line.number_member("damaged", stats.errors)?;
    line.number_member("transactions", stats.transactions)?;
    Ok(())
}

// Writes the members of the times of the first and of the last event.
fn write_times(line: &mut Line, stats: &Stats) -> Result<(), AllocError>
    ensures { Adds result line.old line.new (times_members stats.now) }
{
    write_time(line, "first_time", stats.first_time)?;
    write_time(line, "last_time", stats.last_time)?;
    Ok(())
}

// Writes the member of the largest event, or null.
fn write_largest(line: &mut Line, largest: Option<Largest>) -> Result<(), AllocError>
    ensures { Adds result line.old line.new (member (codes "largest") (or_null largest_object largest)) }
{
    line.key("largest")?;
    match largest {
        Some(largest) => write_event(line, &largest),
        None => line.null(),
    }
}

// Writes the object of the largest event.
fn write_event(line: &mut Line, largest: &Largest) -> Result<(), AllocError>
    ensures { Adds result line.old line.new (largest_object largest.now) }
{
    line.begin_object()?;
    write_event_members(line, largest)?;
    line.end_object()
}

// Writes the members of the largest event.
fn write_event_members(line: &mut Line, largest: &Largest) -> Result<(), AllocError>
    ensures { Adds result line.old line.new (largest_members largest.now) }
{
    line.number_member("index", largest.index)?;
    line.number_member("bytes", u64::from(largest.size))?;
    write_type_members(line, largest.event_type)
}

// Makes the line of a type.
fn write_type(line: &mut Line, number: u8, events: u64, bytes: u64) -> Result<(), AllocError>
    ensures { OnOk result (line.new ≡ type_object number events bytes) }
{
    line.clear();
    line.begin_object()?;
    write_type_members(line, number)?;
    line.number_member("events", events)?;
    line.number_member("bytes", bytes)?;
    line.end_object()?;
    Ok(())
}

/// Writes the members of the number and of the name of a type.
pub(crate) fn write_type_members(line: &mut Line, number: u8) -> Result<(), AllocError>
    ensures { Adds result line.old line.new (type_members number) }
{
    line.number_member("type", u64::from(number))?;
    line.key("name")?;
    write_name(line, number)
}

// Writes the name of a type, or null.
#[tactic(auto, unfolding(crate::specs::TypeJson::name_value))]
fn write_name(line: &mut Line, number: u8) -> Result<(), AllocError>
    ensures { Adds result line.old line.new (name_value number) }
{
    match name_of_number(number) {
        Some(name) => line.string(name),
        None => line.null(),
    }
}
