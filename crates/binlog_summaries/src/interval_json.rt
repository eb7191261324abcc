//! The lines of JSON of statistics by time.
ghost use Rattle.std.specs.Io.KnownBytes.{Appends};
ghost use Rattle.std.specs.Prelude.{◌≡◌, OnOk, flat_map};
ghost use Rattle.json_line.specs.Tokens.{Adds};
ghost use Rattle.binlog_summaries.specs.IntervalJson.{counts_members, interval_object, intervals_object, interval_line, intervals_json};
ghost use Rattle.binlog_summaries.specs.JsonLines.{line_of};

use crate::json_lines::end_line;
use binlog_file::Error;
use change_statistics::{EventCounts, IntervalStats};
use json_line::Line;
use std::alloc::{AllocError, Global};
use std::io::Write;

/// Writes statistics by time as lines of JSON: an object of all intervals, and one for each interval with events, in order.
///
/// # Errors
///
/// - [`Error::Memory`] if an allocation fails for a line.
/// - [`Error::Writer`] if the writer fails.
pub fn write_intervals_json<W: Write>(
    alloc: Global,
    stats: &IntervalStats,
    output: &mut W,
) -> Result<(), Error>
    ensures { OnOk result (Appends (W.contents output.old) (W.contents output.new) (intervals_json stats.now)) }
{
    let mut line = Line::new(alloc);
    write_objects(&mut line, stats, output)
}

// Writes the line of all intervals, and those of the intervals.
#[tactic(auto, using(change_statistics::proofs::WrittenTexts::appends_both))]
fn write_objects<W: Write>(
    line: &mut Line,
    stats: &IntervalStats,
    output: &mut W,
) -> Result<(), Error>
    ensures { OnOk result (Appends (W.contents output.old) (W.contents output.new) (intervals_json stats.now)) }
{
    write_head_line(line, stats, output)?;
    write_lines(line, stats, output)
}

// Makes the line of all intervals, and writes it.
fn write_head_line<W: Write>(
    line: &mut Line,
    stats: &IntervalStats,
    output: &mut W,
) -> Result<(), Error>
    ensures { OnOk result (Appends (W.contents output.old) (W.contents output.new) (line_of (intervals_object stats.now))) }
{
    write_head(line, stats)?;
    end_line(line, output)
}

// Writes the lines of the intervals.
fn write_lines<W: Write>(
    line: &mut Line,
    stats: &IntervalStats,
    output: &mut W,
) -> Result<(), Error>
    ensures { OnOk result (Appends (W.contents output.old) (W.contents output.new) (flat_map interval_line stats.now.intervals.entries)) }
{
    'intervals: for (start, counts) in stats.intervals.iter() {
        write_line(line, *start, counts, output)?;
    }
    Ok(())
}

// Makes the line of an interval, and writes it.
fn write_line<W: Write>(
    line: &mut Line,
    start: u32,
    counts: &EventCounts,
    output: &mut W,
) -> Result<(), Error>
    ensures { OnOk result (Appends (W.contents output.old) (W.contents output.new) (interval_line (start, counts.now))) }
{
    write_interval(line, start, counts)?;
    end_line(line, output)
}

// Makes the line of the object above the intervals.
fn write_head(line: &mut Line, stats: &IntervalStats) -> Result<(), AllocError>
    ensures { OnOk result (line.new ≡ intervals_object stats.now) }
{
    line.clear();
    line.begin_object()?;
    line.number_member("intervals", stats.intervals.len() as u64)?;
    line.number_member("seconds", stats.seconds.get() as u64)?;
    line.end_object()?;
    Ok(())
}

// Makes the line of an interval.
fn write_interval(line: &mut Line, start: u32, counts: &EventCounts) -> Result<(), AllocError>
    ensures { OnOk result (line.new ≡ interval_object (start, counts.now)) }
{
    line.clear();
    line.begin_object()?;
    line.number_member("time", u64::from(start))?;
    write_counts(line, counts)?;
    line.end_object()?;
    Ok(())
}

// Writes the members of the counts of an interval.
fn write_counts(line: &mut Line, counts: &EventCounts) -> Result<(), AllocError>
    ensures { Adds result line.old line.new (counts_members counts.now) }
{
    line.number_member("events", counts.events)?;
    line.number_member("bytes", counts.bytes)?;
    line.number_member("transactions", counts.transactions)?;
    line.number_member("inserted", counts.inserted)?;
    line.number_member("updated", counts.updated)?;
    line.number_member("deleted", counts.deleted)?;
    line.number_member("unread_events", counts.unread_events)?;
    Ok(())
}
