//! The text of statistics by time.
ghost use Rattle.std.specs.Io.KnownBytes.{Appends};
ghost use Rattle.std.specs.Prelude.{◌≡◌, OnOk};
ghost use Rattle.binlog_summaries.specs.StatsText.{Writes};
ghost use Rattle.binlog_summaries.specs.IntervalText.{IsStart, counts_text, IsIntervalLine, AreIntervalLines, intervals_head, IsIntervalsText};

use crate::stats_text::datetime_of;
use crate::table_text::write_number;
use change_statistics::{EventCounts, IntervalStats};
use std::io;
use std::io::Write;

/// Writes the text of statistics by time.
pub fn write_intervals<W: Write>(stats: &IntervalStats, output: &mut W) -> io::Result<()>
    ensures { OnOk result (Writes (λ text. IsIntervalsText stats.now text) (W.contents output.old) (W.contents output.new)) }
{
    write_head(stats, output)?;
    write_lines(stats, output)
}

// Writes the lines above the intervals.
fn write_head<W: Write>(stats: &IntervalStats, output: &mut W) -> io::Result<()>
    ensures { OnOk result (Appends (W.contents output.old) (W.contents output.new) (intervals_head stats.now)) }
{
    write_number("intervals", stats.intervals.len() as u64, output)?;
    write_number("seconds", stats.seconds.get() as u64, output)
}

// Writes the lines of the intervals.
fn write_lines<W: Write>(stats: &IntervalStats, output: &mut W) -> io::Result<()>
    ensures { OnOk result (Writes (AreIntervalLines stats.now.intervals.entries) (W.contents output.old) (W.contents output.new)) }
{
    'intervals: for (start, counts) in stats.intervals.iter() {
        write_line(*start, counts, output)?;
    }
    Ok(())
}

// Writes the line of an interval.
fn write_line<W: Write>(start: u32, counts: &EventCounts, output: &mut W) -> io::Result<()>
    ensures { OnOk result (Writes (IsIntervalLine (start, counts.now)) (W.contents output.old) (W.contents output.new)) }
{
    write_start(start, output)?;
    write_counts(counts, output)
}

// Writes when an interval begins.
fn write_start<W: Write>(start: u32, output: &mut W) -> io::Result<()>
    ensures { OnOk result (Writes (IsStart start) (W.contents output.old) (W.contents output.new)) }
{
    let time = datetime_of(start);
    write!(output, "time {time}Z ")
}

// Writes the counts of an interval.
fn write_counts<W: Write>(counts: &EventCounts, output: &mut W) -> io::Result<()>
    ensures { OnOk result (Appends (W.contents output.old) (W.contents output.new) (counts_text counts.now)) }
{
    let events = counts.events;
    let bytes = counts.bytes;
    let transactions = counts.transactions;
    let inserted = counts.inserted;
    let updated = counts.updated;
    let deleted = counts.deleted;
    let unread = counts.unread_events;
    writeln!(
        output,
        "{events} events {bytes} bytes {transactions} transactions {inserted} inserted {updated} updated {deleted} deleted {unread} unread"
    )
}
