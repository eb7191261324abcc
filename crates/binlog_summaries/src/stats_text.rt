//! The text of `binlog stats` by type, and the line of `binlog verify`.
ghost use Rattle.std.specs.Io.KnownBytes.{Appends};
ghost use Rattle.std.specs.Prelude.{◌≡◌, OnOk, Some, codes, ◌++◌};
ghost use Rattle.jiff.specs.Words.{iso_datetime_text};
ghost use Rattle.binlog_commands.specs.Statistics.{total};
ghost use Rattle.binlog_summaries.specs.StatsText.{IsStatsText, IsTime, IsTimeLine, Writes, head_lines, largest_line, row_of, rows_below, type_text};
ghost use Rattle.binlog_summaries.specs.TallyText.{tally_line};

use binlog_commands::{Largest, Stats, Tally};
use binlog_event_types::name_of_number;
use jiff::Timestamp;
use jiff::civil::DateTime;
use jiff::tz::Offset;
use std::io;
use std::io::Write;

/// Writes the line of `binlog verify` for a file.
pub fn write_tally<W: Write>(name: &str, tally: &Tally, output: &mut W) -> io::Result<()>
    ensures { OnOk result (Appends (W.contents output.old) (W.contents output.new) (tally_line name.now tally.now)) }
{
    let events = tally.events;
    let bytes = tally.bytes;
    let checksums = tally.checksums;
    let errors = tally.errors;
    writeln!(
        output,
        "{name}: {events} events, {bytes} bytes, {checksums} checksums right, {errors} events damaged"
    )
}

/// Writes the lines of `binlog stats`.
pub fn write_stats<W: Write>(stats: &Stats, output: &mut W) -> io::Result<()>
    ensures { OnOk result (Writes (λ text. IsStatsText stats.now text) (W.contents output.old) (W.contents output.new)) }
{
    let bytes = stats.all_bytes();
    write_head(stats, output)?;
    write_time("first", stats.first_time, output)?;
    write_time("last", stats.last_time, output)?;
    write_largest(stats.largest, output)?;
    write_rows(stats, bytes, output)
}

// Writes the counts of all types.
fn write_head<W: Write>(stats: &Stats, output: &mut W) -> io::Result<()>
    ensures { OnOk result (Appends (W.contents output.old) (W.contents output.new) (head_lines stats.now)) }
{
    let events = stats.all_events();
    let bytes = stats.all_bytes();
    let errors = stats.errors;
    let transactions = stats.transactions;
    writeln!(
        output,
        "events {events}\nbytes {bytes}\ndamaged {errors}\ntransactions {transactions}"
    )
}

// Writes the line of a time, if there is one.
fn write_time<W: Write>(word: &str, time: Option<u32>, output: &mut W) -> io::Result<()>
    ensures { OnOk result (Writes (λ text. IsTimeLine word.now time text) (W.contents output.old) (W.contents output.new)) }
{
    match time {
        Some(seconds) => write_seconds(word, seconds, output),
        None => Ok(()),
    }
}

// Writes the line of a time, in seconds since 1970.
fn write_seconds<W: Write>(word: &str, seconds: u32, output: &mut W) -> io::Result<()>
    ensures { OnOk result (Writes (λ text. IsTimeLine word.now (Some seconds) text) (W.contents output.old) (W.contents output.new)) }
{
    let time = datetime_of(seconds);
    writeln!(output, "{word} {time}Z")
}

/// The time in UTC of seconds since 1970.
pub(crate) fn datetime_of(seconds: u32) -> DateTime
    ensures { IsTime seconds (iso_datetime_text result ++ codes "Z") }
{
    match Timestamp::from_second(i64::from(seconds)) {
        Ok(time) => Offset::UTC.to_datetime(time),
        Err(_) => unreachable!(),
    }
}

// Writes the line of the largest event, if there is one.
fn write_largest<W: Write>(largest: Option<Largest>, output: &mut W) -> io::Result<()>
    ensures { OnOk result (Appends (W.contents output.old) (W.contents output.new) (largest_line largest)) }
{
    match largest {
        Some(largest) => write_largest_event(&largest, output),
        None => Ok(()),
    }
}

fn write_largest_event<W: Write>(largest: &Largest, output: &mut W) -> io::Result<()>
    ensures { OnOk result (Appends (W.contents output.old) (W.contents output.new) (largest_line (Some largest.now))) }
{
    let index = largest.index;
    let size = largest.size;
    write!(output, "largest event {index} of {size} bytes, ")?;
    write_type(largest.event_type, output)?;
    writeln!(output, "")
}

// Writes the rows of all types.
#[tactic(auto, using(crate::proofs::StatsRows::row_written, crate::proofs::StatsRows::no_row_written))]
fn write_rows<W: Write>(stats: &Stats, all: u64, output: &mut W) -> io::Result<()>
    ensures { OnOk result (Appends (W.contents output.old) (W.contents output.new) (rows_below 256 stats.now all)) }
{
    for number in 0..256 {
        write_row(
            number as u8,
            stats.events[number],
            stats.bytes[number],
            all,
            output,
        )?;
    }
    Ok(())
}

// Writes the row of a type that has events: its name, its events, their bytes, and their share in hundredths.
fn write_row<W: Write>(
    number: u8,
    events: u64,
    bytes: u64,
    all: u64,
    output: &mut W,
) -> io::Result<()>
    ensures { OnOk result (Appends (W.contents output.old) (W.contents output.new) (row_of number events bytes all)) }
{
    if events == 0 {
        return Ok(());
    }
    let share = u128::from(bytes) * 100 / u128::from(all.max(1));
    write!(output, "type ")?;
    write_type(number, output)?;
    writeln!(output, " {events} events {bytes} bytes {share}%")
}

// Writes the name of a type, or its number.
#[tactic(auto, unfolding(crate::specs::StatsText::type_text))]
fn write_type<W: Write>(number: u8, output: &mut W) -> io::Result<()>
    ensures { OnOk result (Appends (W.contents output.old) (W.contents output.new) (type_text number)) }
{
    match name_of_number(number) {
        Some(name) => write!(output, "{name}"),
        None => write!(output, "{number}"),
    }
}
