//! The text of statistics by table.
ghost use Rattle.std.specs.Io.KnownBytes.{Appends};
ghost use Rattle.std.specs.Prelude.{◌≡◌, ◌<◌, ◌≤◌, IfSome, OnOk, Some, length, slice_get, take};
ghost use Rattle.binlog_summaries.specs.StatsText.{Writes, number_line};
ghost use Rattle.binlog_summaries.specs.Shown.{shown, shown_count};
ghost use Rattle.binlog_summaries.specs.TableText.{IsTimeOf, counts_text, IsTableLine, AreTableLines, tables_head, unknown_line, IsTablesText};

use crate::stats_text::datetime_of;
use change_statistics::{TableCounts, TableName, TableStats, UnknownRows, write_names};
use std::io;
use std::io::Write;

/// Writes the text of statistics by table, with as many tables as are asked for, in the order of the statistics.
pub fn write_tables<W: Write>(
    stats: &TableStats,
    top: Option<u64>,
    output: &mut W,
) -> io::Result<()>
    ensures { OnOk result (Writes (λ text. IsTablesText top stats.now text) (W.contents output.old) (W.contents output.new)) }
{
    write_head(stats, output)?;
    write_shown(stats, top, output)
}

// Writes the lines of the tables that are shown.
#[tactic(auto, using(crate::proofs::ShownRows::shown_rows))]
fn write_shown<W: Write>(stats: &TableStats, top: Option<u64>, output: &mut W) -> io::Result<()>
    ensures { OnOk result (Writes (AreTableLines (shown top stats.now.tables.entries)) (W.contents output.old) (W.contents output.new)) }
{
    write_lines(stats, shown(stats.tables.len(), top), output)
}

/// How many of so many rows are shown.
pub(crate) fn shown(count: usize, top: Option<u64>) -> usize
    ensures { result ≡ shown_count count top }
{
    match top {
        Some(top) if top < count as u64 => top as usize,
        _ => count,
    }
}

// Writes the lines above the tables.
fn write_head<W: Write>(stats: &TableStats, output: &mut W) -> io::Result<()>
    ensures { OnOk result (Appends (W.contents output.old) (W.contents output.new) (tables_head stats.now)) }
{
    write_number("tables", stats.tables.len() as u64, output)?;
    write_number("transactions", stats.transactions, output)?;
    write_unknown(&stats.unknown, output)
}

/// Writes the line of a number.
pub(crate) fn write_number<W: Write>(word: &str, number: u64, output: &mut W) -> io::Result<()>
    ensures { OnOk result (Appends (W.contents output.old) (W.contents output.new) (number_line word.now number)) }
{
    writeln!(output, "{word} {number}")
}

// Writes the line of the events that may have rows of tables that aren't known.
fn write_unknown<W: Write>(unknown: &UnknownRows, output: &mut W) -> io::Result<()>
    ensures { OnOk result (Appends (W.contents output.old) (W.contents output.new) (unknown_line unknown.now)) }
{
    let events = unknown.events;
    let bytes = unknown.bytes;
    writeln!(output, "unknown {events} events {bytes} bytes")
}

// Writes the lines of the first tables. There are at least so many.
#[tactic(auto, using(crate::proofs::TableLines::line_written, crate::proofs::TableLines::no_line_written))]
fn write_lines<W: Write>(stats: &TableStats, count: usize, output: &mut W) -> io::Result<()>
    requires { count ≤ length stats.now.tables.entries }
    ensures { OnOk result (Writes (AreTableLines (take count stats.now.tables.entries)) (W.contents output.old) (W.contents output.new)) }
{
    'tables: for index in 0..count {
        write_line(stats, index, output)?;
    }
    Ok(())
}

// Writes the line of one table of these.
fn write_line<W: Write>(stats: &TableStats, index: usize, output: &mut W) -> io::Result<()>
    requires { index < length stats.now.tables.entries }
    ensures { IfSome (slice_get stats.now.tables.entries index) (λ entry. OnOk result (Writes (IsTableLine entry) (W.contents output.old) (W.contents output.new))) }
{
    match stats.tables.get_index(index) {
        Some((name, counts)) => write_table(name, counts, output),
        None => unreachable!(),
    }
}

// Writes the line of a table.
fn write_table<W: Write>(name: &TableName, counts: &TableCounts, output: &mut W) -> io::Result<()>
    ensures { OnOk result (Writes (IsTableLine (name.now, counts.now)) (W.contents output.old) (W.contents output.new)) }
{
    write_names(name, &mut *output)?;
    write_counts(counts, output)?;
    write_time(" first ", counts.first_time, output)?;
    write_time(" last ", counts.last_time, output)?;
    writeln!(output, "")
}

// Writes the counts of a table.
fn write_counts<W: Write>(counts: &TableCounts, output: &mut W) -> io::Result<()>
    ensures { OnOk result (Appends (W.contents output.old) (W.contents output.new) (counts_text counts.now)) }
{
    let events = counts.events;
    let bytes = counts.bytes;
    let inserted = counts.inserted;
    let updated = counts.updated;
    let deleted = counts.deleted;
    let unread = counts.unread_events;
    let transactions = counts.transactions;
    write!(
        output,
        "{events} events {bytes} bytes {inserted} inserted {updated} updated {deleted} deleted {unread} unread {transactions} transactions"
    )
}

/// Writes a time behind its word, if there is one.
pub(crate) fn write_time<W: Write>(word: &str, time: Option<u32>, output: &mut W) -> io::Result<()>
    ensures { OnOk result (Writes (λ text. IsTimeOf word.now time text) (W.contents output.old) (W.contents output.new)) }
{
    match time {
        Some(seconds) => write_seconds(word, seconds, output),
        None => Ok(()),
    }
}

// Writes a time, in seconds since 1970, behind its word.
fn write_seconds<W: Write>(word: &str, seconds: u32, output: &mut W) -> io::Result<()>
    ensures { OnOk result (Writes (λ text. IsTimeOf word.now (Some seconds) text) (W.contents output.old) (W.contents output.new)) }
{
    let time = datetime_of(seconds);
    write!(output, "{word}{time}Z")
}
