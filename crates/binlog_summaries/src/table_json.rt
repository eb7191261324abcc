//! The lines of JSON of statistics by table.
ghost use Rattle.std.specs.Io.KnownBytes.{Appends};
ghost use Rattle.std.specs.Prelude.{◌≡◌, ◌<◌, ◌≤◌, IfSome, OnOk, length, slice_get, take, flat_map};
ghost use Rattle.json_line.specs.Tokens.{Adds};
ghost use Rattle.binlog_summaries.specs.JsonLines.{line_of};
ghost use Rattle.binlog_summaries.specs.Shown.{shown};
ghost use Rattle.binlog_summaries.specs.TableJson.{counts_members, table_object, tables_object, table_line, tables_json};

use crate::json_lines::{end_line, write_time};
use crate::table_text::shown;
use binlog_file::Error;
use change_statistics::{TableCounts, TableName, TableStats};
use json_line::Line;
use std::alloc::{AllocError, Global};
use std::io::Write;

/// Writes statistics by table as lines of JSON: an object of all tables, and one for each table, as many as are asked for, in the
/// order of the statistics.
///
/// # Errors
///
/// - [`Error::Memory`] if an allocation fails for a line.
/// - [`Error::Writer`] if the writer fails.
pub fn write_tables_json<W: Write>(
    alloc: Global,
    stats: &TableStats,
    top: Option<u64>,
    output: &mut W,
) -> Result<(), Error>
    ensures { OnOk result (Appends (W.contents output.old) (W.contents output.new) (tables_json top stats.now)) }
{
    let mut line = Line::new(alloc);
    write_objects(&mut line, stats, top, output)
}

// Writes the line of all tables, and those of the tables that are shown.
#[tactic(auto, using(change_statistics::proofs::WrittenTexts::appends_both))]
fn write_objects<W: Write>(
    line: &mut Line,
    stats: &TableStats,
    top: Option<u64>,
    output: &mut W,
) -> Result<(), Error>
    ensures { OnOk result (Appends (W.contents output.old) (W.contents output.new) (tables_json top stats.now)) }
{
    write_head_line(line, stats, output)?;
    write_shown(line, stats, top, output)
}

// Makes the line of all tables, and writes it.
fn write_head_line<W: Write>(
    line: &mut Line,
    stats: &TableStats,
    output: &mut W,
) -> Result<(), Error>
    ensures { OnOk result (Appends (W.contents output.old) (W.contents output.new) (line_of (tables_object stats.now))) }
{
    write_head(line, stats)?;
    end_line(line, output)
}

// Writes the lines of the tables that are shown.
#[tactic(auto, using(crate::proofs::ShownRows::shown_rows))]
fn write_shown<W: Write>(
    line: &mut Line,
    stats: &TableStats,
    top: Option<u64>,
    output: &mut W,
) -> Result<(), Error>
    ensures { OnOk result (Appends (W.contents output.old) (W.contents output.new) (flat_map table_line (shown top stats.now.tables.entries))) }
{
    write_lines(line, stats, shown(stats.tables.len(), top), output)
}

// Writes the lines of the first tables. There are at least so many.
#[tactic(auto, using(change_statistics::proofs::WrittenLists::row_written, change_statistics::proofs::WrittenTexts::nothing_appended))]
fn write_lines<W: Write>(
    line: &mut Line,
    stats: &TableStats,
    count: usize,
    output: &mut W,
) -> Result<(), Error>
    requires { count ≤ length stats.now.tables.entries }
    ensures { OnOk result (Appends (W.contents output.old) (W.contents output.new) (flat_map table_line (take count stats.now.tables.entries))) }
{
    'tables: for index in 0..count {
        write_row(line, stats, index, output)?;
    }
    Ok(())
}

// Writes the line of one table of these.
fn write_row<W: Write>(
    line: &mut Line,
    stats: &TableStats,
    index: usize,
    output: &mut W,
) -> Result<(), Error>
    requires { index < length stats.now.tables.entries }
    ensures { IfSome (slice_get stats.now.tables.entries index) (λ entry. OnOk result (Appends (W.contents output.old) (W.contents output.new) (table_line entry))) }
{
    match stats.tables.get_index(index) {
        Some((name, counts)) => write_table_line(line, name, counts, output),
        None => unreachable!(),
    }
}

// Makes the line of a table, and writes it.
fn write_table_line<W: Write>(
    line: &mut Line,
    name: &TableName,
    counts: &TableCounts,
    output: &mut W,
) -> Result<(), Error>
    ensures { OnOk result (Appends (W.contents output.old) (W.contents output.new) (table_line (name.now, counts.now))) }
{
    write_table(line, name, counts)?;
    end_line(line, output)
}

// Makes the line of the object above the tables.
fn write_head(line: &mut Line, stats: &TableStats) -> Result<(), AllocError>
    ensures { OnOk result (line.new ≡ tables_object stats.now) }
{
    line.clear();
    line.begin_object()?;
    line.number_member("tables", stats.tables.len() as u64)?;
    line.number_member("transactions", stats.transactions)?;
    line.number_member("unknown_events", stats.unknown.events)?;
    line.number_member("unknown_bytes", stats.unknown.bytes)?;
    line.end_object()?;
    Ok(())
}

// Makes the line of a table.
fn write_table(line: &mut Line, name: &TableName, counts: &TableCounts) -> Result<(), AllocError>
    ensures { OnOk result (line.new ≡ table_object (name.now, counts.now)) }
{
    line.clear();
    line.begin_object()?;
    line.text_member("database", &name.database)?;
    line.text_member("table", &name.table)?;
    write_counts(line, counts)?;
    line.end_object()?;
    Ok(())
}

// Writes the members of the counts of a table.
fn write_counts(line: &mut Line, counts: &TableCounts) -> Result<(), AllocError>
    ensures { Adds result line.old line.new (counts_members counts.now) }
{
    line.number_member("events", counts.events)?;
    line.number_member("bytes", counts.bytes)?;
    line.number_member("inserted", counts.inserted)?;
    line.number_member("updated", counts.updated)?;
    line.number_member("deleted", counts.deleted)?;
    line.number_member("unread_events", counts.unread_events)?;
    line.number_member("transactions", counts.transactions)?;
    write_time(line, "first_time", counts.first_time)?;
    write_time(line, "last_time", counts.last_time)?;
    Ok(())
}
