//! The text of the rows of tables alone.
ghost use Rattle.std.specs.Io.KnownBytes.{Appends};
ghost use Rattle.std.specs.Prelude.{◌<◌, ◌≤◌, IfSome, OnOk, length, slice_get, take, flat_map};
ghost use Rattle.change_statistics.specs.RowText.{rows_text, rows_line};

use crate::table_counts::TableCounts;
use crate::table_name::TableName;
use crate::tables::TableStats;
use crate::written_names::write_names;
use std::io;
use std::io::Write;

/// Writes a line for each table, in the order of the statistics: its name, how many row events of it there are, and how many rows they
/// insert, update and delete.
pub fn write_table_rows<W: Write>(stats: &TableStats, output: &mut W) -> io::Result<()>
    ensures { OnOk result (Appends (W.contents output.old) (W.contents output.new) (flat_map rows_line stats.now.tables.entries)) }
{
    write_lines(stats, stats.tables.len(), output)
}

// Writes the lines of the first tables. There are at least so many.
#[tactic(auto, using(crate::proofs::WrittenLists::row_written, crate::proofs::WrittenTexts::nothing_appended))]
fn write_lines<W: Write>(stats: &TableStats, count: usize, output: &mut W) -> io::Result<()>
    requires { count ≤ length stats.now.tables.entries }
    ensures { OnOk result (Appends (W.contents output.old) (W.contents output.new) (flat_map rows_line (take count stats.now.tables.entries))) }
{
    'tables: for index in 0..count {
        write_line(stats, index, output)?;
    }
    Ok(())
}

// Writes the line of one table of these.
fn write_line<W: Write>(stats: &TableStats, index: usize, output: &mut W) -> io::Result<()>
    requires { index < length stats.now.tables.entries }
    ensures { IfSome (slice_get stats.now.tables.entries index) (λ entry. OnOk result (Appends (W.contents output.old) (W.contents output.new) (rows_line entry))) }
{
    match stats.tables.get_index(index) {
        Some((name, counts)) => write_table(name, counts, output),
        None => unreachable!(),
    }
}

// Writes the line of a table.
#[tactic(auto, using(crate::proofs::WrittenTexts::appends_both))]
fn write_table<W: Write>(name: &TableName, counts: &TableCounts, output: &mut W) -> io::Result<()>
    ensures { OnOk result (Appends (W.contents output.old) (W.contents output.new) (rows_line (name.now, counts.now))) }
{
    write_names(name, &mut *output)?;
    write_rows(counts, output)
}

// Writes the counts of a table.
fn write_rows<W: Write>(counts: &TableCounts, output: &mut W) -> io::Result<()>
    ensures { OnOk result (Appends (W.contents output.old) (W.contents output.new) (rows_text counts.now)) }
{
    let events = counts.events;
    let inserted = counts.inserted;
    let updated = counts.updated;
    let deleted = counts.deleted;
    writeln!(
        output,
        "{events} events {inserted} inserted {updated} updated {deleted} deleted"
    )
}
