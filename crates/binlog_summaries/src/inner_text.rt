//! The text of statistics by type of the events inside compressed transactions.
ghost use Rattle.std.specs.Io.KnownBytes.{Appends};
ghost use Rattle.std.specs.Prelude.{◌≡◌, ◌++◌, OnOk};
ghost use Rattle.binlog_summaries.specs.StatsText.{type_text};
ghost use Rattle.binlog_summaries.specs.InnerTypes.{head_line, inner_text, is_empty, row_of, rows_below};

use binlog_event_types::name_of_number;
use change_statistics::TypeCounts;
use std::io;
use std::io::Write;

/// Writes what is counted of the events inside compressed transactions: a line of all, and one for each type with events. Nothing is
/// written if there is no such event, and no error in the place of one.
pub fn write_inner_types<W: Write>(counts: &TypeCounts, output: &mut W) -> io::Result<()>
    ensures { OnOk result (Appends (W.contents output.old) (W.contents output.new) (inner_text counts.now)) }
{
    if is_empty(counts) {
        return Ok(());
    }
    write_lines(counts, output)
}

/// Whether nothing is counted.
pub(crate) fn is_empty(counts: &TypeCounts) -> bool
    ensures { result ≡ is_empty counts.now }
{
    counts.all_events() == 0 && counts.errors == 0
}

// Writes the line of all types, and the rows of the types.
#[tactic(auto, using(change_statistics::proofs::WrittenTexts::appends_both))]
fn write_lines<W: Write>(counts: &TypeCounts, output: &mut W) -> io::Result<()>
    ensures { OnOk result (Appends (W.contents output.old) (W.contents output.new) (head_line counts.now ++ rows_below 256 counts.now)) }
{
    write_head(counts, output)?;
    write_rows(counts, output)
}

// Writes the line of all types.
fn write_head<W: Write>(counts: &TypeCounts, output: &mut W) -> io::Result<()>
    ensures { OnOk result (Appends (W.contents output.old) (W.contents output.new) (head_line counts.now)) }
{
    let events = counts.all_events();
    let bytes = counts.all_bytes();
    let damaged = counts.errors;
    writeln!(
        output,
        "inside {events} events {bytes} bytes {damaged} damaged"
    )
}

// Writes the rows of all types.
#[tactic(auto, using(crate::proofs::InnerLines::row_written, crate::proofs::InnerLines::no_row_written))]
fn write_rows<W: Write>(counts: &TypeCounts, output: &mut W) -> io::Result<()>
    ensures { OnOk result (Appends (W.contents output.old) (W.contents output.new) (rows_below 256 counts.now)) }
{
    for number in 0..256 {
        write_row(
            number as u8,
            counts.events[number],
            counts.bytes[number],
            output,
        )?;
    }
    Ok(())
}

// Writes the row of a type that has events: its name, its events, and their bytes.
fn write_row<W: Write>(number: u8, events: u64, bytes: u64, output: &mut W) -> io::Result<()>
    ensures { OnOk result (Appends (W.contents output.old) (W.contents output.new) (row_of number events bytes)) }
{
    if events == 0 {
        return Ok(());
    }
    write!(output, "inside ")?;
    write_type(number, output)?;
    writeln!(output, " {events} events {bytes} bytes")
}

// Writes the name of a type, or its number.
#[tactic(auto, unfolding(crate::specs::StatsText::type_text))]
fn write_type<W: Write>(number: u8, output: &mut W) -> io::Result<()>
    ensures { OnOk result (Appends (W.contents output.old) (W.contents output.new) (type_text number)) }
{
    match name_of_number(number) {
        Some(name) => write!(output, "{name}"),
        None => write!(output, "{number}"),
    }
}
