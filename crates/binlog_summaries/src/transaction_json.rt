//! The lines of JSON of statistics by transaction.
ghost use Rattle.std.specs.Io.KnownBytes.{Appends};
ghost use Rattle.std.specs.Prelude.{◌≡◌, ◌<◌, IfSome, OnOk, length, slice_get, flat_map};
ghost use Rattle.json_line.specs.Tokens.{Adds, number_value};
ghost use Rattle.change_statistics.specs.Names.{name_of};
ghost use Rattle.change_statistics.specs.Transactions.{seen_by};
ghost use Rattle.binlog_summaries.specs.JsonLines.{line_of};
ghost use Rattle.binlog_summaries.specs.TransactionJson.{gtid_member, position_member, places_members, counts_members, names_members, table_object, tables_member, transaction_object, sizes_member, transactions_object, transaction_line, transactions_json};

use crate::json_lines::{end_line, write_time};
use binlog_file::Error;
use change_statistics::{
    EventCounts, SizeHistogram, TableName, Transaction, TransactionStats, TransactionTables,
};
use json_line::Line;
use std::alloc::{AllocError, Global};
use std::io::Write;

/// Writes statistics by transaction as lines of JSON: an object of all transactions, and one for each that is kept, in order.
///
/// # Errors
///
/// - [`Error::Memory`] if an allocation fails for a line.
/// - [`Error::Writer`] if the writer fails.
pub fn write_transactions_json<W: Write>(
    alloc: Global,
    stats: &TransactionStats,
    output: &mut W,
) -> Result<(), Error>
    ensures { OnOk result (Appends (W.contents output.old) (W.contents output.new) (transactions_json (seen_by stats.now))) }
{
    let mut line = Line::new(alloc);
    write_objects(&mut line, stats, output)
}

// Writes the line of all transactions, and those of the largest.
#[tactic(auto, using(change_statistics::proofs::WrittenTexts::appends_both))]
fn write_objects<W: Write>(
    line: &mut Line,
    stats: &TransactionStats,
    output: &mut W,
) -> Result<(), Error>
    ensures { OnOk result (Appends (W.contents output.old) (W.contents output.new) (transactions_json (seen_by stats.now))) }
{
    write_head_line(line, stats, output)?;
    write_lines(line, stats.largest.kept.as_slice(), output)
}

// Makes the line of all transactions, and writes it.
fn write_head_line<W: Write>(
    line: &mut Line,
    stats: &TransactionStats,
    output: &mut W,
) -> Result<(), Error>
    ensures { OnOk result (Appends (W.contents output.old) (W.contents output.new) (line_of (transactions_object (seen_by stats.now)))) }
{
    write_head(line, stats)?;
    end_line(line, output)
}

// Writes the lines of transactions.
#[tactic(auto, using(crate::proofs::TransactionLines::transaction_appended, change_statistics::proofs::WrittenTexts::nothing_appended))]
fn write_lines<W: Write>(
    line: &mut Line,
    transactions: &[Transaction],
    output: &mut W,
) -> Result<(), Error>
    ensures { OnOk result (Appends (W.contents output.old) (W.contents output.new) (flat_map transaction_line transactions.now)) }
{
    'transactions: for transaction in transactions {
        write_line(line, transaction, output)?;
    }
    Ok(())
}

// Makes the line of a transaction, and writes it.
fn write_line<W: Write>(
    line: &mut Line,
    transaction: &Transaction,
    output: &mut W,
) -> Result<(), Error>
    ensures { OnOk result (Appends (W.contents output.old) (W.contents output.new) (transaction_line transaction.now)) }
{
    write_transaction(line, transaction)?;
    end_line(line, output)
}

// Makes the line of the object above the transactions.
fn write_head(line: &mut Line, stats: &TransactionStats) -> Result<(), AllocError>
    ensures { OnOk result (line.new ≡ transactions_object (seen_by stats.now)) }
{
    line.clear();
    line.begin_object()?;
    line.number_member("transactions", stats.transactions)?;
    write_sizes(line, &stats.sizes)?;
    line.end_object()?;
    Ok(())
}

// Writes the numbers of transactions of each class of sizes.
fn write_sizes(line: &mut Line, sizes: &SizeHistogram) -> Result<(), AllocError>
    ensures { Adds result line.old line.new (sizes_member sizes.now.counts) }
{
    line.key("sizes")?;
    line.begin_array()?;
    write_numbers(line, &sizes.counts)?;
    line.end_array()
}

// Writes numbers.
fn write_numbers(line: &mut Line, numbers: &[u64]) -> Result<(), AllocError>
    ensures { Adds result line.old line.new (flat_map number_value numbers.now) }
{
    'numbers: for number in numbers {
        line.number(*number)?;
    }
    Ok(())
}

// Makes the line of a transaction.
fn write_transaction(line: &mut Line, transaction: &Transaction) -> Result<(), AllocError>
    ensures { OnOk result (line.new ≡ transaction_object transaction.now) }
{
    line.clear();
    line.begin_object()?;
    write_gtid(line, transaction.gtid.as_str())?;
    write_places(line, transaction)?;
    write_counts(line, &transaction.counts)?;
    write_tables(line, &transaction.tables)?;
    line.end_object()?;
    Ok(())
}

// Writes the members of where and when a transaction begins and ends, and of how long it lasts.
fn write_places(line: &mut Line, transaction: &Transaction) -> Result<(), AllocError>
    ensures { Adds result line.old line.new (places_members transaction.now) }
{
    write_position(line, transaction.begin_position)?;
    line.number_member("end_position", transaction.end_position)?;
    line.number_member("first_time", transaction.first_time as u64)?;
    line.number_member("last_time", transaction.last_time as u64)?;
    write_time(line, "duration", transaction.duration())?;
    Ok(())
}

// Writes the member of the GTID of a transaction, or null.
fn write_gtid(line: &mut Line, gtid: &str) -> Result<(), AllocError>
    ensures { Adds result line.old line.new (gtid_member gtid.now) }
{
    line.key("gtid")?;
    if gtid.is_empty() {
        return line.null();
    }
    line.string(gtid)
}

// Writes the member of the position where a transaction begins, or null.
fn write_position(line: &mut Line, position: Option<u64>) -> Result<(), AllocError>
    ensures { Adds result line.old line.new (position_member position) }
{
    line.key("position")?;
    match position {
        Some(position) => line.number(position),
        None => line.null(),
    }
}

// Writes the members of the counts of a transaction.
fn write_counts(line: &mut Line, counts: &EventCounts) -> Result<(), AllocError>
    ensures { Adds result line.old line.new (counts_members counts.now) }
{
    line.number_member("events", counts.events)?;
    line.number_member("bytes", counts.bytes)?;
    line.number_member("inserted", counts.inserted)?;
    line.number_member("updated", counts.updated)?;
    line.number_member("deleted", counts.deleted)?;
    line.number_member("unread_events", counts.unread_events)?;
    Ok(())
}

// Writes the member of the tables of a transaction.
fn write_tables(line: &mut Line, tables: &TransactionTables) -> Result<(), AllocError>
    ensures { Adds result line.old line.new (tables_member tables.now.entries) }
{
    line.key("tables")?;
    line.begin_array()?;
    write_objects_of(line, tables)?;
    line.end_array()
}

// Writes the objects of the tables of a transaction.
fn write_objects_of(line: &mut Line, tables: &TransactionTables) -> Result<(), AllocError>
    ensures { Adds result line.old line.new (flat_map table_object tables.now.entries) }
{
    'tables: for index in 0..tables.count() {
        write_row(line, tables, index)?;
    }
    Ok(())
}

// Writes the object of one table of these.
fn write_row(line: &mut Line, tables: &TransactionTables, index: usize) -> Result<(), AllocError>
    requires { index < length tables.now.entries }
    ensures { IfSome (slice_get tables.now.entries index) (λ entry. Adds result line.old line.new (table_object entry)) }
{
    match tables.get_index(index) {
        Some((name, counts)) => write_table(line, name, counts),
        None => unreachable!(),
    }
}

// Writes the object of a table of a transaction.
fn write_table(line: &mut Line, name: &TableName, counts: &EventCounts) -> Result<(), AllocError>
    ensures { Adds result line.old line.new (table_object (name_of name.now, counts.now)) }
{
    line.begin_object()?;
    write_names(line, name)?;
    write_counts(line, counts)?;
    line.end_object()
}

// Writes the members of the names of a table.
fn write_names(line: &mut Line, name: &TableName) -> Result<(), AllocError>
    ensures { Adds result line.old line.new (names_members (name_of name.now)) }
{
    line.text_member("database", &name.database)?;
    line.text_member("table", &name.table)
}
