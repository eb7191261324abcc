//! The text of statistics by transaction.
ghost use Rattle.std.specs.Io.KnownBytes.{Appends};
ghost use Rattle.std.specs.Prelude.{◌≡◌, ◌<◌, IfSome, OnOk, Some, length, slice_get, flat_map};
ghost use Rattle.binlog_summaries.specs.StatsText.{Writes};
ghost use Rattle.change_statistics.specs.Names.{name_of};
ghost use Rattle.change_statistics.specs.Transactions.{seen_by};
ghost use Rattle.binlog_summaries.specs.TransactionText.{smallest_of, class_line, size_line, size_lines, places_text, gtid_text, counts_text, duration_text, table_names, table_line, IsTransactionLine, IsTransactionText, AreTransactionTexts, IsTransactionsText};

use crate::table_text::{write_number, write_time};
use change_statistics::{
    EventCounts, SIZE_CLASSES, SizeHistogram, TableName, Transaction, TransactionStats,
    TransactionTables, name_text,
};
use std::io;
use std::io::Write;

/// Writes the text of statistics by transaction.
pub fn write_transactions<W: Write>(stats: &TransactionStats, output: &mut W) -> io::Result<()>
    ensures { OnOk result (Writes (IsTransactionsText (seen_by stats.now)) (W.contents output.old) (W.contents output.new)) }
{
    write_number("transactions", stats.transactions, output)?;
    write_sizes(&stats.sizes, output)?;
    write_lines(stats.largest.kept.as_slice(), output)
}

// Writes the lines of the classes of sizes.
#[tactic(auto, using(crate::proofs::TransactionLines::size_written, change_statistics::proofs::WrittenTexts::nothing_appended))]
fn write_sizes<W: Write>(sizes: &SizeHistogram, output: &mut W) -> io::Result<()>
    ensures { OnOk result (Appends (W.contents output.old) (W.contents output.new) (size_lines 0 sizes.now.counts)) }
{
    'sizes: for class in 0..SIZE_CLASSES {
        write_size(class, sizes.counts[class], output)?;
    }
    Ok(())
}

// Writes the line of a class of sizes, if a transaction has one of them.
fn write_size<W: Write>(class: usize, count: u64, output: &mut W) -> io::Result<()>
    requires { class < 65 }
    ensures { OnOk result (Appends (W.contents output.old) (W.contents output.new) (size_line class count)) }
{
    if count == 0 {
        return Ok(());
    }
    write_class(smallest_of(class), count, output)
}

// Writes the line of a class of sizes, of which this is the smallest.
fn write_class<W: Write>(smallest: u64, count: u64, output: &mut W) -> io::Result<()>
    ensures { OnOk result (Appends (W.contents output.old) (W.contents output.new) (class_line smallest count)) }
{
    writeln!(output, "size {smallest} {count} transactions")
}

// The smallest number with so many binary digits.
fn smallest_of(class: usize) -> u64
    requires { class < 65 }
    ensures { result ≡ smallest_of class }
{
    if class == 0 { 0 } else { 1 << (class - 1) }
}

// Writes the lines of transactions, each above those of its tables.
#[tactic(auto, using(crate::proofs::TransactionLines::no_transaction_written))]
fn write_lines<W: Write>(transactions: &[Transaction], output: &mut W) -> io::Result<()>
    ensures { OnOk result (Writes (AreTransactionTexts transactions.now) (W.contents output.old) (W.contents output.new)) }
{
    'transactions: for transaction in transactions {
        write_transaction(transaction, output)?;
    }
    Ok(())
}

// Writes the lines of a transaction and of its tables.
fn write_transaction<W: Write>(transaction: &Transaction, output: &mut W) -> io::Result<()>
    ensures { OnOk result (Writes (IsTransactionText transaction.now) (W.contents output.old) (W.contents output.new)) }
{
    write_line(transaction, output)?;
    write_tables(&transaction.tables, output)
}

// Writes the line of a transaction.
fn write_line<W: Write>(transaction: &Transaction, output: &mut W) -> io::Result<()>
    ensures { OnOk result (Writes (IsTransactionLine transaction.now) (W.contents output.old) (W.contents output.new)) }
{
    write_places(transaction, output)?;
    write_gtid(transaction.gtid.as_str(), output)?;
    write_counts(&transaction.counts, output)?;
    write_time(" first ", Some(transaction.first_time), output)?;
    write_time(" last ", Some(transaction.last_time), output)?;
    write_duration(transaction.duration(), output)
}

// Writes where a transaction begins and ends.
fn write_places<W: Write>(transaction: &Transaction, output: &mut W) -> io::Result<()>
    ensures { OnOk result (Appends (W.contents output.old) (W.contents output.new) (places_text transaction.now)) }
{
    let end = transaction.end_position;
    match transaction.begin_position {
        Some(begin) => write!(output, "transaction {begin} to {end} "),
        None => write!(output, "transaction ? to {end} "),
    }
}

// Writes a GTID, if there is one.
fn write_gtid<W: Write>(gtid: &str, output: &mut W) -> io::Result<()>
    ensures { OnOk result (Appends (W.contents output.old) (W.contents output.new) (gtid_text gtid.now)) }
{
    if gtid.is_empty() {
        return Ok(());
    }
    write!(output, "gtid {gtid} ")
}

// Writes the counts of a transaction.
fn write_counts<W: Write>(counts: &EventCounts, output: &mut W) -> io::Result<()>
    ensures { OnOk result (Appends (W.contents output.old) (W.contents output.new) (counts_text counts.now)) }
{
    let events = counts.events;
    let bytes = counts.bytes;
    let inserted = counts.inserted;
    let updated = counts.updated;
    let deleted = counts.deleted;
    let unread = counts.unread_events;
    write!(
        output,
        "{events} events {bytes} bytes {inserted} inserted {updated} updated {deleted} deleted {unread} unread"
    )
}

// Writes how long a transaction lasts, and ends its line.
fn write_duration<W: Write>(duration: Option<u32>, output: &mut W) -> io::Result<()>
    ensures { OnOk result (Appends (W.contents output.old) (W.contents output.new) (duration_text duration)) }
{
    match duration {
        Some(seconds) => writeln!(output, " {seconds} seconds"),
        None => writeln!(output, " ? seconds"),
    }
}

// Writes the lines of the tables of a transaction.
#[tactic(auto, using(change_statistics::proofs::WrittenLists::row_written, change_statistics::proofs::WrittenTexts::nothing_appended))]
fn write_tables<W: Write>(tables: &TransactionTables, output: &mut W) -> io::Result<()>
    ensures { OnOk result (Appends (W.contents output.old) (W.contents output.new) (flat_map table_line tables.now.entries)) }
{
    'tables: for index in 0..tables.count() {
        write_row(tables, index, output)?;
    }
    Ok(())
}

// Writes the line of one table of these.
fn write_row<W: Write>(tables: &TransactionTables, index: usize, output: &mut W) -> io::Result<()>
    requires { index < length tables.now.entries }
    ensures { IfSome (slice_get tables.now.entries index) (λ entry. OnOk result (Appends (W.contents output.old) (W.contents output.new) (table_line entry))) }
{
    match tables.get_index(index) {
        Some((name, counts)) => write_table(name, counts, output),
        None => unreachable!(),
    }
}

// Writes the line of a table of a transaction.
fn write_table<W: Write>(name: &TableName, counts: &EventCounts, output: &mut W) -> io::Result<()>
    ensures { OnOk result (Appends (W.contents output.old) (W.contents output.new) (table_line (name_of name.now, counts.now))) }
{
    write_names(name, output)?;
    write_counts(counts, output)?;
    writeln!(output, "")
}

// Writes the names of a table of a transaction.
fn write_names<W: Write>(name: &TableName, output: &mut W) -> io::Result<()>
    ensures { OnOk result (Appends (W.contents output.old) (W.contents output.new) (table_names (name_of name.now))) }
{
    let database = name_text(&name.database);
    let table = name_text(&name.table);
    write!(output, "  table {database}.{table} ")
}
