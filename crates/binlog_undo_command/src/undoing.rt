//! Both passes over several logs.
ghost use Rattle.std.specs.Prelude.{◌≡◌, ◌≢◌, false, true, min, ◌^◌, ◌-◌, ◌++◌, flat_map, codes, IfErr, IfOk, OnOk};
ghost use Rattle.std.specs.Io.KnownBytes.{Appends};
ghost use Rattle.clap.specs.Matches.{found_of, one_text};
ghost use Rattle.binlog_cli.specs.TableWords.{texts_given};
ghost use Rattle.binlog_cli.specs.declared.exit_status.Status.TheVariants.{Fine, Damaged, Failed, Usage};
ghost use Rattle.change_statistics.specs.RowText.{rows_line};
ghost use Rattle.binlog_undo_command.specs.Options.{RefusesOptions, StatesFlag};
ghost use Rattle.binlog_undo_command.specs.Scanned.{AreUndone, HasRefused};
ghost use Rattle.binlog_undo_command.specs.Undoing.{transactions_in, changes_in, counts_line, AreScannedAs, AreRefused, AreUndoneAs, IsRefusedAs, WritesCounts, CountsLogs, PutsLog, Undoes};

use crate::descriptions::check_descriptions;
use crate::later_logs::check_later;
use crate::logs::Logs;
use crate::messages::report_error;
use crate::options::is_one_transaction;
use crate::row_counts::count_rows;
use crate::scanning::{ScannedLog, scan_logs};
use crate::writing::write_log;
use binlog_cli::{NewFile, Status};
use binlog_file::{Counted, Retrying, WriteCounted};
use change_statistics::{TableStats, write_table_rows};
use clap::ArgMatches;
use std::io;
use std::io::{BufWriter, Write};

/// Writes a log that undoes the chosen transactions of all logs, as one transaction if that is asked for, or names what can't be undone.
/// Before that it writes how many transactions and row events are undone. The file is there if the status is [`Status::Fine`]. Else it isn't, and what was begun of
/// it is removed.
pub fn undo<'a, L: Logs, T: NewFile, R: Eprint + AllocGlobal, W: Write>(
    rt: &R,
    logs: &L,
    options: &ArgMatches<'a>,
    file: &mut T,
    writer: &mut W,
) -> Status
    ensures fine { result ≡ Fine → Undoes (L.bytes logs.now) (L.has_frames logs.now) L.Sought.is_at ⟦<Counted<BufWriter<Retrying<T::Draft>>> as WriteCounted>⟧.contents
        (T.is_fresh file.old) (T.has file.new) (found_of options.now) (W.contents writer.old) (W.contents writer.new) }
    ensures there { result ≡ Fine → T.is_there file.new ≡ true }
    ensures other { result ≢ Fine → T.is_there file.new ≡ T.is_there file.old }
    ensures left { T.has_draft file.old ≡ false → T.has_draft file.new ≡ false }
    ensures silent { result ≢ Fine → result ≢ Failed → W.contents writer.new ≡ W.contents writer.old }
    ensures refused { result ≡ Damaged → IsRefusedAs (L.bytes logs.now) (L.has_frames logs.now) L.Sought.is_at (found_of options.now) }
    ensures usage { result ≡ Usage → RefusesOptions (found_of options.now) Usage }
{
    let is_one = is_one_transaction(options);
    match count_logs(rt, logs, options, is_one, writer) {
        Ok(scanned) => put_log(rt, logs, scanned.as_slice(), is_one, file),
        Err(status) => status,
    }
}

/// Writes how many transactions and row events are undone, and a line for each table, or names what can't be undone. If something is
/// refused nothing is written.
pub fn count_undo<'a, L: Logs, R: Eprint + AllocGlobal, W: Write>(
    rt: &R,
    logs: &L,
    options: &ArgMatches<'a>,
    writer: &mut W,
) -> Status
    ensures fine { result ≡ Fine → CountsLogs (L.bytes logs.now) (L.has_frames logs.now) L.Sought.is_at (found_of options.now) (W.contents writer.old) (W.contents writer.new) }
    ensures silent { result ≢ Fine → result ≢ Failed → W.contents writer.new ≡ W.contents writer.old }
    ensures refused { result ≡ Damaged → IsRefusedAs (L.bytes logs.now) (L.has_frames logs.now) L.Sought.is_at (found_of options.now) }
    ensures usage { result ≡ Usage → RefusesOptions (found_of options.now) Usage }
{
    let is_one = is_one_transaction(options);
    match count_tables(rt, logs, options, is_one, writer) {
        Ok(()) => Status::Fine,
        Err(status) => status,
    }
}

// The first pass over all logs. Behind it their rows are counted, and the counts are written.
fn count_tables<L: Logs, R: Eprint + AllocGlobal, W: Write>(
    rt: &R,
    logs: &L,
    options: &ArgMatches<'_>,
    is_one: bool,
    writer: &mut W,
) -> Result<(), Status>
    requires one { StatesFlag (one_text (found_of options.now) (codes "one-transaction")) is_one }
    ensures ok { OnOk result (CountsLogs (L.bytes logs.now) (L.has_frames logs.now) L.Sought.is_at (found_of options.now) (W.contents writer.old) (W.contents writer.new)) }
    ensures err { IfErr result (λ status. status ≢ Fine) }
    ensures silent { IfErr result (λ status. status ≢ Failed → W.contents writer.new ≡ W.contents writer.old) }
    ensures refused { IfErr result (λ status. status ≡ Damaged → IsRefusedAs (L.bytes logs.now) (L.has_frames logs.now) L.Sought.is_at (found_of options.now)) }
    ensures usage { IfErr result (λ status. status ≡ Usage → RefusesOptions (found_of options.now) Usage) }
{
    let scanned = scan_as(rt, logs, options, is_one)?;
    count_scanned(rt, logs, scanned.as_slice(), writer)
}

// Counts the rows that are undone of logs, and writes the counts.
fn count_scanned<L: Logs, R: Eprint + AllocGlobal, W: Write>(
    rt: &R,
    logs: &L,
    scanned: &[ScannedLog<'_>],
    writer: &mut W,
) -> Result<(), Status>
    ensures ok { OnOk result (WritesCounts (L.has_frames logs.now) L.Sought.is_at scanned.now (W.contents writer.old) (W.contents writer.new)) }
    ensures err { IfErr result (λ status. status ≡ Failed) }
{
    let rows = count_rows(rt, logs, scanned)?;
    match write_rows(scanned, rows.stats(), writer) {
        Ok(()) => Ok(()),
        Err(error) => {
            report_error(rt, "the output", &error);
            Err(Status::Failed)
        }
    }
}

// The first pass over all logs, behind which the counts are written.
fn count_logs<'a, L: Logs, R: Eprint + AllocGlobal, W: Write>(
    rt: &R,
    logs: &L,
    options: &ArgMatches<'a>,
    is_one: bool,
    writer: &mut W,
) -> Result<Vec<ScannedLog<'a>>, Status>
    requires one { StatesFlag (one_text (found_of options.now) (codes "one-transaction")) is_one }
    ensures ok { IfOk result (λ scanned. AreUndoneAs (L.bytes logs.now) (L.has_frames logs.now) L.Sought.is_at (found_of options.now) is_one scanned.items) }
    ensures counts { IfOk result (λ scanned. Appends (W.contents writer.old) (W.contents writer.new) (counts_line scanned.items)) }
    ensures err { IfErr result (λ status. status ≢ Fine) }
    ensures silent { IfErr result (λ status. status ≢ Failed → W.contents writer.new ≡ W.contents writer.old) }
    ensures refused { IfErr result (λ status. status ≡ Damaged → IsRefusedAs (L.bytes logs.now) (L.has_frames logs.now) L.Sought.is_at (found_of options.now)) }
    ensures usage { IfErr result (λ status. status ≡ Usage → RefusesOptions (found_of options.now) Usage) }
{
    let scanned = scan_as(rt, logs, options, is_one)?;
    match write_counts(scanned.as_slice(), writer) {
        Ok(()) => Ok(scanned),
        Err(error) => {
            report_error(rt, "the output", &error);
            Err(Status::Failed)
        }
    }
}

// The first pass over all logs. As one transaction they have to be under one description. Behind it nothing may be in the way in later logs.
fn scan_as<'a, L: Logs, R: Eprint + AllocGlobal>(
    rt: &R,
    logs: &L,
    options: &ArgMatches<'a>,
    is_one: bool,
) -> Result<Vec<ScannedLog<'a>>, Status>
    requires one { StatesFlag (one_text (found_of options.now) (codes "one-transaction")) is_one }
    ensures ok { IfOk result (λ scanned. AreUndoneAs (L.bytes logs.now) (L.has_frames logs.now) L.Sought.is_at (found_of options.now) is_one scanned.items) }
    ensures err { IfErr result (λ status. status ≢ Fine) }
    ensures refused { IfErr result (λ status. status ≡ Damaged → IsRefusedAs (L.bytes logs.now) (L.has_frames logs.now) L.Sought.is_at (found_of options.now)) }
    ensures usage { IfErr result (λ status. status ≡ Usage → RefusesOptions (found_of options.now) Usage) }
{
    let scanned = scan_described(rt, logs, options, is_one)?;
    match check_later(rt, logs, options, scanned.as_slice()) {
        Ok(()) => Ok(scanned),
        Err(status) => Err(status),
    }
}

// The first pass over all logs. As one transaction they have to be under one description.
fn scan_described<'a, L: Logs, R: Eprint + AllocGlobal>(
    rt: &R,
    logs: &L,
    options: &ArgMatches<'a>,
    is_one: bool,
) -> Result<Vec<ScannedLog<'a>>, Status>
    requires one { StatesFlag (one_text (found_of options.now) (codes "one-transaction")) is_one }
    ensures ok { IfOk result (λ scanned. AreScannedAs (L.bytes logs.now) (L.has_frames logs.now) L.Sought.is_at (found_of options.now) is_one scanned.items) }
    ensures err { IfErr result (λ status. status ≢ Fine) }
    ensures refused { IfErr result (λ status. status ≡ Damaged → AreRefused (L.bytes logs.now) (L.has_frames logs.now) L.Sought.is_at (found_of options.now)) }
    ensures usage { IfErr result (λ status. status ≡ Usage → RefusesOptions (found_of options.now) Usage) }
{
    let scanned = scan_files(rt, logs, options)?;
    if !is_one {
        return Ok(scanned);
    }
    match check_descriptions(rt, logs, scanned.as_slice()) {
        Ok(()) => Ok(scanned),
        Err(status) => Err(status),
    }
}

// The first pass over the logs that the words name.
fn scan_files<'a, L: Logs, R: Eprint + AllocGlobal>(
    rt: &R,
    logs: &L,
    options: &ArgMatches<'a>,
) -> Result<Vec<ScannedLog<'a>>, Status>
    ensures ok { IfOk result (λ scanned. AreUndone (L.bytes logs.now) (found_of options.now) (texts_given (found_of options.now) (codes "FILE")) scanned.items) }
    ensures err { IfErr result (λ status. status ≢ Fine) }
    ensures refused { IfErr result (λ status. status ≡ Damaged → HasRefused (L.bytes logs.now) (found_of options.now) (texts_given (found_of options.now) (codes "FILE"))) }
    ensures usage { IfErr result (λ status. status ≡ Usage → RefusesOptions (found_of options.now) Usage) }
{
    let names = options.get_strs("FILE").unwrap_or(&[]);
    scan_logs(rt, logs, options, names)
}

// How many transactions of logs are undone.
fn transactions_in(scanned: &[ScannedLog<'_>]) -> u64
    ensures { result ≡ min (transactions_in scanned.now) (2 ^ 64 - 1) }
{
    let mut count = 0u64;
    for log in scanned {
        count = count.saturating_add(log.scan.index().transactions().len() as u64);
    }
    count
}

// How many row events of logs are undone.
fn changes_in(scanned: &[ScannedLog<'_>]) -> u64
    ensures { result ≡ min (changes_in scanned.now) (2 ^ 64 - 1) }
{
    let mut count = 0u64;
    for log in scanned {
        count = count.saturating_add(log.scan.index().changes().len() as u64);
    }
    count
}

// Writes the line of the counts.
fn write_counts<W: Write>(scanned: &[ScannedLog<'_>], writer: &mut W) -> io::Result<()>
    ensures { OnOk result (Appends (W.contents writer.old) (W.contents writer.new) (counts_line scanned.now)) }
{
    let transactions = transactions_in(scanned);
    let changes = changes_in(scanned);
    writeln!(writer, "transactions {transactions}, row events {changes}")?;
    writer.flush()
}

// Writes the line of the counts, and those of the tables.
fn write_rows<W: Write>(
    scanned: &[ScannedLog<'_>],
    stats: &TableStats,
    writer: &mut W,
) -> io::Result<()>
    ensures { OnOk result (Appends (W.contents writer.old) (W.contents writer.new) (counts_line scanned.now ++ flat_map rows_line stats.now.tables.entries)) }
{
    write_counts(scanned, writer)?;
    write_table_lines(stats, writer)?;
    writer.flush()
}

// Writes the lines of the tables.
fn write_table_lines<W: Write>(stats: &TableStats, writer: &mut W) -> io::Result<()>
    ensures { OnOk result (Appends (W.contents writer.old) (W.contents writer.new) (flat_map rows_line stats.now.tables.entries)) }
{
    write_table_rows(stats, writer)
}

// Writes the log that undoes these logs into a file. It is there if the status is `Fine`.
fn put_log<L: Logs, T: NewFile, R: Eprint + AllocGlobal>(
    rt: &R,
    logs: &L,
    scanned: &[ScannedLog<'_>],
    is_one: bool,
    file: &mut T,
) -> Status
    ensures fine { result ≡ Fine → PutsLog (L.has_frames logs.now) L.Sought.is_at ⟦<Counted<BufWriter<Retrying<T::Draft>>> as WriteCounted>⟧.contents (T.is_fresh file.old) (T.has file.new) is_one scanned.now }
    ensures there { result ≡ Fine → T.is_there file.new ≡ true }
    ensures other { result ≢ Fine → T.is_there file.new ≡ T.is_there file.old }
    ensures left { T.has_draft file.old ≡ false → T.has_draft file.new ≡ false }
    ensures failed { result ≢ Fine → result ≡ Failed }
{
    let draft = match file.begin() {
        Ok(draft) => draft,
        Err(error) => {
            report_error(rt, file.draft_name(), &error);
            return Status::Failed;
        }
    };
    match write_log(rt, logs, scanned, is_one, file.draft_name(), draft) {
        Ok(draft) => finish(rt, file, draft),
        Err(status) => {
            file.discard();
            status
        }
    }
}

// Gives a file its name, behind its last byte.
fn finish<T: NewFile, R: Eprint>(rt: &R, file: &mut T, draft: T::Draft) -> Status
    ensures fine { result ≡ Fine → T.has file.new (T.Draft.contents draft) }
    ensures there { result ≡ Fine → T.is_there file.new ≡ true }
    ensures other { result ≢ Fine → T.is_there file.new ≡ T.is_there file.old }
    ensures left { T.has_draft file.new ≡ false }
    ensures failed { result ≢ Fine → result ≡ Failed }
{
    match file.finish(draft) {
        Ok(()) => Status::Fine,
        Err(error) => {
            report_error(rt, file.name(), &error);
            file.discard();
            Status::Failed
        }
    }
}
