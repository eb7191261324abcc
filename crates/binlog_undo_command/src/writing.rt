//! The second pass over several logs.
ghost use Rattle.std.specs.Prelude.{◌≡◌, ◌∷◌, [], IfErr, IfOk, OnOk};
ghost use Rattle.std.specs.Io.KnownBytes.{Keeps};
ghost use Rattle.binlog_cli.specs.declared.exit_status.Status.TheVariants.{Failed};
ghost use Rattle.binlog_undo_log.specs.Output.{Pushes};
ghost use Rattle.binlog_undo_log.specs.Undoing.{commit_event};
ghost use Rattle.binlog_undo_command.specs.Written.{BeginsBy, BeginsLogs, WritesOne, WritesLogs, WritesOneTransaction, WritesAll, WritesWhole, WritesLog};

use crate::logs::Logs;
use crate::messages::report_error;
use crate::scanning::ScannedLog;
use binlog_cli::{BUFFER_SIZE, Status, out_of_memory};
use binlog_file::{BinlogFileHeader, Counted, Retrying, WriteCounted};
use binlog_undo_log::{Commit, Frames, UndoLogError, UndoOutput, begin_one, write_file};
use std::io::{BufWriter, Write};

/// Writes the log that undoes these logs, and gives back the writer, which has all of it. All that is undone is one transaction if
/// `is_one`. `output` is the name of what is written, for messages.
///
/// # Errors
///
/// [`Status::Failed`], after its message, if a log can't be read or was changed, if the writer fails, or if there is no memory.
pub(crate) fn write_log<L: Logs, R: Eprint + AllocGlobal, W: Write + Drop>(
    rt: &R,
    logs: &L,
    scanned: &[ScannedLog<'_>],
    is_one: bool,
    output: &str,
    writer: W,
) -> Result<W, Status>
    ensures ok { IfOk result (λ written. WritesLog (L.has_frames logs.now) L.Sought.is_at ⟦<Counted<BufWriter<Retrying<W>>> as WriteCounted>⟧.contents is_one scanned.now (W.contents writer) (W.contents written)) }
    ensures err { IfErr result (λ status. status ≡ Failed) }
{
    let writer = Retrying::new(writer);
    let Ok(buffer) = BufWriter::with_capacity(rt.alloc(), BUFFER_SIZE, writer) else {
        return Err(out_of_memory(rt));
    };
    let mut log = UndoOutput {
        writer: Counted::new(buffer),
        place: BinlogFileHeader::LEN as u64,
        has_checksums: false,
        has_bounds: true,
        description: None,
    };
    match write_whole(rt, logs, scanned, is_one, &mut log) {
        Ok(()) => close(rt, output, log.writer.into_inner()),
        Err(UndoLogError::Writer) => {
            if close(rt, output, log.writer.into_inner()).is_ok() {
                report_error(rt, output, &UndoLogError::Writer);
            }
            Err(Status::Failed)
        }
        Err(_) => Err(Status::Failed),
    }
}

// Flushes a buffer, and gives back its writer, which has all of its bytes. A failure has its message.
fn close<R: Eprint, W: Write + Drop>(
    rt: &R,
    output: &str,
    buffer: BufWriter<Retrying<W>>,
) -> Result<W, Status>
    ensures ok { IfOk result (λ writer. Keeps (⟦<BufWriter<Retrying<W>> as Write>⟧.contents buffer) (W.contents writer)) }
    ensures err { IfErr result (λ status. status ≡ Failed) }
{
    match buffer.into_inner() {
        Ok(writer) => Ok(writer.into_inner()),
        Err(failure) => {
            report_error(rt, output, failure.error());
            Err(Status::Failed)
        }
    }
}

// Writes the file header, and what undoes the logs. A failure of the writer alone has no message yet.
fn write_whole<L: Logs, R: Eprint + AllocGlobal, W: WriteCounted>(
    rt: &R,
    logs: &L,
    scanned: &[ScannedLog<'_>],
    is_one: bool,
    output: &mut UndoOutput<W>,
) -> Result<(), UndoLogError>
    ensures { OnOk result (WritesWhole (L.has_frames logs.now) L.Sought.is_at W.contents is_one scanned.now output.old output.new) }
{
    match output.writer.write_whole(&BinlogFileHeader::VALUE) {
        Ok(()) => write_all(rt, logs, scanned, is_one, output),
        Err(_) => Err(UndoLogError::Writer),
    }
}

// Writes what undoes the logs: as one transaction, or as those of the logs.
fn write_all<L: Logs, R: Eprint + AllocGlobal, W: WriteCounted>(
    rt: &R,
    logs: &L,
    scanned: &[ScannedLog<'_>],
    is_one: bool,
    output: &mut UndoOutput<W>,
) -> Result<(), UndoLogError>
    ensures { OnOk result (WritesAll (L.has_frames logs.now) L.Sought.is_at W.contents is_one scanned.now output.old output.new) }
{
    if is_one {
        write_one_transaction(rt, logs, scanned, output)
    } else {
        write_logs(rt, logs, scanned, output)
    }
}

// Writes what undoes the logs as one transaction.
fn write_one_transaction<L: Logs, R: Eprint + AllocGlobal, W: WriteCounted>(
    rt: &R,
    logs: &L,
    scanned: &[ScannedLog<'_>],
    output: &mut UndoOutput<W>,
) -> Result<(), UndoLogError>
    ensures { OnOk result (WritesOneTransaction (L.has_frames logs.now) L.Sought.is_at W.contents scanned.now output.old output.new) }
{
    let Some(commit) = begin_logs(rt, logs, scanned, output)? else {
        return Ok(());
    };
    write_logs(rt, logs, scanned, output)?;
    end_logs(rt, commit, output)
}

// Begins the transaction by the last log in which something is undone; None if there is none.
fn begin_logs<L: Logs, R: Eprint + AllocGlobal, W: WriteCounted>(
    rt: &R,
    logs: &L,
    scanned: &[ScannedLog<'_>],
    output: &mut UndoOutput<W>,
) -> Result<Option<Commit>, UndoLogError>
    ensures { IfOk result (λ commit. BeginsLogs (L.has_frames logs.now) L.Sought.is_at W.contents commit scanned.now output.old output.new) }
{
    let mut left = scanned.len();
    'logs: while left > 0 {
        left -= 1;
        let log = &scanned[left];
        if !log.scan.index().transactions().is_empty() {
            return Ok(Some(begin_log(rt, logs, log, output)?));
        }
    }
    Ok(None)
}

// Begins the transaction by a log.
fn begin_log<L: Logs, R: Eprint + AllocGlobal, W: WriteCounted>(
    rt: &R,
    logs: &L,
    log: &ScannedLog<'_>,
    output: &mut UndoOutput<W>,
) -> Result<Commit, UndoLogError>
    ensures { IfOk result (λ commit. BeginsBy (L.has_frames logs.now) L.Sought.is_at W.contents commit log.now output.old output.new) }
{
    let mut frames = seek(rt, logs, log)?;
    let begun = begin_one(rt.alloc(), &mut frames, &log.scan, output);
    if let Err(error) = &begun {
        tell(rt, log.name, *error);
    }
    begun
}

// Ends the transaction.
fn end_logs<R: Eprint + AllocGlobal, W: WriteCounted>(
    rt: &R,
    commit: Commit,
    output: &mut UndoOutput<W>,
) -> Result<(), UndoLogError>
    ensures { OnOk result (Pushes W.contents (commit_event commit.header commit.xid ∷ []) output.old output.new) }
{
    let ended = commit.write(rt.alloc(), output);
    if let Err(error) = &ended {
        tell(rt, "undo", *error);
    }
    ended
}

// Writes what undoes the logs, the last one first.
fn write_logs<L: Logs, R: Eprint + AllocGlobal, W: WriteCounted>(
    rt: &R,
    logs: &L,
    scanned: &[ScannedLog<'_>],
    output: &mut UndoOutput<W>,
) -> Result<(), UndoLogError>
    ensures { OnOk result (WritesLogs (L.has_frames logs.now) L.Sought.is_at W.contents scanned.now output.old output.new) }
{
    let mut left = scanned.len();
    'logs: while left > 0 {
        left -= 1;
        write_one(rt, logs, &scanned[left], output)?;
    }
    Ok(())
}

// Writes what undoes a log.
fn write_one<L: Logs, R: Eprint + AllocGlobal, W: WriteCounted>(
    rt: &R,
    logs: &L,
    log: &ScannedLog<'_>,
    output: &mut UndoOutput<W>,
) -> Result<(), UndoLogError>
    ensures { OnOk result (WritesOne (L.has_frames logs.now) L.Sought.is_at W.contents log.now output.old output.new) }
{
    let mut frames = seek(rt, logs, log)?;
    let written = write_file(rt.alloc(), &mut frames, &log.scan, output);
    if let Err(error) = &written {
        tell(rt, log.name, *error);
    }
    written
}

/// A log whose frames are sought.
///
/// # Errors
///
/// [`UndoLogError::Reader`], after its message, if it can't be opened.
pub(crate) fn seek<L: Logs, R: Eprint>(
    rt: &R,
    logs: &L,
    log: &ScannedLog<'_>,
) -> Result<L::Sought, UndoLogError>
    ensures { IfOk result (L.has_frames logs.now log.now.name.now) }
{
    match logs.seek(log.name) {
        Ok(frames) => Ok(frames),
        Err(error) => {
            report_error(rt, log.name, &error);
            Err(UndoLogError::Reader)
        }
    }
}

// Writes the message of an error. A failure of the writer has one when the writer is closed.
fn tell<R: Eprint>(rt: &R, name: &str, error: UndoLogError) {
    if error != UndoLogError::Writer {
        report_error(rt, name, &error);
    }
}
