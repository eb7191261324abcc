//! The second pass over logs in memory.
ghost use Rattle.std.specs.Prelude.{◌≡◌, true, IfErr, IfOk, MatchOption, OnOk};
ghost use Rattle.binlog_undo_items.specs.Failures.{is_late};
ghost use Rattle.binlog_undo_items.specs.Options.{is_one};
ghost use Rattle.binlog_undo_items.specs.Written.{AreAllKept, IsLastUndone, MakesLog, WritesAs, WritesAsOne, WritesLogs, WritesOne};

use crate::failure::UndoFailure;
use crate::options::BinlogUndoOptions;
use crate::scanning::ScannedLog;
use binlog_file::{BinlogFileHeader, Counted, WriteCounted};
use binlog_undo_log::{SliceFrames, UndoLogError, UndoOutput, begin_one, write_file};
use std::alloc::Global;

// Writes what undoes a log.
fn write_one<W: WriteCounted>(
    alloc: Global,
    log: &ScannedLog<'_>,
    output: &mut UndoOutput<W>,
) -> Result<(), UndoLogError>
    ensures { OnOk result (WritesOne W.contents log.now output.old output.new) }
{
    let mut frames = SliceFrames::new(log.bytes);
    write_file(alloc, &mut frames, &log.scan, output)
}

// Writes what undoes the logs, the last one first.
fn write_logs<W: WriteCounted>(
    alloc: Global,
    logs: &[ScannedLog<'_>],
    output: &mut UndoOutput<W>,
) -> Result<(), UndoLogError>
    ensures { OnOk result (WritesLogs W.contents logs.now output.old output.new) }
{
    let mut left = logs.len();
    'logs: while left > 0 {
        left -= 1;
        write_one(alloc, &logs[left], output)?;
    }
    Ok(())
}

// The last log of which something is undone.
fn last_undone<'d, 'a>(logs: &'d [ScannedLog<'a>]) -> Option<&'d ScannedLog<'a>>
    ensures { MatchOption result (AreAllKept logs.now) (λ log. IsLastUndone logs.now log.now) }
{
    let mut left = logs.len();
    'logs: while left > 0 {
        left -= 1;
        if !logs[left].scan.index().transactions().is_empty() {
            return Some(&logs[left]);
        }
    }
    None
}

// Writes what undoes the logs as one transaction; nothing if nothing is undone.
fn write_as_one<W: WriteCounted>(
    alloc: Global,
    logs: &[ScannedLog<'_>],
    output: &mut UndoOutput<W>,
) -> Result<(), UndoLogError>
    ensures { OnOk result (WritesAsOne W.contents logs.now output.old output.new) }
{
    let Some(last) = last_undone(logs) else {
        return Ok(());
    };
    let mut frames = SliceFrames::new(last.bytes);
    let commit = begin_one(alloc, &mut frames, &last.scan, output)?;
    write_logs(alloc, logs, output)?;
    commit.write(alloc, output)
}

// Writes what undoes the logs.
fn write_undo<W: WriteCounted>(
    alloc: Global,
    options: &BinlogUndoOptions,
    logs: &[ScannedLog<'_>],
    output: &mut UndoOutput<W>,
) -> Result<(), UndoLogError>
    ensures { OnOk result (WritesAs W.contents (is_one options.now) logs.now output.old output.new) }
{
    if options.is_one() {
        write_as_one(alloc, logs, output)
    } else {
        write_logs(alloc, logs, output)
    }
}

/// The log that undoes these logs.
///
/// # Errors
///
/// - [`UndoFailure::Memory`] if memory is refused.
/// - [`UndoFailure::TooLong`] if an event would have more than 4,294,967,295 bytes.
/// - [`UndoFailure::Description`] if all is to be one transaction, and the logs have different format descriptions.
/// - [`UndoFailure::Changed`] if a log was changed meanwhile.
pub(crate) fn make_log(
    alloc: Global,
    options: &BinlogUndoOptions,
    logs: &[ScannedLog<'_>],
) -> Result<Vec<u8>, UndoFailure>
    ensures ok { IfOk result (λ log. MakesLog ⟦<Counted<Vec<u8>> as WriteCounted>⟧.contents options.now logs.now log.items) }
    ensures err { IfErr result (λ failure. is_late failure ≡ true) }
{
    let header = Vec::from_slice(alloc, &BinlogFileHeader::VALUE)?;
    let mut output = UndoOutput {
        writer: Counted::new(header),
        place: BinlogFileHeader::LEN as u64,
        has_checksums: false,
        has_bounds: true,
        description: None,
    };
    write_undo(alloc, options, logs, &mut output)?;
    Ok(output.writer.into_inner())
}
