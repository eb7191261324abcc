//! The log that undoes logs in memory, written into the caller's memory.
ghost use Rattle.std.specs.Prelude.{◌≡◌, ◌≢◌, ◌-◌, ◌^◌, min, Err, IfErr, IfOk};
ghost use Rattle.binlog_undo_items.specs.Refusals.{changes_in, refusals_of, transactions_in, undone_of};
ghost use Rattle.binlog_undo_items.specs.Undoing.{IsFailure, NamesRefusals, WritesUndoLog};
ghost use Rattle.binlog_undo_items.specs.Written.{PutsLog};
ghost use Rattle.binlog_undo_items.specs.declared.failure.UndoFailure.TheVariants.{Refused};

use crate::failure::UndoFailure;
use crate::refusals::{BinlogRefusal, are_all_skipped, fill, refusals_of};
use crate::request::UndoRequest;
use crate::scanning::{ScannedLog, scan_request};
use crate::writing::make_log;
use binlog_file::{Counted, WriteCounted};
use std::alloc::Global;

/// What is undone: counts alone.
#[repr(C)]
#[derive(Clone, Copy)]
pub struct BinlogUndone {
    /// How many transactions are undone.
    pub transactions: u64,
    /// How many row events are undone.
    pub row_events: u64,
    /// How many transactions, and logs, can't be undone, with those that are left as they are.
    pub refusals: u64,
}

// How many transactions of logs are undone.
fn transactions_in(logs: &[ScannedLog<'_>]) -> u64
    ensures { result ≡ min (transactions_in logs.now) (2 ^ 64 - 1) }
{
    let mut count = 0u64;
    for log in logs {
        count = count.saturating_add(log.scan.index().transactions().len() as u64);
    }
    count
}

// How many row events of logs are undone.
fn changes_in(logs: &[ScannedLog<'_>]) -> u64
    ensures { result ≡ min (changes_in logs.now) (2 ^ 64 - 1) }
{
    let mut count = 0u64;
    for log in logs {
        count = count.saturating_add(log.scan.index().changes().len() as u64);
    }
    count
}

// Names what can't be undone, and counts what is.
fn tell(
    logs: &[ScannedLog<'_>],
    all: &[BinlogRefusal],
    refusals: &mut [BinlogRefusal],
    undone: &mut BinlogUndone,
)
    requires { all.now ≡ refusals_of logs.now }
    ensures { NamesRefusals logs.now refusals.old refusals.new undone.new }
{
    *undone = BinlogUndone {
        transactions: transactions_in(logs),
        row_events: changes_in(logs),
        refusals: all.len() as u64,
    };
    fill(all, refusals);
}

// Writes a log if there is room for all of it, and returns its length.
fn put_log(log: &[u8], text: &mut [u8]) -> usize
    ensures { PutsLog log.now text.old text.new result }
{
    if log.len() <= text.len() {
        text[..log.len()].copy_from_slice(log);
    }
    log.len()
}

/// Writes the log that undoes the logs of a request, if there is room for all of it, and returns its length. Nothing is written if there is
/// less room. Fills in what can't be undone, as much as there is room for, and counts.
///
/// # Errors
///
/// The first of these; nothing is written then, and nothing else changes but after the third:
///
/// - [`UndoFailure::Options`] if an option isn't known, the sizes aren't those of the logs, or a text names no tables.
/// - [`UndoFailure::EndOfInput`] or [`UndoFailure::InvalidFileHeader`] if a log doesn't begin as one.
/// - [`UndoFailure::Refused`] if something can't be undone; what that is is filled in and counted.
/// - [`UndoFailure::Description`] if all is to be one transaction, and the logs have different format descriptions.
/// - [`UndoFailure::TooLong`] if an event would have more than 4,294,967,295 bytes.
/// - [`UndoFailure::Memory`] if memory is refused, at any time.
/// - [`UndoFailure::Changed`] if a log was changed during the call.
pub fn write_undo_log(
    alloc: Global,
    request: &UndoRequest<'_>,
    refusals: &mut [BinlogRefusal],
    undone: &mut BinlogUndone,
    text: &mut [u8],
) -> Result<usize, UndoFailure>
    ensures written { IfOk result (WritesUndoLog ⟦<Counted<Vec<u8>> as WriteCounted>⟧.contents request.now refusals.old refusals.new undone.new text.old text.new) }
    ensures failed { IfErr result (λ failure. IsFailure request.now failure refusals.old refusals.new undone.old undone.new) }
    ensures same { IfErr result (λ _. text.new ≡ text.old) }
{
    let logs = scan_request(alloc, request)?;
    let all = refusals_of(alloc, logs.as_slice())?;
    if !are_all_skipped(logs.as_slice()) {
        tell(logs.as_slice(), all.as_slice(), refusals, undone);
        return Err(UndoFailure::Refused);
    }
    let log = make_log(alloc, &request.options, logs.as_slice())?;
    tell(logs.as_slice(), all.as_slice(), refusals, undone);
    Ok(put_log(log.as_slice(), text))
}
