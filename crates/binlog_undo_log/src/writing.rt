//! The second pass: what undoes the row events at the places that were kept.
ghost use Rattle.std.specs.Prelude.{◌≡◌, ℕ, List, OnOk, Ok, Some};
ghost use Rattle.binlog_event_format.specs.DescriptionRefs.{description_of};
ghost use Rattle.binlog_events.specs.EventRefs.{view_of};
ghost use Rattle.binlog_payloads.specs.Events.{payload_in, payload_of};
ghost use Rattle.binlog_undo_log.specs.Output.{GrowsBy};
ghost use Rattle.binlog_undo_log.specs.Undoing.{UndoesChanges, UndoesInside, UndoesOwn, UndoesTransaction, UndoesAll};

use crate::compressed::MOST_BYTES;
use crate::events::{event_of, xid_of};
use crate::frames::Frames;
use crate::output::UndoOutput;
use crate::slice_frames::SliceFrames;
use crate::undo_error::UndoLogError;
use binlog_event_format::{BinlogEventFooter, DescriptionRef};
use binlog_file::{EventRef, WriteCounted};
use binlog_payloads::{PayloadError, TransactionPayloadEvent};
use binlog_undo::ForeignKeyChecks;
use binlog_undo_index::{ChangePlace, TransactionPlace};
use std::alloc::Global;

// Writes what undoes the row events at these places, the last one first.
fn write_changes<F: Frames, W: WriteCounted>(
    alloc: Global,
    frames: &mut F,
    fde: DescriptionRef<'_>,
    changes: &[ChangePlace],
    checks: ForeignKeyChecks,
    output: &mut UndoOutput<W>,
) -> Result<(), UndoLogError>
    ensures written { OnOk result (GrowsBy W.contents (UndoesChanges (F.is_at frames.old) (description_of fde.entry) checks changes.now) output.old output.new) }
    ensures same { (place : ℕ) (frame : List ℕ) → F.is_at frames.new place frame → F.is_at frames.old place frame }
{
    let mut left = changes;
    'changes: while let Some((change, front)) = left.split_last() {
        output.change(alloc, frames, fde, *change, checks)?;
        left = front;
    }
    Ok(())
}

// Writes what undoes the row events of a transaction with this last event. They are in its file, or in the content of that event.
fn write_own<F: Frames, W: WriteCounted>(
    alloc: Global,
    frames: &mut F,
    fde: DescriptionRef<'_>,
    event: &EventRef<'_>,
    changes: &[ChangePlace],
    checks: ForeignKeyChecks,
    output: &mut UndoOutput<W>,
) -> Result<(), UndoLogError>
    ensures written { OnOk result (GrowsBy W.contents (UndoesOwn (F.is_at frames.old) (description_of fde.entry) checks (view_of event.now) changes.now) output.old output.new) }
    ensures same { (place : ℕ) (frame : List ℕ) → F.is_at frames.new place frame → F.is_at frames.old place frame }
{
    match TransactionPayloadEvent::of_event(event) {
        Ok(None) => write_changes(alloc, frames, fde, changes, checks, output),
        Ok(Some(payload)) => write_inside(alloc, event, &payload, changes, checks, output),
        Err(_) => Err(UndoLogError::Changed),
    }
}

// Writes what undoes row events in the content of an event with this payload.
fn write_inside<W: WriteCounted>(
    alloc: Global,
    event: &EventRef<'_>,
    payload: &TransactionPayloadEvent<'_>,
    changes: &[ChangePlace],
    checks: ForeignKeyChecks,
    output: &mut UndoOutput<W>,
) -> Result<(), UndoLogError>
    requires { payload_in (view_of event.now) ≡ Ok (Some (payload_of payload.now)) }
    ensures { OnOk result (GrowsBy W.contents (UndoesInside checks (view_of event.now) changes.now) output.old output.new) }
{
    match payload.decompressed(alloc, MOST_BYTES) {
        Ok(content) => {
            let mut frames = SliceFrames::new(content.as_slice());
            let fde = event.fde().with_footer(BinlogEventFooter::default());
            write_changes(alloc, &mut frames, fde, changes, checks, output)
        }
        Err(PayloadError::Memory) => Err(UndoLogError::Memory),
        Err(_) => Err(UndoLogError::Changed),
    }
}

// Writes what undoes a transaction whose last event is at this place.
fn write_transaction<F: Frames, W: WriteCounted>(
    alloc: Global,
    frames: &mut F,
    fde: DescriptionRef<'_>,
    last: u64,
    changes: &[ChangePlace],
    checks: ForeignKeyChecks,
    output: &mut UndoOutput<W>,
) -> Result<(), UndoLogError>
    ensures written { OnOk result (GrowsBy W.contents (UndoesTransaction (F.is_at frames.old) (description_of fde.entry) checks last changes.now) output.old output.new) }
    ensures same { (place : ℕ) (frame : List ℕ) → F.is_at frames.new place frame → F.is_at frames.old place frame }
{
    let frame = frames.frame_at(alloc, last)?;
    let event = event_of(alloc, fde, &frame)?;
    let header = event.header();
    let xid = xid_of(alloc, &event)?;
    output.begin(alloc, &header)?;
    write_own(alloc, frames, fde, &event, changes, checks, output)?;
    output.commit(alloc, &header, xid)
}

/// Writes what undoes these transactions, the last one first, each as a transaction: a BEGIN, for each of its row events, the last
/// one first, its table map and the event that undoes it, and an XID. `changes` are the row events of all transactions, in order, and
/// `fde` is the description under which all events of the file are read.
///
/// One event of the file is read at a time, and its checksum is verified. A compressed transaction is decompressed for its row events.
///
/// # Errors
///
/// - [`UndoLogError::Changed`] if the file doesn't have these events any more, the description doesn't state the post-header length of an
///   event that is written, or the transactions have more row events than there are, or fewer.
/// - [`UndoLogError::Reader`] if the file can't be read.
/// - [`UndoLogError::Writer`] if the output fails.
/// - [`UndoLogError::TooLong`] if an event would have more than 4,294,967,295 bytes, or the log more than 2^64 - 1.
/// - [`UndoLogError::Memory`] if memory is refused.
///
/// Some of the events are written then.
pub fn write_undo<F: Frames, W: WriteCounted>(
    alloc: Global,
    frames: &mut F,
    fde: DescriptionRef<'_>,
    transactions: &[TransactionPlace],
    changes: &[ChangePlace],
    checks: ForeignKeyChecks,
    output: &mut UndoOutput<W>,
) -> Result<(), UndoLogError>
    ensures written { OnOk result (GrowsBy W.contents (UndoesAll (F.is_at frames.old) (description_of fde.entry) checks transactions.now changes.now) output.old output.new) }
    ensures same { (place : ℕ) (frame : List ℕ) → F.is_at frames.new place frame → F.is_at frames.old place frame }
{
    let mut left = transactions;
    let mut changes_left = changes;
    'transactions: while let Some((transaction, front)) = left.split_last() {
        let count = transaction.changes as usize;
        let Some(start) = changes_left.len().checked_sub(count) else {
            return Err(UndoLogError::Changed);
        };
        let (before, own) = changes_left.split_at(start);
        write_transaction(alloc, frames, fde, transaction.last, own, checks, output)?;
        left = front;
        changes_left = before;
    }
    if changes_left.is_empty() {
        Ok(())
    } else {
        Err(UndoLogError::Changed)
    }
}
