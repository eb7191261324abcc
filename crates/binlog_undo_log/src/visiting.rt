//! The row events that are undone, one after the other.
ghost use Rattle.std.specs.Prelude.{◌≡◌, ℕ, List, OnOk, Ok, Some};
ghost use Rattle.binlog_event_format.specs.DescriptionRefs.{description_of};
ghost use Rattle.binlog_events.specs.EventRefs.{view_of};
ghost use Rattle.binlog_payloads.specs.Events.{payload_in, payload_of};
ghost use Rattle.binlog_undo_index.specs.Parts.{parts_of};
ghost use Rattle.binlog_undo_log.specs.Places.{InContent};
ghost use Rattle.binlog_undo_log.specs.Visiting.{RowsRelation, VisitsThose, AreMapped, AreAt, AreAtEach, AreOwn, AreOfTransaction, AreOfAll, AreUnder, AreUndoneRows};

use crate::compressed::MOST_BYTES;
use crate::description::description_in;
use crate::events::{event_of, table_map_of};
use crate::frames::Frames;
use crate::scan::UndoScan;
use crate::slice_frames::SliceFrames;
use crate::undo_error::UndoLogError;
use binlog_event_format::{BinlogEventFooter, DescriptionRef};
use binlog_file::{BinlogVersion, EventRef, TableMapEvent};
use binlog_payloads::{PayloadError, TransactionPayloadEvent};
use binlog_undo_index::{ChangePlace, TransactionPlace};
use std::alloc::Global;

/// Is shown row events that are undone.
pub trait RowsVisitor {
    /// What a visit of rows of the table of a table map makes of the visitor.
    ghost visits: { RowsRelation Self };

    /// Visits a row event, of the table of this table map.
    ///
    /// # Errors
    ///
    /// Any: it ends the visits.
    fn visit_rows(
        &mut self,
        alloc: Global,
        map: &TableMapEvent<'_>,
        event: &EventRef<'_>,
    ) -> Result<(), UndoLogError>
        ensures { OnOk result (visits self.old map.now (view_of event.now) self.new) };
}

// Visits a row event, of the table of the table map that an event is.
fn visit_event<V: RowsVisitor>(
    alloc: Global,
    map_event: &EventRef<'_>,
    event: &EventRef<'_>,
    visitor: &mut V,
) -> Result<(), UndoLogError>
    ensures { OnOk result (VisitsThose V.visits (AreMapped (view_of map_event.now) (view_of event.now)) visitor.old visitor.new) }
{
    let map = table_map_of(alloc, map_event)?;
    visitor.visit_rows(alloc, &map, event)
}

// Visits the row event at a place.
fn visit_change<F: Frames, V: RowsVisitor>(
    alloc: Global,
    frames: &mut F,
    fde: DescriptionRef<'_>,
    change: ChangePlace,
    visitor: &mut V,
) -> Result<(), UndoLogError>
    ensures visited { OnOk result (VisitsThose V.visits (AreAt (F.is_at frames.old) (description_of fde.entry) change) visitor.old visitor.new) }
    ensures same { (place : ℕ) (frame : List ℕ) → F.is_at frames.new place frame → F.is_at frames.old place frame }
{
    let map_frame = frames.frame_at(alloc, change.table_map)?;
    let frame = frames.frame_at(alloc, change.rows)?;
    let map_event = event_of(alloc, fde, &map_frame)?;
    let event = event_of(alloc, fde, &frame)?;
    visit_event(alloc, &map_event, &event, visitor)
}

// Visits the row events at these places, the last one first.
fn visit_changes<F: Frames, V: RowsVisitor>(
    alloc: Global,
    frames: &mut F,
    fde: DescriptionRef<'_>,
    changes: &[ChangePlace],
    visitor: &mut V,
) -> Result<(), UndoLogError>
    ensures visited { OnOk result (VisitsThose V.visits (AreAtEach (F.is_at frames.old) (description_of fde.entry) changes.now) visitor.old visitor.new) }
    ensures same { (place : ℕ) (frame : List ℕ) → F.is_at frames.new place frame → F.is_at frames.old place frame }
{
    let mut left = changes;
    'changes: while let Some((change, front)) = left.split_last() {
        visit_change(alloc, frames, fde, *change, visitor)?;
        left = front;
    }
    Ok(())
}

// Visits row events in the content of an event with this payload.
fn visit_inside<V: RowsVisitor>(
    alloc: Global,
    event: &EventRef<'_>,
    payload: &TransactionPayloadEvent<'_>,
    changes: &[ChangePlace],
    visitor: &mut V,
) -> Result<(), UndoLogError>
    requires { payload_in (view_of event.now) ≡ Ok (Some (payload_of payload.now)) }
    ensures { OnOk result (VisitsThose V.visits (λ rows. InContent (λ among d. AreAtEach among d changes.now rows) (view_of event.now)) visitor.old visitor.new) }
{
    match payload.decompressed(alloc, MOST_BYTES) {
        Ok(content) => {
            let mut frames = SliceFrames::new(content.as_slice());
            let fde = event.fde().with_footer(BinlogEventFooter::default());
            visit_changes(alloc, &mut frames, fde, changes, visitor)
        }
        Err(PayloadError::Memory) => Err(UndoLogError::Memory),
        Err(_) => Err(UndoLogError::Changed),
    }
}

// Visits the row events of a transaction with this last event. They are in its file, or in the content of that event.
fn visit_own<F: Frames, V: RowsVisitor>(
    alloc: Global,
    frames: &mut F,
    fde: DescriptionRef<'_>,
    event: &EventRef<'_>,
    changes: &[ChangePlace],
    visitor: &mut V,
) -> Result<(), UndoLogError>
    ensures visited { OnOk result (VisitsThose V.visits (AreOwn (F.is_at frames.old) (description_of fde.entry) (view_of event.now) changes.now) visitor.old visitor.new) }
    ensures same { (place : ℕ) (frame : List ℕ) → F.is_at frames.new place frame → F.is_at frames.old place frame }
{
    match TransactionPayloadEvent::of_event(event) {
        Ok(None) => visit_changes(alloc, frames, fde, changes, visitor),
        Ok(Some(payload)) => visit_inside(alloc, event, &payload, changes, visitor),
        Err(_) => Err(UndoLogError::Changed),
    }
}

// Visits the row events of a transaction whose last event is at this place.
fn visit_transaction<F: Frames, V: RowsVisitor>(
    alloc: Global,
    frames: &mut F,
    fde: DescriptionRef<'_>,
    last: u64,
    changes: &[ChangePlace],
    visitor: &mut V,
) -> Result<(), UndoLogError>
    ensures visited { OnOk result (VisitsThose V.visits (AreOfTransaction (F.is_at frames.old) (description_of fde.entry) last changes.now) visitor.old visitor.new) }
    ensures same { (place : ℕ) (frame : List ℕ) → F.is_at frames.new place frame → F.is_at frames.old place frame }
{
    let frame = frames.frame_at(alloc, last)?;
    let event = event_of(alloc, fde, &frame)?;
    visit_own(alloc, frames, fde, &event, changes, visitor)
}

// Visits the row events of these transactions, the last one first.
fn visit_transactions<F: Frames, V: RowsVisitor>(
    alloc: Global,
    frames: &mut F,
    fde: DescriptionRef<'_>,
    transactions: &[TransactionPlace],
    changes: &[ChangePlace],
    visitor: &mut V,
) -> Result<(), UndoLogError>
    ensures { OnOk result (VisitsThose V.visits (AreOfAll (F.is_at frames.old) (description_of fde.entry) transactions.now changes.now) visitor.old visitor.new) }
{
    let mut left = transactions;
    let mut changes_left = changes;
    'transactions: while let Some((transaction, front)) = left.split_last() {
        let count = transaction.changes as usize;
        let Some(start) = changes_left.len().checked_sub(count) else {
            return Err(UndoLogError::Changed);
        };
        let (before, own) = changes_left.split_at(start);
        visit_transaction(alloc, frames, fde, transaction.last, own, visitor)?;
        left = front;
        changes_left = before;
    }
    if changes_left.is_empty() {
        Ok(())
    } else {
        Err(UndoLogError::Changed)
    }
}

// Visits the row events that the scan kept, under the description at a place.
fn visit_described<F: Frames, V: RowsVisitor>(
    alloc: Global,
    frames: &mut F,
    scan: &UndoScan,
    place: u64,
    visitor: &mut V,
) -> Result<(), UndoLogError>
    ensures { OnOk result (VisitsThose V.visits (AreUnder (F.is_at frames.old) place (parts_of scan.now.index).transactions (parts_of scan.now.index).changes) visitor.old visitor.new) }
{
    let frame = frames.frame_at(alloc, place)?;
    let event = event_of(alloc, DescriptionRef::new(BinlogVersion::Version4), &frame)?;
    let fde = description_in(&event)?;
    let index = scan.index();
    visit_transactions(
        alloc,
        frames,
        fde,
        index.transactions(),
        index.changes(),
        visitor,
    )
}

/// Visits the row events that the scan kept of a file, the last one first, as what undoes them is written. Those of a compressed transaction
/// are in the order of its content, the last one first, too.
///
/// # Errors
///
/// - [`UndoLogError::Changed`] if the file doesn't have these events any more.
/// - [`UndoLogError::Reader`] if the file can't be read.
/// - [`UndoLogError::Memory`] if memory is refused.
/// - The error of a visit.
pub fn visit_undone_rows<F: Frames, V: RowsVisitor>(
    alloc: Global,
    frames: &mut F,
    scan: &UndoScan,
    visitor: &mut V,
) -> Result<(), UndoLogError>
    ensures { OnOk result (VisitsThose V.visits (AreUndoneRows (F.is_at frames.old) scan.now) visitor.old visitor.new) }
{
    if scan.index().transactions().is_empty() {
        return Ok(());
    }
    match scan.description() {
        Some(place) => visit_described(alloc, frames, scan, place, visitor),
        None => Err(UndoLogError::Changed),
    }
}
