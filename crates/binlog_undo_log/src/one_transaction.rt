//! All that is undone as one transaction.
ghost use Rattle.std.specs.Prelude.{◌≡◌, false, ◌∷◌, [], IfOk, OnOk};
ghost use Rattle.binlog_event_format.specs.DescriptionRefs.{description_of};
ghost use Rattle.binlog_undo_log.specs.OneTransaction.{BeginsBy, BeginsUnder, BeginsOne};
ghost use Rattle.binlog_undo_log.specs.Output.{Pushes};
ghost use Rattle.binlog_undo_log.specs.Undoing.{commit_event};

use crate::description::description_in;
use crate::events::{event_of, xid_of};
use crate::frames::Frames;
use crate::output::UndoOutput;
use crate::scan::UndoScan;
use crate::undo_error::UndoLogError;
use binlog_event_format::{BinlogEventHeader, DescriptionRef};
use binlog_file::{BinlogVersion, WriteCounted};
use std::alloc::Global;

/// The end of one transaction for all that is undone.
#[derive(Clone, Copy, Debug, PartialEq, Eq)]
pub struct Commit {
    header: BinlogEventHeader,
    xid: u64,
}

impl Commit {
    /// Writes the XID that ends the transaction.
    ///
    /// # Errors
    ///
    /// Those of [`crate::write_undo`], without `Changed` and `Reader`.
    pub fn write<W: WriteCounted>(
        self,
        alloc: Global,
        output: &mut UndoOutput<W>,
    ) -> Result<(), UndoLogError>
        ensures { OnOk result (Pushes W.contents (commit_event self.header self.xid ∷ []) output.old output.new) }
    {
        output.push_commit(alloc, &self.header, self.xid)
    }
}

/// Begins one transaction for all that is written behind it: writes the description of a file, and a BEGIN by the last event of the
/// last transaction that the scan kept.
///
/// # Errors
///
/// Those of [`crate::write_undo`]. [`UndoLogError::Changed`] if the scan kept no transaction.
pub fn begin_one<F: Frames, W: WriteCounted>(
    alloc: Global,
    frames: &mut F,
    scan: &UndoScan,
    output: &mut UndoOutput<W>,
) -> Result<Commit, UndoLogError>
    ensures { IfOk result (λ commit. BeginsOne W.contents (F.is_at frames.old) scan.now commit output.old output.new) }
{
    let Some((transaction, _)) = scan.index().transactions().split_last() else {
        return Err(UndoLogError::Changed);
    };
    let Some(place) = scan.description() else {
        return Err(UndoLogError::Changed);
    };
    begin_under(alloc, frames, place, transaction.last, output)
}

// The same, where the description is at a place, and the last event at another one.
fn begin_under<F: Frames, W: WriteCounted>(
    alloc: Global,
    frames: &mut F,
    place: u64,
    last: u64,
    output: &mut UndoOutput<W>,
) -> Result<Commit, UndoLogError>
    ensures { IfOk result (λ commit. BeginsUnder W.contents (F.is_at frames.old) place last commit output.old output.new) }
{
    let frame = frames.frame_at(alloc, place)?;
    let event = event_of(alloc, DescriptionRef::new(BinlogVersion::Version4), &frame)?;
    let fde = description_in(&event)?;
    output.describe(alloc, &event.header(), fde)?;
    begin_by(alloc, frames, fde, last, output)
}

// Writes a BEGIN by the event at a place.
fn begin_by<F: Frames, W: WriteCounted>(
    alloc: Global,
    frames: &mut F,
    fde: DescriptionRef<'_>,
    last: u64,
    output: &mut UndoOutput<W>,
) -> Result<Commit, UndoLogError>
    ensures { IfOk result (λ commit. BeginsBy W.contents (F.is_at frames.old) (description_of fde.entry) last commit output.old output.new) }
{
    let frame = frames.frame_at(alloc, last)?;
    let event = event_of(alloc, fde, &frame)?;
    let header = event.header();
    let xid = xid_of(alloc, &event)?;
    output.push_begin(alloc, &header)?;
    output.has_bounds = false;
    Ok(Commit { header, xid })
}
