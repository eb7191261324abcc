//! The description under which a file is undone.
ghost use Rattle.std.specs.Prelude.{◌≡◌, [], true, false, IfOk, IsNone, IfSome};
ghost use Rattle.binlog_undo_index.specs.Parts.{parts_of};
ghost use Rattle.binlog_undo_log.specs.OneTransaction.{DescriptionAt, DescriptionOf};

use crate::description::{body_of, description_in};
use crate::events::event_of;
use crate::frames::Frames;
use crate::heads::has_checksums;
use crate::scan::UndoScan;
use crate::undo_error::UndoLogError;
use binlog_event_format::DescriptionRef;
use binlog_file::BinlogVersion;
use std::alloc::Global;

/// The description under which what undoes a file is written.
#[derive(Drop)]
pub struct LogDescription {
    /// Its body, as it is written: created at 0, and behind it the number of its algorithm, if it states one.
    pub body: Vec<u8>,
    /// Whether the events behind it have a CRC-32.
    pub has_checksums: bool,
}

impl LogDescription {
    /// Whether events can be under this description in place of another one.
    pub fn is_same(&self, other: &LogDescription) -> bool
        ensures same { result ≡ true → (self.now.body.items ≡ other.now.body.items) × (self.now.has_checksums ≡ other.now.has_checksums) }
        ensures other { result ≡ false → ¬ ((self.now.body.items ≡ other.now.body.items) × (self.now.has_checksums ≡ other.now.has_checksums)) }
    {
        self.body.as_slice() == other.body.as_slice() && self.has_checksums == other.has_checksums
    }
}

/// The description under which what undoes a file is written; None if the scan kept no transaction.
///
/// # Errors
///
/// - [`UndoLogError::Changed`] if the file doesn't have this description any more.
/// - [`UndoLogError::Reader`] if the file can't be read.
/// - [`UndoLogError::Memory`] if memory is refused.
pub fn read_description<F: Frames>(
    alloc: Global,
    frames: &mut F,
    scan: &UndoScan,
) -> Result<Option<LogDescription>, UndoLogError>
    ensures none { IfOk result (λ found. IsNone found → (parts_of scan.now.index).transactions ≡ []) }
    ensures some { IfOk result (λ found. IfSome found (λ d. DescriptionOf (F.is_at frames.old) scan.now d.body.items d.has_checksums)) }
{
    if scan.index().transactions().is_empty() {
        return Ok(None);
    }
    match scan.description() {
        Some(place) => Ok(Some(description_at(alloc, frames, place)?)),
        None => Err(UndoLogError::Changed),
    }
}

// The description at a place.
fn description_at<F: Frames>(
    alloc: Global,
    frames: &mut F,
    place: u64,
) -> Result<LogDescription, UndoLogError>
    ensures { IfOk result (λ d. DescriptionAt (F.is_at frames.old) place d.body.items d.has_checksums) }
{
    let frame = frames.frame_at(alloc, place)?;
    let event = event_of(alloc, DescriptionRef::new(BinlogVersion::Version4), &frame)?;
    let fde = description_in(&event)?;
    let body = body_of(alloc, fde)?;
    Ok(LogDescription {
        body,
        has_checksums: has_checksums(fde),
    })
}
