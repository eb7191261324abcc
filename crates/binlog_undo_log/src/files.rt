//! Both passes over a whole file.
ghost use Rattle.std.specs.Fn.{FnReturnsAt};
ghost use Rattle.std.specs.Prelude.{◌≡◌, ◌<◌, ◌^◌, ℕ, List, length, IfSome, OnOk};
ghost use Rattle.crc32_ieee.specs.Checksums.{IsCrc32, GivesCrc32};
ghost use Rattle.binlog_event_format.specs.DescriptionRefs.{description_of};
ghost use Rattle.binlog_visits.specs.Visits.{VisitsVerifiedLog};
ghost use Rattle.binlog_undo_log.specs.Files.{scans, refuses, ScansFile, WritesDescribed, WritesFile};
ghost use Rattle.binlog_undo_index.specs.Parts.{parts_of};

use crate::description::description_in;
use crate::events::event_of;
use crate::frames::Frames;
use crate::output::UndoOutput;
use crate::scan::UndoScan;
use crate::undo_error::UndoLogError;
use crate::writing::write_undo;
use binlog_event_format::DescriptionRef;
use binlog_file::{BinlogVersion, Error, ReadCounted, WriteCounted};
use binlog_visits::visit_verified_counted;
use crc32_ieee::Crc32;
use std::alloc::Global;

/// The first pass over a file, from its front: the scan visits each of its items, with its CRC-32 verified, and then its end.
///
/// # Errors
///
/// Those of [`visit_verified_counted`].
pub fn scan_file<R: ReadCounted>(
    alloc: Global,
    input: &mut R,
    scan: &mut UndoScan,
) -> Result<(), Error>
    ensures { IfSome (R.remaining input.old) (λ bytes. length bytes < 2 ^ 64 → ScansFile bytes scan.old result scan.new) }
{
    let tail_len = scan_items(alloc, input, scan)?;
    scan.end(tail_len)
}

// Scans each item of a file, and returns the length of its tail.
fn scan_items<R: ReadCounted>(
    alloc: Global,
    input: &mut R,
    scan: &mut UndoScan,
) -> Result<Option<usize>, Error>
    ensures { IfSome (R.remaining input.old) (λ bytes. length bytes < 2 ^ 64 → VisitsVerifiedLog IsCrc32 scans refuses bytes scan.old result scan.new) }
{
    let crc32 = Crc32::new();
    let checksum = |bytes: &[u8]| -> u32
        ensures { IsCrc32 bytes.now result }
    { crc32.checksum(bytes) };
    scan_by_crc32(alloc, checksum, input, scan)
}

// The same, by a function that gives the CRC-32.
fn scan_by_crc32<F: Fn(&[u8]) -> u32 + Drop, R: ReadCounted>(
    alloc: Global,
    checksum: F,
    input: &mut R,
    scan: &mut UndoScan,
) -> Result<Option<usize>, Error>
    requires callable { F.IsAlwaysCallable checksum }
    requires gives { GivesCrc32 (λ bytes given. FnReturnsAt F.Fn checksum bytes given) }
    ensures { IfSome (R.remaining input.old) (λ bytes. length bytes < 2 ^ 64 → VisitsVerifiedLog IsCrc32 scans refuses bytes scan.old result scan.new) }
{
    visit_verified_counted(alloc, checksum, input, scan)
}

/// The second pass over a file: writes its description, and what undoes the transactions that the scan kept, the last one first; nothing
/// if it kept none.
///
/// # Errors
///
/// Those of [`write_undo`].
pub fn write_file<F: Frames, W: WriteCounted>(
    alloc: Global,
    frames: &mut F,
    scan: &UndoScan,
    output: &mut UndoOutput<W>,
) -> Result<(), UndoLogError>
    ensures { OnOk result (WritesFile W.contents (F.is_at frames.old) scan.now output.old output.new) }
{
    if scan.index().transactions().is_empty() {
        return Ok(());
    }
    match scan.description() {
        Some(place) => write_described(alloc, frames, scan, place, output),
        None => Err(UndoLogError::Changed),
    }
}

// Writes the description at a place, and what undoes the transactions that the scan kept.
fn write_described<F: Frames, W: WriteCounted>(
    alloc: Global,
    frames: &mut F,
    scan: &UndoScan,
    place: u64,
    output: &mut UndoOutput<W>,
) -> Result<(), UndoLogError>
    ensures { OnOk result (WritesDescribed W.contents (F.is_at frames.old) scan.now.checks place
        (parts_of scan.now.index).transactions (parts_of scan.now.index).changes output.old output.new) }
{
    let frame = frames.frame_at(alloc, place)?;
    let event = event_of(alloc, DescriptionRef::new(BinlogVersion::Version4), &frame)?;
    let fde = description_in(&event)?;
    output.describe(alloc, &event.header(), fde)?;
    let index = scan.index();
    write_undo(
        alloc,
        frames,
        fde,
        index.transactions(),
        index.changes(),
        scan.checks(),
        output,
    )
}
