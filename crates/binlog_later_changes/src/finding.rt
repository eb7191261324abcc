//! The later changes of a log.
ghost use Rattle.std.specs.Fn.{FnReturnsAt};
ghost use Rattle.std.specs.Prelude.{◌≡◌, ◌<◌, ◌^◌, length, IfOk, IfSome, OnOk};
ghost use Rattle.crc32_ieee.specs.Checksums.{IsCrc32, GivesCrc32};
ghost use Rattle.binlog_visits.specs.Visits.{VisitsVerifiedLog};
ghost use Rattle.binlog_later_changes.specs.Logs.{sees, refuses, VisitsWhole, FindsLater};
ghost use Rattle.binlog_later_changes.specs.Places.{places_of};

use crate::later_changes::LaterChanges;
use crate::later_rules::LaterRules;
use crate::later_scan::LaterScan;
use crate::undone_events::UndoneEvents;
use binlog_file::{Error, ReadCounted};
use binlog_payload_visits::Spliced;
use binlog_visits::visit_verified_counted;
use crc32_ieee::Crc32;
use std::alloc::Global;

/// The greatest size of the content of a compressed transaction in bytes, 1 GiB.
const MOST_BYTES: usize = 1_073_741_824;

/// Finds what is in the log with this number, from 0, behind row events that are undone, and may be in the way of that by these rules: `changes` has what
/// was found in the logs in front of it, and `undone` are the row events of the log that are undone. Each item is looked at, with its CRC-32 verified,
/// and the events inside compressed transactions of at most 1 GiB. None if the log doesn't have all of `undone`, in this order.
///
/// # Errors
///
/// Those of [`visit_verified_counted`].
pub fn find_later<R: ReadCounted>(
    alloc: Global,
    input: &mut R,
    rules: LaterRules,
    log: u64,
    undone: UndoneEvents<'_>,
    changes: LaterChanges,
) -> Result<Option<LaterChanges>, Error>
    ensures { IfOk result (λ found. IfSome found (λ new. IfSome (R.remaining input.old) (λ bytes. length bytes < 2 ^ 64 → FindsLater rules log (places_of undone.entry) bytes changes new))) }
{
    let scan = LaterScan::new(alloc, rules, log, undone, changes);
    let mut spliced = Spliced::new(alloc, MOST_BYTES, scan);
    match visit_whole(alloc, input, &mut spliced) {
        Ok(()) => Ok(spliced.visitor.into_changes()),
        Err(error) => Err(error),
    }
}

// Visits each item of a log, and then its end.
fn visit_whole<R: ReadCounted>(
    alloc: Global,
    input: &mut R,
    scan: &mut Spliced<LaterScan<'_>>,
) -> Result<(), Error>
    ensures { OnOk result (VisitsWhole (R.remaining input.old) scan.old scan.new) }
{
    let tail_len = visit_log(alloc, input, scan)?;
    scan.visitor.end(tail_len)
}

// Visits each item of a log, and returns the length of its tail.
fn visit_log<R: ReadCounted>(
    alloc: Global,
    input: &mut R,
    scan: &mut Spliced<LaterScan<'_>>,
) -> Result<Option<usize>, Error>
    ensures { IfSome (R.remaining input.old) (λ bytes. length bytes < 2 ^ 64 → VisitsVerifiedLog IsCrc32 sees refuses bytes scan.old result scan.new) }
{
    let crc32 = Crc32::new();
    let checksum = |bytes: &[u8]| -> u32
        ensures { IsCrc32 bytes.now result }
    { crc32.checksum(bytes) };
    visit_by_crc32(alloc, checksum, input, scan)
}

// The same, by a function that gives the CRC-32.
fn visit_by_crc32<F: Fn(&[u8]) -> u32 + Drop, R: ReadCounted>(
    alloc: Global,
    checksum: F,
    input: &mut R,
    scan: &mut Spliced<LaterScan<'_>>,
) -> Result<Option<usize>, Error>
    requires callable { F.IsAlwaysCallable checksum }
    requires gives { GivesCrc32 (λ bytes given. FnReturnsAt F.Fn checksum bytes given) }
    ensures { IfSome (R.remaining input.old) (λ bytes. length bytes < 2 ^ 64 → VisitsVerifiedLog IsCrc32 sees refuses bytes scan.old result scan.new) }
{
    visit_verified_counted(alloc, checksum, input, scan)
}
