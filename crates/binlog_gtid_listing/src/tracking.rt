//! What an item of a log adds to its GTIDs, or the line of its error.
ghost use Rattle.std.specs.Prelude.{◌≡◌, List, true, Ok};
ghost use Rattle.binlog_events.specs.EventRefs.{view_of};
ghost use Rattle.binlog_events.specs.Writing.{CountsWriter};
ghost use Rattle.binlog_gtid_sets.specs.declared.gtid_group.GtidGroup.{GtidGroup};
ghost use Rattle.binlog_gtid_listing.specs.GtidListing.{TracksItem, tracked};
ghost use Rattle.binlog_gtid_listing.specs.LogItems.{TracksLogItem, log_gtids, log_tracked};
ghost use Rattle.binlog_gtid_listing.specs.MariaItems.{has_maria_gtids};

use crate::adding::add_gtids;
use crate::log_gtids::LogGtids;
use crate::maria_adding::{add_maria_gtids, has_maria_gtids};
use crate::parts::write_error;
use binlog_file::{Error, EventRef, GtidTracker, WriteCounted};
use binlog_maria_gtids::MariaGtidTracker;
use std::alloc::Global;

/// Adds the GTIDs that an event adds to the set, or writes the line of the error of its data. The result is whether it
/// wrote a line.
///
/// # Errors
///
/// [`Error::Memory`] if an allocation failed, and [`Error::Writer`] if the writer failed. An error leaves the set unchanged.
#[inline(always)]
pub(crate) fn track_event<W: WriteCounted>(
    alloc: Global,
    index: u64,
    event: &EventRef<'_>,
    gtids: &mut GtidTracker,
    output: &mut W,
) -> Result<bool, Error>
    ensures tracks { TracksItem index (Ok (view_of event.now)) (tracked gtids.old (W.contents output.old)) (tracked gtids.new (W.contents output.new)) result }
    ensures writer { CountsWriter result (W.count output.old) (W.count output.new) }
{
    match add_gtids(alloc, event, gtids) {
        Ok(()) => Ok(false),
        Err(error) => {
            if error.is_environment_error() {
                return Err(error);
            }
            write_error(alloc, index, &error, output)?;
            Ok(true)
        }
    }
}

/// Adds the GTIDs that an event of MySQL's or of MariaDB's adds, or writes the line of the error of its data. The result is
/// whether it wrote a line. An event is MariaDB's if its type is one of MariaDB's with GTIDs, and the server version of its
/// description is MariaDB's.
///
/// # Errors
///
/// [`Error::Memory`] if an allocation failed, and [`Error::Writer`] if the writer failed. An error leaves both sets unchanged.
#[inline(always)]
pub fn track_log_event<W: WriteCounted>(
    alloc: Global,
    index: u64,
    event: &EventRef<'_>,
    gtids: &mut LogGtids,
    output: &mut W,
) -> Result<bool, Error>
    ensures tracks { TracksLogItem index (Ok (view_of event.now)) (log_tracked gtids.old (W.contents output.old)) (log_tracked gtids.new (W.contents output.new)) result }
    ensures writer { CountsWriter result (W.count output.old) (W.count output.new) }
{
    if has_maria_gtids(event) {
        track_maria(alloc, index, event, &mut gtids.maria, output)
    } else {
        track_event(alloc, index, event, &mut gtids.mysql, output)
    }
}

// The same for an event that has MariaDB's GTIDs.
fn track_maria<W: WriteCounted>(
    alloc: Global,
    index: u64,
    event: &EventRef<'_>,
    gtids: &mut MariaGtidTracker,
    output: &mut W,
) -> Result<bool, Error>
    requires { has_maria_gtids (view_of event.now) ≡ true }
    ensures tracks { (groups : List GtidGroup) → TracksLogItem index (Ok (view_of event.now)) (log_tracked (log_gtids groups gtids.old) (W.contents output.old))
        (log_tracked (log_gtids groups gtids.new) (W.contents output.new)) result }
    ensures writer { CountsWriter result (W.count output.old) (W.count output.new) }
{
    match add_maria_gtids(alloc, event, gtids) {
        Ok(()) => Ok(false),
        Err(error) => {
            if error.is_environment_error() {
                return Err(error);
            }
            write_error(alloc, index, &error, output)?;
            Ok(true)
        }
    }
}
