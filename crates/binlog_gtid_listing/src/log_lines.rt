//! The lines of all GTIDs of a log.
ghost use Rattle.binlog_events.specs.Writing.{CountsWriter};
ghost use Rattle.binlog_gtid_listing.specs.LogLines.{WritesLogGtids};

use crate::group_lines::write_groups;
use crate::maria_lines::write_maria_gtids;
use binlog_file::{Error, GtidTracker, WriteCounted};
use binlog_maria_gtids::MariaGtidTracker;

/// Writes a line `sid:tag intervals gaps gaps` for each source and tag of a set of MySQL's GTIDs, as
/// [`list_gtids`](crate::list_gtids) does, or only `sid:tag intervals` without `has_gaps`: the gaps of a difference of two sets have
/// the numbers that are in both. Then it writes a line `domain-server_id-sequence` for each domain and server of the last of
/// MariaDB's GTIDs, in ascending order of the domains, and then of the servers' ids. Of these it writes those that `others` lack:
/// those of whose domain and server they have none, or only one with a lesser sequence number.
///
/// # Errors
///
/// - [`Error::Memory`], only with `has_gaps`, where memory ran out for the gaps of a group, after the lines of all groups before.
/// - [`Error::Writer`] where the writer failed; it has a front of the lines.
pub fn write_log_gtids<W: WriteCounted>(
    gtids: &GtidTracker,
    has_gaps: bool,
    maria_gtids: &MariaGtidTracker,
    others: &MariaGtidTracker,
    output: &mut W,
) -> Result<(), Error>
    ensures written { WritesLogGtids has_gaps gtids.now maria_gtids.now others.now (W.contents output.old) result (W.contents output.new) }
    ensures writer { CountsWriter result (W.count output.old) (W.count output.new) }
{
    write_groups(gtids, has_gaps, output)?;
    write_maria_gtids(maria_gtids, others, output)
}
