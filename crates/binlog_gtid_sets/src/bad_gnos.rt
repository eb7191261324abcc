//! Transaction numbers that no GTID can have.
ghost use Rattle.std.specs.Prelude.{◌≡◌};
ghost use Rattle.binlog_gtid_sets.specs.AddedGtids.{only, bad_gno_in, bad_gno, bad_gno_listed};

use binlog_gtids::PreviousGtidsSid;
use binlog_variable_fields::GnoInterval;

/// The number after the greatest transaction number.
const GNO_END: u64 = 1 << 63;

/// The number, if it isn't from 1 to 2^63 - 1.
pub(crate) fn bad_number(gno: u64) -> Option<u64>
    ensures { result ≡ bad_gno_in (only gno) }
{
    if gno == 0 || gno >= GNO_END {
        return Some(gno);
    }
    None
}

/// The first number of an interval that isn't from 1 to 2^63 - 1.
pub(crate) fn bad_gno_in(interval: &GnoInterval) -> Option<u64>
    ensures { result ≡ bad_gno_in interval.now }
{
    if interval.start() >= interval.end() {
        return None;
    }
    if interval.start() == 0 || interval.start() >= GNO_END {
        return Some(interval.start());
    }
    if interval.end() > GNO_END {
        return Some(GNO_END);
    }
    None
}

/// The first of the intervals' numbers that isn't from 1 to 2^63 - 1.
pub(crate) fn bad_gno(intervals: &[GnoInterval]) -> Option<u64>
    ensures { result ≡ bad_gno intervals.now }
{
    for interval in intervals {
        if let Some(gno) = bad_gno_in(interval) {
            return Some(gno);
        }
    }
    None
}

/// The first of the entries' numbers that isn't from 1 to 2^63 - 1, in the order of the entries and their intervals.
pub(crate) fn bad_gno_listed(entries: &[PreviousGtidsSid<'_>]) -> Option<u64>
    ensures { result ≡ bad_gno_listed entries.now }
{
    for entry in entries {
        if let Some(gno) = bad_gno(entry.intervals()) {
            return Some(gno);
        }
    }
    None
}
