//! Whether a set contains the GTIDs of entries.
ghost use Rattle.std.specs.Prelude.{◌≡◌, ◌↔◌, ℕ, true, IsTrue};
ghost use Rattle.binlog_gtids.specs.GnoSets.{is_within, is_held};
ghost use Rattle.binlog_gtid_sets.specs.AddedGtids.{is_listed};
ghost use Rattle.binlog_gtid_sets.specs.GtidGroups.{Pair, pair_of, is_tracked};

use crate::gtid_group::tag_text;
use crate::gtid_tracker::{GtidTracker, find};
use binlog_gtids::{GnoSet, PreviousGtidsSid};
use binlog_variable_fields::GnoInterval;

impl GtidTracker {
    // Whether the set contains all GTIDs of entries.
    pub(crate) fn contains_listed(&self, entries: &[PreviousGtidsSid<'_>]) -> bool
        ensures { IsTrue result ↔ ((pair : Pair) (n : ℕ) → is_listed entries.now pair n ≡ true → is_tracked self.now pair n ≡ true) }
    {
        for entry in entries {
            if !self.contains_entry(entry) {
                return false;
            }
        }
        true
    }

    // Whether the set contains all GTIDs of an entry.
    fn contains_entry(&self, entry: &PreviousGtidsSid<'_>) -> bool
        ensures { IsTrue result ↔ ((n : ℕ) → is_held entry.now.intervals n ≡ true → is_tracked self.now (pair_of entry.now.uuid entry.now.tag) n ≡ true) }
    {
        let sid = entry.uuid();
        match find(&self.groups, &sid, tag_text(entry.tag())) {
            Ok(at) => contains_intervals(&self.groups[at].gnos, entry.intervals()),
            Err(_) => contains_intervals(&GnoSet::new(*self.groups.allocator()), entry.intervals()),
        }
    }
}

// Whether a set contains the numbers of intervals, which may be empty.
fn contains_intervals(gnos: &GnoSet, intervals: &[GnoInterval]) -> bool
    ensures { IsTrue result ↔ ((n : ℕ) → is_held intervals.now n ≡ true → is_held gnos.now n ≡ true) }
{
    for interval in intervals {
        if !contains_interval(gnos, interval) {
            return false;
        }
    }
    true
}

// Whether a set contains the numbers of an interval, which may be empty.
fn contains_interval(gnos: &GnoSet, interval: &GnoInterval) -> bool
    ensures { IsTrue result ↔ ((n : ℕ) → is_within interval.now n ≡ true → is_held gnos.now n ≡ true) }
{
    if interval.start() >= interval.end() {
        return true;
    }
    gnos.contains_all(interval.start(), interval.end())
}
