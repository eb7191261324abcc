//! What one set of transaction numbers contains and another doesn't.
ghost use Rattle.std.specs.Prelude.{◌≡◌, ◌^◌, ◌<◌, ◌≤◌, ◌&&◌, ◌||◌, ◌↔◌, ℕ, true, not, IfOk, OnOk, IsOkUnless, IsTrue, slice_range};
ghost use Rattle.binlog_wire.specs.declared.error.Error.TheVariants.{Memory};
ghost use Rattle.binlog_gtids.specs.GnoSets.{is_within, is_held, AreApart, ending_below, starting_up_to};

use crate::gno_set::{GnoSet, count_ending_below, count_starting_up_to};
use binlog_variable_fields::GnoInterval;
use binlog_wire::Error;

impl GnoSet {
    /// Whether the set contains all numbers from `start` to `end`, `end` excluded. `start` is below `end`.
    pub fn contains_all(&self, start: u64, end: u64) -> bool
        requires { start < end }
        ensures { IsTrue result ↔ ((n : ℕ) → is_within (record { start = start; end = end }) n ≡ true → is_held self.now n ≡ true) }
    {
        let at = count_starting_up_to(&self.intervals, start);
        at > 0 && end <= self.intervals[at - 1].end()
    }

    /// Whether the other set contains each number of this set.
    pub fn is_subset(&self, other: &GnoSet) -> bool
        ensures { IsTrue result ↔ ((n : ℕ) → is_held self.now n ≡ true → is_held other.now n ≡ true) }
    {
        for interval in &self.intervals {
            if !other.contains_all(interval.start(), interval.end()) {
                return false;
            }
        }
        true
    }

    /// The numbers of this set that the other doesn't contain, with memory from this set's allocator. The only error is
    /// [`Error::Memory`].
    pub fn difference(&self, other: &GnoSet) -> Result<Self, Error>
        ensures ok { IfOk result (λ difference. (n : ℕ) → is_held difference n ≡ (is_held self.now n && not (is_held other.now n))) }
        ensures memory { IsOkUnless result Memory }
    {
        let mut difference = GnoSet::new(*self.intervals.allocator());
        for interval in &self.intervals {
            difference.insert_missing(interval, &other.intervals)?;
        }
        Ok(difference)
    }

    // Adds the numbers of an interval that aren't in the other intervals.
    fn insert_missing(
        &mut self,
        interval: &GnoInterval,
        others: &[GnoInterval],
    ) -> Result<(), Error>
        requires positive { 1 ≤ interval.now.start }
        requires some { interval.now.start < interval.now.end }
        requires small { interval.now.end ≤ 2 ^ 63 }
        requires apart { AreApart 0 others.now }
        ensures ok { OnOk result ((n : ℕ) → is_held self.new n ≡ (is_held self.old n || (is_within interval.now n && not (is_held others.now n)))) }
        ensures memory { IsOkUnless result Memory }
    {
        let mut next = interval.start();
        for other in touching(others, interval) {
            if next < other.start() {
                self.insert(next, other.start())?;
            }
            next = other.end();
        }
        if next < interval.end() {
            self.insert(next, interval.end())?;
        }
        Ok(())
    }
}

// The intervals that touch an interval or overlap it.
fn touching<'a>(intervals: &'a [GnoInterval], interval: &GnoInterval) -> &'a [GnoInterval]
    requires apart { AreApart 0 intervals.now }
    requires some { interval.now.start < interval.now.end }
    ensures { result.now ≡ slice_range intervals.now (ending_below interval.now.start intervals.now) (starting_up_to interval.now.end intervals.now) }
{
    let from = count_ending_below(intervals, interval.start());
    let to = count_starting_up_to(intervals, interval.end());
    &intervals[from..to]
}
