//! Sets of transaction numbers (GNOs) of one source.
ghost use Rattle.std.specs.Prelude.{◌≡◌, ◌++◌, ◌∷◌, ◌^◌, ◌<◌, ◌≤◌, ◌||◌, ◌↔◌, ℕ, [], true, false, length, take, drop, slice_index_or, IfOk, OnOk, OnErr, IsOkUnless, IsTrue};
ghost use Rattle.std.specs.List.{insert};
ghost use Rattle.binlog_wire.specs.declared.error.Error.TheVariants.{Memory};
ghost use Rattle.binlog_variable_fields.specs.declared.gno_interval.GnoInterval.{GnoInterval};
ghost use Rattle.binlog_gtids.specs.GnoSets.{is_within, is_held, is_missing, AreApart, ending_below, starting_up_to};

mod difference;
pub mod laws;

use binlog_variable_fields::GnoInterval;
use binlog_wire::Error;
use std::alloc::{AllocError, Global};
use std::marker::Model;

/// A set of transaction numbers (GNOs) of one source, from 1 to 2^63 - 1.
///
/// It is kept as the only sorted list of intervals of which no two touch or overlap, as in MySQL's `Gtid_set`.
/// Contracts see this list.
#[derive(Debug, Drop)]
pub struct GnoSet {
    intervals: Vec<GnoInterval>,
}

impl Model for GnoSet {
    ghost use Rattle.std.specs.Prelude.{List};
    ghost use Rattle.binlog_variable_fields.specs.declared.gno_interval.GnoInterval.{GnoInterval};
    ghost use Rattle.binlog_gtids.specs.GnoSets.{AreApart};

    ghost Value = { List GnoInterval };

    ghost view = { λ set. set.intervals.items };

    ghost invariant = { λ set. AreApart 0 set.intervals.items };
}

impl GnoSet {
    /// The empty set. No memory is allocated.
    pub fn new(alloc: Global) -> Self
        ensures { result ≡ [] }
    {
        GnoSet {
            intervals: Vec::new(alloc),
        }
    }

    /// The intervals in ascending order. Between any two there is a number that the set doesn't contain.
    pub fn intervals(&self) -> &[GnoInterval]
        ensures list { result.now ≡ self.now }
        ensures apart { AreApart 0 result.now }
    {
        self.intervals.as_slice()
    }

    /// Makes room for `count` more intervals, so that as many calls of [`insert`](Self::insert) allocate nothing. The only
    /// error is [`Error::Memory`]. The set never changes.
    pub fn reserve(&mut self, count: usize) -> Result<(), Error>
        ensures same { self.new ≡ self.old }
        ensures memory { IsOkUnless result Memory }
    {
        Ok(self.intervals.reserve(count)?)
    }

    /// Adds the numbers from `start` to `end`, `end` excluded. `start` is at least 1 and below `end`; `end` is at most
    /// 2^63. The only error is [`Error::Memory`], which leaves the set unchanged.
    ///
    /// Memory is allocated only if the new numbers neither touch nor overlap an interval. Takes constant time if they
    /// start in the last interval or after it.
    pub fn insert(&mut self, start: u64, end: u64) -> Result<(), Error>
        requires positive { 1 ≤ start }
        requires some { start < end }
        requires small { end ≤ 2 ^ 63 }
        ensures ok { OnOk result ((n : ℕ) → is_held self.new n ≡ (is_within (record { start = start; end = end }) n || is_held self.old n)) }
        ensures err { OnErr result (self.new ≡ self.old) }
        ensures memory { IsOkUnless result Memory }
    {
        let from = count_ending_below(&self.intervals, start);
        let to = count_starting_behind(&self.intervals, from, end);
        if from == to {
            return add(&mut self.intervals, from, GnoInterval::new(start, end));
        }
        let first = self.intervals[from];
        let last = self.intervals[to - 1];
        let merged = GnoInterval::new(start.min(first.start()), end.max(last.end()));
        replace(&mut self.intervals, from, to, merged);
        Ok(())
    }

    /// Whether the set is empty.
    pub fn is_empty(&self) -> bool
        ensures { IsTrue result ↔ (self.now ≡ []) }
    {
        self.intervals.is_empty()
    }

    /// Whether the set contains the number.
    pub fn contains(&self, gno: u64) -> bool
        ensures { result ≡ is_held self.now gno }
    {
        let at = count_starting_up_to(&self.intervals, gno);
        at > 0 && gno < self.intervals[at - 1].end()
    }

    /// The missing numbers, from 1 to the greatest number of the set, as intervals in ascending order. Between any two
    /// there is a number that the set contains. The only error is [`Error::Memory`]; without gaps no memory is
    /// allocated.
    pub fn gaps(&self) -> Result<Vec<GnoInterval>, Error>
        ensures missing { IfOk result (λ gaps. (n : ℕ) → is_held gaps.items n ≡ is_missing self.now n) }
        ensures apart { IfOk result (λ gaps. AreApart 0 gaps.items) }
        ensures memory { IsOkUnless result Memory }
    {
        let mut gaps = Vec::with_capacity(*self.intervals.allocator(), self.count_gaps())?;
        let mut next = 1;
        for interval in &self.intervals {
            if next < interval.start() {
                let gap = GnoInterval::new(next, interval.start());
                gaps.push(gap).map_err(AllocError::from)?;
            }
            next = interval.end();
        }
        Ok(gaps)
    }

    // The number of gaps: one before each interval, except a first interval that starts at 1.
    fn count_gaps(&self) -> usize {
        match self.intervals.first() {
            Some(first) if first.start() == 1 => self.intervals.len() - 1,
            _ => self.intervals.len(),
        }
    }

    /// A copy of the set. The only error is [`Error::Memory`].
    pub fn clone(&self) -> Result<Self, Error>
        ensures ok { IfOk result (λ copy. copy ≡ self.now) }
        ensures memory { IsOkUnless result Memory }
    {
        let intervals = Vec::from_slice(*self.intervals.allocator(), &self.intervals)?;
        Ok(GnoSet { intervals })
    }

    /// The union of both sets, with memory from this set's allocator. The only error is [`Error::Memory`].
    pub fn union(&self, other: &GnoSet) -> Result<Self, Error>
        ensures ok { IfOk result (λ union. (n : ℕ) → is_held union n ≡ (is_held self.now n || is_held other.now n)) }
        ensures memory { IsOkUnless result Memory }
    {
        let mut union = self.clone()?;
        for interval in &other.intervals {
            union.insert(interval.start(), interval.end())?;
        }
        Ok(union)
    }
}

// The number of intervals that end below a number; constant time if the last one starts at it or below.
fn count_ending_below(intervals: &[GnoInterval], gno: u64) -> usize
    requires { AreApart 0 intervals.now }
    ensures { result ≡ ending_below gno intervals.now }
{
    match intervals.last() {
        Some(last) if last.end() < gno => intervals.len(),
        Some(last) if last.start() <= gno => intervals.len() - 1,
        _ => intervals.partition_point(|interval| interval.end() < gno),
    }
}

// The number of intervals that start at a number or below it; constant time if the last one does.
fn count_starting_up_to(intervals: &[GnoInterval], gno: u64) -> usize
    requires { AreApart 0 intervals.now }
    ensures { result ≡ starting_up_to gno intervals.now }
{
    match intervals.last() {
        Some(last) if last.start() <= gno => intervals.len(),
        _ => intervals.partition_point(|interval| interval.start() <= gno),
    }
}

// The same, if at least `from` intervals do; constant time if at most one more does, as for a single number.
fn count_starting_behind(intervals: &[GnoInterval], from: usize, gno: u64) -> usize
    requires apart { AreApart 0 intervals.now }
    requires least { from ≤ starting_up_to gno intervals.now }
    ensures { result ≡ starting_up_to gno intervals.now }
{
    if !starts_up_to(intervals, from, gno) {
        return from;
    }
    if !starts_up_to(intervals, from + 1, gno) {
        return from + 1;
    }
    count_starting_up_to(intervals, gno)
}

// Whether there is an interval at an index, and it starts at a number or below it.
fn starts_up_to(intervals: &[GnoInterval], at: usize, gno: u64) -> bool
    ensures within { result ≡ true → at < length intervals.now }
    ensures up_to { result ≡ true → (d : GnoInterval) → (slice_index_or intervals.now at d).start ≤ gno }
    ensures above { result ≡ false → at < length intervals.now → (d : GnoInterval) → gno < (slice_index_or intervals.now at d).start }
{
    match intervals.get(at) {
        Some(interval) => interval.start() <= gno,
        None => false,
    }
}

// Inserts an interval at an index.
fn add(intervals: &mut Vec<GnoInterval>, at: usize, interval: GnoInterval) -> Result<(), Error>
    requires { at ≤ length intervals.old.items }
    ensures ok { OnOk result (intervals.new.items ≡ insert intervals.old.items at interval) }
    ensures err { OnErr result (intervals.new.items ≡ intervals.old.items) }
    ensures memory { IsOkUnless result Memory }
{
    match intervals.insert(at, interval) {
        Ok(()) => Ok(()),
        Err(failed) => Err(AllocError::from(failed).into()),
    }
}

// Replaces the intervals from `from` to `to`, `to` excluded, by one interval.
fn replace(intervals: &mut Vec<GnoInterval>, from: usize, to: usize, interval: GnoInterval)
    requires some { from < to }
    requires within { to ≤ length intervals.old.items }
    ensures { intervals.new.items ≡ take from intervals.old.items ++ interval ∷ drop to intervals.old.items }
{
    let len = intervals.len();
    intervals[from] = interval;
    intervals.copy_within(to..len, from + 1);
    intervals.truncate(from + 1 + (len - to));
}
