//! Statistics by time.
ghost use Rattle.std.specs.Prelude.{◌≡◌, false, OnOk, OnErr};
ghost use Rattle.change_statistics.specs.Intervals.{counts_of, CountsNoInterval, AreSameIntervals, PutsInterval};

use crate::counts::Counts;
use crate::event_counts::EventCounts;
use crate::facts::EventFacts;
use std::alloc::{AllocError, Global};
use std::collections::BTreeMap;
use std::num::NonZeroU32;

/// The greatest number of intervals that are counted.
pub const MAX_INTERVALS: usize = 1_048_576;

/// Counts the events of each interval of time. Memory is taken for each interval once.
#[derive(Drop)]
pub struct IntervalStats {
    /// How many seconds an interval has.
    pub seconds: NonZeroU32,
    /// The counts of the intervals in which an event is, each by its first second since 1970, in order. Intervals begin at the
    /// multiples of their seconds.
    pub intervals: BTreeMap<u32, EventCounts>,
    /// Whether an event was in one interval more than [`MAX_INTERVALS`]. Neither that event is counted nor those behind it.
    pub is_full: bool,
}

impl IntervalStats {
    /// Nothing is counted, and nothing is allocated.
    pub fn new(alloc: Global, seconds: NonZeroU32) -> Self
        ensures none { CountsNoInterval result }
        ensures seconds { result.seconds ≡ seconds }
    {
        IntervalStats {
            seconds,
            intervals: BTreeMap::new(alloc),
            is_full: false,
        }
    }

    // The counts of the interval that begins then, if it has some.
    fn counts_of(&self, start: u32) -> Option<EventCounts>
        ensures { result ≡ counts_of self.now start }
    {
        self.intervals.get(&start).copied()
    }

    // Gives the interval that begins then these counts.
    fn put(&mut self, start: u32, counts: EventCounts) -> Result<(), AllocError>
        ensures ok { OnOk result (PutsInterval self.old start counts self.new) }
        ensures err { OnErr result (AreSameIntervals self.old self.new) }
    {
        self.intervals.insert(start, counts)?;
        Ok(())
    }
}

/// If an event is in one interval more than [`MAX_INTERVALS`], that is noted, and it isn't counted.
impl Counts for IntervalStats {
    ghost use Rattle.change_statistics.specs.Intervals.{AddsByTime, AreSameIntervals};

    ghost adds = { AddsByTime };

    ghost keeps = { AreSameIntervals };

    fn add(&mut self, event: &EventFacts<'_>) -> Result<(), AllocError> {
        if self.is_full {
            return Ok(());
        }
        let start = event.time - event.time % self.seconds.get();
        let known = self.counts_of(start);
        if known.is_none() && self.intervals.len() >= MAX_INTERVALS {
            self.is_full = true;
            return Ok(());
        }
        let counts = known
            .unwrap_or(EventCounts::none())
            .with_event(event.bytes, event);
        self.put(start, counts)
    }
}
