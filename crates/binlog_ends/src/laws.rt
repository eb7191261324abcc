//! Laws of the counts. Each is a function that does nothing and whose contract states the law.
ghost use Rattle.std.specs.Prelude.{ℕ, List, ◌≤◌, ◌⊎◌};
ghost use Rattle.binlog_ends.specs.Counts.{FailureCount, after_failure, Rose};

use crate::slice_reader::SliceReader;
use crate::traits::CountsFailures;

/// A count rises at each failure, or stays if it is at its largest value.
pub fn failures_rise()
    ensures { (count : FailureCount) → Rose count.failures (after_failure count).failures }
{}

/// A count never falls.
pub fn counts_never_fall()
    ensures { (count : FailureCount) → count.failures ≤ (after_failure count).failures }
{}

/// If a count rose in a part of a call, it rose in the call.
pub fn rises_in_part()
    ensures { (first second third : ℕ) → first ≤ second → second ≤ third → Rose first second ⊎ Rose second third → Rose first third }
{}

/// The failure count of a slice never rises.
pub fn slices_never_fail()
    ensures { (before after : List ℕ) → Rose (⟦<SliceReader<'static> as CountsFailures>⟧.count before).failures (⟦<SliceReader<'static> as CountsFailures>⟧.count after).failures → ⊥ }
{}
