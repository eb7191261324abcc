//! Laws of the definitions. Each is a function that does nothing and whose contract states the law.
ghost use Rattle.std.specs.Prelude.{ℕ, List, Bool};
ghost use Rattle.binlog_rotation.specs.Deliveries.{Event};
ghost use Rattle.binlog_following.specs.Readings.{Progress, HasDelivered, AreEvents};

/// Calls that read a file in a row are events of one run: bytes are given on, and states are written with the place up to which they were.
/// So what `lines_are_delivered` of `binlog_rotation` says of all events holds of runs, one after the other, where each begins at the
/// place that the state has.
pub fn calls_are_events()
    ensures { (is_cut : Bool) (start : ℕ) (old new : Progress) (counts : List ℕ) → HasDelivered start old counts new
        → (events : List Event) × AreEvents is_cut start old new events }
{}
