//! What is counted of events.
ghost use Rattle.std.specs.Prelude.{OnOk, OnErr};
ghost use Rattle.change_statistics.specs.Facts.{Fact, fact_of};

use crate::facts::EventFacts;
use std::alloc::AllocError;

/// Counts events by what statistics see of them.
pub trait Counts {
    /// What an event makes of the counts.
    ghost adds: { Self → Fact → Self → Type 0 };

    /// The counts are the same.
    ghost keeps: { Self → Self → Type 0 };

    /// Counts an event.
    ///
    /// # Errors
    ///
    /// [`AllocError`] if an allocation fails. Nothing is counted then.
    fn add(&mut self, event: &EventFacts<'_>) -> Result<(), AllocError>
        ensures ok { OnOk result (adds self.old (fact_of event.now) self.new) }
        ensures err { OnErr result (keeps self.old self.new) };
}
