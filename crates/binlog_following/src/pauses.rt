//! Pauses of a reader of a log that is followed.

use std::cell::Cell;

/// Whether a reader of a log pauses. It answers an error then, whose kind isn't known where the items of the log are visited.
#[derive(Drop)]
pub struct Pauses {
    is_paused: Cell<bool>,
    // Whether there was a pause.
    has_begun: Cell<bool>,
}

impl Pauses {
    /// No reader pauses.
    pub fn new() -> Self {
        Pauses {
            is_paused: Cell::new(false),
            has_begun: Cell::new(false),
        }
    }

    // A reader pauses.
    pub(crate) fn begin(&self) {
        self.is_paused.set(true);
        self.has_begun.set(true);
    }

    // Whether a reader has paused.
    pub(crate) fn has_begun(&self) -> bool {
        self.has_begun.get()
    }

    /// Whether a reader pauses. The pause is over then.
    pub fn end(&self) -> bool {
        self.is_paused.replace(false)
    }
}
