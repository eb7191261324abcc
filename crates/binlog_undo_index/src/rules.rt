//! What is asked of the transactions that are undone.
ghost use Rattle.std.specs.Prelude.{◌≡◌};
ghost use Rattle.binlog_undo_index.specs.Positions.{has_place, is_inside, is_past, splits};

use crate::skips::Skips;

/// Positions in a file, in bytes from its front. Transactions are undone that begin between them, and none of them may be within a
/// transaction.
#[derive(Clone, Copy, Debug, PartialEq, Eq, Default)]
pub struct Positions {
    /// Transactions that begin at this position or behind it.
    pub start: u64,
    /// Transactions that begin before this position; all if there is none.
    pub stop: Option<u64>,
}

/// What is asked of the transactions that are undone.
#[derive(Clone, Copy, Debug, PartialEq, Eq, Default)]
pub struct Rules {
    /// Transactions that are refused for one of these reasons alone are left as they are.
    pub skips: Skips,
    /// A transaction that one of these positions is within is refused.
    pub positions: Positions,
}

impl Positions {
    /// Whether what begins at this place is at the stop position or behind it.
    pub fn is_past(self, place: u64) -> bool
        ensures { result ≡ is_past self place }
    {
        match self.stop {
            None => false,
            Some(stop) => stop <= place,
        }
    }

    /// Whether what begins at this place is between the positions.
    pub fn has(self, place: u64) -> bool
        ensures { result ≡ has_place self place }
    {
        self.start <= place && !self.is_past(place)
    }

    /// Whether one of the positions is within these bytes: behind the first one.
    pub(crate) fn split(self, begin: u64, end: u64) -> bool
        ensures { result ≡ splits self begin end }
    {
        is_inside(self.start, begin, end)
            || match self.stop {
                None => false,
                Some(stop) => is_inside(stop, begin, end),
            }
    }
}

// Whether a position is within these bytes.
fn is_inside(position: u64, begin: u64, end: u64) -> bool
    ensures { result ≡ is_inside position begin end }
{
    begin < position && position < end
}
