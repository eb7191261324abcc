//! The transaction that is read.
ghost use Rattle.std.specs.Prelude.{◌≡◌};
ghost use Rattle.binlog_undo_index.specs.Groups.{counted, counted_if, of_transaction, open_at, refused_at, split_of, unfinished_at, unfinished_of};
ghost use Rattle.binlog_undo_index.specs.Parts.{begun_behind};

use crate::reason::{Reason, Refused};
use crate::rules::{Positions, Rules};
use crate::seen::SeenEvent;
use crate::skips::Skips;
use binlog_transactions::Refusal;

/// The transaction that is read.
#[derive(Clone, Copy, Debug, PartialEq, Eq)]
pub(crate) struct Begun {
    /// The index of its first event.
    pub(crate) index: u64,
    /// The place of its first event.
    pub(crate) place: u64,
    /// The place behind its last event so far.
    pub(crate) end: u64,
    /// Whether its first event takes it.
    pub(crate) is_taken: bool,
    /// Why it can't be undone: the first refusal that isn't skipped, or else the first one.
    pub(crate) refused: Option<Refused>,
}

impl Begun {
    /// The one that begins with this event.
    pub(crate) fn at(event: &SeenEvent) -> Begun
        ensures { result ≡ open_at event.now }
    {
        Begun {
            index: event.index,
            place: event.place,
            end: event.end,
            is_taken: event.takes_first,
            refused: None,
        }
    }

    /// The transaction behind an event of it, with the refusals of that.
    pub(crate) fn behind(self, skips: Skips, event: &SeenEvent, refusal: Option<Refusal>) -> Begun
        ensures { result ≡ begun_behind skips event.now refusal self }
    {
        let found = counted_if(skips, event, of_transaction(refusal), self.refused);
        Begun {
            end: event.end,
            refused: counted_if(skips, event, event.refusal, found),
            ..self
        }
    }

    /// The refusal of the transaction if one of these positions is within it.
    pub(crate) fn split(self, positions: Positions) -> Option<Refused>
        ensures { result ≡ split_of positions self }
    {
        if positions.split(self.place, self.end) {
            Some(Refused {
                index: self.index,
                place: self.place,
                reason: Reason::Straddles(self.end),
                is_skipped: false,
            })
        } else {
            None
        }
    }

    /// The refusal of the transaction where it isn't finished: one of these positions is within it, or it is taken.
    pub(crate) fn refused_unfinished(self, rules: Rules) -> Option<Refused>
        ensures { result ≡ unfinished_of rules self }
    {
        match self.split(rules.positions) {
            Some(refused) => Some(refused),
            None if self.is_taken => self.counted_unfinished(rules.skips),
            None => None,
        }
    }

    // The refusal that counts where the transaction isn't finished.
    fn counted_unfinished(self, skips: Skips) -> Option<Refused>
        ensures { result ≡ counted self.refused (unfinished_at skips self) }
    {
        let reason = Reason::Transaction(Refusal::Unfinished);
        let refused = Refused {
            index: self.index,
            place: self.place,
            reason,
            is_skipped: skips.has(reason),
        };
        counted(self.refused, refused)
    }
}

/// The refusal as a reason.
pub(crate) fn of_transaction(refusal: Option<Refusal>) -> Option<Reason>
    ensures { result ≡ of_transaction refusal }
{
    match refusal {
        Some(refusal) => Some(Reason::Transaction(refusal)),
        None => None,
    }
}

/// A refusal of this event.
pub(crate) fn refused_at(skips: Skips, event: &SeenEvent, reason: Reason) -> Refused
    ensures { result ≡ refused_at skips event.now reason }
{
    Refused {
        index: event.index,
        place: event.place,
        reason,
        is_skipped: skips.has(reason),
    }
}

// Which refusal counts behind this reason of an event, if it is one.
fn counted_if(
    skips: Skips,
    event: &SeenEvent,
    reason: Option<Reason>,
    found: Option<Refused>,
) -> Option<Refused>
    ensures { result ≡ counted_if skips event.now reason found }
{
    match reason {
        Some(reason) => counted(found, refused_at(skips, event, reason)),
        None => found,
    }
}

// Which of two refusals of a transaction counts: the first one, unless that one alone is skipped.
fn counted(found: Option<Refused>, other: Refused) -> Option<Refused>
    ensures { result ≡ counted found other }
{
    match found {
        Some(found) if found.is_skipped && !other.is_skipped => Some(other),
        Some(found) => Some(found),
        None => Some(other),
    }
}
