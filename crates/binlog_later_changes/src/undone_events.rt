//! The row events of a log that are undone.
ghost use Rattle.std.specs.Prelude.{◌≡◌, ◌==◌, [], true, length};
ghost use Rattle.binlog_later_changes.specs.Places.{rows_place, is_in_log, is_in_content, same_place, places_in, places_of, is_next, left_behind, IsSettled};

use binlog_undo_index::{ChangePlace, TransactionPlace};

/// Where a row event is.
#[derive(Clone, Copy, Debug, PartialEq, Eq)]
pub enum RowsPlace {
    /// It begins at this byte of its log.
    InLog(u64),
    /// It is inside the compressed transaction of the event that begins at byte `event` of the log, and begins at byte `place` of its content.
    InContent {
        /// Where the event with the transaction begins.
        event: u64,
        /// Where the row event begins in the content.
        place: u64,
    },
}

impl RowsPlace {
    // That of a row event that is kept, of a transaction with this last event, which has it inside or not.
    fn of(change: ChangePlace, last: u64, is_inside: bool) -> RowsPlace
        ensures { result ≡ rows_place last is_inside change }
    {
        if is_inside {
            RowsPlace::InContent {
                event: last,
                place: change.rows,
            }
        } else {
            RowsPlace::InLog(change.rows)
        }
    }

    // Whether it is this place.
    fn is(self, other: RowsPlace) -> bool
        ensures { result ≡ same_place self other }
    {
        match self {
            RowsPlace::InLog(place) => other.is_in_log(place),
            RowsPlace::InContent { event, place } => other.is_in_content(event, place),
        }
    }

    // Whether it is this place of the log.
    fn is_in_log(self, wanted: u64) -> bool
        ensures { result ≡ is_in_log wanted self }
    {
        match self {
            RowsPlace::InLog(place) => place == wanted,
            RowsPlace::InContent { .. } => false,
        }
    }

    // Whether it is this place of the content of this event.
    fn is_in_content(self, wanted_event: u64, wanted: u64) -> bool
        ensures { result ≡ is_in_content wanted_event wanted self }
    {
        match self {
            RowsPlace::InLog(_) => false,
            RowsPlace::InContent { event, place } => event == wanted_event && place == wanted,
        }
    }
}

/// The row events of a log that are undone and weren't met yet, in order.
#[derive(Clone, Copy, Debug)]
pub struct UndoneEvents<'a> {
    // The transactions behind the one that is met, whether the rows of each are inside its last event, and their row events.
    transactions: &'a [TransactionPlace],
    are_inside: &'a [bool],
    changes: &'a [ChangePlace],
    // The row events that are left of the transaction that is met, where its last event is, and whether they are inside that.
    own: &'a [ChangePlace],
    last: u64,
    is_inside: bool,
}

impl<'a> UndoneEvents<'a> {
    /// Those of these transactions. `are_inside` says of each whether its row events are inside its last event, and `changes` has the row
    /// events of the first one, those of the second one, and so on.
    pub fn new(
        transactions: &'a [TransactionPlace],
        are_inside: &'a [bool],
        changes: &'a [ChangePlace],
    ) -> Self
        ensures { places_of result ≡ places_in transactions.now are_inside.now changes.now }
    {
        UndoneEvents {
            transactions,
            are_inside,
            changes,
            own: &[],
            last: 0,
            is_inside: false,
        }
    }

    /// Meets the row event at this place; whether it is the next one that is undone.
    pub(crate) fn meet(&mut self, place: RowsPlace) -> bool
        ensures met { result ≡ is_next place (places_of self.old) }
        ensures left { places_of self.new ≡ left_behind place (places_of self.old) }
    {
        self.go_on();
        let Some((change, others)) = self.own.split_first() else {
            return false;
        };
        if !RowsPlace::of(*change, self.last, self.is_inside).is(place) {
            return false;
        }
        self.own = others;
        true
    }

    /// Whether all were met.
    pub(crate) fn is_done(&mut self) -> bool
        ensures { result ≡ true → places_of self.old ≡ [] }
    {
        self.go_on();
        self.own.is_empty()
    }

    // Goes on with the next transaction, if no row event is left of the one that is met.
    fn go_on(&mut self)
        ensures same { places_of self.new ≡ places_of self.old }
        ensures settled { IsSettled self.new }
    {
        'transactions: while self.own.is_empty() {
            let Some((transaction, others)) = self.transactions.split_first() else {
                return;
            };
            let Some((is_inside, flags)) = self.are_inside.split_first() else {
                return;
            };
            let count = (transaction.changes as usize).min(self.changes.len());
            let (own, behind) = self.changes.split_at(count);
            self.own = own;
            self.last = transaction.last;
            self.is_inside = *is_inside;
            self.transactions = others;
            self.are_inside = flags;
            self.changes = behind;
        }
    }
}
