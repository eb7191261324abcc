//! What is counted of events.
ghost use Rattle.std.specs.Prelude.{◌≡◌};
ghost use Rattle.change_statistics.specs.Facts.{fact_of, rows_of};
ghost use Rattle.change_statistics.specs.WholeCounts.{rows_said, has_uncounted_in};
ghost use Rattle.change_statistics.specs.EventCounting.{no_event_counts, with_event};

use crate::facts::{Change, ChangeKind, EventFacts};
use crate::table_counts::counted_if;

/// What is counted of events, as those of an interval of time or of a transaction. A count stays at 2^64 - 1.
#[derive(Clone, Copy, Debug, PartialEq, Eq)]
pub struct EventCounts {
    /// The number of events.
    pub events: u64,
    /// The number of their bytes.
    pub bytes: u64,
    /// The number of transactions that begin with one of them.
    pub transactions: u64,
    /// The number of rows that are inserted.
    pub inserted: u64,
    /// The number of rows that are updated.
    pub updated: u64,
    /// The number of rows that are deleted.
    pub deleted: u64,
    /// The number of events that have or may have rows which aren't counted: they can't be read, or their table isn't known.
    pub unread_events: u64,
}

impl EventCounts {
    /// Nothing is counted.
    pub fn none() -> Self
        ensures { result ≡ no_event_counts }
    {
        EventCounts {
            events: 0,
            bytes: 0,
            transactions: 0,
            inserted: 0,
            updated: 0,
            deleted: 0,
            unread_events: 0,
        }
    }

    /// The counts with one more event, of so many bytes.
    pub(crate) fn with_event(&self, bytes: u64, event: &EventFacts<'_>) -> Self
        ensures { result ≡ with_event self.now bytes (fact_of event.now) }
    {
        let inserted = event.change.rows_as(ChangeKind::Inserted);
        let updated = event.change.rows_as(ChangeKind::Updated);
        let deleted = event.change.rows_as(ChangeKind::Deleted);
        EventCounts {
            events: self.events.saturating_add(1),
            bytes: self.bytes.saturating_add(bytes),
            transactions: counted_if(event.begins_transaction, self.transactions),
            inserted: self.inserted.saturating_add(inserted),
            updated: self.updated.saturating_add(updated),
            deleted: self.deleted.saturating_add(deleted),
            unread_events: counted_if(event.change.has_uncounted(), self.unread_events),
        }
    }
}

impl Change<'_> {
    /// The number of rows that change their table like this; 0 if they can't be read.
    pub(crate) fn rows_as(&self, kind: ChangeKind) -> u64
        ensures { result ≡ rows_said kind (rows_of self.now) }
    {
        match self {
            Change::Rows(change) => change.rows_as(kind),
            Change::Nothing | Change::Unknown => 0,
        }
    }

    /// Whether there are or may be rows which aren't counted.
    pub(crate) fn has_uncounted(&self) -> bool
        ensures { result ≡ has_uncounted_in (rows_of self.now) }
    {
        match self {
            Change::Rows(change) => change.count.is_none(),
            Change::Unknown => true,
            Change::Nothing => false,
        }
    }
}
