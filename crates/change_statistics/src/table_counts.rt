//! What is counted of a table.
ghost use Rattle.std.specs.Prelude.{◌≡◌};
ghost use Rattle.change_statistics.specs.Counting.{counted_if};
ghost use Rattle.change_statistics.specs.Tables.{no_counts, with_rows, none_unknown, with_unknown};

use crate::facts::{ChangeKind, TableChange};

/// What is counted of a table. A count stays at 2^64 - 1.
#[derive(Clone, Copy, Debug, PartialEq, Eq)]
pub struct TableCounts {
    /// The number of rows that are inserted.
    pub inserted: u64,
    /// The number of rows that are updated.
    pub updated: u64,
    /// The number of rows that are deleted.
    pub deleted: u64,
    /// The number of row events.
    pub events: u64,
    /// The number of row events whose rows can't be read, so that these rows aren't counted.
    pub unread_events: u64,
    /// The number of bytes of the row events.
    pub bytes: u64,
    /// The number of transactions with row events of the table.
    pub transactions: u64,
    /// The timestamp of the first row event, in seconds since 1970.
    pub first_time: Option<u32>,
    /// The timestamp of the last row event.
    pub last_time: Option<u32>,
    /// The number of the transaction of the last row event, counted from 1; 0 if it is in none.
    pub last_transaction: u64,
}

impl TableCounts {
    /// Nothing is counted.
    pub fn none() -> Self
        ensures { result ≡ no_counts }
    {
        TableCounts {
            inserted: 0,
            updated: 0,
            deleted: 0,
            events: 0,
            unread_events: 0,
            bytes: 0,
            transactions: 0,
            first_time: None,
            last_time: None,
            last_transaction: 0,
        }
    }

    /// The counts with one more row event, of so many bytes, of this time and in the transaction with this number.
    pub(crate) fn with_rows(
        &self,
        transaction: u64,
        bytes: u64,
        time: u32,
        change: &TableChange<'_>,
    ) -> Self
        ensures { result ≡ with_rows self.now transaction bytes time change.now.kind change.now.count }
    {
        let inserted = change.rows_as(ChangeKind::Inserted);
        let updated = change.rows_as(ChangeKind::Updated);
        let deleted = change.rows_as(ChangeKind::Deleted);
        TableCounts {
            inserted: self.inserted.saturating_add(inserted),
            updated: self.updated.saturating_add(updated),
            deleted: self.deleted.saturating_add(deleted),
            events: self.events.saturating_add(1),
            unread_events: counted_if(change.count.is_none(), self.unread_events),
            bytes: self.bytes.saturating_add(bytes),
            transactions: counted_if(self.last_transaction < transaction, self.transactions),
            first_time: Some(self.first_time.unwrap_or(time)),
            last_time: Some(time),
            last_transaction: transaction,
        }
    }
}

/// Events that may have rows, of tables that aren't known.
#[derive(Clone, Copy, Debug, PartialEq, Eq)]
pub struct UnknownRows {
    /// The number of the events.
    pub events: u64,
    /// The number of their bytes.
    pub bytes: u64,
}

impl UnknownRows {
    /// None is counted.
    pub(crate) fn none() -> Self
        ensures { result ≡ none_unknown }
    {
        UnknownRows {
            events: 0,
            bytes: 0,
        }
    }

    /// One event more, of so many bytes.
    pub(crate) fn with_event(self, bytes: u64) -> Self
        ensures { result ≡ with_unknown self bytes }
    {
        UnknownRows {
            events: self.events.saturating_add(1),
            bytes: self.bytes.saturating_add(bytes),
        }
    }
}

/// The count, with one more if this holds. It stays at the greatest number.
pub(crate) fn counted_if(is: bool, count: u64) -> u64
    ensures { result ≡ counted_if is count }
{
    if is { count.saturating_add(1) } else { count }
}
