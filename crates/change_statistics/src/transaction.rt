//! What is counted of a transaction.
ghost use Rattle.std.specs.Prelude.{◌≡◌, IfOk, OnOk, OnErr};
ghost use Rattle.change_statistics.specs.Facts.{fact_of};
ghost use Rattle.change_statistics.specs.Transactions.{duration_of, begun, extended};

use crate::event_counts::EventCounts;
use crate::facts::EventFacts;
use crate::gtid_text::GtidText;
use crate::transaction_tables::TransactionTables;
use std::alloc::{AllocError, Global};

/// A transaction: the event with which it begins, and those behind it before the next one begins.
#[derive(Drop)]
pub struct Transaction {
    /// Its GTID, which is that of its first event.
    pub gtid: GtidText,
    /// The position of its first event in its log, as that states; None if it states none.
    pub begin_position: Option<u64>,
    /// The position behind its last event, as that states.
    pub end_position: u64,
    /// What is counted of its events.
    pub counts: EventCounts,
    /// The timestamp of its first event, in seconds since 1970.
    pub first_time: u32,
    /// The timestamp of its last event.
    pub last_time: u32,
    /// What is counted of its row events, by table.
    pub tables: TransactionTables,
}

impl Transaction {
    /// The transaction that begins with this event, so far.
    ///
    /// # Errors
    ///
    /// [`AllocError`] if an allocation fails for the GTID or for a table.
    pub(crate) fn begun(alloc: Global, event: &EventFacts<'_>) -> Result<Self, AllocError>
        ensures { IfOk result (λ transaction. transaction ≡ begun (fact_of event.now)) }
    {
        let gtid = GtidText::new(alloc, event.gtid)?;
        let mut tables = TransactionTables::new(alloc);
        tables.add(event)?;
        Ok(Transaction {
            gtid,
            begin_position: event.begin_position(),
            end_position: event.end_position,
            counts: EventCounts::none().with_event(event.bytes, event),
            first_time: event.time,
            last_time: event.time,
            tables,
        })
    }

    /// The number of seconds from the timestamp of its first event to that of its last one; None if that one is earlier.
    pub fn duration(&self) -> Option<u32>
        ensures { result ≡ duration_of self.now }
    {
        self.last_time.checked_sub(self.first_time)
    }

    /// One more event is in the transaction.
    ///
    /// # Errors
    ///
    /// [`AllocError`] if an allocation fails for a table. Nothing changes then.
    pub(crate) fn extend(&mut self, event: &EventFacts<'_>) -> Result<(), AllocError>
        ensures ok { OnOk result (self.new ≡ extended self.old (fact_of event.now)) }
        ensures err { OnErr result (self.new ≡ self.old) }
    {
        self.tables.add(event)?;
        self.end_position = event.end_position;
        self.counts = self.counts.with_event(event.bytes, event);
        self.last_time = event.time;
        Ok(())
    }
}
