//! Statistics by transaction.
ghost use Rattle.std.specs.Prelude.{◌≡◌, OnOk, OnErr};
ghost use Rattle.change_statistics.specs.Facts.{fact_of};
ghost use Rattle.change_statistics.specs.Transactions.{seen_by, none_seen, ended, with_current};

use crate::counts::Counts;
use crate::facts::EventFacts;
use crate::largest::LargestTransactions;
use crate::sizes::SizeHistogram;
use crate::transaction::Transaction;
use std::alloc::{AllocError, Global};

/// Counts transactions by their sizes, and keeps the largest. Memory is taken for these, for their GTIDs and for the tables of
/// each of them, and none for an event.
#[derive(Drop)]
pub struct TransactionStats {
    alloc: Global,
    /// The transaction that has begun and isn't counted yet.
    pub current: Option<Transaction>,
    /// The number of transactions that are counted. It stays at 2^64 - 1.
    pub transactions: u64,
    /// The largest of them.
    pub largest: LargestTransactions,
    /// How many of them have which size.
    pub sizes: SizeHistogram,
}

impl TransactionStats {
    /// Nothing is counted, and nothing is allocated. At most `limit` transactions are kept.
    pub fn new(alloc: Global, limit: usize) -> Self
        ensures { seen_by result ≡ none_seen limit }
    {
        TransactionStats {
            alloc,
            current: None,
            transactions: 0,
            largest: LargestTransactions::new(alloc, limit),
            sizes: SizeHistogram::none(),
        }
    }

    /// The last transaction has ended, and is counted.
    ///
    /// # Errors
    ///
    /// [`AllocError`] if an allocation fails for a transaction that is kept. Nothing changes then.
    pub fn finish(&mut self) -> Result<(), AllocError>
        ensures ok { OnOk result (seen_by self.new ≡ ended (seen_by self.old)) }
        ensures err { OnErr result (seen_by self.new ≡ seen_by self.old) }
    {
        self.largest.reserve()?;
        let Some(transaction) = self.current.take() else {
            return Ok(());
        };
        self.sizes.add(transaction.counts.bytes);
        self.transactions = self.transactions.saturating_add(1);
        self.largest.offer(transaction);
        Ok(())
    }

    // One more event is in the transaction that has begun, if there is one.
    fn extend(&mut self, event: &EventFacts<'_>) -> Result<(), AllocError>
        ensures ok { OnOk result (seen_by self.new ≡ with_current (seen_by self.old) (fact_of event.now)) }
        ensures err { OnErr result (seen_by self.new ≡ seen_by self.old) }
    {
        match &mut self.current {
            Some(transaction) => transaction.extend(event),
            None => Ok(()),
        }
    }
}

/// If a transaction begins with an event, the one before it has ended and is counted. An event before the first one is in none.
impl Counts for TransactionStats {
    ghost use Rattle.std.specs.Prelude.{◌≡◌};
    ghost use Rattle.change_statistics.specs.Transactions.{seen_by, SeesEvent};

    ghost adds = { λ old fact new. SeesEvent (seen_by old) fact (seen_by new) };

    ghost keeps = { λ old new. seen_by new ≡ seen_by old };

    fn add(&mut self, event: &EventFacts<'_>) -> Result<(), AllocError> {
        if !event.begins_transaction {
            return self.extend(event);
        }
        let begun = Transaction::begun(self.alloc, event)?;
        self.finish()?;
        self.current = Some(begun);
        Ok(())
    }
}
