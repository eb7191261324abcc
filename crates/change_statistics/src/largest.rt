//! The largest transactions.
ghost use Rattle.std.specs.Prelude.{◌≡◌, ◌<◌, [], OnOk, nat_lt, position, vec_len, vec_capacity};
ghost use Rattle.change_statistics.specs.Transactions.{place_among, kept_with, is_any_full};
ghost use Rattle.change_statistics.specs.declared.transaction.Transaction.{Transaction};

use crate::transaction::Transaction;
use std::alloc::{AllocError, Global};

/// Keeps the transactions with most bytes, at most a limit of them: those with most first, and those with equally many in the order
/// in which they came.
#[derive(Drop)]
pub struct LargestTransactions {
    /// How many are kept at most.
    pub limit: usize,
    /// Those that are kept.
    pub kept: Vec<Transaction>,
}

impl LargestTransactions {
    /// None is kept, and nothing is allocated.
    pub fn new(alloc: Global, limit: usize) -> Self
        ensures limit { result.limit ≡ limit }
        ensures none { result.kept.items ≡ [] }
    {
        LargestTransactions {
            limit,
            kept: Vec::new(alloc),
        }
    }

    /// Whether one of those that are kept has rows of more tables than can be counted.
    pub fn is_full(&self) -> bool
        ensures { result ≡ is_any_full self.now.kept.items }
    {
        self.kept
            .iter()
            .any(|transaction| transaction.tables.is_full())
    }

    /// Makes room for one more.
    ///
    /// # Errors
    ///
    /// [`AllocError`] if an allocation fails. The same are kept in any case.
    pub(crate) fn reserve(&mut self) -> Result<(), AllocError>
        ensures limit { self.new.limit ≡ self.old.limit }
        ensures kept { self.new.kept.items ≡ self.old.kept.items }
        ensures room { OnOk result (vec_len self.new.kept < vec_capacity self.new.kept) }
    {
        self.kept.reserve(1)?;
        Ok(())
    }

    /// Keeps the transaction, if fewer than the limit have at least as many bytes. There is room for it.
    pub(crate) fn offer(&mut self, transaction: Transaction)
        requires { vec_len self.old.kept < vec_capacity self.old.kept }
        ensures limit { self.new.limit ≡ self.old.limit }
        ensures kept { self.new.kept.items ≡ kept_with self.old.limit transaction self.old.kept.items }
    {
        let place = self.place_of(&transaction);
        if place < self.limit && self.kept.insert(place, transaction).is_err() {
            unreachable!()
        }
        self.kept.truncate(self.limit);
    }

    // How many come before the transaction.
    fn place_of(&self, transaction: &Transaction) -> usize
        ensures { result ≡ place_among transaction.now self.now.kept.items }
    {
        self.first_below(transaction.counts.bytes)
            .unwrap_or(self.kept.len())
    }

    // The place of the first one with fewer bytes.
    fn first_below(&self, bytes: u64) -> Option<usize>
        ensures { result ≡ position (λ (kept : Transaction). nat_lt kept.counts.bytes bytes) self.now.kept.items }
    {
        self.kept.iter().position(|kept| kept.counts.bytes < bytes)
    }
}
