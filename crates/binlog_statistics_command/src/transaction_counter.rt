//! A visitor that counts transactions.
ghost use Rattle.std.specs.Prelude.{◌≡◌, Ok, OnOk, IfErr};
ghost use Rattle.binlog_file.specs.EventRefs.{view_of};
ghost use Rattle.binlog_filters.specs.Taking.{is_of_log};
ghost use Rattle.binlog_statistics.specs.Counting.{RefusesItem};
ghost use Rattle.binlog_visits.specs.Visits.{IsNoReaderError};
ghost use Rattle.change_statistics.specs.Transactions.{seen_by, none_seen};
ghost use Rattle.binlog_statistics_command.specs.TransactionStatistics.{is_of_no_transaction, EndsTransaction, KeepsSeen};

use binlog_file::{Error, EventRef, EventStreamReader};
use binlog_payload_visits::{PartTableMaps, PartVisitor};
use binlog_payloads::PayloadError;
use binlog_statistics::Counter;
use binlog_visits::Visitor;
use change_statistics::TransactionStats;
use std::alloc::Global;

/// Counts transactions. A transaction ends in front of the next one, or of an event that belongs to the log: what comes between that and
/// the next one is in none.
#[derive(Drop)]
pub(crate) struct TransactionCounter {
    /// What is counted.
    pub(crate) counter: Counter<TransactionStats>,
}

impl TransactionCounter {
    /// Nothing is counted, and nothing is allocated. At most `limit` transactions are kept.
    pub(crate) fn new(alloc: Global, limit: usize) -> Self
        ensures { seen_by result.counter.stats ≡ none_seen limit }
    {
        TransactionCounter {
            counter: Counter::new(alloc, TransactionStats::new(alloc, limit)),
        }
    }

    // The transaction that has begun has ended.
    fn end_transaction(&mut self) -> Result<(), Error>
        ensures ok { OnOk result (EndsTransaction self.old.counter self.new.counter) }
        ensures err { IfErr result (λ e. RefusesItem KeepsSeen self.old.counter.stats e self.new.counter.stats) }
        ensures reader { IfErr result IsNoReaderError }
    {
        match self.counter.stats.finish() {
            Ok(()) => Ok(()),
            Err(_) => Err(Error::Memory),
        }
    }
}

// Whether an event belongs to the log and to no transaction.
fn is_of_log(event: &EventRef<'_>) -> bool
    ensures { result ≡ is_of_no_transaction (Ok (view_of event.now)) }
{
    is_type_of_log(event.header().event_type_raw())
}

// Whether events of this raw type do: STOP, ROTATE, FORMAT_DESCRIPTION, PREVIOUS_GTIDS; of MariaDB's own BINLOG_CHECKPOINT, GTID_LIST,
// START_ENCRYPTION.
fn is_type_of_log(event_type: u8) -> bool
    ensures { result ≡ is_of_log event_type }
{
    event_type == 3
        || event_type == 4
        || event_type == 15
        || event_type == 35
        || event_type == 161
        || event_type == 163
        || event_type == 164
}

/// A visit of an event of the log ends the transaction that has begun; any other event is counted. It is refused with [`Error::Memory`]
/// alone, and nothing is counted then.
impl Visitor for TransactionCounter {
    ghost use Rattle.binlog_statistics.specs.Counting.{RefusesItem};
    ghost use Rattle.binlog_statistics_command.specs.TransactionStatistics.{CountsTransactions, KeepsSeen};

    ghost visits = { λ old maps index item new. CountsTransactions old.counter maps item new.counter };

    ghost refuses = { λ old maps index item error new. RefusesItem KeepsSeen old.counter.stats error new.counter.stats };

    fn visit_event(
        &mut self,
        index: u64,
        event: &EventRef<'_>,
        reader: &EventStreamReader,
    ) -> Result<(), Error> {
        if is_of_log(event) {
            return self.end_transaction();
        }
        self.counter.visit_event(index, event, reader)
    }

    fn visit_error(
        &mut self,
        index: u64,
        error: &Error,
        reader: &EventStreamReader,
    ) -> Result<(), Error> {
        self.counter.visit_error(index, error, reader)
    }
}

/// An event inside a compressed transaction is one of the event that has the transaction.
impl PartVisitor for TransactionCounter {
    ghost use Rattle.binlog_statistics.specs.Counting.{RefusesItem};
    ghost use Rattle.binlog_statistics_command.specs.TransactionStatistics.{CountsPartOf, KeepsSeen};

    ghost visits_part = { λ old maps index number part new. CountsPartOf old.counter maps part new.counter };

    ghost refuses_part = { λ old maps index number part error new. RefusesItem KeepsSeen old.counter.stats error new.counter.stats };

    fn visit_part(
        &mut self,
        index: u64,
        number: u64,
        event: &EventRef<'_>,
        maps: &PartTableMaps<'_>,
    ) -> Result<(), Error> {
        self.counter.visit_part(index, number, event, maps)
    }

    fn visit_part_error(
        &mut self,
        index: u64,
        number: u64,
        error: &PayloadError,
        maps: &PartTableMaps<'_>,
    ) -> Result<(), Error> {
        self.counter.visit_part_error(index, number, error, maps)
    }
}
