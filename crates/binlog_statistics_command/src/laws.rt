//! Laws of what is counted. Each is a function without effect whose contract states it.
ghost use Rattle.std.specs.Prelude.{◌≡◌, ℕ, List, Result};
ghost use Rattle.binlog_wire.specs.declared.error.Error.{Error};
ghost use Rattle.binlog_file.specs.Events.{EventView};
ghost use Rattle.binlog_file.specs.TableMapsInForce.{TableMaps};
ghost use Rattle.binlog_visits.specs.Visits.{Visits};
ghost use Rattle.change_statistics.specs.Transactions.{ended, none_seen, seen_by};
ghost use Rattle.binlog_statistics_command.specs.WithinTransactions.{AreOfTransactions};
ghost use Rattle.binlog_statistics_command.specs.declared.transaction_counter.TransactionCounter.{TransactionCounter};

use crate::transaction_counter::TransactionCounter;
use binlog_visits::Visitor;

/// When the last transaction has ended, the statistics by transaction are those of the events of all items that were shown which are in a
/// transaction: from the one with which that begins to the next one, or to an event of the log.
pub fn transactions_are_of_their_events()
    ensures { (limit : ℕ) (maps : TableMaps) (items : List (Result EventView Error)) (old new : TransactionCounter) → seen_by old.counter.stats ≡ none_seen limit
        → Visits ⟦<TransactionCounter as Visitor>⟧.visits maps 0 items old new → AreOfTransactions limit maps items (ended (seen_by new.counter.stats)) }
{}
