//! `binlog stats --by transaction`: how what is counted of transactions is written.
ghost use Rattle.change_statistics.specs.Transactions.{seen_by};
ghost use Rattle.binlog_statistics_command.specs.TransactionStatistics.{IsOrHasEnded, WritesEnded, WritesSeen, WritesTransactions};
ghost use Rattle.binlog_statistics_command.specs.WrittenRows.{WritesOr};

use crate::statistics::Statistics;
use crate::transaction_counter::TransactionCounter;
use binlog_cli::{Outcome, Status, out_of_memory};
use binlog_inputs::{outcome_of_lines, outcome_of_text};
use binlog_summaries::{StatsOptions, write_transactions, write_transactions_json};
use change_statistics::{MAX_TABLES, TransactionStats};
use std::io::Write;

/// How many transactions are kept if no number is asked for.
pub(crate) const DEFAULT_TOP: u64 = 20;

impl Statistics for TransactionCounter {
    ghost use Rattle.std.specs.Prelude.{◌≡◌};
    ghost use Rattle.change_statistics.specs.Transactions.{seen_by};
    ghost use Rattle.binlog_statistics_command.specs.TransactionStatistics.{IsOrHasEnded, WritesTransactions};

    ghost writes = { λ options counter outcome old new. WritesTransactions options.is_json (seen_by counter.counter.stats) outcome old new };

    ghost keeps = { λ old new. IsOrHasEnded (seen_by old.counter.stats) (seen_by new.counter.stats) × (new.counter.end_position ≡ old.counter.end_position) };

    fn write<R: Eprint + AllocGlobal, W: Write>(
        &mut self,
        rt: &R,
        options: StatsOptions,
        output: &mut W,
    ) -> Outcome {
        write_transaction_stats(rt, &mut self.counter.stats, options.is_json, output)
    }
}

// Writes statistics by transaction, when the last one has ended.
fn write_transaction_stats<R: Eprint + AllocGlobal, W: Write>(
    rt: &R,
    stats: &mut TransactionStats,
    is_json: bool,
    output: &mut W,
) -> Outcome
    ensures writes { WritesTransactions is_json (seen_by stats.old) result (W.contents output.old) (W.contents output.new) }
    ensures keeps { IsOrHasEnded (seen_by stats.old) (seen_by stats.new) }
{
    match stats.finish() {
        Ok(()) => write_ended(rt, stats, is_json, output),
        Err(_) => Outcome::written(out_of_memory(rt)),
    }
}

// Writes statistics by transaction. Nothing is written where one of the largest has more tables than can be counted, which has a message.
fn write_ended<R: Eprint + AllocGlobal, W: Write>(
    rt: &R,
    stats: &TransactionStats,
    is_json: bool,
    output: &mut W,
) -> Outcome
    ensures { WritesEnded is_json (seen_by stats.now) result (W.contents output.old) (W.contents output.new) }
{
    if stats.largest.is_full() {
        let _ = eprintln!(rt; "binlog: a transaction has rows of more than {MAX_TABLES} tables");
        return Outcome::written(Status::Failed);
    }
    write_seen(rt, stats, is_json, output)
}

// Writes statistics by transaction, as lines of JSON or as text.
fn write_seen<R: Eprint + AllocGlobal, W: Write>(
    rt: &R,
    stats: &TransactionStats,
    is_json: bool,
    output: &mut W,
) -> Outcome
    ensures { WritesOr (WritesSeen is_json (seen_by stats.now) (W.contents output.old) (W.contents output.new)) result }
{
    if is_json {
        let written = write_transactions_json(rt.alloc(), stats, output);
        return outcome_of_lines(rt, written);
    }
    outcome_of_text(write_transactions(stats, output))
}
