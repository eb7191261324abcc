//! Laws of statistics over whole lists of items. Each is a function without effect whose contract states it.
ghost use Rattle.std.specs.Prelude.{◌≡◌, ℕ, List, Result, false};
ghost use Rattle.binlog_wire.specs.declared.error.Error.{Error};
ghost use Rattle.binlog_events.specs.Events.{EventView};
ghost use Rattle.binlog_file.specs.TableMapsInForce.{TableMaps};
ghost use Rattle.binlog_visits.specs.Visits.{Visits};
ghost use Rattle.binlog_filters.specs.declared.filtered.Filtered.{Filtered};
ghost use Rattle.change_statistics.specs.Counting.{AddsEach};
ghost use Rattle.change_statistics.specs.Intervals.{seconds_of, CountsNoInterval};
ghost use Rattle.change_statistics.specs.Tables.{AreEmpty};
ghost use Rattle.change_statistics.specs.Transactions.{seen_by, none_seen, ended};
ghost use Rattle.change_statistics.specs.WholeIntervals.{AreIntervalStats};
ghost use Rattle.change_statistics.specs.WholeTables.{AreTableStats};
ghost use Rattle.change_statistics.specs.WholeTransactions.{AreTransactionStats};
ghost use Rattle.change_statistics.specs.declared.intervals.IntervalStats.{IntervalStats};
ghost use Rattle.change_statistics.specs.declared.tables.TableStats.{TableStats};
ghost use Rattle.change_statistics.specs.declared.transaction_stats.TransactionStats.{TransactionStats};
ghost use Rattle.binlog_payload_visits.specs.declared.spliced.Spliced.{Spliced};
ghost use Rattle.binlog_statistics.specs.Counting.{AreOfItems, AreOfSplicedItems, AreOfTakenItems};
ghost use Rattle.binlog_statistics.specs.declared.counter.Counter.{Counter};

use crate::counter::Counter;
use binlog_filters::Filtered;
use binlog_payload_visits::Spliced;
use binlog_visits::Visitor;
use change_statistics::{Counts, IntervalStats, TableStats, TransactionStats};

/// Of all items that are shown the facts are added to the counts, in order, by the table maps in force at each.
pub fn counts_are_of_all_items<C: Counts>()
    ensures { (maps : TableMaps) (items : List (Result EventView Error)) (old new : Counter C) → Visits ⟦<Counter<C> as Visitor>⟧.visits maps 0 items old new
        → AreOfItems (λ facts stats. AddsEach C.adds facts old.stats stats) maps items new.stats }
{}

/// Of the items that a filter takes of a log, and of no others, the facts are added, by the table maps of the whole log.
pub fn filtered_counts_are_of_taken_items<C: Counts>()
    ensures { (maps : TableMaps) (items : List (Result EventView Error)) (old new : Filtered (Counter C)) → Visits ⟦<Filtered<Counter<C>> as Visitor>⟧.visits maps 0 items old new
        → AreOfTakenItems (λ facts stats. AddsEach C.adds facts old.visitor.stats stats) old.filter maps old.place.position old.state items new.visitor.stats }
{}

/// If there was room for all tables, the statistics are those of all items that were shown, by the table maps in force at each: exactly
/// the tables of which an event has rows have counts, and each count is the sum or the number over the events of that table.
pub fn table_counts_are_of_all_items()
    ensures { (maps : TableMaps) (items : List (Result EventView Error)) (old new : Counter TableStats) → AreEmpty old.stats
        → Visits ⟦<Counter<TableStats> as Visitor>⟧.visits maps 0 items old new → new.stats.is_full ≡ false → AreOfItems AreTableStats maps items new.stats }
{}

/// The statistics that are shown what a filter takes of a log are those of the items that it takes, and of no others, by the table maps
/// of the whole log.
pub fn filtered_table_counts_are_of_taken_items()
    ensures { (maps : TableMaps) (items : List (Result EventView Error)) (old new : Filtered (Counter TableStats)) → AreEmpty old.visitor.stats
        → Visits ⟦<Filtered<Counter<TableStats>> as Visitor>⟧.visits maps 0 items old new → new.visitor.stats.is_full ≡ false
        → AreOfTakenItems AreTableStats old.filter maps old.place.position old.state items new.visitor.stats }
{}

/// If there was room for all intervals, the statistics are those of all items that were shown: exactly the intervals in which the time of
/// an event lies have counts, and each count is the sum or the number over the events of that interval.
pub fn interval_counts_are_of_all_items()
    ensures { (maps : TableMaps) (items : List (Result EventView Error)) (old new : Counter IntervalStats) → CountsNoInterval old.stats
        → Visits ⟦<Counter<IntervalStats> as Visitor>⟧.visits maps 0 items old new → new.stats.is_full ≡ false → AreOfItems (AreIntervalStats (seconds_of old.stats)) maps items new.stats }
{}

/// The statistics by time that are shown what a filter takes of a log are those of the items that it takes, and of no others.
pub fn filtered_interval_counts_are_of_taken_items()
    ensures { (maps : TableMaps) (items : List (Result EventView Error)) (old new : Filtered (Counter IntervalStats)) → CountsNoInterval old.visitor.stats
        → Visits ⟦<Filtered<Counter<IntervalStats>> as Visitor>⟧.visits maps 0 items old new → new.visitor.stats.is_full ≡ false
        → AreOfTakenItems (AreIntervalStats (seconds_of old.visitor.stats)) old.filter maps old.place.position old.state items new.visitor.stats }
{}

/// When the last transaction has ended, the statistics by transaction are those of the transactions of all items that were shown: how many
/// there are, the largest, as many as are kept at most, and how many of them have which size.
pub fn transaction_counts_are_of_all_items()
    ensures { (limit : ℕ) (maps : TableMaps) (items : List (Result EventView Error)) (old new : Counter TransactionStats) → seen_by old.stats ≡ none_seen limit
        → Visits ⟦<Counter<TransactionStats> as Visitor>⟧.visits maps 0 items old new
        → AreOfItems (λ facts seen. AreTransactionStats limit facts seen) maps items (ended (seen_by new.stats)) }
{}

/// The statistics by transaction that are shown what a filter takes of a log are those of the items that it takes, and of no others.
pub fn filtered_transaction_counts_are_of_taken_items()
    ensures { (limit : ℕ) (maps : TableMaps) (items : List (Result EventView Error)) (old new : Filtered (Counter TransactionStats)) → seen_by old.visitor.stats ≡ none_seen limit
        → Visits ⟦<Filtered<Counter<TransactionStats>> as Visitor>⟧.visits maps 0 items old new
        → AreOfTakenItems (λ facts seen. AreTransactionStats limit facts seen) old.filter maps old.place.position old.state items (ended (seen_by new.visitor.stats)) }
{}

/// Of all items that are shown, and of the events inside compressed transactions of at most `limit` bytes, the facts are added, in order, by
/// the table maps in force at each.
pub fn spliced_counts_are_of_all_items<C: Counts>()
    ensures { (maps : TableMaps) (items : List (Result EventView Error)) (old new : Spliced (Counter C)) → Visits ⟦<Spliced<Counter<C>> as Visitor>⟧.visits maps 0 items old new
        → AreOfSplicedItems (λ facts stats. AddsEach C.adds facts old.visitor.stats stats) old.limit maps items new.visitor.stats }
{}

/// Where there was room for all tables, the statistics by table are those of all items that were shown, and of all events inside.
pub fn spliced_table_counts_are_of_all_items()
    ensures { (maps : TableMaps) (items : List (Result EventView Error)) (old new : Spliced (Counter TableStats)) → AreEmpty old.visitor.stats
        → Visits ⟦<Spliced<Counter<TableStats>> as Visitor>⟧.visits maps 0 items old new → new.visitor.stats.is_full ≡ false
        → AreOfSplicedItems AreTableStats old.limit maps items new.visitor.stats }
{}

/// Where there was room for all intervals, the statistics by time are those of all items that were shown, and of all events inside.
pub fn spliced_interval_counts_are_of_all_items()
    ensures { (maps : TableMaps) (items : List (Result EventView Error)) (old new : Spliced (Counter IntervalStats)) → CountsNoInterval old.visitor.stats
        → Visits ⟦<Spliced<Counter<IntervalStats>> as Visitor>⟧.visits maps 0 items old new → new.visitor.stats.is_full ≡ false
        → AreOfSplicedItems (AreIntervalStats (seconds_of old.visitor.stats)) old.limit maps items new.visitor.stats }
{}

/// When the last transaction has ended, the statistics by transaction are those of the transactions of all items that were shown, and of all
/// events inside.
pub fn spliced_transaction_counts_are_of_all_items()
    ensures { (limit : ℕ) (maps : TableMaps) (items : List (Result EventView Error)) (old new : Spliced (Counter TransactionStats)) → seen_by old.visitor.stats ≡ none_seen limit
        → Visits ⟦<Spliced<Counter<TransactionStats>> as Visitor>⟧.visits maps 0 items old new
        → AreOfSplicedItems (λ facts seen. AreTransactionStats limit facts seen) old.limit maps items (ended (seen_by new.visitor.stats)) }
{}
