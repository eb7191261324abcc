//! Laws of statistics over whole lists of facts. Each is a function without effect whose contract states it.
ghost use Rattle.std.specs.Prelude.{◌≡◌, ℕ, List, Option, false};
ghost use Rattle.change_statistics.specs.Facts.{Fact};
ghost use Rattle.change_statistics.specs.Counting.{AddsEach};
ghost use Rattle.change_statistics.specs.Tables.{AreEmpty, AddsAll};
ghost use Rattle.change_statistics.specs.WholeTables.{AreTableStats};
ghost use Rattle.change_statistics.specs.Transactions.{Seen, none_seen, ended, SeesAll};
ghost use Rattle.change_statistics.specs.WholeTransactions.{AreTransactionStats};
ghost use Rattle.change_statistics.specs.Intervals.{seconds_of, CountsNoInterval, AddsAllByTime};
ghost use Rattle.change_statistics.specs.WholeIntervals.{AreIntervalStats};
ghost use Rattle.change_statistics.specs.declared.intervals.IntervalStats.{IntervalStats};
ghost use Rattle.change_statistics.specs.TypeCounting.{CountsTyped, Typed, no_type_counts};
ghost use Rattle.change_statistics.specs.WholeTypes.{AreTypeCounts};
ghost use Rattle.change_statistics.specs.declared.tables.TableStats.{TableStats};
ghost use Rattle.change_statistics.specs.declared.type_counts.TypeCounts.{TypeCounts};

/// Where there was room for all tables, the statistics are those of all events that were counted: exactly the tables of which an event
/// has rows have counts, each the sums and numbers over the events of that table, and over the transactions with such an event.
pub fn table_counts_are_of_all_events()
    ensures { (facts : List Fact) (old new : TableStats) → AreEmpty old → AddsAll facts old new → new.is_full ≡ false → AreTableStats facts new }
{}

/// Where there was room for all intervals, the statistics are those of all events that were counted: exactly the intervals in which the
/// time of an event lies have counts, each the number or the sum over those events, and they ascend.
pub fn interval_counts_are_of_all_events()
    ensures { (facts : List Fact) (old new : IntervalStats) → CountsNoInterval old → AddsAllByTime facts old new → new.is_full ≡ false → AreIntervalStats (seconds_of old) facts new }
{}

/// When the last transaction has ended, the statistics are those of the transactions of all events that were seen: how many there are, the
/// largest, as many as are kept at most, and how many of them have which size. Of each that is kept the counts are the sums and numbers over
/// its events, and by table, where there was room for all its tables, over those that have rows of the table.
pub fn transaction_counts_are_of_all_events()
    ensures { (limit : ℕ) (facts : List Fact) (seen : Seen) → SeesAll facts (none_seen limit) seen → AreTransactionStats limit facts (ended seen) }
{}

/// The counts by type are those of all events and of all errors that were counted, from nothing: of each raw type the number of its events,
/// and that of their bytes; and the number of the errors, each at most 2^64 - 1.
pub fn type_counts_are_of_all_events()
    ensures { (items : List (Option Typed)) (new : TypeCounts) → AddsEach CountsTyped items no_type_counts new → AreTypeCounts items new }
{}
