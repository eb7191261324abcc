//! `binlog stats --by table`: how what is counted of each table is written.
ghost use Rattle.binlog_statistics_command.specs.TableStatistics.{IsSameTables, WritesSorted, WritesRows, WritesTables};
ghost use Rattle.binlog_statistics_command.specs.WrittenRows.{WritesOr};

use crate::statistics::Statistics;
use binlog_cli::{Outcome, Status, out_of_memory};
use binlog_inputs::{outcome_of_lines, outcome_of_text};
use binlog_statistics::Counter;
use binlog_summaries::{StatsOptions, write_tables, write_tables_json};
use change_statistics::{MAX_TABLES, TableStats};
use std::io::Write;

impl Statistics for Counter<TableStats> {
    ghost use Rattle.std.specs.Prelude.{◌≡◌};
    ghost use Rattle.binlog_statistics_command.specs.TableStatistics.{IsSameTables, WritesTables};

    ghost writes = { λ options counter outcome old new. WritesTables options counter.stats outcome old new };

    ghost keeps = { λ old new. IsSameTables old.stats new.stats × (new.end_position ≡ old.end_position) };

    fn write<R: Eprint + AllocGlobal, W: Write>(
        &mut self,
        rt: &R,
        options: StatsOptions,
        output: &mut W,
    ) -> Outcome {
        write_table_stats(rt, &mut self.stats, options, output)
    }
}

// Writes statistics by table. Nothing is written of more tables than can be counted, which has a message.
fn write_table_stats<R: Eprint + AllocGlobal, W: Write>(
    rt: &R,
    stats: &mut TableStats,
    options: StatsOptions,
    output: &mut W,
) -> Outcome
    ensures writes { WritesTables options stats.old result (W.contents output.old) (W.contents output.new) }
    ensures keeps { IsSameTables stats.old stats.new }
{
    if stats.is_full {
        let _ = eprintln!(rt; "binlog: the logs have rows of more than {MAX_TABLES} tables");
        return Outcome::written(Status::Failed);
    }
    write_rows(rt, stats, options, output)
}

// Writes statistics by table, those with most bytes first.
fn write_rows<R: Eprint + AllocGlobal, W: Write>(
    rt: &R,
    stats: &mut TableStats,
    options: StatsOptions,
    output: &mut W,
) -> Outcome
    ensures writes { WritesRows options stats.old result (W.contents output.old) (W.contents output.new) }
    ensures keeps { IsSameTables stats.old stats.new }
{
    match stats.sort_by_bytes() {
        Ok(()) => write_sorted(rt, stats, options, output),
        Err(_) => Outcome::written(out_of_memory(rt)),
    }
}

// Writes statistics by table, as lines of JSON or as text.
fn write_sorted<R: Eprint + AllocGlobal, W: Write>(
    rt: &R,
    stats: &TableStats,
    options: StatsOptions,
    output: &mut W,
) -> Outcome
    ensures { WritesOr (WritesSorted options.is_json options.top stats.now (W.contents output.old) (W.contents output.new)) result }
{
    if options.is_json {
        let written = write_tables_json(rt.alloc(), stats, options.top, output);
        return outcome_of_lines(rt, written);
    }
    outcome_of_text(write_tables(stats, options.top, output))
}
