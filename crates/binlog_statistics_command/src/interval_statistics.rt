//! `binlog stats --by time`: how what is counted of each interval is written.
ghost use Rattle.binlog_statistics_command.specs.IntervalStatistics.{WritesCounted, WritesIntervals};
ghost use Rattle.binlog_statistics_command.specs.WrittenRows.{WritesOr};

use crate::statistics::Statistics;
use binlog_cli::{Outcome, Status};
use binlog_inputs::{outcome_of_lines, outcome_of_text};
use binlog_statistics::Counter;
use binlog_summaries::{StatsOptions, write_intervals, write_intervals_json};
use change_statistics::{IntervalStats, MAX_INTERVALS};
use std::io::Write;

impl Statistics for Counter<IntervalStats> {
    ghost use Rattle.std.specs.Prelude.{◌≡◌};
    ghost use Rattle.binlog_statistics_command.specs.IntervalStatistics.{WritesIntervals};

    ghost writes = { λ options counter outcome old new. WritesIntervals options.is_json counter.stats outcome old new };

    ghost keeps = { λ old new. new ≡ old };

    fn write<R: Eprint + AllocGlobal, W: Write>(
        &mut self,
        rt: &R,
        options: StatsOptions,
        output: &mut W,
    ) -> Outcome {
        write_interval_stats(rt, &self.stats, options.is_json, output)
    }
}

// Writes statistics by time. Nothing is written of more intervals than can be counted, which has a message.
fn write_interval_stats<R: Eprint + AllocGlobal, W: Write>(
    rt: &R,
    stats: &IntervalStats,
    is_json: bool,
    output: &mut W,
) -> Outcome
    ensures { WritesIntervals is_json stats.now result (W.contents output.old) (W.contents output.new) }
{
    if stats.is_full {
        let _ = eprintln!(rt;
            "binlog: the logs have events of more than {MAX_INTERVALS} intervals"
        );
        return Outcome::written(Status::Failed);
    }
    write_counted(rt, stats, is_json, output)
}

// Writes statistics by time, as lines of JSON or as text.
fn write_counted<R: Eprint + AllocGlobal, W: Write>(
    rt: &R,
    stats: &IntervalStats,
    is_json: bool,
    output: &mut W,
) -> Outcome
    ensures { WritesOr (WritesCounted is_json stats.now (W.contents output.old) (W.contents output.new)) result }
{
    if is_json {
        let written = write_intervals_json(rt.alloc(), stats, output);
        return outcome_of_lines(rt, written);
    }
    outcome_of_text(write_intervals(stats, output))
}
