//! `binlog stats --by type`: how what is counted of each type is written.
ghost use Rattle.std.specs.Io.KnownBytes.{Appends};
ghost use Rattle.std.specs.Prelude.{◌++◌, OnOk};
ghost use Rattle.binlog_summaries.specs.StatsText.{Writes};
ghost use Rattle.binlog_summaries.specs.InnerTypes.{inner_json};
ghost use Rattle.binlog_summaries.specs.TypeJson.{types_json};
ghost use Rattle.binlog_statistics_command.specs.TypeStatistics.{IsTypesText, WritesTypes};

use crate::statistics::Statistics;
use binlog_cli::Outcome;
use binlog_commands::SplicedStats;
use binlog_file::Error;
use binlog_inputs::{outcome_of_lines, outcome_of_text};
use binlog_summaries::{
    StatsOptions, write_inner_types, write_inner_types_json, write_stats, write_types_json,
};
use std::alloc::Global;
use std::io;
use std::io::Write;

impl Statistics for SplicedStats {
    ghost use Rattle.std.specs.Prelude.{◌≡◌};
    ghost use Rattle.binlog_statistics_command.specs.TypeStatistics.{WritesTypes};

    ghost writes = { λ options stats outcome old new. WritesTypes options.is_json stats outcome old new };

    ghost keeps = { λ old new. new ≡ old };

    fn write<R: Eprint + AllocGlobal, W: Write>(
        &mut self,
        rt: &R,
        options: StatsOptions,
        output: &mut W,
    ) -> Outcome {
        write_types(rt, self, options.is_json, output)
    }
}

// Writes statistics by type, as lines of JSON or as text.
fn write_types<R: Eprint + AllocGlobal, W: Write>(
    rt: &R,
    stats: &SplicedStats,
    is_json: bool,
    output: &mut W,
) -> Outcome
    ensures { WritesTypes is_json stats.now result (W.contents output.old) (W.contents output.new) }
{
    if is_json {
        let written = write_lines(rt.alloc(), stats, output);
        return outcome_of_lines(rt, written);
    }
    outcome_of_text(write_text(stats, output))
}

// Writes the lines of JSON of the log's events, and behind them those of the events inside.
fn write_lines<W: Write>(alloc: Global, stats: &SplicedStats, output: &mut W) -> Result<(), Error>
    ensures { OnOk result (Appends (W.contents output.old) (W.contents output.new) (types_json stats.now.outside ++ inner_json stats.now.inside)) }
{
    write_types_json(alloc, &stats.outside, &mut *output)?;
    write_inner_types_json(alloc, &stats.inside, output)
}

// Writes the text of the log's events, and behind it that of the events inside.
fn write_text<W: Write>(stats: &SplicedStats, output: &mut W) -> io::Result<()>
    ensures { OnOk result (Writes (λ text. IsTypesText stats.now text) (W.contents output.old) (W.contents output.new)) }
{
    write_stats(&stats.outside, &mut *output)?;
    write_inner_types(&stats.inside, output)
}
