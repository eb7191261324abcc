//! `binlog stats`: what is counted together, and how it is written.
ghost use Rattle.std.specs.Prelude.{◌≡◌, ◌⊎◌, ℕ, List, Option, Some, None, true, IfErr, IfOk, OnOk};
ghost use Rattle.clap.specs.Matches.{found_of};
ghost use Rattle.binlog_cli.specs.FilterWords.{NeverBegins};
ghost use Rattle.binlog_cli.specs.declared.exit_status.Outcome.{Outcome};
ghost use Rattle.binlog_cli.specs.declared.exit_status.Status.TheVariants.{Usage};
ghost use Rattle.binlog_inputs.specs.StandardOutput.{IsApart};
ghost use Rattle.binlog_summaries.specs.Options.{fits, StatesOptions, RefusesOptions};
ghost use Rattle.binlog_summaries.specs.declared.options.StatsOptions.{StatsOptions};
ghost use Rattle.binlog_statistics_command.specs.CountedFiles.{CountsFrom, WritesCounts};
ghost use Rattle.binlog_statistics_command.specs.RepeatedStats.{RefusesPeriod, StatesPeriod};
ghost use Rattle.binlog_statistics_command.specs.Statistics.{WritesStats};

use crate::repeated_stats::{RepeatedStats, period_of};
use crate::transaction_counter::TransactionCounter;
use crate::transaction_statistics::DEFAULT_TOP;
use binlog_cli::{BUFFER_SIZE, Outcome, Status, filter};
use binlog_commands::SplicedStats;
use binlog_file::Retrying;
use binlog_inputs::{CONTENT_LIMIT, Inputs, Request, begin_output, read_all, read_followed};
use binlog_payload_filters::TakenParts;
use binlog_payload_visits::{Noted, PartVisitor, Spliced};
use binlog_statistics::Counter;
use binlog_summaries::{Grouping, StatsOptions, stats_options};
use change_statistics::{IntervalStats, TableStats};
use std::io::{BufWriter, Write};
use std::num::NonZeroU32;
use std::time::Clock;

/// A visitor that counts, also what is inside compressed transactions, and what is written of its counts.
pub(crate) trait Statistics: PartVisitor {
    /// What is written of the counts as these options ask for it, and with which outcome.
    ghost writes: { StatsOptions → Self → Outcome → Option (List ℕ) → Option (List ℕ) → Type 0 };

    /// The same is counted behind the writing.
    ghost keeps: { Self → Self → Type 0 };

    /// Writes the counts so far. More may be counted behind that.
    fn write<R: Eprint + AllocGlobal, W: Write>(
        &mut self,
        rt: &R,
        options: StatsOptions,
        output: &mut W,
    ) -> Outcome
        ensures writes { writes options self.old result (W.contents output.old) (W.contents output.new) }
        ensures keeps { keeps self.old self.new };
}

/// `binlog stats`: counts what the filter takes of all files, together as the options ask for it, and writes the counts; of a log that is
/// followed again and again. Of the events inside compressed transactions those of the tables are counted that the filter asks for. An event
/// whose payload can't be read is damaged.
///
/// # Errors
///
/// The status of a command that can't begin, after its message: [`Status::Usage`] if an option can't be read or isn't for
/// these statistics, [`Status::Failed`] if there is no memory, or if standard output is one of the files that are read.
pub fn stats<'a, S: Inputs, R: Clock + Eprint + AllocGlobal, W: Write + Drop>(
    rt: &'a R,
    inputs: &S,
    request: &Request<'_, 'a>,
    writer: W,
) -> Result<(Status, W), Status>
    ensures ok { IfOk result (λ ended. (options : StatsOptions) × StatesOptions (found_of request.now.options.now) options × (fits options ≡ true)
        × ((period : Option ℕ) × StatesPeriod request.now.reading.is_followed request.now.files.now request.now.every period
        × WritesStats ⟦<BufWriter<Retrying<W>> as Write>⟧.contents (found_of request.now.options.now) request.now.reading.is_verified request.now.reading.is_followed
        (λ name. S.bytes inputs.now name.now) request.now.files.now period options (W.contents writer) ended.0 (W.contents ended.1))) }
    ensures apart { OnOk result (IsApart (S.has_named inputs.now) (λ name. name.now) request.now.files.now) }
    ensures err { IfErr result (λ status. NeverBegins (found_of request.now.options.now) status
        ⊎ ((status ≡ Usage) × (RefusesOptions (found_of request.now.options.now) ⊎ RefusesPeriod request.now.reading.is_followed request.now.files.now request.now.every))) }
{
    let options = stats_options(rt, request.options)?;
    let period = period_of(rt, request)?;
    grouped_stats(rt, inputs, request, period, options, writer)
}

// Counts what these options ask for, and writes the counts again after so many seconds, if the log is followed.
fn grouped_stats<'a, S: Inputs, R: Clock + Eprint + AllocGlobal, W: Write + Drop>(
    rt: &'a R,
    inputs: &S,
    request: &Request<'_, 'a>,
    period: Option<u32>,
    options: StatsOptions,
    writer: W,
) -> Result<(Status, W), Status>
    requires { fits options ≡ true }
    ensures ok { IfOk result (λ ended. WritesStats ⟦<BufWriter<Retrying<W>> as Write>⟧.contents (found_of request.now.options.now) request.now.reading.is_verified request.now.reading.is_followed
        (λ name. S.bytes inputs.now name.now) request.now.files.now period options (W.contents writer) ended.0 (W.contents ended.1)) }
    ensures apart { OnOk result (IsApart (S.has_named inputs.now) (λ name. name.now) request.now.files.now) }
    ensures err { IfErr result (λ status. NeverBegins (found_of request.now.options.now) status) }
{
    match options.grouping {
        Grouping::Types => count(
            rt,
            inputs,
            request,
            period,
            options,
            SplicedStats::new(),
            writer,
        ),
        Grouping::Tables => {
            let counter = Counter::new(rt.alloc(), TableStats::new(rt.alloc()));
            count(rt, inputs, request, period, options, counter, writer)
        }
        Grouping::Intervals(seconds) => {
            let Some(seconds) = NonZeroU32::new(seconds) else {
                unreachable!()
            };
            let counter = Counter::new(rt.alloc(), IntervalStats::new(rt.alloc(), seconds));
            count(rt, inputs, request, period, options, counter, writer)
        }
        Grouping::Transactions => {
            let limit = options.top.unwrap_or(DEFAULT_TOP) as usize;
            let counter = TransactionCounter::new(rt.alloc(), limit);
            count(rt, inputs, request, period, options, counter, writer)
        }
    }
}

// Counts with this visitor what the filter takes of all files, and writes the counts, again after so many seconds if there are some.
fn count<'a, S: Inputs, R: Clock + Eprint + AllocGlobal, T: Statistics + Drop, W: Write + Drop>(
    rt: &'a R,
    inputs: &S,
    request: &Request<'_, 'a>,
    period: Option<u32>,
    options: StatsOptions,
    counter: T,
    writer: W,
) -> Result<(Status, W), Status>
    ensures ok { IfOk result (λ ended. WritesCounts ⟦<BufWriter<Retrying<W>> as Write>⟧.contents (found_of request.now.options.now) request.now.reading.is_verified request.now.reading.is_followed
        (λ name. S.bytes inputs.now name.now) request.now.files.now period T.visits T.visits_part T.refuses T.refuses_part (T.writes options) counter (W.contents writer) ended.0 (W.contents ended.1)) }
    ensures apart { OnOk result (IsApart (S.has_named inputs.now) (λ name. name.now) request.now.files.now) }
    ensures err { IfErr result (λ status. NeverBegins (found_of request.now.options.now) status) }
{
    match period {
        None => count_once(rt, inputs, request, options, counter, writer),
        Some(seconds) => count_repeatedly(rt, inputs, request, seconds, options, counter, writer),
    }
}

// Counts with this visitor what the filter takes of all files, and writes the counts.
fn count_once<
    'a,
    S: Inputs,
    R: Clock + Eprint + AllocGlobal,
    T: Statistics + Drop,
    W: Write + Drop,
>(
    rt: &'a R,
    inputs: &S,
    request: &Request<'_, 'a>,
    options: StatsOptions,
    counter: T,
    writer: W,
) -> Result<(Status, W), Status>
    ensures ok { IfOk result (λ ended. WritesCounts ⟦<BufWriter<Retrying<W>> as Write>⟧.contents (found_of request.now.options.now) request.now.reading.is_verified request.now.reading.is_followed
        (λ name. S.bytes inputs.now name.now) request.now.files.now None T.visits T.visits_part T.refuses T.refuses_part (T.writes options) counter (W.contents writer) ended.0 (W.contents ended.1)) }
    ensures apart { OnOk result (IsApart (S.has_named inputs.now) (λ name. name.now) request.now.files.now) }
    ensures err { IfErr result (λ status. NeverBegins (found_of request.now.options.now) status) }
{
    let mut output = begin_output(rt, inputs, request, BUFFER_SIZE, writer)?;
    let start = counting(rt, request, counter)?;
    let (read, mut spliced) = read_all(rt, inputs, request, start)?;
    let counter = &mut spliced.visitor.visitor.visitor;
    let written = counter.write(rt, options, &mut output);
    Ok(output.finish(rt, read.worse(written)))
}

// Counts with this visitor what the filter takes of all files, which are followed, and writes the counts each time that so many seconds have
// passed, and behind the files.
fn count_repeatedly<
    'a,
    S: Inputs,
    R: Clock + Eprint + AllocGlobal,
    T: Statistics + Drop,
    W: Write + Drop,
>(
    rt: &'a R,
    inputs: &S,
    request: &Request<'_, 'a>,
    seconds: u32,
    options: StatsOptions,
    counter: T,
    writer: W,
) -> Result<(Status, W), Status>
    ensures ok { IfOk result (λ ended. WritesCounts ⟦<BufWriter<Retrying<W>> as Write>⟧.contents (found_of request.now.options.now) request.now.reading.is_verified request.now.reading.is_followed
        (λ name. S.bytes inputs.now name.now) request.now.files.now (Some seconds) T.visits T.visits_part T.refuses T.refuses_part (T.writes options) counter (W.contents writer) ended.0 (W.contents ended.1)) }
    ensures apart { OnOk result (IsApart (S.has_named inputs.now) (λ name. name.now) request.now.files.now) }
    ensures err { IfErr result (λ status. NeverBegins (found_of request.now.options.now) status) }
{
    let output = begin_output(rt, inputs, request, BUFFER_SIZE, writer)?;
    let start = counting(rt, request, counter)?;
    let mut repeated = RepeatedStats::new(rt, options, seconds, output);
    let (read, mut spliced) = read_followed(rt, inputs, request, start, &mut repeated)?;
    let counter = &mut spliced.visitor.visitor.visitor;
    repeated.write(counter);
    let (written, output) = repeated.into_parts();
    Ok(output.finish(rt, read.worse(written)))
}

// A visitor that counts with this one, also inside compressed transactions, where of these the tables count that the options ask for.
fn counting<'a, R: Eprint + AllocGlobal, T: Drop>(
    rt: &R,
    request: &Request<'_, 'a>,
    counter: T,
) -> Result<Spliced<Noted<TakenParts<T>>>, Status>
    ensures ok { IfOk result (CountsFrom (found_of request.now.options.now) counter) }
    ensures err { IfErr result (λ status. NeverBegins (found_of request.now.options.now) status) }
{
    let mut asked = filter(rt, request.options)?;
    let tables = asked.tables.take();
    let taken = TakenParts::new(rt.alloc(), tables, counter);
    let noted = Noted::new(taken);
    Ok(Spliced::new(rt.alloc(), CONTENT_LIMIT, noted))
}
