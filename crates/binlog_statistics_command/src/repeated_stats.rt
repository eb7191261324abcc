//! `binlog stats --every`: the counts of a log that is followed, written again and again.
ghost use Rattle.std.specs.Prelude.{◌≡◌, ◌↔◌, [], ◌∷◌, IfErr, IfOk, IsTrue, OnOk};
ghost use Rattle.std.specs.Io.KnownBytes.{Appends};
ghost use Rattle.binlog_wire.specs.declared.error.Error.TheVariants.{Writer};
ghost use Rattle.binlog_cli.specs.Outputs.{worse_outcome, written};
ghost use Rattle.binlog_cli.specs.declared.exit_status.Outcome.{Outcome};
ghost use Rattle.binlog_cli.specs.declared.exit_status.Status.TheVariants.{Fine, Usage};
ghost use Rattle.binlog_statistics_command.specs.RepeatedStats.{FollowsFile, IsTable, RefusesPeriod, StatesPeriod};
ghost use Rattle.binlog_statistics_command.specs.WrittenRows.{WritesText};

use crate::statistics::Statistics;
use binlog_cli::{Outcome, Output, Status};
use binlog_file::{Error, Retrying};
use binlog_inputs::{Follower, Request, goes_on, outcome_of_text};
use binlog_payload_filters::TakenParts;
use binlog_payload_visits::{Noted, Spliced};
use binlog_summaries::{StatsOptions, seconds_in};
use std::alloc::AllocError;
use std::io;
use std::io::{BufWriter, Write};
use std::time::{Clock, Duration};

/// How many seconds there are between two tables of a log that is followed; None if it isn't followed.
///
/// # Errors
///
/// [`Status::Usage`], after its message, if only one of `--follow` and `--every` is given, if the last file is standard input, or if the time
/// isn't one.
pub(crate) fn period_of<R: Eprint>(rt: &R, request: &Request<'_, '_>) -> Result<Option<u32>, Status>
    ensures ok { IfOk result (StatesPeriod request.now.reading.is_followed request.now.files.now request.now.every) }
    ensures err { IfErr result (λ status. (status ≡ Usage) × RefusesPeriod request.now.reading.is_followed request.now.files.now request.now.every) }
{
    match request.every {
        None if request.reading.is_followed => {
            let _ = eprintln!(rt; "binlog: stats --follow needs --every");
            Err(Status::Usage)
        }
        None => Ok(None),
        Some(_) if !follows_file(request) => {
            let _ = eprintln!(rt;
                "binlog: --every is for --follow, where the last file isn't standard input"
            );
            Err(Status::Usage)
        }
        Some(time) => match seconds_in(time) {
            Some(seconds) => Ok(Some(seconds)),
            None => {
                let _ = eprintln!(rt; "binlog: --every: {time:?} is no time, as 60s, 5m or 1h");
                Err(Status::Usage)
            }
        },
    }
}

// Whether the last file is followed, which isn't standard input.
fn follows_file(request: &Request<'_, '_>) -> bool
    ensures { IsTrue result ↔ FollowsFile request.now.reading.is_followed request.now.files.now }
{
    match request.files.last() {
        Some(last) => goes_on(last, request.reading),
        None => false,
    }
}

/// Writes the counts of a log that is followed, each time that a period has passed.
#[derive(Drop)]
pub(crate) struct RepeatedStats<'a, R, B> {
    rt: &'a R,
    options: StatsOptions,
    period: Duration,
    // When the counts are due again, by the clock; at once if it is None.
    next: Option<Duration>,
    output: Output<B>,
    // The worst outcome of the tables so far.
    outcome: Outcome,
}

impl<'a, R: Clock + Eprint + AllocGlobal, W: Write + Drop> RepeatedStats<
    'a,
    R,
    BufWriter<Retrying<W>>,
> {
    /// Writes the counts as these options ask for them to this output, each time that so many seconds have passed.
    pub(crate) fn new(
        rt: &'a R,
        options: StatsOptions,
        seconds: u32,
        output: Output<BufWriter<Retrying<W>>>,
    ) -> Self
        ensures options { result.options ≡ options }
        ensures output { result.output ≡ output }
        ensures outcome { result.outcome ≡ written Fine }
    {
        RepeatedStats {
            rt,
            options,
            period: Duration::from_secs(u64::from(seconds)),
            next: None,
            output,
            outcome: Outcome::written(Status::Fine),
        }
    }

    /// The worst outcome of all tables, and the output.
    pub(crate) fn into_parts(self) -> (Outcome, Output<BufWriter<Retrying<W>>>)
        ensures outcome { result.0 ≡ self.entry.outcome }
        ensures output { result.1 ≡ self.entry.output }
    {
        (self.outcome, self.output)
    }

    /// Writes a table at once: the counts so far, and behind them an empty line.
    pub(crate) fn write<T: Statistics>(&mut self, counter: &mut T)
        ensures table { (outcome : Outcome) × IsTable (T.writes self.old.options counter.old) outcome (⟦<BufWriter<Retrying<W>> as Write>⟧.contents self.old.output.inner) (⟦<BufWriter<Retrying<W>> as Write>⟧.contents self.new.output.inner)
            × (self.new.outcome ≡ worse_outcome self.old.outcome outcome) }
        ensures counts { T.keeps counter.old counter.new }
        ensures same { self.new ≡ record self.old { output = self.new.output; outcome = self.new.outcome } }
    {
        let counts = counter.write(self.rt, self.options, &mut self.output);
        let ended = self.end_table();
        let table = counts.worse(ended);
        self.outcome = self.outcome.worse(table);
    }

    // Writes the empty line behind counts.
    fn end_table(&mut self) -> Outcome
        ensures line { WritesText (Appends (⟦<BufWriter<Retrying<W>> as Write>⟧.contents self.old.output.inner) (⟦<BufWriter<Retrying<W>> as Write>⟧.contents self.new.output.inner) (10 ∷ [])) result }
        ensures same { self.new ≡ record self.old { output = self.new.output } }
    {
        let ended = self.end_line();
        outcome_of_text(ended)
    }

    // Writes a line feed.
    fn end_line(&mut self) -> io::Result<()>
        ensures line { OnOk result (Appends (⟦<BufWriter<Retrying<W>> as Write>⟧.contents self.old.output.inner) (⟦<BufWriter<Retrying<W>> as Write>⟧.contents self.new.output.inner) (10 ∷ [])) }
        ensures same { self.new ≡ record self.old { output = self.new.output } }
    {
        writeln!(self.output, "")
    }

    // Whether the counts are due, which they are again a period later. Without a clock they aren't.
    fn is_due(&mut self) -> bool
        ensures { self.new ≡ record self.old { next = self.new.next } }
    {
        let Ok(now) = self.rt.monotonic() else {
            return false;
        };
        let is_due = match self.next {
            Some(next) => now >= next,
            None => true,
        };
        if is_due {
            self.next = now.checked_add(self.period);
        }
        is_due
    }
}

impl<'a, R: Clock + Eprint + AllocGlobal, T: Statistics, W: Write + Drop> Follower<
    Spliced<Noted<TakenParts<T>>>,
> for RepeatedStats<'a, R, BufWriter<Retrying<W>>> {
    ghost use Rattle.binlog_change_lines.specs.InsideVisits.{visitor_of};
    ghost use Rattle.binlog_statistics_command.specs.RepeatedStats.{MayWrite};

    ghost rests = { λ old shown new after. (new.options ≡ old.options)
        × MayWrite (T.writes old.options (visitor_of shown)) old.outcome (⟦<BufWriter<Retrying<W>> as Write>⟧.contents old.output.inner) new.outcome (⟦<BufWriter<Retrying<W>> as Write>⟧.contents new.output.inner) };

    fn begin_file(
        &mut self,
        _visitor: &mut Spliced<Noted<TakenParts<T>>>,
        _path: &str,
        _start: u64,
    ) -> Result<(), AllocError> {
        Ok(())
    }

    fn rest(&mut self, visitor: &mut Spliced<Noted<TakenParts<T>>>) -> Result<(), Error> {
        if !self.is_due() {
            return Ok(());
        }
        let counter = &mut visitor.visitor.visitor.visitor;
        self.write(counter);
        if self.output.flush().is_err() {
            return Err(Error::Writer);
        }
        Ok(())
    }
}
