//! The command that prints the GTIDs of logs.
ghost use Rattle.std.specs.Prelude.{◌≡◌, IfErr, IfOk, OnOk};
ghost use Rattle.std.specs.Option.{option_to_list};
ghost use Rattle.clap.specs.Matches.{found_of};
ghost use Rattle.binlog_cli.specs.FilterWords.{NeverBegins};
ghost use Rattle.binlog_event_commands.specs.Commands.{WritesGtids};
ghost use Rattle.binlog_event_commands.specs.Gtids.{is_unread, status_read, WritesSet, WritesDifference, WritesUnless, WritesMissing, WritesWanted};
ghost use Rattle.binlog_inputs.specs.StandardOutput.{IsApart};

use binlog_cli::{BUFFER_SIZE, Outcome, Status, out_of_memory};
use binlog_commands::GtidCollector;
use binlog_file::{Counted, CountedRef, GtidTracker, Retrying};
use binlog_filters::Filter;
use binlog_gtid_listing::{LogGtids, write_log_gtids};
use binlog_inputs::{
    Inputs, NoFollower, Reading, Request, begin_output, outcome_of_lines, read_all, read_taken,
};
use binlog_maria_gtids::MariaGtidTracker;
use std::io;
use std::io::{BufWriter, Write};
use std::time::Clock;

/// `binlog gtids`: writes the lines of the GTIDs that the filter takes, or of those that another log lacks if one is named.
///
/// # Errors
///
/// The status of a command that can't begin, after its message: [`Status::Usage`] if an option can't be read, [`Status::Failed`] if
/// there is no memory, or if standard output is one of the files that are read.
pub fn gtids<'a, S: Inputs, R: Clock + Eprint + AllocGlobal, W: Write + Drop>(
    rt: &'a R,
    inputs: &S,
    request: &Request<'_, 'a>,
    writer: W,
) -> Result<(Status, W), Status>
    ensures ok { IfOk result (λ ended. WritesGtids ⟦<BufWriter<Retrying<W>> as Write>⟧.contents (found_of request.now.options.now) request.now.reading.is_verified request.now.reading.is_followed
        (λ name. S.bytes inputs.now name.now) request.now.files.now request.now.missing_in (W.contents writer) ended.0 (W.contents ended.1)) }
    ensures apart { OnOk result (IsApart (S.has_named inputs.now) (λ name. name.now) request.now.files.now) }
    ensures missing { OnOk result (IsApart (S.has_named inputs.now) (λ name. name.now) (option_to_list request.now.missing_in)) }
    ensures err { IfErr result (λ status. NeverBegins (found_of request.now.options.now) status) }
{
    let output = begin_output(rt, inputs, request, BUFFER_SIZE, writer)?;
    let collector = GtidCollector::new(rt.alloc(), Counted::new(output));
    let (read, collector) = read_all(rt, inputs, request, collector)?;
    let mut output = collector.output.into_inner();
    let lines = write_wanted(
        rt,
        inputs,
        &collector.gtids,
        request.missing_in,
        &mut output,
    );
    Ok(output.finish(rt, read.worse(lines)))
}

// Writes the lines of the GTIDs of a set, or of those that the log `missing_in` lacks.
fn write_wanted<'a, S: Inputs, R: Clock + Eprint + AllocGlobal, W: Write>(
    rt: &'a R,
    inputs: &S,
    gtids: &LogGtids,
    missing_in: Option<&'a str>,
    output: &mut W,
) -> Outcome
    ensures { WritesWanted (λ name. S.bytes inputs.now name.now) missing_in.entry gtids.now (W.contents output.old) result (W.contents output.new) }
{
    match missing_in {
        None => {
            let none = MariaGtidTracker::new(rt.alloc());
            write_set(rt, &gtids.mysql, true, &gtids.maria, &none, output)
        }
        Some(other) => write_missing(rt, inputs, gtids, other, output),
    }
}

// Writes the lines of the GTIDs of a set that a log lacks. Nothing is written if the log can't be read.
fn write_missing<'a, S: Inputs, R: Clock + Eprint + AllocGlobal, W: Write>(
    rt: &'a R,
    inputs: &S,
    gtids: &LogGtids,
    other: &'a str,
    output: &mut W,
) -> Outcome
    ensures { WritesMissing (λ name. S.bytes inputs.now name.now) other.entry gtids.now (W.contents output.old) result (W.contents output.new) }
{
    let collector = GtidCollector::new(rt.alloc(), Counted::new(io::sink()));
    let all = Filter::new(rt.alloc());
    let (read, found) = read_taken(
        rt,
        inputs,
        &[other],
        Reading::to_end(),
        all,
        collector,
        &mut NoFollower,
    );
    let status = status_read(read);
    write_unless(rt, is_unread(status), status, gtids, &found.gtids, output)
}

// The status of a log that was read to this outcome.
fn status_read(outcome: Outcome) -> Status
    ensures { result ≡ status_read outcome }
{
    if outcome.is_written {
        outcome.status
    } else {
        outcome.status.worse(Status::Failed)
    }
}

// Whether a log with this status couldn't be read as far as it goes.
fn is_unread(status: Status) -> bool
    ensures { result ≡ is_unread status }
{
    matches!(status, Status::NotOpened | Status::Failed)
}

// Writes the lines of the GTIDs of a set that another one doesn't have, unless that one couldn't be read.
fn write_unless<E: Eprint, W: Write>(
    rt: &E,
    is_unread: bool,
    status: Status,
    gtids: &LogGtids,
    others: &LogGtids,
    output: &mut W,
) -> Outcome
    ensures { WritesUnless is_unread status gtids.now others.now (W.contents output.old) result (W.contents output.new) }
{
    if is_unread {
        return Outcome::written(status);
    }
    Outcome::written(status).worse(write_difference(rt, gtids, others, output))
}

// Writes the lines of the GTIDs of a set that another one doesn't have.
fn write_difference<E: Eprint, W: Write>(
    rt: &E,
    gtids: &LogGtids,
    others: &LogGtids,
    output: &mut W,
) -> Outcome
    ensures { WritesDifference gtids.now others.now (W.contents output.old) result (W.contents output.new) }
{
    match gtids.mysql.subtract(&others.mysql) {
        Ok(difference) => write_set(rt, &difference, false, &gtids.maria, &others.maria, output),
        Err(_) => Outcome::written(out_of_memory(rt)),
    }
}

// Writes the lines of a set of MySQL's GTIDs, with their gaps or without them, and of the last of MariaDB's that others lack. Why the output
// fails is kept by the output.
fn write_set<E: Eprint, W: Write>(
    rt: &E,
    mysql: &GtidTracker,
    has_gaps: bool,
    maria: &MariaGtidTracker,
    others: &MariaGtidTracker,
    output: &mut W,
) -> Outcome
    ensures { WritesSet has_gaps mysql.now maria.now others.now (W.contents output.old) result (W.contents output.new) }
{
    let mut output = CountedRef::new(&mut *output);
    outcome_of_lines(
        rt,
        write_log_gtids(mysql, has_gaps, maria, others, &mut output),
    )
}
