//! The command that verifies checksums.
ghost use Rattle.std.specs.Prelude.{◌≡◌, IfErr, IfOk, OnOk};
ghost use Rattle.clap.specs.Matches.{found_of};
ghost use Rattle.binlog_wire.specs.declared.error.Error.TheVariants.{Writer};
ghost use Rattle.binlog_cli.specs.FilterWords.{NeverBegins};
ghost use Rattle.binlog_cli.specs.declared.exit_status.Status.TheVariants.{Fine};
ghost use Rattle.binlog_event_commands.specs.Commands.{WritesTallies};
ghost use Rattle.binlog_inputs.specs.Reading.{unless_followed};
ghost use Rattle.binlog_event_commands.specs.Verifying.{verifying, has_line, tally_of, HasNothing, WritesLine, VerifiesFile, VerifiesFiles};
ghost use Rattle.binlog_inputs.specs.StandardOutput.{IsApart};

use binlog_cli::{BUFFER_SIZE, Outcome, Status, filter};
use binlog_commands::Tally;
use binlog_file::{Error, Retrying};
use binlog_inputs::{
    CONTENT_LIMIT, Inputs, Reading, Reported, Request, begin_output, read_file, report_left_out,
    shown_name,
};
use binlog_payload_filters::PayloadFiltered;
use binlog_payload_visits::Checked;
use binlog_summaries::write_tally;
use std::alloc::Global;
use std::io::{BufWriter, Write};
use std::time::Clock;

/// `binlog verify`: verifies each file, and writes its line unless the command is quiet.
///
/// # Errors
///
/// The status of a command that can't begin, after its message: [`Status::Usage`] if an option can't be read, [`Status::Failed`] if
/// there is no memory, or if standard output is one of the files that are read.
pub fn verify<'a, S: Inputs, R: Clock + Eprint + AllocGlobal, W: Write + Drop>(
    rt: &'a R,
    inputs: &S,
    request: &Request<'_, 'a>,
    writer: W,
) -> Result<(Status, W), Status>
    ensures ok { IfOk result (λ ended. WritesTallies ⟦<BufWriter<Retrying<W>> as Write>⟧.contents (found_of request.now.options.now) request.now.reading.is_verified request.now.reading.is_followed
        (λ name. S.bytes inputs.now name.now) request.now.files.now request.now.is_quiet (λ name. name.now) (W.contents writer) ended.0 (W.contents ended.1)) }
    ensures apart { OnOk result (IsApart (S.has_named inputs.now) (λ name. name.now) request.now.files.now) }
    ensures err { IfErr result (λ status. NeverBegins (found_of request.now.options.now) status) }
{
    let filter = filter(rt, request.options)?;
    let mut output = begin_output(rt, inputs, request, BUFFER_SIZE, writer)?;
    let counts = no_counts(rt.alloc());
    let filtered = PayloadFiltered::new(rt.alloc(), CONTENT_LIMIT, filter, counts);
    let mut reported = Reported::new(rt, filtered);
    let (files, reading) = (request.files, request.reading);
    let outcome = verify_files(
        rt,
        inputs,
        files,
        reading,
        request.is_quiet,
        &mut reported,
        &mut output,
    );
    report_left_out(rt, reported.visitor().filtered.state.left_out);
    Ok(output.finish(rt, outcome))
}

// Verifies files in order. The positions of the filter are one of the first file and one of the last file. If the output fails, no further
// file is read, and the outcome says so.
fn verify_files<'a, S: Inputs, R: Clock + Eprint + AllocGlobal, W: Write>(
    rt: &R,
    inputs: &S,
    files: &[&'a str],
    reading: Reading,
    is_quiet: bool,
    reported: &mut Reported<'a, R, PayloadFiltered<Checked<Tally>>>,
    output: &mut W,
) -> Outcome
    ensures { VerifiesFiles reading.is_verified reading.is_followed is_quiet (λ name. name.now) (λ name. S.bytes inputs.now name.now) files.now Fine
        (verifying reported.old (W.contents output.old)) result (verifying reported.new (W.contents output.new)) }
{
    let asked = reported.positions();
    let mut status = Status::Fine;
    for (place, file) in files.iter().enumerate() {
        let is_last = place + 1 == files.len();
        reported.take_positions(asked.in_file(place == 0, is_last));
        match verify_file(rt, inputs, file, reading, is_quiet, reported, output) {
            Ok(found) => status = status.worse(found),
            Err(_) => return Outcome::unwritten(status),
        }
    }
    Outcome::written(status)
}

// Verifies a file, and writes its line if it could be opened. The only error is that the output failed.
fn verify_file<'a, S: Inputs, R: Clock + Eprint + AllocGlobal, W: Write>(
    rt: &R,
    inputs: &S,
    file: &'a str,
    reading: Reading,
    is_quiet: bool,
    reported: &mut Reported<'a, R, PayloadFiltered<Checked<Tally>>>,
    output: &mut W,
) -> Result<Status, Error>
    ensures verifies { VerifiesFile reading.is_verified (unless_followed reading.is_followed (S.bytes inputs.now file.now)) is_quiet file.now
        (verifying reported.old (W.contents output.old)) result (verifying reported.new (W.contents output.new)) }
    ensures err { IfErr result (λ error. error ≡ Writer) }
{
    reported.replace_visitor(no_counts(rt.alloc()));
    let read = read_file(rt, inputs, file, reading, reported);
    let name = shown_name(file);
    let tally = tally_of(&reported.visitor().filtered.visitor, reported.is_cut());
    write_line(name, &tally, is_quiet, read, output)
}

// The counts before a file: nothing is counted. The contents of compressed transactions are checked.
fn no_counts(alloc: Global) -> Checked<Tally>
    ensures { HasNothing result }
{
    Checked::new(alloc, CONTENT_LIMIT, Tally::new())
}

// The counts of a file, where an event whose compressed transaction can't be read is damaged, too, and an event that its end cuts.
fn tally_of(counts: &Checked<Tally>, is_cut: bool) -> Tally
    ensures { result ≡ tally_of is_cut counts.now }
{
    let tally = counts.visitor.with_cut(is_cut);
    Tally {
        errors: tally.errors.saturating_add(counts.damaged),
        ..tally
    }
}

// Writes the line of a file that was read with this result, if it has one.
fn write_line<W: Write>(
    name: &str,
    tally: &Tally,
    is_quiet: bool,
    read: Result<Status, Error>,
    output: &mut W,
) -> Result<Status, Error>
    ensures line { WritesLine (has_line is_quiet read) name.now tally.now read (W.contents output.old) result (W.contents output.new) }
    ensures err { IfErr read (λ error. error ≡ Writer) → IfErr result (λ error. error ≡ Writer) }
{
    if !has_line(is_quiet, &read) {
        return read;
    }
    match write_tally(name, tally, output) {
        Ok(()) => read,
        Err(_) => Err(Error::Writer),
    }
}

// Whether a file that was read with this result has a line.
fn has_line(is_quiet: bool, read: &Result<Status, Error>) -> bool
    ensures { result ≡ has_line is_quiet read.now }
{
    match read {
        Ok(Status::NotOpened) | Err(_) => false,
        Ok(_) => !is_quiet,
    }
}
