//! The command that copies logs.
ghost use Rattle.std.specs.Prelude.{◌≡◌, ◌≢◌, true, false, codes, IfErr, IfOk, OnErr, OnOk, ⊤};
ghost use Rattle.clap.specs.Matches.{found_of};
ghost use Rattle.binlog_cli.specs.FilterWords.{NeverBegins, StatesFilter};
ghost use Rattle.binlog_cli.specs.declared.exit_status.Status.TheVariants.{Failed};
ghost use Rattle.binlog_inputs.specs.StandardOutput.{IsApart};
ghost use Rattle.binlog_event_commands.specs.Commands.{Copied, CopiesOr, WritesDraft, WritesFile, is_kept};
ghost use Rattle.binlog_event_commands.specs.Copying.{CopiesFiles};

use binlog_cli::{BUFFER_SIZE, HostFile, NewFile, Outcome, Output, Status, draft_name, filter};
use binlog_file::{BinlogFileHeader, BinlogVersion, Retrying};
use binlog_filters::{Copier, Filter};
use binlog_inputs::{Inputs, NoFollower, Request, read_taken, refuse_output};
use std::io::{BufWriter, Write};
use std::rt::Files;
use std::time::Clock;

/// `binlog copy`, to the file that is named, which isn't there yet, or to standard output.
///
/// # Errors
///
/// The status of a command that can't begin, after its message: [`Status::Usage`] if an option can't be read, [`Status::Failed`] if
/// there is no memory, if the file can't be made or is there, or if standard output is one of the files that are read.
pub fn copy<'a, S: Inputs, R: Files + Clock + Eprint + AllocGlobal, W: Write + Drop>(
    rt: &'a R,
    inputs: &S,
    request: &Request<'_, 'a>,
    writer: W,
) -> Result<Status, Status>
    ensures output { request.now.output.now ≡ codes "-" → IfOk result (λ status. Copied ⟦<BufWriter<Retrying<W>> as Write>⟧.contents (found_of request.now.options.now)
        request.now.reading.is_verified request.now.reading.is_followed (λ name. S.bytes inputs.now name.now) request.now.files.now (W.contents writer) status) }
    ensures apart { request.now.output.now ≡ codes "-" → OnOk result (IsApart (S.has_named inputs.now) (λ name. name.now) request.now.files.now) }
    ensures file { request.now.output.now ≢ codes "-" → IfOk result (λ status. status ≢ Failed → WritesFile ⟦<BufWriter<Retrying<R::File>> as Write>⟧.contents (found_of request.now.options.now)
        request.now.reading.is_verified request.now.reading.is_followed (λ name. S.bytes inputs.now name.now) request.now.files.now (λ bytes. ⊤) (λ bytes. ⊤) status) }
    ensures err { IfErr result (λ status. NeverBegins (found_of request.now.options.now) status) }
{
    if request.output == "-" {
        return copy_to_output(rt, inputs, request, writer);
    }
    let draft = draft_name(rt, request.output)?;
    let mut file = HostFile::new(rt, request.output, draft.as_str());
    copy_to_file(rt, inputs, request, &mut file)
}

/// `binlog copy`, to a file. It is there, and has the copy, if the status is [`Status::Fine`] or [`Status::Damaged`], of a log from which
/// damaged events are left out. Else it isn't, and what was begun of it is removed.
///
/// # Errors
///
/// The status of a command that can't begin, after its message: [`Status::Usage`] if an option can't be read, [`Status::Failed`] if
/// there is no memory, or if the file can't be made.
pub fn copy_to_file<'a, S: Inputs, T: NewFile, R: Clock + Eprint + AllocGlobal>(
    rt: &'a R,
    inputs: &S,
    request: &Request<'_, 'a>,
    file: &mut T,
) -> Result<Status, Status>
    ensures writes { IfOk result (λ status. status ≢ Failed → WritesFile ⟦<BufWriter<Retrying<T::Draft>> as Write>⟧.contents (found_of request.now.options.now)
        request.now.reading.is_verified request.now.reading.is_followed (λ name. S.bytes inputs.now name.now) request.now.files.now (T.is_fresh file.old) (T.has file.new) status) }
    ensures there { IfOk result (λ status. is_kept status ≡ true → T.is_there file.new ≡ true) }
    ensures other { IfOk result (λ status. is_kept status ≡ false → T.is_there file.new ≡ T.is_there file.old) }
    ensures err { IfErr result (λ status. NeverBegins (found_of request.now.options.now) status) }
    ensures unbegun { OnErr result (T.is_there file.new ≡ T.is_there file.old) }
    ensures left { T.has_draft file.old ≡ false → T.has_draft file.new ≡ false }
{
    let filter = filter(rt, request.options)?;
    let draft = match file.begin() {
        Ok(draft) => draft,
        Err(error) => {
            let _ = eprintln!(rt; "binlog: {}: {error}", file.draft_name());
            return Err(Status::Failed);
        }
    };
    match write_draft(rt, inputs, request, filter, file.draft_name(), draft) {
        Ok((status, draft)) => Ok(end(rt, file, draft, status)),
        Err(status) => {
            file.discard();
            Err(status)
        }
    }
}

// Gives a file its name if a copy of this status is kept. Else what was written is removed.
fn end<T: NewFile, R: Eprint>(rt: &R, file: &mut T, draft: T::Draft, status: Status) -> Status
    ensures status { result ≢ Failed → result ≡ status }
    ensures has { is_kept result ≡ true → T.has file.new (T.Draft.contents draft) }
    ensures there { is_kept result ≡ true → T.is_there file.new ≡ true }
    ensures other { is_kept result ≡ false → T.is_there file.new ≡ T.is_there file.old }
    ensures left { T.has_draft file.new ≡ false }
{
    if !is_kept(status) {
        file.discard();
        return status;
    }
    match file.finish(draft) {
        Ok(()) => status,
        Err(error) => {
            let _ = eprintln!(rt; "binlog: {}: {error}", file.name());
            file.discard();
            Status::Failed
        }
    }
}

// Whether a copy to a file is kept, of which this is the status.
fn is_kept(status: Status) -> bool
    ensures { result ≡ is_kept status }
{
    match status {
        Status::Fine | Status::Damaged => true,
        Status::NotOpened | Status::Failed | Status::Usage => false,
    }
}

// Writes the log of the events that the filter takes, and gives back the writer, which has all of it if the status isn't `Failed`. `name`
// is that of what is written, for messages.
fn write_draft<'a, S: Inputs, R: Clock + Eprint + AllocGlobal, W: Write + Drop>(
    rt: &'a R,
    inputs: &S,
    request: &Request<'_, 'a>,
    filter: Filter,
    name: &str,
    draft: W,
) -> Result<(Status, W), Status>
    requires states { StatesFilter (found_of request.now.options.now) filter }
    ensures ok { IfOk result (λ ended. ended.0 ≢ Failed → WritesDraft ⟦<BufWriter<Retrying<W>> as Write>⟧.contents (found_of request.now.options.now) request.now.reading.is_verified request.now.reading.is_followed
        (λ name. S.bytes inputs.now name.now) request.now.files.now (W.contents draft) ended.0 (W.contents ended.1)) }
    ensures err { IfErr result (λ status. status ≡ Failed) }
{
    let output = Output::new(rt, BUFFER_SIZE, draft)?;
    // Why the output fails is kept by the output.
    match copy_taken(rt, inputs, request, filter, output) {
        Ok((outcome, output)) => Ok(output.finish_file(rt, name, outcome)),
        Err(output) => Ok(output.finish_file(rt, name, Outcome::unwritten(Status::Fine))),
    }
}

// `binlog copy`, to standard output, which is closed.
fn copy_to_output<'a, S: Inputs, R: Clock + Eprint + AllocGlobal, W: Write + Drop>(
    rt: &'a R,
    inputs: &S,
    request: &Request<'_, 'a>,
    writer: W,
) -> Result<Status, Status>
    ensures ok { IfOk result (λ status. Copied ⟦<BufWriter<Retrying<W>> as Write>⟧.contents (found_of request.now.options.now)
        request.now.reading.is_verified request.now.reading.is_followed (λ name. S.bytes inputs.now name.now) request.now.files.now (W.contents writer) status) }
    ensures apart { OnOk result (IsApart (S.has_named inputs.now) (λ name. name.now) request.now.files.now) }
    ensures err { IfErr result (λ status. NeverBegins (found_of request.now.options.now) status) }
{
    refuse_output(rt, inputs, request.files)?;
    let (status, _) = copy_to(rt, inputs, request, writer)?;
    Ok(status)
}

// Writes the log of the events that the filter takes.
fn copy_to<'a, S: Inputs, R: Clock + Eprint + AllocGlobal, W: Write + Drop>(
    rt: &'a R,
    inputs: &S,
    request: &Request<'_, 'a>,
    writer: W,
) -> Result<(Status, W), Status>
    ensures ok { IfOk result (λ ended. CopiesOr ⟦<BufWriter<Retrying<W>> as Write>⟧.contents (found_of request.now.options.now) request.now.reading.is_verified request.now.reading.is_followed
        (λ name. S.bytes inputs.now name.now) request.now.files.now (W.contents writer) ended.0 (W.contents ended.1)) }
    ensures err { IfErr result (λ status. NeverBegins (found_of request.now.options.now) status) }
{
    let filter = filter(rt, request.options)?;
    let output = Output::new(rt, BUFFER_SIZE, writer)?;
    // Why the output fails is kept by the output.
    match copy_taken(rt, inputs, request, filter, output) {
        Ok((outcome, output)) => Ok(output.finish(rt, outcome)),
        Err(output) => Ok(output.finish(rt, Outcome::unwritten(Status::Fine))),
    }
}

// Writes the file header, and then the events of all files that the filter takes, and all descriptions. Err if the file header
// can't be written.
fn copy_taken<'a, S: Inputs, R: Clock + Eprint + AllocGlobal, B: Write + Drop>(
    rt: &'a R,
    inputs: &S,
    request: &Request<'_, 'a>,
    filter: Filter,
    mut output: B,
) -> Result<(Outcome, B), B>
    ensures { IfOk result (λ copied. CopiesFiles B.contents request.now.reading.is_verified request.now.reading.is_followed (λ name. S.bytes inputs.now name.now) request.now.files.now
        filter output copied.0 copied.1) }
{
    let mut filter = filter;
    filter.is_for_copy = true;
    let header = BinlogFileHeader.write(BinlogVersion::Version4, &mut output);
    if header.is_err() {
        return Err(output);
    }
    let copier = Copier { output };
    let (outcome, copier) = read_taken(
        rt,
        inputs,
        request.files,
        request.reading,
        filter,
        copier,
        &mut NoFollower,
    );
    Ok((outcome, copier.output))
}
