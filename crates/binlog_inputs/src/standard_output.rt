//! Standard output that is a file which is read.
ghost use Rattle.std.specs.Prelude.{◌≡◌, true, false, None, IfErr, IfOk, OnOk};
ghost use Rattle.std.specs.Io.Buffered.{writer_capacity};
ghost use Rattle.std.specs.List.{All, Any};
ghost use Rattle.std.specs.Option.{option_to_list};
ghost use Rattle.binlog_cli.specs.declared.exit_status.Status.TheVariants.{Failed};
ghost use Rattle.binlog_inputs.specs.StandardOutput.{Asks, IsApart, IsOneOf, path_of};

use crate::inputs::Inputs;
use crate::request::Request;
use binlog_cli::{Output, Status};
use binlog_file::Retrying;
use binlog_following::FileId;
use std::io::{BufWriter, Write};

// The paths by which the files of the standard streams are found.
const INPUT: &str = "/dev/stdin";

const OUTPUT: &str = "/dev/stdout";

/// Begins the output of a command by a writer of standard output, with a buffer of this capacity in bytes. Standard output is refused if it is
/// one of the files that the command reads: its logs, its files of columns, and the log whose GTIDs aren't written.
///
/// # Errors
///
/// [`Status::Failed`], after its message, if it is one of them, or if there is no memory.
pub fn begin_output<S: Inputs, R: Eprint + AllocGlobal, W: Write + Drop>(
    rt: &R,
    inputs: &S,
    request: &Request<'_, '_>,
    capacity: usize,
    writer: W,
) -> Result<Output<BufWriter<Retrying<W>>>, Status>
    ensures apart { OnOk result (IsApart (S.has_named inputs.now) (λ name. name.now) request.now.files.now) }
    ensures columns { OnOk result (IsApart (S.has_named inputs.now) (λ name. name.now) request.now.columns.now) }
    ensures missing { OnOk result (IsApart (S.has_named inputs.now) (λ name. name.now) (option_to_list request.now.missing_in)) }
    ensures bytes { IfOk result (λ output. ⟦<BufWriter<Retrying<W>> as Write>⟧.contents output.inner ≡ W.contents writer) }
    ensures capacity { IfOk result (λ output. writer_capacity output.inner ≡ capacity) }
    ensures fine { IfOk result (λ output. output.failure ≡ None) }
    ensures err { IfErr result (λ status. status ≡ Failed) }
{
    refuse_output(rt, inputs, request.files)?;
    refuse_output(rt, inputs, request.columns)?;
    refuse_output(rt, inputs, request.missing_in.as_slice())?;
    Output::new(rt, capacity, writer)
}

/// Refuses standard output that is one of the files that are read, to which it would be added while it is read; `-` is standard input.
/// A file without bytes, as a pipe, a socket or a terminal is, is none of them.
///
/// # Errors
///
/// [`Status::Failed`], after its message, if it is one of them.
pub fn refuse_output<S: Inputs, E: Eprint>(rt: &E, inputs: &S, files: &[&str]) -> Result<(), Status>
    ensures ok { OnOk result (IsApart (S.has_named inputs.now) (λ name. name.now) files.now) }
    ensures err { IfErr result (λ status. (status ≡ Failed) × IsOneOf (S.has_named inputs.now) (λ name. name.now) files.now) }
{
    if is_read(inputs, files) {
        let _ = eprintln!(rt; "binlog: standard output is one of the files that are read");
        return Err(Status::Failed);
    }
    Ok(())
}

// Whether standard output is a file with bytes, and one of these names is its name.
fn is_read<S: Inputs>(inputs: &S, files: &[&str]) -> bool
    ensures one { result ≡ true → IsOneOf (S.has_named inputs.now) (λ name. name.now) files.now }
    ensures none { result ≡ false → IsApart (S.has_named inputs.now) (λ name. name.now) files.now }
{
    match inputs.named(OUTPUT) {
        Some(output) => output.len != 0 && is_among(inputs, output, files),
        None => false,
    }
}

// Whether one of these names is that of this file.
fn is_among<S: Inputs>(inputs: &S, file: FileId, names: &[&str]) -> bool
    ensures one { result ≡ true → Any (λ name. Asks (S.has_named inputs.now) file name.now true) names.now }
    ensures none { result ≡ false → All (λ name. Asks (S.has_named inputs.now) file name.now false) names.now }
{
    for name in names {
        if is_named(inputs, file, name) {
            return true;
        }
    }
    false
}

// Whether this name is that of this file.
fn is_named<S: Inputs>(inputs: &S, file: FileId, name: &str) -> bool
    ensures { Asks (S.has_named inputs.now) file name.now result }
{
    match inputs.named(path_of(name)) {
        Some(found) => found.is_same(file),
        None => false,
    }
}

// The path of the file of this name.
fn path_of(name: &str) -> &str
    ensures { result.now ≡ path_of name.now }
{
    if name == "-" { INPUT } else { name }
}
