//! Lists, checks, counts and copies the events of binary logs: one program with a command for each.
#![tactic(auto)]

ghost use Rattle.std.specs.Prelude.{◌≡◌, IfErr, OnOk};
ghost use Rattle.binlog_cli.specs.declared.exit_status.Status.TheVariants.{Usage, Failed};
ghost use Rattle.clap.specs.Values.{kind_of};
ghost use Rattle.binlog_inputs.specs.Requests.{EndsUnread};
ghost use Rattle.binlog_inputs.specs.StandardOutput.{IsApart};
ghost use Rattle.binlog.specs.Ends.{EndsRefused, IsNoCommand, status_of};

use binlog_cli::{Status, out_of_memory};
use binlog_event_commands::{changes, commands, copying, gtids, verifying};
use binlog_following::{StateFile, StateFileError};
use binlog_inputs::{HostInputs, Inputs, Request, Terminals, refuse_output};
use binlog_statistics_command::stats;
use binlog_undo_command::{command, run_undo};
use clap::ArgMatches;
use clap::error::ErrorKind;
use std::env::Env;
use std::fs::File;
use std::io::{IsTerminal, Write};
use std::process::ExitCode;
use std::rt::Files;
use std::time::Clock;
use std::{env, io};

// Runs the command that the words of the command line name.
fn run<R: Files<File = File> + Env + Clock + Input + Print + Eprint + AllocGlobal>(
    rt: &R,
    terminals: Terminals,
) -> Status {
    let words = match env::args(rt) {
        Ok(words) => words,
        Err(error) => return unread(rt, &error),
    };
    let Ok(words) = words.collect::<Vec<String>>(rt.alloc()) else {
        return out_of_memory(rt);
    };
    run_words(rt, words.as_slice(), terminals)
}

// The status if the words can't be read.
fn unread<E: Eprint>(rt: &E, error: &io::Error) -> Status
    ensures { EndsUnread error.now result }
{
    if error.kind() == io::ErrorKind::OutOfMemory {
        return out_of_memory(rt);
    }
    let _ = eprintln!(rt; "binlog: an argument isn't UTF-8");
    Status::Usage
}

// Runs the command that these words name. They outlive all that the command reads of them.
fn run_words<'a, R: Files<File = File> + Clock + Input + Print + Eprint + AllocGlobal>(
    rt: &'a R,
    words: &'a [String],
    terminals: Terminals,
) -> Status {
    let Ok(command) = command(rt.alloc()) else {
        return out_of_memory(rt);
    };
    match command.try_get_matches_from(words) {
        Ok(matches) => match matches.subcommand() {
            Some((name, matches)) => run_command(rt, name, matches, terminals),
            None => Status::Usage,
        },
        Err(error) => refused(rt, &error),
    }
}

// Prints the help, the version, or what is wrong with the words.
fn refused<R: Print + Eprint>(rt: &R, error: &clap::Error) -> Status
    ensures { EndsRefused (kind_of error.now) result }
{
    let printed = error.print(rt);
    match error.kind() {
        ErrorKind::DisplayHelp | ErrorKind::DisplayVersion => match printed {
            Ok(()) => Status::Fine,
            Err(_) => Status::Failed,
        },
        ErrorKind::OutOfMemory => Status::Failed,
        _ => Status::Usage,
    }
}

// Runs a command, and answers its status, also if it can't begin.
fn run_command<'a, R: Files<File = File> + Clock + Input + Print + Eprint + AllocGlobal>(
    rt: &'a R,
    name: &str,
    matches: &ArgMatches<'a>,
    terminals: Terminals,
) -> Status
    ensures other { IsNoCommand name.now → result ≡ Usage }
{
    let request = Request::new(name, matches, terminals);
    let (inputs, output) = (HostInputs::new(rt, None), io::writer(rt));
    match name {
        "list" => run_lines(rt, name, &inputs, &request, output),
        "json" => run_lines(rt, name, &inputs, &request, output),
        "gtids" => status_of(gtids::gtids(rt, &inputs, &request, output)),
        "verify" => status_of(verifying::verify(rt, &inputs, &request, output)),
        "stats" => status_of(stats(rt, &inputs, &request, output)),
        "copy" => match copying::copy(rt, &inputs, &request, output) {
            Ok(status) | Err(status) => status,
        },
        "undo" => match undo(rt, &inputs, &request, output) {
            Ok(status) | Err(status) => status,
        },
        _ => Status::Usage,
    }
}

// Runs `undo`, unless standard output, to which it writes its counts, is one of the logs that it reads.
fn undo<'a, S: Inputs, R: Files + Eprint + AllocGlobal, W: Write + Drop>(
    rt: &'a R,
    inputs: &S,
    request: &Request<'_, 'a>,
    output: W,
) -> Result<Status, Status>
    ensures apart { OnOk result (IsApart (S.has_named inputs.now) (λ name. name.now) request.now.files.now) }
    ensures later { OnOk result (IsApart (S.has_named inputs.now) (λ name. name.now) request.now.later.now) }
    ensures err { IfErr result (λ status. status ≡ Failed) }
{
    refuse_output(rt, inputs, request.files)?;
    refuse_output(rt, inputs, request.later)?;
    Ok(run_undo(rt, request.options, output))
}

// Runs `list` or `json`, which may follow a log and go on where a state says.
fn run_lines<'a, R: Files<File = File> + Clock + Input + Eprint + AllocGlobal, W: Write + Drop>(
    rt: &'a R,
    name: &str,
    inputs: &HostInputs<'a, R>,
    request: &Request<'_, 'a>,
    output: W,
) -> Status {
    let state = match state_of(rt, inputs, request) {
        Ok(state) => state,
        Err(status) => return status,
    };
    let inputs = HostInputs::new(rt, state);
    if name == "list" {
        status_of(commands::list(rt, &inputs, request, output))
    } else if request.is_compact {
        status_of(changes::changes(rt, &inputs, request, output))
    } else {
        status_of(commands::json(rt, &inputs, request, output))
    }
}

// The state file that is asked for, if one is. It is that of one log that is followed. Opening it may cut standard output back, which
// isn't that log.
fn state_of<'a, S: Inputs, R: Files<File = File> + Eprint + AllocGlobal>(
    rt: &'a R,
    inputs: &S,
    request: &Request<'_, 'a>,
) -> Result<Option<StateFile<'a, R>>, Status> {
    let Some(path) = request.state else {
        return Ok(None);
    };
    if !request.reading.is_followed || request.files.len() != 1 || request.files[0] == "-" {
        let _ = eprintln!(rt; "binlog: --state is for --follow with one file");
        return Err(Status::Usage);
    }
    refuse_output(rt, inputs, request.files)?;
    match StateFile::open(rt, path, request.is_synced) {
        Ok(state) => {
            report_missing(rt, state.missing());
            Ok(Some(state))
        }
        Err(error) => Err(no_state(rt, path, &error)),
    }
}

// The message if standard output has so many bytes less than when the state was written.
fn report_missing<E: Eprint>(rt: &E, missing: u64) {
    if missing != 0 {
        let _ = eprintln!(rt;
            "binlog: standard output has {missing} bytes less than when the state was written, and they don't come again"
        );
    }
}

// The message if following can't begin with a state file.
fn no_state<E: Eprint>(rt: &E, path: &str, error: &StateFileError) -> Status
    ensures { result ≡ Failed }
{
    let _ = match error {
        StateFileError::Locked => {
            eprintln!(rt; "binlog: {path}: another process follows a log with this state")
        }
        StateFileError::Lock(error) => eprintln!(rt; "binlog: {path}.lock: {error}"),
        StateFileError::Reader(error) => eprintln!(rt; "binlog: {path}: {error}"),
        StateFileError::Text(error) => eprintln!(rt; "binlog: {path}: {error}"),
        StateFileError::Output(error) => {
            eprintln!(rt; "binlog: the output can't be cut back: {error}")
        }
        StateFileError::Memory => return out_of_memory(rt),
    };
    Status::Failed
}

// The status of a command that ended, or of one that can't begin.
fn status_of<W: Drop>(ended: Result<(Status, W), Status>) -> Status
    ensures { result ≡ status_of ended }
{
    match ended {
        Ok((status, _)) | Err(status) => status,
    }
}

fn main(rt: HostRuntime) -> ExitCode {
    let terminals = Terminals {
        output: rt.stdout().is_terminal(),
        errors: rt.stderr().is_terminal(),
    };
    ExitCode::from(run(&rt, terminals) as u8)
}
