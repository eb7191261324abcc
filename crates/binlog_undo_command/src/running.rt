//! The command, on the files of the machine.
ghost use Rattle.std.specs.Prelude.{◌≡◌, ◌⊎◌, option_map, IfErr, IfOk};
ghost use Rattle.clap.specs.Matches.{found_of};
ghost use Rattle.binlog_cli.specs.declared.exit_status.Status.TheVariants.{Usage};
ghost use Rattle.binlog_undo_command.specs.Options.{IsNotDry, NamesNoOutput, RefusesOptions, StatesOutput};

use crate::logs::HostLogs;
use crate::undoing::{count_undo, undo};
use binlog_cli::{HostFile, Status, draft_name};
use clap::ArgMatches;
use std::io::Write;
use std::rt::Files;

/// `binlog undo`: writes a log that undoes the chosen transactions of all files, or names what can't be undone; with `--dry-run` it only
/// counts.
pub fn run_undo<'a, R: Files + Eprint + AllocGlobal, W: Write + Drop>(
    rt: &'a R,
    options: &ArgMatches<'a>,
    mut output: W,
) -> Status
    ensures unnamed { IsNotDry (found_of options.now) → NamesNoOutput (found_of options.now) → result ≡ Usage }
    ensures usage { result ≡ Usage → NamesNoOutput (found_of options.now) ⊎ RefusesOptions (found_of options.now) Usage }
{
    let logs = HostLogs::new(rt);
    match output_of(rt, options) {
        Ok(Some(name)) => undo_into(rt, &logs, options, name, &mut output),
        Ok(None) => count_undo(rt, &logs, options, &mut output),
        Err(status) => status,
    }
}

// The name of the log that is written; None if nothing is.
fn output_of<'a, R: Eprint>(rt: &R, options: &ArgMatches<'a>) -> Result<Option<&'a str>, Status>
    ensures ok { IfOk result (λ output. StatesOutput (found_of options.now) (option_map (λ name. name.now) output)) }
    ensures err { IfErr result (λ status. (status ≡ Usage) × NamesNoOutput (found_of options.now)) }
{
    if options.get_flag("dry-run") {
        return Ok(None);
    }
    let Some(name) = options.get_str("output") else {
        let _ = eprintln!(rt; "binlog: undo: -o OUT or --dry-run is needed");
        return Err(Status::Usage);
    };
    if name == "-" {
        let _ = eprintln!(rt; "binlog: undo: OUT has to be a file");
        return Err(Status::Usage);
    }
    Ok(Some(name))
}

// Writes the log into a file of this name, which isn't there yet.
fn undo_into<'a, R: Files + Eprint + AllocGlobal, W: Write>(
    rt: &'a R,
    logs: &HostLogs<'a, R>,
    options: &ArgMatches<'a>,
    name: &str,
    output: &mut W,
) -> Status
    ensures { result ≡ Usage → RefusesOptions (found_of options.now) Usage }
{
    match draft_name(rt, name) {
        Ok(draft) => {
            let mut file = HostFile::new(rt, name, draft.as_str());
            undo(rt, logs, options, &mut file, output)
        }
        Err(status) => status,
    }
}
