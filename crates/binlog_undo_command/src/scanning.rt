//! The first pass over several logs.
ghost use Rattle.std.specs.Prelude.{◌≡◌, ◌≢◌, ◌⊎◌, ◌<◌, ◌^◌, false, true, length, map, IfErr, IfOk, IfSome, OnOk};
ghost use Rattle.clap.specs.Matches.{found_of};
ghost use Rattle.binlog_cli.specs.declared.exit_status.Status.TheVariants.{Fine, NotOpened, Damaged, Failed, Usage};
ghost use Rattle.binlog_undo_index.specs.Parts.{parts_of};
ghost use Rattle.binlog_undo_log.specs.Files.{AreSkipped, ScansWhole};
ghost use Rattle.binlog_undo_command.specs.Options.{RefusesOptions};
ghost use Rattle.binlog_undo_command.specs.Scanned.{ScansSkipped, ScansRefused, IsUndone, AreUndone, IsRefused, HasRefused};

use crate::log_place::LogPlace;
use crate::logs::Logs;
use crate::messages::report_error;
use crate::options::new_scan;
use crate::reasons::reason_name;
use binlog_cli::{Status, out_of_memory};
use binlog_file::{Counted, Error, Retrying};
use binlog_undo_index::{Refused, UndoIndex};
use binlog_undo_log::{UndoScan, scan_file};
use clap::ArgMatches;
use std::io::Read;

/// A log behind the first pass.
pub struct ScannedLog<'a> {
    /// Its name.
    pub name: &'a str,
    /// The pass.
    pub scan: UndoScan,
}

impl Drop for ScannedLog<'_> {
    // By hand, so that it is proved once.
    fn drop(self) {
        let Self { name: _, scan } = self;
        drop(scan);
    }
}

/// The first pass over all logs. Each refusal has a message, and so has a log that can't be read.
///
/// # Errors
///
/// The worst status: [`Status::Damaged`] if something can't be undone, [`Status::NotOpened`] if a file can't be opened or is no log,
/// [`Status::Failed`] if a reader failed or memory is refused. [`Status::Usage`] if an option can't be read.
pub(crate) fn scan_logs<'a, L: Logs, R: Eprint + AllocGlobal>(
    rt: &R,
    logs: &L,
    options: &ArgMatches<'a>,
    names: &[&'a str],
) -> Result<Vec<ScannedLog<'a>>, Status>
    ensures ok { IfOk result (λ scanned. AreUndone (L.bytes logs.now) (found_of options.now) (map (λ name. name.now) names.now) scanned.items) }
    ensures err { IfErr result (λ status. status ≢ Fine) }
    ensures refused { IfErr result (λ status. status ≡ Damaged → HasRefused (L.bytes logs.now) (found_of options.now) (map (λ name. name.now) names.now)) }
    ensures usage { IfErr result (λ status. status ≡ Usage → RefusesOptions (found_of options.now) Usage) }
{
    let mut scanned = Vec::new(rt.alloc());
    let mut worst = Status::Fine;
    let mut index = 0usize;
    for name in names {
        let place = LogPlace::at(names.len(), index);
        index += 1;
        match scan_log(rt, logs, options, place, name) {
            Ok(scan) => {
                if scanned.push(ScannedLog { name, scan }).is_err() {
                    return Err(out_of_memory(rt));
                }
            }
            Err(Status::Usage) => return Err(Status::Usage),
            Err(status) => worst = worst.worse(status),
        }
    }
    match worst {
        Status::Fine => Ok(scanned),
        _ => Err(worst),
    }
}

// The first pass over a log at this place. Err if something in it can't be undone or read.
fn scan_log<L: Logs, R: Eprint + AllocGlobal>(
    rt: &R,
    logs: &L,
    options: &ArgMatches<'_>,
    place: LogPlace,
    name: &str,
) -> Result<UndoScan, Status>
    ensures ok { IfOk result (IsUndone (found_of options.now) place (L.bytes logs.now name.now)) }
    ensures err { IfErr result (λ status. status ≢ Fine) }
    ensures refused { IfErr result (λ status. status ≡ Damaged → IsRefused (found_of options.now) place (L.bytes logs.now name.now)) }
    ensures usage { IfErr result (λ status. status ≡ Usage → RefusesOptions (found_of options.now) Usage) }
{
    let mut scan = new_scan(rt, options, place)?;
    match scan_named(rt, logs, name, &mut scan) {
        Ok(()) => Ok(scan),
        Err(status) => Err(status),
    }
}

// The first pass over the log of this name. Err if something in it can't be undone or read.
fn scan_named<L: Logs, R: Eprint + AllocGlobal>(
    rt: &R,
    logs: &L,
    name: &str,
    scan: &mut UndoScan,
) -> Result<(), Status>
    ensures ok { OnOk result (ScansSkipped (L.bytes logs.now name.now) scan.old scan.new) }
    ensures err { IfErr result (λ status. status ≢ Fine) }
    ensures usage { IfErr result (λ status. status ≢ Usage) }
    ensures refused { IfErr result (λ status. status ≡ Damaged → ScansRefused (L.bytes logs.now name.now) scan.old scan.new) }
{
    match logs.open(name) {
        Ok(input) => scan_opened(rt, name, input, scan),
        Err(error) => {
            report_error(rt, name, &error);
            Err(Status::NotOpened)
        }
    }
}

// The same of an open log.
fn scan_opened<R: Eprint + AllocGlobal, I: Read + Drop>(
    rt: &R,
    name: &str,
    input: I,
    scan: &mut UndoScan,
) -> Result<(), Status>
    ensures ok { OnOk result (ScansSkipped (I.remaining input) scan.old scan.new) }
    ensures err { IfErr result (λ status. status ≢ Fine) }
    ensures usage { IfErr result (λ status. status ≢ Usage) }
    ensures refused { IfErr result (λ status. status ≡ Damaged → ScansRefused (I.remaining input) scan.old scan.new) }
{
    scan_open(rt, name, input, scan)?;
    if report(rt, name, scan.index()) {
        return Err(Status::Damaged);
    }
    Ok(())
}

// The first pass over an open log.
fn scan_open<R: Eprint + AllocGlobal, I: Read + Drop>(
    rt: &R,
    name: &str,
    input: I,
    scan: &mut UndoScan,
) -> Result<(), Status>
    ensures ok { OnOk result (IfSome (I.remaining input) (λ bytes. length bytes < 2 ^ 64 → ScansWhole bytes scan.old scan.new)) }
    ensures err { IfErr result (λ status. (status ≡ NotOpened) ⊎ (status ≡ Failed)) }
{
    let mut input = Counted::new(Retrying::new(input));
    match scan_file(rt.alloc(), &mut input, scan) {
        Ok(()) => Ok(()),
        Err(error) => {
            report_error(rt, name, &error);
            match error {
                Error::EndOfInput | Error::InvalidFileHeader => Err(Status::NotOpened),
                _ => Err(Status::Failed),
            }
        }
    }
}

// Writes a message for each refusal, and answers whether one isn't skipped.
fn report<R: Eprint>(rt: &R, name: &str, index: &UndoIndex) -> bool
    ensures skipped { result ≡ false → AreSkipped (parts_of index.now).refusals }
    ensures refused { result ≡ true → ¬ (AreSkipped (parts_of index.now).refusals) }
{
    let mut left = index.refusals();
    let mut is_refused = false;
    'refusals: while let Some((refused, others)) = left.split_first() {
        report_one(rt, name, refused);
        is_refused = is_refused || !refused.is_skipped;
        left = others;
    }
    is_refused
}

// Writes the message of a refusal.
fn report_one<R: Eprint>(rt: &R, name: &str, refused: &Refused) {
    let skipped = if refused.is_skipped { "skipped: " } else { "" };
    let reason = reason_name(refused.reason);
    let _ = eprintln!(rt;
        "binlog: {skipped}{name}: event {} at byte {}: {reason}: {}",
        refused.index, refused.place, refused.reason
    );
}
