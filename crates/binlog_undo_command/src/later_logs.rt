//! What is behind what is undone, and may be in the way of that.
ghost use Rattle.std.specs.Prelude.{◌≡◌, ◌≢◌, ◌⊎◌, ℕ, List, [], true, false, codes, map, IfErr, IfOk, OnOk};
ghost use Rattle.clap.specs.Matches.{found_of};
ghost use Rattle.binlog_cli.specs.TableWords.{texts_given};
ghost use Rattle.binlog_cli.specs.declared.exit_status.Status.TheVariants.{NotOpened, Damaged, Failed};
ghost use Rattle.binlog_later_changes.specs.Changes.{IsNew};
ghost use Rattle.binlog_later_changes.specs.Places.{places_of};
ghost use Rattle.binlog_undo_command.specs.LaterLogs.{is_payload, AreInside, FindsIn, FindsInLog, FindsInLater, FindsInAll, IsInsideOf, LeavesNothing, HasLater, skips_later};

use crate::logs::Logs;
use crate::messages::report_error;
use crate::options::{rules_in, skips_later};
use crate::scanning::ScannedLog;
use crate::writing::seek;
use binlog_cli::Status;
use binlog_file::{Counted, Error, EventType, Retrying};
use binlog_later_changes::{
    LaterChange, LaterChanges, LaterReason, LaterRules, UndoneEvents, find_later,
};
use binlog_undo_index::TransactionPlace;
use binlog_undo_log::{Frames, UndoLogError};
use change_statistics::name_text;
use clap::ArgMatches;
use std::alloc::Global;
use std::io::Read;

/// The place of the type in the header of an event.
const TYPE_PLACE: usize = 4;

/// If there are later logs, or rows are checked, goes through all logs again, and through the later ones, and names what is behind what is undone and may
/// be in its way.
///
/// # Errors
///
/// [`Status::Damaged`], after its messages, if something is in the way and that isn't skipped; [`Status::NotOpened`] if a log can't be
/// opened or is no log; [`Status::Failed`] if a log can't be read or was changed, or if there is no memory.
pub(crate) fn check_later<L: Logs, R: Eprint + AllocGlobal>(
    rt: &R,
    logs: &L,
    options: &ArgMatches<'_>,
    scanned: &[ScannedLog<'_>],
) -> Result<(), Status>
    ensures ok { OnOk result (LeavesNothing (L.bytes logs.now) (L.has_frames logs.now) L.Sought.is_at (found_of options.now) scanned.now) }
    ensures refused { IfErr result (λ status. status ≡ Damaged → HasLater (L.bytes logs.now) (L.has_frames logs.now) L.Sought.is_at (found_of options.now) scanned.now) }
    ensures err { IfErr result (λ status. (status ≡ Damaged) ⊎ (status ≡ NotOpened) ⊎ (status ≡ Failed)) }
{
    let later = options.get_strs("later").unwrap_or(&[]);
    check_behind(rt, logs, options, scanned, later)
}

// The same, with the later logs.
fn check_behind<L: Logs, R: Eprint + AllocGlobal>(
    rt: &R,
    logs: &L,
    options: &ArgMatches<'_>,
    scanned: &[ScannedLog<'_>],
    later: &[&str],
) -> Result<(), Status>
    requires { map (λ name. name.now) later.now ≡ texts_given (found_of options.now) (codes "later") }
    ensures ok { OnOk result (LeavesNothing (L.bytes logs.now) (L.has_frames logs.now) L.Sought.is_at (found_of options.now) scanned.now) }
    ensures refused { IfErr result (λ status. status ≡ Damaged → HasLater (L.bytes logs.now) (L.has_frames logs.now) L.Sought.is_at (found_of options.now) scanned.now) }
    ensures err { IfErr result (λ status. (status ≡ Damaged) ⊎ (status ≡ NotOpened) ⊎ (status ≡ Failed)) }
{
    let rules = rules_in(options);
    if is_unasked(rules, later) {
        return Ok(());
    }
    match look_behind(rt, logs, rules, scanned, later) {
        Ok(changes) => accept(rt, options, scanned, later, changes.found()),
        Err(status) => Err(status),
    }
}

// Whether nothing is looked for: there are no later logs, and rows aren't checked.
fn is_unasked(rules: LaterRules, later: &[&str]) -> bool
    ensures { result ≡ true → (later.now ≡ []) × (rules.checks_rows ≡ false) }
{
    later.is_empty() && !rules.checks_rows
}

// Writes a message for each later change, and accepts them if that is asked for.
fn accept<R: Eprint>(
    rt: &R,
    options: &ArgMatches<'_>,
    scanned: &[ScannedLog<'_>],
    later: &[&str],
    found: &[LaterChange],
) -> Result<(), Status>
    ensures ok { OnOk result ((found.now ≡ []) ⊎ (skips_later (found_of options.now) ≡ true)) }
    ensures refused { IfErr result (λ status. (status ≡ Damaged) × (found.now ≢ []) × (skips_later (found_of options.now) ≡ false)) }
{
    let is_skipped = skips_later(options);
    report(rt, scanned, later, is_skipped, found);
    if is_skipped {
        return Ok(());
    }
    if found.is_empty() {
        return Ok(());
    }
    Err(Status::Damaged)
}

// Looks at the logs of which something is undone, and then at the later ones.
fn look_behind<L: Logs, R: Eprint + AllocGlobal>(
    rt: &R,
    logs: &L,
    rules: LaterRules,
    scanned: &[ScannedLog<'_>],
    later: &[&str],
) -> Result<LaterChanges, Status>
    ensures ok { IfOk result (λ changes. (none : LaterChanges) × IsNew none × FindsInAll (L.bytes logs.now) (L.has_frames logs.now) L.Sought.is_at rules 0 scanned.now (map (λ name. name.now) later.now) none changes) }
    ensures err { IfErr result (λ status. (status ≡ NotOpened) ⊎ (status ≡ Failed)) }
{
    let mut changes = LaterChanges::new(rt.alloc());
    let mut number = 0u64;
    for log in scanned {
        changes = look_at_scanned(rt, logs, rules, number, log, changes)?;
        number = number.saturating_add(1);
    }
    look_at_later(rt, logs, rules, number, later, changes)
}

// Looks at later logs, of which the first one has this number.
fn look_at_later<L: Logs, R: Eprint + AllocGlobal>(
    rt: &R,
    logs: &L,
    rules: LaterRules,
    first: u64,
    later: &[&str],
    found: LaterChanges,
) -> Result<LaterChanges, Status>
    ensures ok { IfOk result (FindsInLater (L.bytes logs.now) rules first (map (λ name. name.now) later.now) found) }
    ensures err { IfErr result (λ status. (status ≡ NotOpened) ⊎ (status ≡ Failed)) }
{
    let mut changes = found;
    let mut number = first;
    for name in later {
        let undone = UndoneEvents::new(&[], &[], &[]);
        changes = look_at(rt, logs, name, rules, number, undone, changes)?;
        number = number.saturating_add(1);
    }
    Ok(changes)
}

// Looks at a log of which something is undone.
fn look_at_scanned<L: Logs, R: Eprint + AllocGlobal>(
    rt: &R,
    logs: &L,
    rules: LaterRules,
    number: u64,
    log: &ScannedLog<'_>,
    changes: LaterChanges,
) -> Result<LaterChanges, Status>
    ensures ok { IfOk result (FindsInLog (L.bytes logs.now) (L.has_frames logs.now) L.Sought.is_at rules number log.now changes) }
    ensures err { IfErr result (λ status. (status ≡ NotOpened) ⊎ (status ≡ Failed)) }
{
    let index = log.scan.index();
    let are_inside = contents_of(rt, logs, log)?;
    let undone = UndoneEvents::new(index.transactions(), are_inside.as_slice(), index.changes());
    look_at(rt, logs, log.name, rules, number, undone, changes)
}

// Of each transaction of a log that is undone, whether its row events are inside its last event.
fn contents_of<L: Logs, R: Eprint + AllocGlobal>(
    rt: &R,
    logs: &L,
    log: &ScannedLog<'_>,
) -> Result<Vec<bool>, Status>
    ensures ok { IfOk result (λ are. IsInsideOf (L.has_frames logs.now) L.Sought.is_at log.now are.items) }
    ensures err { IfErr result (λ status. status ≡ Failed) }
{
    let mut frames = match seek(rt, logs, log) {
        Ok(frames) => frames,
        Err(_) => return Err(Status::Failed),
    };
    match are_payloads(rt.alloc(), &mut frames, log.scan.index().transactions()) {
        Ok(are_inside) => Ok(are_inside),
        Err(error) => {
            report_error(rt, log.name, &error);
            Err(Status::Failed)
        }
    }
}

// Of each of these transactions, whether its last event has events inside.
fn are_payloads<F: Frames>(
    alloc: Global,
    frames: &mut F,
    transactions: &[TransactionPlace],
) -> Result<Vec<bool>, UndoLogError>
    ensures { IfOk result (λ are. AreInside (F.is_at frames.old) transactions.now are.items) }
{
    let mut are_inside = Vec::new(alloc);
    for transaction in transactions {
        let is_inside = is_payload(alloc, frames, transaction.last)?;
        if are_inside.push(is_inside).is_err() {
            return Err(UndoLogError::Memory);
        }
    }
    Ok(are_inside)
}

// Whether the event at this place has events inside.
fn is_payload<F: Frames>(alloc: Global, frames: &mut F, place: u64) -> Result<bool, UndoLogError>
    ensures is { IfOk result (λ is. (frame : List ℕ) × F.is_at frames.old place frame × (is ≡ is_payload frame)) }
    ensures same { (place : ℕ) (frame : List ℕ) → F.is_at frames.new place frame → F.is_at frames.old place frame }
{
    let frame = frames.frame_at(alloc, place)?;
    match frame.bytes().get(TYPE_PLACE) {
        Some(number) => Ok(*number == EventType::TRANSACTION_PAYLOAD_EVENT as u8),
        None => Ok(false),
    }
}

// Looks at a log.
fn look_at<L: Logs, R: Eprint + AllocGlobal>(
    rt: &R,
    logs: &L,
    name: &str,
    rules: LaterRules,
    number: u64,
    undone: UndoneEvents<'_>,
    changes: LaterChanges,
) -> Result<LaterChanges, Status>
    ensures ok { IfOk result (FindsIn rules number (places_of undone.entry) (L.bytes logs.now name.now) changes) }
    ensures err { IfErr result (λ status. (status ≡ NotOpened) ⊎ (status ≡ Failed)) }
{
    match logs.open(name) {
        Ok(input) => look_at_open(rt, name, input, rules, number, undone, changes),
        Err(error) => {
            report_error(rt, name, &error);
            Err(Status::NotOpened)
        }
    }
}

// Looks at an open log.
fn look_at_open<R: Eprint + AllocGlobal, I: Read + Drop>(
    rt: &R,
    name: &str,
    input: I,
    rules: LaterRules,
    number: u64,
    undone: UndoneEvents<'_>,
    changes: LaterChanges,
) -> Result<LaterChanges, Status>
    ensures ok { IfOk result (FindsIn rules number (places_of undone.entry) (I.remaining input) changes) }
    ensures err { IfErr result (λ status. (status ≡ NotOpened) ⊎ (status ≡ Failed)) }
{
    let mut input = Counted::new(Retrying::new(input));
    match find_later(rt.alloc(), &mut input, rules, number, undone, changes) {
        Ok(Some(changes)) => Ok(changes),
        Ok(None) => {
            report_error(rt, name, &UndoLogError::Changed);
            Err(Status::Failed)
        }
        Err(error) => {
            report_error(rt, name, &error);
            match error {
                Error::EndOfInput | Error::InvalidFileHeader => Err(Status::NotOpened),
                _ => Err(Status::Failed),
            }
        }
    }
}

// Writes a message for each later change.
fn report<R: Eprint>(
    rt: &R,
    scanned: &[ScannedLog<'_>],
    later: &[&str],
    is_skipped: bool,
    found: &[LaterChange],
) {
    let skipped = if is_skipped { "skipped: " } else { "" };
    for change in found {
        let number = change.event.log as usize;
        match scanned.get(number) {
            Some(log) => report_one(rt, skipped, log.name, change),
            None => report_later(
                rt,
                skipped,
                later,
                number.saturating_sub(scanned.len()),
                change,
            ),
        }
    }
}

// Writes the message of a change in the later log with this number.
fn report_later<R: Eprint>(
    rt: &R,
    skipped: &str,
    later: &[&str],
    number: usize,
    change: &LaterChange,
) {
    if let Some(name) = later.get(number) {
        report_one(rt, skipped, name, change);
    }
}

// Writes the message of a later change.
fn report_one<R: Eprint>(rt: &R, skipped: &str, log: &str, change: &LaterChange) {
    let index = change.event.index;
    let place = change.event.place;
    match &change.reason {
        LaterReason::Table(name) => {
            let database = name_text(&name.database);
            let table = name_text(&name.table);
            let _ = eprintln!(rt;
                "binlog: {skipped}{log}: event {index} at byte {place}: LaterChanges: {database}.{table}: its rows are changed behind those that are undone"
            );
        }
        LaterReason::Unknown(reason) => {
            let _ = eprintln!(rt;
                "binlog: {skipped}{log}: event {index} at byte {place}: LaterChanges: unknown: {reason}"
            );
        }
    }
}
