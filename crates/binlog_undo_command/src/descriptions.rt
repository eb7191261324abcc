//! The descriptions of logs that are undone as one transaction.
ghost use Rattle.std.specs.Prelude.{◌≡◌, ◌⊎◌, IfErr, IfOk, IfSome, IsNone, OnOk};
ghost use Rattle.std.specs.List.{All, Any};
ghost use Rattle.binlog_cli.specs.declared.exit_status.Status.TheVariants.{Damaged, Failed};
ghost use Rattle.binlog_undo_command.specs.Descriptions.{HasNone, IsUnder, IsUnderOther, HaveOneDescription, HaveDescriptions};

use crate::logs::Logs;
use crate::messages::report_error;
use crate::scanning::ScannedLog;
use crate::writing::seek;
use binlog_cli::Status;
use binlog_undo_log::{LogDescription, read_description};

/// Whether all that is undone is under one description, as one transaction has to be. The first log that is under another one than the
/// logs in front of it has a message.
///
/// # Errors
///
/// [`Status::Damaged`] if two of the logs are under different descriptions; [`Status::Failed`], after its message, if a log can't be
/// read or was changed, or if there is no memory.
pub(crate) fn check_descriptions<L: Logs, R: Eprint + AllocGlobal>(
    rt: &R,
    logs: &L,
    scanned: &[ScannedLog<'_>],
) -> Result<(), Status>
    ensures ok { OnOk result (HaveOneDescription (L.has_frames logs.now) L.Sought.is_at scanned.now) }
    ensures differ { IfErr result (λ status. status ≡ Damaged → HaveDescriptions (L.has_frames logs.now) L.Sought.is_at scanned.now) }
    ensures err { IfErr result (λ status. (status ≡ Damaged) ⊎ (status ≡ Failed)) }
{
    match first_description(rt, logs, scanned)? {
        Some(first) => check_against(rt, logs, scanned, &first),
        None => Ok(()),
    }
}

// The description of the first log in which something is undone.
fn first_description<L: Logs, R: Eprint + AllocGlobal>(
    rt: &R,
    logs: &L,
    scanned: &[ScannedLog<'_>],
) -> Result<Option<LogDescription>, Status>
    ensures none { IfOk result (λ found. IsNone found → All HasNone scanned.now) }
    ensures some { IfOk result (λ found. IfSome found (λ first. Any (IsUnder (L.has_frames logs.now) L.Sought.is_at first.body.items first.has_checksums) scanned.now)) }
    ensures err { IfErr result (λ status. status ≡ Failed) }
{
    for log in scanned {
        if let Some(description) = description_of(rt, logs, log)? {
            return Ok(Some(description));
        }
    }
    Ok(None)
}

// Whether all that is undone is under this description.
fn check_against<L: Logs, R: Eprint + AllocGlobal>(
    rt: &R,
    logs: &L,
    scanned: &[ScannedLog<'_>],
    first: &LogDescription,
) -> Result<(), Status>
    ensures ok { OnOk result (All (λ log. HasNone log ⊎ IsUnder (L.has_frames logs.now) L.Sought.is_at first.now.body.items first.now.has_checksums log) scanned.now) }
    ensures differ { IfErr result (λ status. status ≡ Damaged → Any (IsUnderOther (L.has_frames logs.now) L.Sought.is_at first.now.body.items first.now.has_checksums) scanned.now) }
    ensures err { IfErr result (λ status. (status ≡ Damaged) ⊎ (status ≡ Failed)) }
{
    for log in scanned {
        check_log(rt, logs, log, first)?;
    }
    Ok(())
}

// Whether what is undone of a log, if something is, is under this description.
fn check_log<L: Logs, R: Eprint + AllocGlobal>(
    rt: &R,
    logs: &L,
    log: &ScannedLog<'_>,
    first: &LogDescription,
) -> Result<(), Status>
    ensures ok { OnOk result (HasNone log.now ⊎ IsUnder (L.has_frames logs.now) L.Sought.is_at first.now.body.items first.now.has_checksums log.now) }
    ensures differ { IfErr result (λ status. status ≡ Damaged → IsUnderOther (L.has_frames logs.now) L.Sought.is_at first.now.body.items first.now.has_checksums log.now) }
    ensures err { IfErr result (λ status. (status ≡ Damaged) ⊎ (status ≡ Failed)) }
{
    let Some(description) = description_of(rt, logs, log)? else {
        return Ok(());
    };
    if description.is_same(first) {
        return Ok(());
    }
    let _ = eprintln!(rt;
        "binlog: {}: event 0 at byte 4: Description: another format description than that of the first log, so all can't be one transaction",
        log.name
    );
    Err(Status::Damaged)
}

// The description of a log in which something is undone.
fn description_of<L: Logs, R: Eprint + AllocGlobal>(
    rt: &R,
    logs: &L,
    log: &ScannedLog<'_>,
) -> Result<Option<LogDescription>, Status>
    ensures none { IfOk result (λ found. IsNone found → HasNone log.now) }
    ensures some { IfOk result (λ found. IfSome found (λ d. IsUnder (L.has_frames logs.now) L.Sought.is_at d.body.items d.has_checksums log.now)) }
    ensures err { IfErr result (λ status. status ≡ Failed) }
{
    let mut frames = match seek(rt, logs, log) {
        Ok(frames) => frames,
        Err(_) => return Err(Status::Failed),
    };
    match read_description(rt.alloc(), &mut frames, &log.scan) {
        Ok(found) => Ok(found),
        Err(error) => {
            report_error(rt, log.name, &error);
            Err(Status::Failed)
        }
    }
}
