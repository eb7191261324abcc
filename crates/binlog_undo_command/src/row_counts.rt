//! The rows that are undone, of several logs.
ghost use Rattle.std.specs.Prelude.{◌≡◌, IfErr, IfOk, OnOk};
ghost use Rattle.binlog_cli.specs.declared.exit_status.Status.TheVariants.{Failed};
ghost use Rattle.binlog_undo_command.specs.RowCounts.{CountsLog, CountsRows};
ghost use Rattle.change_statistics.specs.Tables.{AreEmpty};

use crate::logs::Logs;
use crate::messages::report_error;
use crate::scanning::ScannedLog;
use crate::writing::seek;
use binlog_cli::Status;
use binlog_file::{EventRef, TableMapEvent};
use binlog_statistics::Counter;
use binlog_undo_log::{RowsVisitor, UndoLogError, visit_undone_rows};
use change_statistics::{MAX_TABLES, TableStats};
use std::alloc::Global;

/// Counts row events that are undone, and their rows, by table.
pub(crate) struct RowCounts {
    counter: Counter<TableStats>,
}

impl Drop for RowCounts {
    // By hand, so that it is proved once.
    fn drop(self) {
        let Self { counter } = self;
        drop(counter);
    }
}

impl RowCounts {
    /// Nothing is counted.
    fn new(alloc: Global) -> Self
        ensures { AreEmpty result.counter.stats }
    {
        RowCounts {
            counter: Counter::new(alloc, TableStats::new(alloc)),
        }
    }

    /// What is counted.
    pub(crate) fn stats(&self) -> &TableStats
        ensures { result.now ≡ self.now.counter.stats }
    {
        &self.counter.stats
    }
}

/// A visit counts the row event.
impl RowsVisitor for RowCounts {
    ghost use Rattle.binlog_undo_command.specs.RowCounts.{counts};

    ghost visits = { counts };

    fn visit_rows(
        &mut self,
        _alloc: Global,
        map: &TableMapEvent<'_>,
        event: &EventRef<'_>,
    ) -> Result<(), UndoLogError> {
        match self.counter.count_rows(event, map) {
            Ok(()) => Ok(()),
            Err(_) => Err(UndoLogError::Memory),
        }
    }
}

/// Counts the row events that are undone, and their rows, by table. They are read again, those that are undone first in front.
///
/// # Errors
///
/// [`Status::Failed`], after its message, if a log can't be read or was changed, if there are more than [`MAX_TABLES`] tables, or if there
/// is no memory.
pub(crate) fn count_rows<L: Logs, R: Eprint + AllocGlobal>(
    rt: &R,
    logs: &L,
    scanned: &[ScannedLog<'_>],
) -> Result<RowCounts, Status>
    ensures ok { IfOk result (λ rows. CountsRows (L.has_frames logs.now) L.Sought.is_at scanned.now rows.counter.stats) }
    ensures err { IfErr result (λ status. status ≡ Failed) }
{
    let mut rows = RowCounts::new(rt.alloc());
    let mut left = scanned.len();
    'logs: while left > 0 {
        left -= 1;
        count_log(rt, logs, &scanned[left], &mut rows)?;
    }
    if rows.stats().is_full {
        let _ = eprintln!(rt; "binlog: undo: rows of more than {MAX_TABLES} tables are undone");
        return Err(Status::Failed);
    }
    Ok(rows)
}

// Counts those of a log.
fn count_log<L: Logs, R: Eprint + AllocGlobal>(
    rt: &R,
    logs: &L,
    log: &ScannedLog<'_>,
    rows: &mut RowCounts,
) -> Result<(), Status>
    ensures ok { OnOk result (CountsLog (L.has_frames logs.now) L.Sought.is_at log.now rows.old.counter.stats rows.new.counter.stats) }
    ensures err { IfErr result (λ status. status ≡ Failed) }
{
    let mut frames = match seek(rt, logs, log) {
        Ok(frames) => frames,
        Err(_) => return Err(Status::Failed),
    };
    match visit_undone_rows(rt.alloc(), &mut frames, &log.scan, rows) {
        Ok(()) => Ok(()),
        Err(error) => {
            report_error(rt, log.name, &error);
            Err(Status::Failed)
        }
    }
}
