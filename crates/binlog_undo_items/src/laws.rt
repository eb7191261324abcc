//! A law of the definitions: a function that does nothing and whose contract states the law.
ghost use Rattle.std.specs.Prelude.{List, ℕ, ◌<◌, ◌^◌, length};
ghost use Rattle.binlog_undo_items.specs.Refusals.{AreAllSkipped};
ghost use Rattle.binlog_undo_items.specs.Scanned.{ScansRequest};
ghost use Rattle.binlog_undo_items.specs.UndoneLogs.{UndoesLogs};
ghost use Rattle.binlog_undo_items.specs.Written.{WritesLogs};
ghost use Rattle.binlog_undo_items.specs.declared.request.UndoRequest.{UndoRequest};
ghost use Rattle.binlog_undo_items.specs.declared.scanning.ScannedLog.{ScannedLog};
ghost use Rattle.binlog_undo_log.specs.declared.output.UndoOutput.{UndoOutput};

use binlog_file::WriteCounted;

/// What is written for logs in which nothing is refused, unless it is skipped, is the inverse of the changes of their transactions that
/// are undone, the last log first.
pub fn logs_are_undone<W: WriteCounted>()
    ensures { (request : UndoRequest) (logs : List ScannedLog) (old new : UndoOutput W) → length request.logs.now < 2 ^ 64 → ScansRequest request logs → AreAllSkipped logs
        → WritesLogs W.contents logs old new → UndoesLogs W.contents request (length logs) 0 logs old new }
{}
