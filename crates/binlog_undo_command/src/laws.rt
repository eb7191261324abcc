//! Laws of the definitions. Each is a function that does nothing and whose contract states the law.
ghost use Rattle.std.specs.Prelude.{◌≡◌, ◌<◌, ◌^◌, Bool, true, false, List, [], ℕ, Option, Some, codes, length};
ghost use Rattle.std.specs.List.{flat_map};
ghost use Rattle.clap.specs.declared.parser.matches.Found.{Found};
ghost use Rattle.binlog_cli.specs.TableWords.{texts_given};
ghost use Rattle.binlog_later_changes.specs.Apart.{logged_in};
ghost use Rattle.binlog_later_changes.specs.Changes.{changes_found};
ghost use Rattle.binlog_later_changes.specs.RowsLeft.{nothing_left};
ghost use Rattle.binlog_later_changes.specs.SeenRows.{Unread};
ghost use Rattle.binlog_later_changes.specs.declared.later_changes.LaterChanges.{LaterChanges};
ghost use Rattle.binlog_later_changes.specs.declared.later_rules.LaterRules.{LaterRules};
ghost use Rattle.binlog_undo_command.specs.AllLogs.{IsInverseOfLogs};
ghost use Rattle.binlog_undo_command.specs.LaterLogs.{LooksBehind, AreLater, StatesRules};
ghost use Rattle.binlog_undo_command.specs.LaterRows.{rows_in_all};
ghost use Rattle.binlog_undo_command.specs.RowCounts.{AreRowCounts, CountsRows};
ghost use Rattle.binlog_undo_command.specs.Scanned.{AreUndone};
ghost use Rattle.binlog_undo_command.specs.UndoneLogs.{HaveFrames, UndoesAll};
ghost use Rattle.binlog_undo_command.specs.Written.{WritesAll, WritesLog};
ghost use Rattle.binlog_undo_command.specs.declared.scanning.ScannedLog.{ScannedLog};
ghost use Rattle.binlog_undo_log.specs.declared.output.UndoOutput.{UndoOutput};
ghost use Rattle.change_statistics.specs.declared.tables.TableStats.{TableStats};
ghost use Rattle.table_changes.specs.Parts.{KeepsApart, nothing};

use crate::logs::Logs;
use binlog_file::WriteCounted;

/// What is written for logs in which nothing is refused is the inverse of the changes of their transactions that are undone, the last
/// log first: for each log whose bytes are known, and whose frames are those of these bytes. As one transaction it is the same, between
/// a BEGIN and an XID.
pub fn logs_are_undone<L: Logs, W: WriteCounted>()
    ensures { (logs : L) (found : Found) (is_one : Bool) (names : List (List ℕ)) (scanned : List ScannedLog) (old new : UndoOutput W) → HaveFrames (L.bytes logs) (L.has_frames logs) L.Sought.is_at
        → AreUndone (L.bytes logs) found names scanned → WritesAll (L.has_frames logs) L.Sought.is_at W.contents is_one scanned old new
        → UndoesAll (L.bytes logs) (L.has_frames logs) L.Sought.is_at W.contents found (length names) is_one scanned old new }
{}

/// The bytes that are written for logs in which nothing is refused, as their own transactions, are one log: a file header and events, with nothing between
/// them or behind them. As they are read, they are exactly the inverse of the changes of the transactions that are undone, of all logs in order. By
/// [`binlog_undo_log::laws::logs_are_undone`] they lead from the state behind all logs, if no other change came in between, back to the one before them.
pub fn all_logs_are_inverse<L: Logs, W: WriteCounted>()
    ensures { (logs : L) (found : Found) (bytes : List ℕ → List ℕ) (names : List (List ℕ)) (scanned : List ScannedLog) (old new : Option (List ℕ)) → ((name : List ℕ) → L.bytes logs name ≡ Some (bytes name))
        → ((name : List ℕ) → length (bytes name) < 2 ^ 64) → HaveFrames (L.bytes logs) (L.has_frames logs) L.Sought.is_at → AreUndone (L.bytes logs) found names scanned → old ≡ Some []
        → WritesLog (L.has_frames logs) L.Sought.is_at W.contents false scanned old new → IsInverseOfLogs bytes found (length names) scanned new }
{}

/// The rows that are counted of logs are those of the row events that are undone: exactly the tables of which one of them has rows have
/// counts, each the sums and numbers over the row events of that table.
pub fn undone_rows_are_counted<L: Logs>()
    ensures { (logs : L) (scanned : List ScannedLog) (stats : TableStats) → CountsRows (L.has_frames logs) L.Sought.is_at scanned stats → AreRowCounts (L.has_frames logs) L.Sought.is_at scanned stats }
{}

/// Where the bytes of all logs are known, what is found behind what is undone is exactly the first event of each table of which rows are undone in
/// front of it and that has rows that aren't undone, and the first event that may change any table behind rows that are undone: of all events of
/// the logs, and then of the later ones, in order. Where rows are checked, events of a table are left out that remove no row that what is undone
/// in front of them has left behind, if the rows of these events are known.
pub fn later_changes_are_found<L: Logs>()
    ensures { (logs : L) (found : Found) (bytes : List ℕ → List ℕ) (scanned : List ScannedLog) (changes : LaterChanges) → ((name : List ℕ) → L.bytes logs name ≡ Some (bytes name))
        → ((name : List ℕ) → length (bytes name) < 2 ^ 64) → LooksBehind (L.bytes logs) (L.has_frames logs) L.Sought.is_at found scanned changes
        → (rules : LaterRules) × StatesRules found rules × AreLater bytes (L.has_frames logs) L.Sought.is_at rules scanned (texts_given found (codes "later")) changes }
{}

/// Where the bytes of all logs are known, rows are checked and nothing is found, the changes of rows that are seen of all logs and stay are kept apart from those
/// that are undone, whatever the rows are of tables of which none are undone in front. By [`table_changes::laws::part`] the inverse of what is undone leads from the
/// state behind all logs to the one to which the changes that stay lead without the others. Undone rows that aren't known are not among them.
pub fn rows_that_stay_are_apart<L: Logs>()
    ensures { (logs : L) (bytes : List ℕ → List ℕ) (rules : LaterRules) (unread : (number : ℕ) → Unread) (scanned : List ScannedLog) (names : List (List ℕ)) (changes : LaterChanges)
        (later : AreLater bytes (L.has_frames logs) L.Sought.is_at rules scanned names changes) → rules.checks_rows ≡ true → changes_found changes ≡ []
        → KeepsApart (flat_map logged_in (rows_in_all bytes rules unread (L.has_frames logs) L.Sought.is_at 0 scanned names nothing_left later.behind later.looks later.seen)) nothing later.behind.counts }
{}
