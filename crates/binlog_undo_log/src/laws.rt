//! Laws of the definitions. Each is a function that does nothing and whose contract states the law.
ghost use Rattle.std.specs.Prelude.{◌≡◌, true, Bool, Option, Some, Result, IsOkUnless, List, [], ℕ, ◌<◌, ◌^◌, length};
ghost use Rattle.binlog_events.specs.Events.{EventView};
ghost use Rattle.binlog_file.specs.TableMapsInForce.{TableMaps};
ghost use Rattle.binlog_event_format.specs.declared.format_description.FormatDescriptionEvent.{FormatDescriptionEvent};
ghost use Rattle.binlog_columns.specs.Metadata.{Typed};
ghost use Rattle.binlog_rows.specs.declared.rows_event_data.RowsEventData.{RowsEventData};
ghost use Rattle.binlog_rows.specs.declared.table_map_event.TableMapEvent.{TableMapEvent};
ghost use Rattle.binlog_undo.specs.InverseEvents.{UndoesEvent};
ghost use Rattle.binlog_undo.specs.declared.inverse_event.InverseEvent.{InverseEvent};
ghost use Rattle.binlog_undo.specs.declared.undo_error.UndoError.{UndoError};
ghost use Rattle.binlog_undo.specs.declared.undo_error.UndoError.TheVariants.{Memory};
ghost use Rattle.binlog_undo_log.specs.FullImages.{HasFullImages};
ghost use Rattle.binlog_undo_log.specs.Keys.{GivesByKey};
ghost use Rattle.binlog_undo.specs.RowChanges.{TableRow};
ghost use Rattle.binlog_undo.specs.declared.inverse_event.ForeignKeyChecks.{ForeignKeyChecks};
ghost use Rattle.binlog_undo_index.specs.Groups.{Kept};
ghost use Rattle.binlog_undo_index.specs.Index.{Keeps};
ghost use Rattle.binlog_undo_index.specs.Parts.{parts_of};
ghost use Rattle.binlog_undo_index.specs.declared.places.ChangePlace.{ChangePlace};
ghost use Rattle.binlog_undo_index.specs.declared.places.TransactionPlace.{TransactionPlace};
ghost use Rattle.binlog_undo_index.specs.declared.skips.Skips.{Skips};
ghost use Rattle.binlog_undo_log.specs.Choices.{rules_of};
ghost use Rattle.binlog_undo_log.specs.FileChanges.{AreFramesOf, UndoesFile};
ghost use Rattle.binlog_undo_log.specs.GrowingLogs.{IsLogSoFar, GrowsLog};
ghost use Rattle.binlog_undo_log.specs.Files.{IsFresh, ScansWhole, AreSkipped, IsScanned, WritesFile};
ghost use Rattle.binlog_undo_log.specs.LogChanges.{TableName, LogChange, AreKeptChanges, AreLogChanges};
ghost use Rattle.binlog_undo_log.specs.Undoing.{UndoesAll, UndoesKept};
ghost use Rattle.binlog_undo_log.specs.UndoneTwice.{TakesAll, HasWholeEvents, HasChangesAgain};
ghost use Rattle.binlog_undo_log.specs.WholeLogs.{IsNewLog, HasUndoLog, HasInverseLog, IsReadAs};
ghost use Rattle.binlog_undo_log.specs.Heads.{is_writable};
ghost use Rattle.binlog_undo_log.specs.Scanning.{Sees};
ghost use Rattle.binlog_undo_log.specs.SeenWritten.{AreSeenAsWritten};
ghost use Rattle.binlog_undo_index.specs.declared.seen.SeenEvent.{SeenEvent};
ghost use Rattle.binlog_undo_log.specs.declared.choice.Choice.{Choice};
ghost use Rattle.binlog_undo_log.specs.declared.output.UndoOutput.{UndoOutput};
ghost use Rattle.binlog_undo_log.specs.declared.scan.UndoScan.{UndoScan};
ghost use Rattle.binlog_undo.specs.Transactions.{Event};
ghost use Rattle.table_changes.specs.Changes.{State, AppliesAll, inverse};

use crate::frames::Frames;
use binlog_file::WriteCounted;

/// If the first pass over a file refused nothing, unless it is skipped, then all items of the file, up to the stop position, are events,
/// and the places that are kept are those of the transactions of the log that are undone.
pub fn files_are_scanned()
    ensures { (choice : Choice) (checks : ForeignKeyChecks) (skips : Skips) (bytes : List ℕ) (start scan : UndoScan) → IsFresh choice checks skips start
        → ScansWhole bytes start scan → AreSkipped (parts_of scan.index).refusals → IsScanned (rules_of choice skips) bytes start scan }
{}

/// The events that undo the places that were kept of some transactions undo these transactions, the last one first.
pub fn kept_transactions_are_undone<F: Frames>()
    ensures { (frames : F) (fde : FormatDescriptionEvent) (checks : ForeignKeyChecks) (kept : List Kept) (transactions : List TransactionPlace) (changes : List ChangePlace) (events : List Event)
        → Keeps kept transactions changes → UndoesAll (F.is_at frames) fde checks transactions changes events → UndoesKept (F.is_at frames) fde checks kept events }
{}

/// The transactions that are undone are changes of tables, and the events that undo them are exactly the inverse of these changes. So
/// they lead from the state behind the transactions, if no other change came in between, back to the state that was there before them.
pub fn logs_are_undone<F: Frames>()
    ensures changes { (frames : F) (fde : FormatDescriptionEvent) (checks : ForeignKeyChecks) (kept : List Kept) (events : List Event) → UndoesKept (F.is_at frames) fde checks kept events
        → (changes : List LogChange) × AreKeptChanges (F.is_at frames) fde kept changes × AreLogChanges fde events (inverse changes) }
    ensures back { (changes : List LogChange) (old new : State TableName TableRow) → AppliesAll changes old new → AppliesAll (inverse changes) new old }
{}

/// Both passes over a file together: if the first one refused nothing, unless it is skipped, and the second one reads the frames of the
/// same bytes, then all items of the file, up to the stop position, are events at their places, and what is written is the inverse of the changes of its transactions that are undone.
pub fn files_are_undone<F: Frames, W: WriteCounted>()
    ensures { (frames : F) (choice : Choice) (checks : ForeignKeyChecks) (skips : Skips) (bytes : List ℕ) (start scan : UndoScan) (old new : UndoOutput W)
        → length bytes < 2 ^ 64 → AreFramesOf bytes (F.is_at frames) → IsFresh choice checks skips start → ScansWhole bytes start scan → AreSkipped (parts_of scan.index).refusals
        → WritesFile W.contents (F.is_at frames) scan old new → UndoesFile W.contents (rules_of choice skips) bytes start scan old new }
{}

/// What is written for a file at the front of a log is a log that is read without a refusal: a file header, the file's description, created
/// at 0, and exactly the events that undo the transactions of the file, with nothing between them or behind them. Each is read with the
/// heading and the body that were written, its checksum is right, and its log position is the place behind it.
pub fn undo_logs_are_read<F: Frames, W: WriteCounted>()
    ensures { (frames : F) (scan : UndoScan) (old new : UndoOutput W) → IsNewLog W.contents old → WritesFile W.contents (F.is_at frames) scan old new
        → HasUndoLog W.contents (F.is_at frames) scan.checks (parts_of scan.index).transactions (parts_of scan.index).changes new }
{}

/// Read again from its own bytes, this log is exactly the inverse of the changes of the transactions of the file that are undone: its table
/// maps and row events are read so that their changes, in order, are these.
pub fn undo_logs_are_inverse<F: Frames, W: WriteCounted>()
    ensures { (frames : F) (kept : List Kept) (scan : UndoScan) (old new : UndoOutput W) → IsNewLog W.contents old
        → Keeps kept (parts_of scan.index).transactions (parts_of scan.index).changes → WritesFile W.contents (F.is_at frames) scan old new
        → HasInverseLog W.contents (F.is_at frames) kept new }
{}

/// The first pass sees the events of such a log as they were written: a BEGIN, an XID, and a table map with its id; and it looks at the
/// rows that were written. By [`binlog_undo_index::laws::row_transactions_are_kept`] they are whole transactions.
pub fn written_events_are_seen()
    ensures { (scan : UndoScan) (maps : TableMaps) (index : ℕ) (d : FormatDescriptionEvent) (written : Event) (event : EventView) (seen : Option SeenEvent)
        → is_writable d ≡ true → IsReadAs d written event → Sees scan maps index event seen → AreSeenAsWritten scan maps index d written event seen }
{}

/// An event that undoes another one can be undone itself if its images have all columns: it isn't refused, whatever primary key its table
/// map states.
pub fn undoing_events_are_accepted()
    ensures { (is_maria_log : Bool) (map : TableMapEvent) (key : List ℕ) (columns : List Typed) (checks again : ForeignKeyChecks) (event undoing : RowsEventData)
        (answer : Result InverseEvent UndoError) → UndoesEvent key columns checks event undoing → HasFullImages undoing
        → GivesByKey is_maria_log map columns again undoing answer → IsOkUnless answer Memory }
{}

/// The log that undoes a file can be undone itself, if the images of its rows have all columns: the first pass over it, with all transactions
/// and tables, refuses nothing; and what the second pass writes for it, at the front of another log, has exactly the changes of the
/// transactions of the file that were undone.
pub fn undo_logs_are_undone<F: Frames, G: Frames, W: WriteCounted, V: WriteCounted>()
    ensures accepted { (frames : F) (kept : List Kept) (scan : UndoScan) (old new : UndoOutput W) (bytes : List ℕ) (choice : Choice) (checks : ForeignKeyChecks) (skips : Skips) (start again : UndoScan)
        → IsNewLog W.contents old → Keeps kept (parts_of scan.index).transactions (parts_of scan.index).changes → WritesFile W.contents (F.is_at frames) scan old new
        → W.contents new.writer ≡ Some bytes → length bytes < 2 ^ 64 → TakesAll choice → HasWholeEvents choice.has_plain_temporal bytes
        → IsFresh choice checks skips start → ScansWhole bytes start again → (parts_of again.index).refusals ≡ [] }
    ensures again { (frames : F) (others : G) (kept : List Kept) (scan : UndoScan) (old new : UndoOutput W) (bytes : List ℕ) (choice : Choice) (checks : ForeignKeyChecks) (skips : Skips)
        (start again : UndoScan) (first last : UndoOutput V) → IsNewLog W.contents old → Keeps kept (parts_of scan.index).transactions (parts_of scan.index).changes
        → WritesFile W.contents (F.is_at frames) scan old new → W.contents new.writer ≡ Some bytes → length bytes < 2 ^ 64 → TakesAll choice
        → HasWholeEvents choice.has_plain_temporal bytes → IsFresh choice checks skips start → ScansWhole bytes start again → AreFramesOf bytes (G.is_at others)
        → IsNewLog V.contents first → WritesFile V.contents (G.is_at others) again first last → HasChangesAgain V.contents (F.is_at frames) kept last }
{}

/// What is written for several files, one after the other, is one log: what undoes a file, behind a log, makes a log again, whose events are
/// those of the log and behind them the description of the file, created at 0, unless it is in force there, and exactly the events that
/// undo the transactions of the file.
pub fn undo_logs_grow<F: Frames, W: WriteCounted>()
    ensures first { (output : UndoOutput W) → IsNewLog W.contents output → IsLogSoFar W.contents [] output }
    ensures more { (frames : F) (events : List EventView) (scan : UndoScan) (old new : UndoOutput W) → IsLogSoFar W.contents events old → WritesFile W.contents (F.is_at frames) scan old new
        → GrowsLog W.contents (F.is_at frames) scan.checks (parts_of scan.index).transactions (parts_of scan.index).changes events new }
{}
