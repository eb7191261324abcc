//! Laws of the definitions. Each is a function that does nothing and whose contract states the law.
ghost use Rattle.std.specs.Prelude.{◌≡◌, ◌++◌, ℕ, List, map, length, slice_index_or, Ok, false};
ghost use Rattle.std.specs.List.{AllByRecursion};
ghost use Rattle.binlog_columns.specs.Metadata.{Typed};
ghost use Rattle.binlog_consts.specs.declared.event_type.EventType.TheVariants.{QUERY_EVENT, XID_EVENT};
ghost use Rattle.binlog_event_format.specs.declared.header.BinlogEventHeader.{BinlogEventHeader};
ghost use Rattle.binlog_images.specs.Cells.{absent, RowShape, RowCells, whole};
ghost use Rattle.binlog_images.specs.Splits.{AreRows};
ghost use Rattle.binlog_rows.specs.RowsData.{event_in};
ghost use Rattle.binlog_rows.specs.declared.rows_event_data.RowsEventData.{RowsEventData};
ghost use Rattle.table_changes.specs.Changes.{State, Change, AppliesAll, inverse};
ghost use Rattle.binlog_undo.specs.EventChanges.{HasChanges};
ghost use Rattle.binlog_undo.specs.Events.{IsWritten, begin_body, xid_body};
ghost use Rattle.binlog_undo.specs.Headings.{begin_heading, commit_heading};
ghost use Rattle.binlog_undo.specs.InverseEvents.{UndoesEvent};
ghost use Rattle.binlog_undo.specs.RowBytes.{RowBytes, AreRowBytes, exchanged_bytes, HasSameColumns, AreUndone};
ghost use Rattle.binlog_undo.specs.RowChanges.{TableRow, completed, row_changes, inverse_rows, HasOldColumns};
ghost use Rattle.binlog_undo.specs.Transactions.{Event, AreWritten, AllFit, events_bytes, changes_events, transaction_events};
ghost use Rattle.binlog_undo.specs.declared.events_writer.EventsWriter.{EventsWriter};
ghost use Rattle.binlog_undo.specs.declared.inverse_event.ForeignKeyChecks.{ForeignKeyChecks};
ghost use Rattle.binlog_undo.specs.declared.undone_change.UndoneChange.{UndoneChange};

/// A column after an update is that of the image after, or, if the image after doesn't have it, that of the image before.
pub fn rows_are_completed()
    ensures stays { (old new : TableRow) (k : ℕ) → length old ≡ length new → slice_index_or new k absent ≡ absent
        → slice_index_or (completed old new) k absent ≡ slice_index_or old k absent }
    ensures new { (old new : TableRow) (k : ℕ) → length old ≡ length new → ¬ (slice_index_or new k absent ≡ absent)
        → slice_index_or (completed old new) k absent ≡ slice_index_or new k absent }
{}

/// If each image before has the columns of the image after, the changes of the inverse rows are the inverse of the changes of the
/// rows. So they lead from the state behind the rows back to the state that was there before them.
pub fn rows_are_undone<Table>()
    ensures changes { (table : Table) (rows : List RowCells) → AllByRecursion HasOldColumns rows
        → row_changes table (inverse_rows rows) ≡ inverse (row_changes table rows) }
    ensures back { (table : Table) (rows : List RowCells) (old new : State Table TableRow) → AllByRecursion HasOldColumns rows
        → AppliesAll (row_changes table rows) old new → AppliesAll (row_changes table (inverse_rows rows)) new old }
{}

/// The bytes of rows are those of their images, one row after the other. Where both images of an update have the same columns, the
/// same bytes with the images of each row exchanged, the last row first, are the rows that undo them, and their changes are the
/// inverse of the changes of the rows.
pub fn images_are_exchanged<Table>()
    ensures bytes { (shape : RowShape) (index : ℕ) (s : List ℕ) (rows : List RowCells)
        → AreRows (whole shape) index s (map (λ row. Ok row) rows) → (bytes : List RowBytes) × AreRowBytes shape s bytes rows }
    ensures undone { (table : Table) (shape : RowShape) (s : List ℕ) (bytes : List RowBytes) (rows : List RowCells)
        → AreRowBytes shape s bytes rows → HasSameColumns shape.0 shape.1 → AreUndone table shape rows (exchanged_bytes bytes) }
{}

/// An event that is undone by another one is changes of its table. The other event is exactly the inverse of them, so it leads from
/// the state behind the event back to the state that was there before it.
pub fn events_are_undone<Table>()
    ensures some { (table : Table) (key : List ℕ) (columns : List Typed) (checks : ForeignKeyChecks) (event undoing : RowsEventData)
        → UndoesEvent key columns checks event undoing → (changes : List (Change Table TableRow)) × HasChanges table columns event changes }
    ensures changes { (table : Table) (key : List ℕ) (columns : List Typed) (checks : ForeignKeyChecks) (event undoing : RowsEventData)
        (changes : List (Change Table TableRow)) → UndoesEvent key columns checks event undoing → HasChanges table columns event changes
        → HasChanges table columns undoing (inverse changes) }
    ensures back { (table : Table) (key : List ℕ) (columns : List Typed) (checks : ForeignKeyChecks) (event undoing : RowsEventData)
        (changes : List (Change Table TableRow)) (old new : State Table TableRow) → UndoesEvent key columns checks event undoing
        → HasChanges table columns event changes → AppliesAll changes old new
        → (back : List (Change Table TableRow)) × HasChanges table columns undoing back × AppliesAll back new old }
{}

/// What undoes the event that undoes an event has the changes of this event. It has the bytes of its rows, too, if the images were
/// exchanged and weren't completed.
pub fn events_are_undone_twice<Table>()
    ensures changes { (table : Table) (key others : List ℕ) (columns : List Typed) (checks again : ForeignKeyChecks)
        (event undoing redoing : RowsEventData) (changes : List (Change Table TableRow)) → UndoesEvent key columns checks event undoing
        → UndoesEvent others columns again undoing redoing → HasChanges table columns event changes → HasChanges table columns redoing changes }
    ensures bytes { (key others : List ℕ) (columns : List Typed) (checks again : ForeignKeyChecks) (event undoing redoing : RowsEventData)
        → (undoes : UndoesEvent key columns checks event undoing) → UndoesEvent others columns again undoing redoing
        → undoes.undone.completes ≡ false → (event_in redoing).rows ≡ (event_in event).rows }
{}

/// Events that are written, and others behind them, are the events of both. The bytes of events are theirs, one after the other, each
/// with the place behind it, and their headers can state all numbers in them.
pub fn events_are_written()
    ensures joined { (front events : List Event) (old between new : EventsWriter) → AreWritten front old between → AreWritten events between new
        → AreWritten (front ++ events) old new }
    ensures bytes { (events : List Event) (old new : EventsWriter) → AreWritten events old new
        → new.bytes.items ≡ old.bytes.items ++ events_bytes old.has_checksums old.place events }
    ensures fit { (events : List Event) (old new : EventsWriter) → AreWritten events old new → AllFit old.has_checksums old.place events }
{}

/// A BEGIN, what undoes the row events of a transaction, the last one first, and an XID are the events that undo the transaction.
pub fn transactions_are_written()
    ensures { (last : BinlogEventHeader) (changes : List UndoneChange) (xid : ℕ) (old first between new : EventsWriter)
        → IsWritten (begin_heading last) QUERY_EVENT begin_body old first → AreWritten (changes_events changes) first between
        → IsWritten (commit_heading last) XID_EVENT (xid_body xid) between new → AreWritten (transaction_events last changes xid) old new }
{}
