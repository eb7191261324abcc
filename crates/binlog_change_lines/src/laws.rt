//! Laws of the lines of rows. Each is a function without effect whose contract states it.
ghost use Rattle.std.specs.Prelude.{◌≡◌, ◌⊎◌, ℕ, Bool, true, [], List, Option, None};
ghost use Rattle.json.specs.Token.{Token};
ghost use Rattle.binlog_consts.specs.EventTypes.{event_type_of};
ghost use Rattle.binlog_event_format.specs.Headers.{header_of};
ghost use Rattle.binlog_events.specs.Events.{EventView};
ghost use Rattle.binlog_images.specs.EventRows.{is_partial};
ghost use Rattle.binlog_rows.specs.RowsData.{event_in};
ghost use Rattle.binlog_rows.specs.declared.rows_event_data.RowsEventData.{RowsEventData};
ghost use Rattle.binlog_rows.specs.declared.table_map_event.TableMapEvent.{TableMapEvent};
ghost use Rattle.binlog_json_lines.specs.Lines.{IsLineWith};
ghost use Rattle.binlog_json_lines.specs.Options.{RowOptions};
ghost use Rattle.binlog_json_lines.specs.PartLines.{IsPartEventLine};
ghost use Rattle.binlog_filters.specs.RowEvents.{is_of_rows};
ghost use Rattle.binlog_json_lines.specs.RowMembers.{rows_error, AreReadRows};
ghost use Rattle.column_files.specs.declared.tables.DeclaredTables.{DeclaredTables};
ghost use Rattle.binlog_change_lines.specs.EventTexts.{IsEventText, IsPartText};
ghost use Rattle.binlog_change_lines.specs.Heads.{Place};
ghost use Rattle.binlog_change_lines.specs.RowLines.{AllAreRead};
ghost use Rattle.binlog_change_lines.specs.WholeLines.{AreRowsOfLine, IsOfNoRows};

/// The text of a row event, outside or inside a compressed transaction, has a line for each row of the member `rows` of its whole line of
/// JSON, one by one, and that has all rows of the event; or it is a whole line; or there is none, where the data are read and aren't those
/// of a row event. If that member has all rows, all rows of the event can be read.
pub fn rows_are_those_of_lines()
    ensures outside { (options : RowOptions) (place : Place) (map : Option TableMapEvent) (index : ℕ) (event : EventView) (contradiction found : Option ℕ) (line text : List ℕ)
        → is_of_rows (event_type_of (header_of event.frame).event_type) ≡ true → IsLineWith options map index event contradiction line → IsEventText options place map index event found text
        → AreRowsOfLine options.files place map event line text ⊎ (IsLineWith options map index event found text ⊎ ((text ≡ []) × IsOfNoRows event)) }
    ensures inside { (options : RowOptions) (place : Place) (map : Option TableMapEvent) (index number : ℕ) (event : EventView) (contradiction found : Option ℕ) (line text : List ℕ)
        → is_of_rows (event_type_of (header_of event.frame).event_type) ≡ true → IsPartEventLine options map index number event contradiction line
        → IsPartText options place map index number event found text
        → AreRowsOfLine options.files place map event line text ⊎ (IsPartEventLine options map index number event found text ⊎ ((text ≡ []) × IsOfNoRows event)) }
    ensures all { (files : List DeclaredTables) (is_maria_log : Bool) (body : RowsEventData) (map : TableMapEvent) (all_read : Bool) (found : Option ℕ) (tokens : List Token)
        → rows_error map body ≡ None → (full : AreReadRows files is_maria_log (is_partial body) map (event_in body) (record { all_read = all_read; contradiction = found }) tokens) → all_read ≡ true → AllAreRead body map full.items }
{}
