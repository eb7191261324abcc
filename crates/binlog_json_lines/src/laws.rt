//! Laws of the lines. Each is a function without effect whose contract states it.
ghost use Rattle.std.specs.Prelude.{◌≡◌, ◌||◌, ℕ, List, Option, Result};
ghost use Rattle.std.specs.Option.{option_or};
ghost use Rattle.binlog_wire.specs.declared.error.Error.{Error};
ghost use Rattle.binlog_events.specs.Events.{EventView};
ghost use Rattle.binlog_file.specs.TableMapsInForce.{TableMaps};
ghost use Rattle.binlog_visits.specs.Visits.{Visits};
ghost use Rattle.binlog_filters.specs.TakenLines.{WritesTaken};
ghost use Rattle.binlog_filters.specs.declared.filtered.Filtered.{Filtered};
ghost use Rattle.binlog_declared_columns.specs.Contradictions.{column_of};
ghost use Rattle.binlog_json_lines.specs.Contradicted.{IsFirstIn};
ghost use Rattle.binlog_json_lines.specs.Lines.{IsLineIn};
ghost use Rattle.binlog_json_lines.specs.Options.{options_of};
ghost use Rattle.binlog_json_lines.specs.Output.{WritesLines, has_errors_in};
ghost use Rattle.binlog_json_lines.specs.declared.writer.JsonWriter.{JsonWriter};

use crate::writer::JsonWriter;
use binlog_filters::Filtered;
use binlog_visits::Visitor;
use std::io::Write;

/// The lines of a log. If the visits of items, one after another, are Ok, the output has grown by their lines, in order, and
/// the writer knows whether one was an error, and which tables contradict the files of columns: of each table the column that did in
/// the first of the items in which one did.
pub fn json_lines<W: Write>()
    ensures lines { (maps : TableMaps) (index : ℕ) (items : List (Result EventView Error)) (old new : JsonWriter W)
        → Visits ⟦<JsonWriter<W> as Visitor>⟧.visits maps index items old new
        → WritesLines (options_of old.options) maps index items (W.contents old.output) (W.contents new.output) }
    ensures errors { (maps : TableMaps) (index : ℕ) (items : List (Result EventView Error)) (old new : JsonWriter W)
        → Visits ⟦<JsonWriter<W> as Visitor>⟧.visits maps index items old new
        → new.has_errors ≡ (old.has_errors || has_errors_in items) }
    ensures contradictions { (maps : TableMaps) (index : ℕ) (items : List (Result EventView Error)) (old new : JsonWriter W) (schema table : List ℕ)
        → Visits ⟦<JsonWriter<W> as Visitor>⟧.visits maps index items old new
        → (found : Option ℕ) × IsFirstIn (options_of old.options) maps index items schema table found
        × (column_of new.contradictions schema table ≡ option_or (column_of old.contradictions schema table) found) }
{}

/// The lines of what a filter takes. If the visits of items, one after another, are Ok, the output has grown by the lines of
/// the items that the filter takes, in order, each with its index in the log. The rows of a row event are those of the table
/// map that is in force for it in the log, whether the filter takes that table map or not.
pub fn taken_json_lines<W: Write>()
    ensures { (maps : TableMaps) (index : ℕ) (items : List (Result EventView Error)) (old new : Filtered (JsonWriter W))
        → Visits ⟦<Filtered<JsonWriter<W>> as Visitor>⟧.visits maps index items old new
        → WritesTaken (IsLineIn (options_of old.visitor.options)) old.filter old.place.position old.state maps index items (W.contents old.visitor.output) (W.contents new.visitor.output) }
{}
