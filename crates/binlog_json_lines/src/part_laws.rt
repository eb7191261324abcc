//! Laws of the lines with the events inside compressed transactions. Each is a function without effect whose contract states it.
ghost use Rattle.std.specs.Prelude.{◌≡◌, ◌||◌, ℕ, Bool, List, Option, Result};
ghost use Rattle.std.specs.Option.{option_or};
ghost use Rattle.binlog_wire.specs.declared.error.Error.{Error};
ghost use Rattle.binlog_events.specs.Events.{EventView};
ghost use Rattle.binlog_file.specs.TableMapsInForce.{TableMaps};
ghost use Rattle.binlog_visits.specs.Visits.{Visits};
ghost use Rattle.binlog_filters.specs.TakenLines.{WritesTaken};
ghost use Rattle.binlog_filters.specs.declared.filtered.Filtered.{Filtered};
ghost use Rattle.binlog_declared_columns.specs.Contradictions.{column_of};
ghost use Rattle.binlog_payload_visits.specs.declared.spliced.Spliced.{Spliced};
ghost use Rattle.binlog_json_lines.specs.Options.{options_of};
ghost use Rattle.binlog_json_lines.specs.PartOutput.{HaveErrors, IsFirstOfAll, IsTextIn, WritesTexts};
ghost use Rattle.binlog_json_lines.specs.declared.writer.JsonWriter.{JsonWriter};

use crate::writer::JsonWriter;
use binlog_filters::Filtered;
use binlog_payload_visits::Spliced;
use binlog_visits::Visitor;
use std::io::Write;

/// The lines of a log with those inside its compressed transactions: [`json_lines`](crate::laws::json_lines) for a writer that is also
/// shown these. If the visits of items, one after another, are Ok, the output has grown by the line of each item and the lines of its
/// parts, in order, and the writer knows whether one was an error, and which tables contradict the files of columns.
pub fn spliced_json_lines<W: Write>()
    ensures lines { (maps : TableMaps) (index : ℕ) (items : List (Result EventView Error)) (old new : Spliced (JsonWriter W))
        → Visits ⟦<Spliced<JsonWriter<W>> as Visitor>⟧.visits maps index items old new
        → WritesTexts old.limit (options_of old.visitor.options) maps index items (W.contents old.visitor.output) (W.contents new.visitor.output) }
    ensures errors { (maps : TableMaps) (index : ℕ) (items : List (Result EventView Error)) (old new : Spliced (JsonWriter W))
        → Visits ⟦<Spliced<JsonWriter<W>> as Visitor>⟧.visits maps index items old new
        → (found : Bool) × HaveErrors old.limit items found × (new.visitor.has_errors ≡ (old.visitor.has_errors || found)) }
    ensures contradictions { (maps : TableMaps) (index : ℕ) (items : List (Result EventView Error)) (old new : Spliced (JsonWriter W)) (schema table : List ℕ)
        → Visits ⟦<Spliced<JsonWriter<W>> as Visitor>⟧.visits maps index items old new
        → (found : Option ℕ) × IsFirstOfAll old.limit (options_of old.visitor.options) maps index items schema table found
        × (column_of new.visitor.contradictions schema table ≡ option_or (column_of old.visitor.contradictions schema table) found) }
{}

/// The lines of what a filter takes, with those inside the compressed transactions that it takes. If the visits of items, one after
/// another, are Ok, the output has grown by the lines of the items that the filter takes and of their parts, in order, each with its
/// index in the log.
pub fn taken_spliced_lines<W: Write>()
    ensures { (maps : TableMaps) (index : ℕ) (items : List (Result EventView Error)) (old new : Filtered (Spliced (JsonWriter W)))
        → Visits ⟦<Filtered<Spliced<JsonWriter<W>>> as Visitor>⟧.visits maps index items old new
        → WritesTaken (IsTextIn old.visitor.limit (options_of old.visitor.visitor.options)) old.filter old.place.position old.state maps index items
        (W.contents old.visitor.visitor.output) (W.contents new.visitor.visitor.output) }
{}
