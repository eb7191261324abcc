//! Laws of filters. Each is a function without effect whose contract states it.
ghost use Rattle.std.specs.Prelude.{◌≡◌, ◌↔◌, true, ℕ, List, Result};
ghost use Rattle.binlog_wire.specs.declared.error.Error.{Error};
ghost use Rattle.binlog_file.specs.Events.{EventView};
ghost use Rattle.binlog_file.specs.TableMapsInForce.{TableMaps};
ghost use Rattle.binlog_visits.specs.Visits.{Visits};
ghost use Rattle.binlog_visits.specs.declared.line_writer.LineWriter.{LineWriter};
ghost use Rattle.binlog_filters.specs.Patterns.{is_match, Matches};
ghost use Rattle.binlog_filters.specs.TakenLines.{WritesTaken};
ghost use Rattle.binlog_filters.specs.declared.filtered.Filtered.{Filtered};

use crate::filtered::Filtered;
use binlog_file::WriteCounted;
use binlog_visits::{ItemLines, LineWriter, Visitor};

/// The lines of what a filter takes. If the visits of items, one after another, are Ok, the output has grown by the lines of
/// the items that the filter takes, in order, each with its index in the log.
pub fn taken_lines<L: ItemLines, W: WriteCounted>()
    ensures { (maps : TableMaps) (index : ℕ) (items : List (Result EventView Error)) (old new : Filtered (LineWriter L W))
        → Visits ⟦<Filtered<LineWriter<L, W>> as Visitor>⟧.visits maps index items old new
        → WritesTaken (λ maps index item line. line ≡ L.line index item) old.filter old.place.position old.state maps index items (W.contents old.visitor.output) (W.contents new.visitor.output) }
{}

/// A name matches a pattern exactly if it is made of the parts for which the pattern's bytes stand, one after another: any bytes for
/// a `*`, one byte for a `?`, and the byte itself for any other one.
pub fn patterns_match()
    ensures { (pattern name : List ℕ) → (is_match pattern name ≡ true ↔ Matches pattern name) }
{}
