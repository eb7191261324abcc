//! Writes the lines of the events inside compressed transactions.
ghost use Rattle.std.specs.Prelude.{◌≡◌, option_copied, Ok, IfErr, IfOk};
ghost use Rattle.binlog_wire.specs.declared.error.Error.TheVariants.{Memory};
ghost use Rattle.binlog_events.specs.EventRefs.{view_of};
ghost use Rattle.binlog_filters.specs.RowEvents.{rows_event_of};
ghost use Rattle.binlog_json_lines.specs.Contradicted.{ShowsPart};
ghost use Rattle.binlog_json_lines.specs.Options.{options_of};
ghost use Rattle.binlog_json_lines.specs.ReadRows.{map_of_rows};
ghost use Rattle.binlog_payload_visits.specs.PartMaps.{maps_of};

use crate::lines::JsonLines;
use crate::options::LineOptions;
use crate::part_members::PartPlace;
use crate::rows_read::{read_rows, rows_of_read};
use crate::writer::{JsonWriter, note};
use binlog_declared_columns::Contradictions;
use binlog_file::{CountedRef, Error, EventRef, RowsEventData, TableMapEvent};
use binlog_payload_visits::{PartTableMaps, PartVisitor};
use binlog_payloads::PayloadError;
use binlog_visits::write_line;
use std::alloc::Global;
use std::io::Write;

// The table map in force inside a compressed transaction for the table id of a row event, if one was read.
fn part_table_map<'a, 'c>(
    rows: Option<&RowsEventData<'_>>,
    maps: &'a PartTableMaps<'c>,
) -> Option<&'a TableMapEvent<'c>>
    ensures { option_copied result ≡ map_of_rows (maps_of maps.now) (option_copied rows.entry) }
{
    match rows {
        Some(rows) => maps.get(rows.table_id()),
        None => None,
    }
}

// The line of an event inside, of whose data these rows were read, by the table map in force. The column of its table that contradicts
// the files is noted.
fn line_of_rows<'a>(
    lines: &'a mut JsonLines,
    contradictions: &mut Contradictions,
    alloc: Global,
    place: PartPlace,
    event: &EventRef<'_>,
    rows: Option<&RowsEventData<'_>>,
    maps: &PartTableMaps<'_>,
    options: &LineOptions,
) -> Result<&'a [u8], Error>
    requires { option_copied rows ≡ rows_event_of (view_of event.now) }
    ensures shown { IfOk result (λ text. ShowsPart (options_of options.now) (maps_of maps.now) place.index place.number (Ok (view_of event.now)) contradictions.old contradictions.new text.now) }
    ensures memory { IfErr result (λ e. e ≡ Memory) }
{
    let table_map = part_table_map(rows, maps);
    let line = lines.part_line_of(alloc, place, event, rows, table_map, options)?;
    note(contradictions, table_map, line.contradiction)?;
    Ok(line.text)
}

// The same, of an event whose data is read if it is a row event.
fn part_line<'a>(
    lines: &'a mut JsonLines,
    contradictions: &mut Contradictions,
    alloc: Global,
    place: PartPlace,
    event: &EventRef<'_>,
    maps: &PartTableMaps<'_>,
    options: &LineOptions,
) -> Result<&'a [u8], Error>
    ensures shown { IfOk result (λ text. ShowsPart (options_of options.now) (maps_of maps.now) place.index place.number (Ok (view_of event.now)) contradictions.old contradictions.new text.now) }
    ensures memory { IfErr result (λ e. e ≡ Memory) }
{
    let read = read_rows(alloc, event);
    let rows = rows_of_read(&read);
    let line = line_of_rows(
        lines,
        contradictions,
        alloc,
        place,
        event,
        rows,
        maps,
        options,
    );
    drop(read);
    line
}

/// A visit writes the line of the part, and notes an error, and a table that contradicts the files of columns. It is refused as the
/// visit of an item is.
impl<W: Write> PartVisitor for JsonWriter<W> {
    ghost use Rattle.std.specs.Prelude.{◌≡◌, ◌||◌, is_err, ℕ, Option};
    ghost use Rattle.binlog_json_lines.specs.PartLines.{WritesPartLine, WritesNoPartLine, map_of_part};
    ghost use Rattle.binlog_json_lines.specs.Options.{options_of};
    ghost use Rattle.binlog_json_lines.specs.Contradicted.{NotesIf};

    ghost visits_part = { λ old maps index number part new. (contradiction : Option ℕ)
        × WritesPartLine (options_of old.options) maps index number part contradiction (W.contents old.output) (W.contents new.output)
        × NotesIf contradiction (map_of_part maps part) old.contradictions new.contradictions
        × (new.has_errors ≡ (old.has_errors || is_err part)) × (new.options ≡ old.options) };

    ghost refuses_part = { λ old maps index number part error new.
        WritesNoPartLine (options_of old.options) maps index number part (W.contents old.output) error (W.contents new.output)
        × (new.has_errors ≡ old.has_errors) × (new.options ≡ old.options) };

    fn visit_part(
        &mut self,
        index: u64,
        number: u64,
        event: &EventRef<'_>,
        maps: &PartTableMaps<'_>,
    ) -> Result<(), Error> {
        let place = PartPlace { index, number };
        let text = part_line(
            &mut self.lines,
            &mut self.contradictions,
            self.alloc,
            place,
            event,
            maps,
            &self.options,
        )?;
        let mut output = CountedRef::new(&mut self.output);
        write_line(&mut output, text)
    }

    fn visit_part_error(
        &mut self,
        index: u64,
        number: u64,
        error: &PayloadError,
        _maps: &PartTableMaps<'_>,
    ) -> Result<(), Error> {
        let place = PartPlace { index, number };
        let line = self.lines.part_error_line(place, error)?;
        let mut output = CountedRef::new(&mut self.output);
        write_line(&mut output, line)?;
        self.has_errors = true;
        Ok(())
    }
}
