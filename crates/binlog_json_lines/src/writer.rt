//! A visitor that writes the line of each item.
ghost use Rattle.std.specs.Prelude.{◌≡◌, true, false, [], option_copied, Ok, IfErr, IfOk, OnOk};
ghost use Rattle.binlog_wire.specs.declared.error.Error.TheVariants.{Memory};
ghost use Rattle.binlog_consts.specs.EventTypes.{event_type_of};
ghost use Rattle.binlog_event_format.specs.Headers.{header_of};
ghost use Rattle.binlog_events.specs.EventRefs.{view_of};
ghost use Rattle.binlog_file.specs.State.{state_of};
ghost use Rattle.binlog_filters.specs.RowEvents.{is_of_rows, rows_event_of};
ghost use Rattle.binlog_json_lines.specs.Contradicted.{NotesIf, ShowsItem};
ghost use Rattle.binlog_json_lines.specs.Options.{options_of};
ghost use Rattle.binlog_json_lines.specs.ReadRows.{map_of_rows};

use crate::lines::JsonLines;
use crate::options::LineOptions;
use crate::rows_read::{read_rows, rows_of_read};
use binlog_declared_columns::Contradictions;
use binlog_file::{CountedRef, Error, EventRef, EventStreamReader, RowsEventData, TableMapEvent};
use binlog_filters::is_row_event;
use binlog_visits::{Refusing, Visitor, write_line};
use std::alloc::Global;
use std::io::Write;

/// Writes the line of JSON of each item that it visits. The output isn't flushed.
#[derive(Drop)]
pub struct JsonWriter<W> {
    pub(crate) alloc: Global,
    pub(crate) lines: JsonLines,
    pub(crate) output: W,
    pub(crate) options: LineOptions,
    pub(crate) contradictions: Contradictions,
    pub(crate) has_errors: bool,
}

impl<W> JsonWriter<W> {
    /// Writes to this output. The lines of row events show what these options say. Nothing is allocated.
    pub fn new(alloc: Global, output: W, options: LineOptions) -> Self
        ensures output { result.output ≡ output }
        ensures options { result.options ≡ options }
        ensures none { result.contradictions.columns.entries ≡ [] }
        ensures errors { result.has_errors ≡ false }
    {
        JsonWriter {
            alloc,
            lines: JsonLines::new(alloc),
            output,
            options,
            contradictions: Contradictions::new(alloc),
            has_errors: false,
        }
    }

    /// Whether an item so far was an error in the place of an event.
    pub fn has_errors(&self) -> bool
        ensures { result ≡ self.now.has_errors }
    {
        self.has_errors
    }

    /// The tables so far that contradict the files of columns: each once, with the first column of the first row event in which one
    /// did. Its memory is that of one name for each table of the files, at most.
    pub fn contradictions(&self) -> &Contradictions
        ensures { result.now ≡ self.now.contradictions }
    {
        &self.contradictions
    }

    /// The output.
    pub fn into_output(self) -> W
        ensures { result ≡ self.output }
    {
        self.output
    }
}

// The table map in force for the table id of a row event, if one was read.
fn table_map<'a>(
    rows: Option<&RowsEventData<'_>>,
    reader: &'a EventStreamReader,
) -> Option<&'a TableMapEvent<'static>>
    ensures { option_copied result ≡ map_of_rows (state_of reader.now).table_maps (option_copied rows.entry) }
{
    match rows {
        Some(rows) => reader.get_tme(rows.table_id()),
        None => None,
    }
}

/// Notes the column of the table of this table map that contradicts the files, if one does.
#[inline(always)]
pub(crate) fn note(
    contradictions: &mut Contradictions,
    table_map: Option<&TableMapEvent<'_>>,
    contradiction: Option<usize>,
) -> Result<(), Error>
    ensures noted { OnOk result (NotesIf contradiction (option_copied table_map.entry) contradictions.old contradictions.new) }
    ensures memory { IfErr result (λ e. e ≡ Memory) }
{
    let Some(column) = contradiction else {
        return Ok(());
    };
    let Some(table_map) = table_map else {
        return Ok(());
    };
    let (schema, table) = (table_map.database_name_raw(), table_map.table_name_raw());
    contradictions.note(schema, table, column)?;
    Ok(())
}

// The line of a row event, of whose data these rows were read, by the table map in force. The column of its table that contradicts the
// files is noted.
fn line_of_rows<'a>(
    lines: &'a mut JsonLines,
    contradictions: &mut Contradictions,
    alloc: Global,
    index: u64,
    event: &EventRef<'_>,
    rows: Option<&RowsEventData<'_>>,
    reader: &EventStreamReader,
    options: &LineOptions,
) -> Result<&'a [u8], Error>
    requires rows { is_of_rows (event_type_of (header_of (view_of event.now).frame).event_type) ≡ true }
    requires read { option_copied rows ≡ rows_event_of (view_of event.now) }
    ensures shown { IfOk result (λ text. ShowsItem (options_of options.now) (state_of reader.now).table_maps index (Ok (view_of event.now)) contradictions.old contradictions.new text.now) }
    ensures memory { IfErr result (λ e. e ≡ Memory) }
{
    let table_map = table_map(rows, reader);
    let line = lines.rows_line(alloc, index, event, rows, table_map, options)?;
    note(contradictions, table_map, line.contradiction)?;
    Ok(line.text)
}

// The same, of a row event whose data is read.
#[inline(never)]
fn line_with_rows<'a>(
    lines: &'a mut JsonLines,
    contradictions: &mut Contradictions,
    alloc: Global,
    index: u64,
    event: &EventRef<'_>,
    reader: &EventStreamReader,
    options: &LineOptions,
) -> Result<&'a [u8], Error>
    requires { is_of_rows (event_type_of (header_of (view_of event.now).frame).event_type) ≡ true }
    ensures shown { IfOk result (λ text. ShowsItem (options_of options.now) (state_of reader.now).table_maps index (Ok (view_of event.now)) contradictions.old contradictions.new text.now) }
    ensures memory { IfErr result (λ e. e ≡ Memory) }
{
    let read = read_rows(alloc, event);
    let rows = rows_of_read(&read);
    let line = line_of_rows(
        lines,
        contradictions,
        alloc,
        index,
        event,
        rows,
        reader,
        options,
    );
    drop(read);
    line
}

// The line of an event, where a row event has its rows. No data but that of row events is looked at before it is written.
#[inline(always)]
fn event_line<'a>(
    lines: &'a mut JsonLines,
    contradictions: &mut Contradictions,
    alloc: Global,
    index: u64,
    event: &EventRef<'_>,
    reader: &EventStreamReader,
    options: &LineOptions,
) -> Result<&'a [u8], Error>
    ensures shown { IfOk result (λ text. ShowsItem (options_of options.now) (state_of reader.now).table_maps index (Ok (view_of event.now)) contradictions.old contradictions.new text.now) }
    ensures memory { IfErr result (λ e. e ≡ Memory) }
{
    if is_row_event(event) {
        line_with_rows(lines, contradictions, alloc, index, event, reader, options)
    } else {
        lines.line_without_rows(alloc, index, event, options.keeps_stored)
    }
}

/// A visit writes the line of the item, and notes an error, and a table that contradicts the files of columns. It is refused with [`Error::Writer`] if the writer failed, which
/// then has a prefix of the line, or with [`Error::Memory`] if an allocation failed for the line; nothing is written then.
/// [`JsonWriter::has_errors`] stays as it was; it isn't said whether the table is noted.
impl<W: Write> Visitor for JsonWriter<W> {
    ghost use Rattle.std.specs.Prelude.{◌≡◌, ◌||◌, is_err, ℕ, Option};
    ghost use Rattle.binlog_json_lines.specs.Lines.{WritesLine, WritesNoLine};
    ghost use Rattle.binlog_json_lines.specs.Options.{options_of};
    ghost use Rattle.binlog_json_lines.specs.Contradicted.{NotesIf, map_of_item};

    ghost visits = { λ old maps index item new. (contradiction : Option ℕ)
        × WritesLine (options_of old.options) maps index item contradiction (W.contents old.output) (W.contents new.output)
        × NotesIf contradiction (map_of_item maps item) old.contradictions new.contradictions
        × (new.has_errors ≡ (old.has_errors || is_err item)) × (new.options ≡ old.options) };

    ghost refuses = { λ old maps index item error new.
        WritesNoLine (options_of old.options) maps index item (W.contents old.output) error (W.contents new.output)
        × (new.has_errors ≡ old.has_errors) × (new.options ≡ old.options) };

    #[inline(always)]
    fn visit_event(
        &mut self,
        index: u64,
        event: &EventRef<'_>,
        reader: &EventStreamReader,
    ) -> Result<(), Error> {
        let text = event_line(
            &mut self.lines,
            &mut self.contradictions,
            self.alloc,
            index,
            event,
            reader,
            &self.options,
        )?;
        let mut output = CountedRef::new(&mut self.output);
        write_line(&mut output, text)
    }

    fn visit_error(
        &mut self,
        index: u64,
        error: &Error,
        _reader: &EventStreamReader,
    ) -> Result<(), Error> {
        let line = self.lines.error_line(index, error)?;
        let mut output = CountedRef::new(&mut self.output);
        write_line(&mut output, line)?;
        self.has_errors = true;
        Ok(())
    }
}

/// Data that can't be read has the number of its error in the line, and is no error of the log.
impl<W> Refusing for JsonWriter<W> {
    fn refused(&self) -> u64 {
        0
    }
}
