//! A visitor that writes what is written for each item.
ghost use Rattle.std.specs.Prelude.{◌≡◌, [], None, Ok, option_copied, IfErr, OnOk};
ghost use Rattle.binlog_wire.specs.declared.error.Error.TheVariants.{Memory};
ghost use Rattle.binlog_events.specs.EventRefs.{view_of};
ghost use Rattle.binlog_file.specs.LogData.{ReadsLogData};
ghost use Rattle.binlog_file.specs.State.{state_of};
ghost use Rattle.binlog_visits.specs.Visits.{IsNoReaderError};
ghost use Rattle.binlog_json_lines.specs.Contradicted.{NotesIf};
ghost use Rattle.binlog_json_lines.specs.ReadRows.{map_of_rows};
ghost use Rattle.binlog_change_lines.specs.Written.{BeginsFile, KeepsWritten, WritesItem, RefusesItem};

use crate::change_lines::ChangeLines;
use crate::heads::EventPlace;
use crate::rows_read::rows_read;
use binlog_declared_columns::Contradictions;
use binlog_file::{
    CountedRef, Error, EventRef, EventStreamReader, LogEventData, RowsEventData, TableMapEvent,
    read_log_data,
};
use binlog_json_lines::LineOptions;
use binlog_visits::{Refusing, Visitor, write_line};
use std::alloc::{AllocError, Global};
use std::io::Write;

/// Writes the lines of the rows of each event that it visits, as [`ChangeLines`] makes them, and the line of each error. A
/// [`ChangeFilter`](crate::ChangeFilter) shows it the events of a log. The output isn't flushed.
#[derive(Drop)]
pub struct ChangeWriter<W> {
    pub(crate) alloc: Global,
    pub(crate) lines: ChangeLines,
    pub(crate) output: W,
    pub(crate) options: LineOptions,
    pub(crate) contradictions: Contradictions,
    /// The name of the file.
    pub(crate) file: String,
    /// Where the event that is visited begins in the file, if that is known.
    pub(crate) position: Option<u64>,
    /// The text of the GTID of its transaction; empty if it has none.
    pub(crate) gtid: String,
}

impl<W> ChangeWriter<W> {
    /// Writes to this output. The files of columns are those of these options. Nothing is allocated.
    pub(crate) fn new(alloc: Global, output: W, options: LineOptions) -> Self
        ensures output { result.output ≡ output }
        ensures options { result.options ≡ options }
        ensures none { result.contradictions.columns.entries ≡ [] }
    {
        ChangeWriter {
            alloc,
            lines: ChangeLines::new(alloc),
            output,
            options,
            contradictions: Contradictions::new(alloc),
            file: String::new(alloc),
            position: None,
            gtid: String::new(alloc),
        }
    }

    /// Begins with the file of this name, in which no transaction has begun.
    ///
    /// # Errors
    ///
    /// [`AllocError`] if an allocation fails. Nothing is written then, and nothing that is noted is lost.
    pub(crate) fn begin(&mut self, file: &str) -> Result<(), AllocError>
        ensures ok { OnOk result (BeginsFile file.now self.old self.new) }
        ensures kept { KeepsWritten self.old self.new }
    {
        self.position = None;
        self.gtid.clear();
        self.file.clear();
        self.file.push_str(file)
    }
}

// The table map in force for the table id of a row event, if one was read.
fn table_map<'a>(
    rows: Option<&RowsEventData<'_>>,
    reader: &'a EventStreamReader,
) -> Option<&'a TableMapEvent<'static>>
    ensures { option_copied result ≡ map_of_rows (state_of reader.now).table_maps (option_copied rows.entry) }
{
    match rows {
        Some(rows) => reader.get_tme(rows.table_id()),
        None => None,
    }
}

/// Notes the column of the table of this table map that contradicts the files, if one does.
pub(crate) fn note(
    contradictions: &mut Contradictions,
    table_map: Option<&TableMapEvent<'_>>,
    contradiction: Option<usize>,
) -> Result<(), Error>
    ensures noted { OnOk result (NotesIf contradiction (option_copied table_map.entry) contradictions.old contradictions.new) }
    ensures memory { IfErr result (λ e. e ≡ Memory) }
{
    let Some(column) = contradiction else {
        return Ok(());
    };
    let Some(table_map) = table_map else {
        return Ok(());
    };
    let (schema, table) = (table_map.database_name_raw(), table_map.table_name_raw());
    contradictions.note(schema, table, column)?;
    Ok(())
}

impl<W: Write> ChangeWriter<W> {
    // Visits an event of whose data this was read.
    fn visit_read(
        &mut self,
        index: u64,
        event: &EventRef<'_>,
        read: &Result<Option<LogEventData<'_>>, Error>,
        reader: &EventStreamReader,
    ) -> Result<(), Error>
        requires { ReadsLogData (view_of event.now) read.now }
        ensures ok { OnOk result (WritesItem W.contents self.old (state_of reader.now).table_maps index (Ok (view_of event.now)) self.new) }
        ensures err { IfErr result (λ e. RefusesItem W.contents self.old (state_of reader.now).table_maps index (Ok (view_of event.now)) e self.new) }
        ensures reader { IfErr result IsNoReaderError }
    {
        let table_map = table_map(rows_read(event, read), reader);
        let place = EventPlace {
            file: self.file.as_str(),
            position: self.position,
            part: None,
            gtid: self.gtid.as_str(),
        };
        let line = self.lines.read_text(
            self.alloc,
            &place,
            index,
            event,
            read,
            table_map,
            &self.options,
        )?;
        note(&mut self.contradictions, table_map, line.contradiction)?;
        let mut output = CountedRef::new(&mut self.output);
        write_line(&mut output, line.text)
    }
}

/// A visit writes the text of the item. It is refused with [`Error::Writer`] if the writer failed, which then has a prefix of the text,
/// or with [`Error::Memory`] if an allocation failed for the text; nothing is written then.
impl<W: Write> Visitor for ChangeWriter<W> {
    ghost use Rattle.binlog_change_lines.specs.Written.{WritesItem, RefusesItem};

    ghost visits = { λ old maps index item new. WritesItem W.contents old maps index item new };

    ghost refuses = { λ old maps index item error new. RefusesItem W.contents old maps index item error new };

    #[inline(always)]
    fn visit_event(
        &mut self,
        index: u64,
        event: &EventRef<'_>,
        reader: &EventStreamReader,
    ) -> Result<(), Error> {
        let read = read_log_data(self.alloc, event);
        let visited = self.visit_read(index, event, &read, reader);
        drop(read);
        visited
    }

    fn visit_error(
        &mut self,
        index: u64,
        error: &Error,
        _reader: &EventStreamReader,
    ) -> Result<(), Error> {
        let line = self.lines.error_line(index, error)?;
        let mut output = CountedRef::new(&mut self.output);
        write_line(&mut output, line)
    }
}
