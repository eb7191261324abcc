//! What is written for an event.
ghost use Rattle.std.specs.Prelude.{◌≡◌, ◌++◌, ℕ, Bool, true, Err, Some, None, codes, map, option_copied, IfErr, IfOk, OnOk};
ghost use Rattle.json.specs.Print.{print};
ghost use Rattle.binlog_wire.specs.Fields.{IsBytes};
ghost use Rattle.binlog_wire.specs.declared.error.Error.TheVariants.{Memory};
ghost use Rattle.binlog_columns.specs.Columns.{typed_of};
ghost use Rattle.binlog_columns.specs.Refusals.{refusal};
ghost use Rattle.binlog_columns.specs.TableColumns.{columns_of};
ghost use Rattle.binlog_events.specs.EventRefs.{view_of};
ghost use Rattle.binlog_file.specs.LogData.{ReadsLogData};
ghost use Rattle.binlog_images.specs.Events.{mapped_columns, event_error};
ghost use Rattle.binlog_images.specs.EventRows.{is_partial, AreRowsOf};
ghost use Rattle.binlog_rows.specs.RowsData.{event_in};
ghost use Rattle.binlog_json_lines.specs.Lines.{IsLine};
ghost use Rattle.binlog_json_lines.specs.Options.{options_of};
ghost use Rattle.binlog_json_lines.specs.PartLines.{part_error_object};
ghost use Rattle.binlog_change_lines.specs.EventTexts.{has_line, ShowsSomeRows, ShowsRows, ShowsIf, ShowsRead, ShowsEvent, IsEventText, IsPartText, rows_in};
ghost use Rattle.binlog_change_lines.specs.Heads.{place_of};
ghost use Rattle.binlog_change_lines.specs.Mapped.{ShowsMapped};

use crate::heads::EventPlace;
use crate::row_lines::{RowLines, RowsHead};
use binlog_columns::{Column, TableColumns};
use binlog_declared_columns::table_facts;
use binlog_file::{
    Error, EventData, EventRef, LogEventData, RowsEventData, TableMapEvent, read_log_data,
};
use binlog_images::{Rows, RowsEventExt};
use binlog_json_lines::{EventLine, JsonLines, LineOptions, PartPlace};
use binlog_mariadb::{MariaEventData, is_maria_log};
use binlog_optional_metadata::TableMapColumns;
use binlog_payloads::PayloadError;
use column_files::DeclaredTables;
use std::alloc::{AllocError, Global};

/// What is shown of an event.
#[derive(Clone, Copy)]
pub(crate) enum Shown {
    /// Nothing.
    Nothing,
    /// The lines of its rows. The index is that of the first column that contradicts the files of columns, counted from 0.
    Rows(Option<usize>),
    /// Its whole line.
    Whole,
}

/// Makes what is written for the events of a log, in memory that is reused from event to event.
#[derive(Drop)]
pub struct ChangeLines {
    rows: RowLines,
    lines: JsonLines,
}

// Bytes are below 256, which is a premise of how they split into rows.
fn are_bytes(bytes: &[u8])
    ensures { IsBytes bytes.now }
{}

// Whether an event with this data, which isn't a row event, has its line: its rows aren't read, those of old servers and compressed ones,
// or it says that events are lost, or that all behind it are encrypted.
fn has_line(data: &LogEventData<'_>) -> bool
    ensures { result ≡ has_line data.now }
{
    match data {
        LogEventData::Mysql(
            EventData::PreGaWriteRowsEvent(_)
            | EventData::PreGaUpdateRowsEvent(_)
            | EventData::PreGaDeleteRowsEvent(_)
            | EventData::IncidentEvent(_),
        ) => true,
        LogEventData::Maria(
            MariaEventData::StartEncryptionEvent(_) | MariaEventData::RowsCompressedEvent(_),
        ) => true,
        _ => false,
    }
}

// The columns, in memory, where each row is read by them.
fn collected(alloc: Global, columns: TableColumns<'_>) -> Result<Vec<Column>, AllocError>
    ensures { IfOk result (λ kept. map typed_of kept.items ≡ columns_of columns.entry) }
{
    let mut kept = Vec::with_capacity(alloc, columns.num_columns())?;
    'columns: for column in columns {
        kept.push(column).map_err(AllocError::from)?;
    }
    Ok(kept)
}

impl ChangeLines {
    /// No text. Nothing is allocated.
    pub fn new(alloc: Global) -> Self {
        ChangeLines {
            rows: RowLines::new(alloc),
            lines: JsonLines::new(alloc),
        }
    }

    /// What is written for an event that stands at this place, its line feeds included: the lines of its rows, if it is a row event and
    /// all of them can be read by the table map, the one in force for its table id. The whole line of [`JsonLines`] if they can't; if it has
    /// no bytes of rows, since rows of no columns have none; if the
    /// event's type is unknown, or its data can't be read; if it has rows that aren't read, those of old servers and MariaDB's
    /// compressed ones; and if it is an INCIDENT, which says that events are lost, or a START_ENCRYPTION of MariaDB's, which says that all
    /// behind it are encrypted. Nothing for any other event; the events inside a compressed transaction have
    /// [texts of their own](ChangeLines::part_text).
    ///
    /// # Errors
    ///
    /// [`Error::Memory`] if an allocation fails.
    pub fn event_text(
        &mut self,
        alloc: Global,
        place: &EventPlace<'_>,
        index: u64,
        event: &EventRef<'_>,
        table_map: Option<&TableMapEvent<'_>>,
        options: &LineOptions,
    ) -> Result<EventLine<'_>, Error>
        ensures text { IfOk result (λ line. IsEventText (options_of options.now) (place_of place.now) (option_copied table_map.entry) index (view_of event.now) line.contradiction line.text.now) }
        ensures memory { IfErr result (λ e. e ≡ Memory) }
    {
        let read = read_log_data(alloc, event);
        let text = self.read_text(alloc, place, index, event, &read, table_map, options);
        drop(read);
        text
    }

    /// The same of an event of whose data this was read.
    pub(crate) fn read_text(
        &mut self,
        alloc: Global,
        place: &EventPlace<'_>,
        index: u64,
        event: &EventRef<'_>,
        read: &Result<Option<LogEventData<'_>>, Error>,
        table_map: Option<&TableMapEvent<'_>>,
        options: &LineOptions,
    ) -> Result<EventLine<'_>, Error>
        requires { ReadsLogData (view_of event.now) read.now }
        ensures text { IfOk result (λ line. IsEventText (options_of options.now) (place_of place.now) (option_copied table_map.entry) index (view_of event.now) line.contradiction line.text.now) }
        ensures memory { IfErr result (λ e. e ≡ Memory) }
    {
        let shown = self.show_event(alloc, place, event, read, table_map, &options.files)?;
        match shown {
            Shown::Nothing => Ok(EventLine {
                text: &[],
                contradiction: None,
            }),
            Shown::Rows(contradiction) => Ok(EventLine {
                text: &self.rows.text,
                contradiction,
            }),
            Shown::Whole => {
                self.lines
                    .event_line_with_rows(alloc, index, event, table_map, options)
            }
        }
    }

    /// What is written for an event inside a compressed transaction, as for one outside. The table map is the one in force for its table
    /// id inside the transaction.
    ///
    /// # Errors
    ///
    /// [`Error::Memory`] if an allocation fails.
    pub fn part_text(
        &mut self,
        alloc: Global,
        place: &EventPlace<'_>,
        part: PartPlace,
        event: &EventRef<'_>,
        table_map: Option<&TableMapEvent<'_>>,
        options: &LineOptions,
    ) -> Result<EventLine<'_>, Error>
        ensures text { IfOk result (λ line. IsPartText (options_of options.now) (place_of place.now) (option_copied table_map.entry) part.index part.number (view_of event.now) line.contradiction line.text.now) }
        ensures memory { IfErr result (λ e. e ≡ Memory) }
    {
        let read = read_log_data(alloc, event);
        let text = self.read_part_text(alloc, place, part, event, &read, table_map, options);
        drop(read);
        text
    }

    /// The same of an event of whose data this was read.
    pub(crate) fn read_part_text(
        &mut self,
        alloc: Global,
        place: &EventPlace<'_>,
        part: PartPlace,
        event: &EventRef<'_>,
        read: &Result<Option<LogEventData<'_>>, Error>,
        table_map: Option<&TableMapEvent<'_>>,
        options: &LineOptions,
    ) -> Result<EventLine<'_>, Error>
        requires { ReadsLogData (view_of event.now) read.now }
        ensures text { IfOk result (λ line. IsPartText (options_of options.now) (place_of place.now) (option_copied table_map.entry) part.index part.number (view_of event.now) line.contradiction line.text.now) }
        ensures memory { IfErr result (λ e. e ≡ Memory) }
    {
        let shown = self.show_event(alloc, place, event, read, table_map, &options.files)?;
        match shown {
            Shown::Nothing => Ok(EventLine {
                text: &[],
                contradiction: None,
            }),
            Shown::Rows(contradiction) => Ok(EventLine {
                text: &self.rows.text,
                contradiction,
            }),
            Shown::Whole => self.lines.part_line(alloc, part, event, table_map, options),
        }
    }

    /// The line of an error that is in the place of an event, as [`JsonLines`] has it.
    ///
    /// # Errors
    ///
    /// [`Error::Memory`] if an allocation fails.
    pub fn error_line(&mut self, index: u64, error: &Error) -> Result<&[u8], Error>
        ensures line { IfOk result (λ text. IsLine index (Err error.now) text.now) }
        ensures memory { IfErr result (λ e. e ≡ Memory) }
    {
        self.lines.error_line(index, error)
    }

    /// The line of an error in the place of an event inside a compressed transaction, or of all, as [`JsonLines`] has it.
    ///
    /// # Errors
    ///
    /// [`Error::Memory`] if an allocation fails.
    pub fn part_error_line(&mut self, part: PartPlace, error: &PayloadError) -> Result<&[u8], Error>
        ensures line { IfOk result (λ text. text.now ≡ print (part_error_object part.index part.number error.now) ++ codes "\n") }
        ensures memory { IfErr result (λ e. e ≡ Memory) }
    {
        self.lines.part_error_line(part, error)
    }

    // Finds out what is shown of an event of whose data this was read, and makes the lines of its rows. The only error is
    // [`Error::Memory`].
    fn show_event(
        &mut self,
        alloc: Global,
        place: &EventPlace<'_>,
        event: &EventRef<'_>,
        read: &Result<Option<LogEventData<'_>>, Error>,
        table_map: Option<&TableMapEvent<'_>>,
        files: &[DeclaredTables],
    ) -> Result<Shown, Error>
        requires { ReadsLogData (view_of event.now) read.now }
        ensures shown { IfOk result (λ shown. ShowsEvent files.now (place_of place.now) (view_of event.now) (option_copied table_map.entry) shown self.new.rows.text.items) }
        ensures memory { IfErr result (λ e. e ≡ Memory) }
    {
        self.show_read(alloc, place, event, read, table_map, files)
    }

    // The same, where it isn't said that the data was read so.
    fn show_read(
        &mut self,
        alloc: Global,
        place: &EventPlace<'_>,
        event: &EventRef<'_>,
        read: &Result<Option<LogEventData<'_>>, Error>,
        table_map: Option<&TableMapEvent<'_>>,
        files: &[DeclaredTables],
    ) -> Result<Shown, Error>
        ensures read { OnOk result (¬ (read.now ≡ Err Memory)) }
        ensures shown { IfOk result (λ shown. ShowsRead files.now (place_of place.now) (view_of event.now) (option_copied table_map.entry) read.now shown self.new.rows.text.items) }
        ensures memory { IfErr result (λ e. e ≡ Memory) }
    {
        match read {
            Ok(Some(data)) => Ok(self.show_data(alloc, place, event, data, table_map, files)?),
            Ok(None) => Ok(Shown::Whole),
            Err(Error::Memory) => Err(Error::Memory),
            Err(_) => Ok(Shown::Whole),
        }
    }

    // The same, of an event with this data.
    fn show_data(
        &mut self,
        alloc: Global,
        place: &EventPlace<'_>,
        event: &EventRef<'_>,
        data: &LogEventData<'_>,
        table_map: Option<&TableMapEvent<'_>>,
        files: &[DeclaredTables],
    ) -> Result<Shown, AllocError>
        ensures { IfOk result (λ shown. ShowsIf files.now (place_of place.now) (view_of event.now) (option_copied table_map.entry) (rows_in data.now) (has_line data.now) shown self.new.rows.text.items) }
    {
        match data {
            LogEventData::Mysql(EventData::RowsEvent(body)) => {
                self.show_rows(alloc, place, event, body, table_map, files)
            }
            _ => Ok(if has_line(data) {
                Shown::Whole
            } else {
                Shown::Nothing
            }),
        }
    }

    // The same, of a row event. Without bytes of rows it may have rows of no columns.
    fn show_rows(
        &mut self,
        alloc: Global,
        place: &EventPlace<'_>,
        event: &EventRef<'_>,
        body: &RowsEventData<'_>,
        table_map: Option<&TableMapEvent<'_>>,
        files: &[DeclaredTables],
    ) -> Result<Shown, AllocError>
        ensures { IfOk result (λ shown. ShowsRows files.now (place_of place.now) (view_of event.now) (option_copied table_map.entry) body.now shown self.new.rows.text.items) }
    {
        if body.rows_data().is_empty() {
            return Ok(Shown::Whole);
        }
        self.show_some_rows(alloc, place, event, body, table_map, files)
    }

    // The same, of a row event with bytes of rows.
    fn show_some_rows(
        &mut self,
        alloc: Global,
        place: &EventPlace<'_>,
        event: &EventRef<'_>,
        body: &RowsEventData<'_>,
        table_map: Option<&TableMapEvent<'_>>,
        files: &[DeclaredTables],
    ) -> Result<Shown, AllocError>
        ensures { IfOk result (λ shown. ShowsSomeRows files.now (place_of place.now) (view_of event.now) (option_copied table_map.entry) true body.now shown self.new.rows.text.items) }
    {
        let Some(table_map) = table_map else {
            return Ok(Shown::Whole);
        };
        let head = RowsHead {
            place,
            time: event.header().timestamp(),
            table_map,
            body,
        };
        self.show_mapped(alloc, &head, is_maria_log(&event.fde()), files)
    }

    // The same, of an event whose table has a table map.
    fn show_mapped(
        &mut self,
        alloc: Global,
        head: &RowsHead<'_, '_>,
        is_maria_log: bool,
        files: &[DeclaredTables],
    ) -> Result<Shown, AllocError>
        ensures { IfOk result (λ shown. ShowsMapped files.now is_maria_log head.now shown self.new.rows.text.items) }
    {
        if head.body.table_id() != head.table_map.table_id() {
            return Ok(Shown::Whole);
        }
        match head.table_map.table_columns() {
            Ok(columns) => {
                let columns = collected(alloc, columns)?;
                self.show_table(alloc, head, &columns, is_maria_log, files)
            }
            Err(_) => Ok(Shown::Whole),
        }
    }

    // The same, of an event of the table of the table map, which has these columns.
    fn show_table(
        &mut self,
        alloc: Global,
        head: &RowsHead<'_, '_>,
        columns: &[Column],
        is_maria_log: bool,
        files: &[DeclaredTables],
    ) -> Result<Shown, AllocError>
        requires id { (event_in head.now.body.now).head.table_id ≡ head.now.table_map.now.table.id }
        requires whole { refusal 0 head.now.table_map.now.columns.types head.now.table_map.now.columns.metadata ≡ None }
        requires columns { map typed_of columns.now ≡ mapped_columns head.now.table_map.now }
        ensures { IfOk result (λ shown. ShowsMapped files.now is_maria_log head.now shown self.new.rows.text.items) }
    {
        are_bytes(head.body.rows_data());
        let columns = TableColumns::known(columns);
        match head.body.rows_of_table(columns) {
            Ok(rows) => self.show_split(alloc, head, columns, rows, is_maria_log, files),
            Err(_) => Ok(Shown::Whole),
        }
    }

    // The same, of an event whose bytes split into rows.
    fn show_split(
        &mut self,
        alloc: Global,
        head: &RowsHead<'_, '_>,
        columns: TableColumns<'_>,
        rows: Rows<'_>,
        is_maria_log: bool,
        files: &[DeclaredTables],
    ) -> Result<Shown, AllocError>
        requires columns { columns_of columns ≡ mapped_columns head.now.table_map.now }
        requires fits { event_error head.now.table_map.now (event_in head.now.body.now) ≡ None }
        requires rows { AreRowsOf (is_partial head.now.body.now) head.now.table_map.now (event_in head.now.body.now) rows }
        requires bytes { IsBytes rows.rest.now }
        ensures { IfOk result (λ shown. ShowsMapped files.now is_maria_log head.now shown self.new.rows.text.items) }
    {
        let (facts, contradiction) = table_facts(
            alloc,
            files,
            head.table_map.database_name_raw(),
            head.table_map.table_name_raw(),
            columns,
            head.table_map.optional_metadata_raw(),
            is_maria_log,
        )?;
        if self.rows.write_rows(head, &facts, rows)? {
            Ok(Shown::Rows(contradiction))
        } else {
            Ok(Shown::Whole)
        }
    }
}
