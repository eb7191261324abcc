//! The members `table`, `metadata` and `rows`, and `data` behind them.
#![tactic(auto, using(std::proofs::Common::append_assoc))]

ghost use Rattle.std.specs.Prelude.{◌≡◌, ◌||◌, ◌++◌, [], ◌∷◌, codes, Bool, map, not, None, Some, option_copied, IfOk};
ghost use Rattle.json.specs.Token.{key};
ghost use Rattle.json_line.specs.Tokens.{Adds, member, text_value};
ghost use Rattle.binlog_wire.specs.Fields.{IsBytes};
ghost use Rattle.binlog_events.specs.EventRefs.{view_of};
ghost use Rattle.binlog_rows.specs.RowsData.{event_in};
ghost use Rattle.binlog_columns.specs.Columns.{typed_of};
ghost use Rattle.binlog_columns.specs.Refusals.{refusal};
ghost use Rattle.binlog_columns.specs.TableColumns.{columns_of};
ghost use Rattle.binlog_images.specs.Events.{mapped_columns};
ghost use Rattle.binlog_json_values.specs.Written.{HasImages};
ghost use Rattle.binlog_rows.specs.declared.table_map_event.TableMapEvent.{TableMapEvent};
ghost use Rattle.binlog_json_lines.specs.RowMembers.{name_of, nothing_shown, unmapped_members, rows_error, map_for, ShowsStatedRows, AreRowsMembers, AreEventMembers};
ghost use Rattle.binlog_json_lines.specs.RowsAndData.{AreRowsAndData};
ghost use Rattle.binlog_json_lines.specs.Options.{options_of};
ghost use Rattle.binlog_json_lines.specs.Refusals.{metadata_member, refusal_value};
ghost use Rattle.binlog_filters.specs.RowEvents.{rows_event_of};
ghost use Rattle.binlog_json_bodies.specs.Shown.{ShowsBy};

use crate::event_members::write_data_member;
use crate::kept_tables::{KeptTable, KeptTables, collected};
use crate::options::LineOptions;
use crate::refusals::{write_metadata_refusal, write_refusal};
use binlog_columns::{Column, TableColumns};
use binlog_declared_columns::table_facts;
use binlog_events::EventRef;
use binlog_images::{Rows, RowsEventError, RowsEventExt};
use binlog_json_bodies::write_row_event;
use binlog_json_values::{RowImages, ValueWriter};
use binlog_mariadb::is_maria_log;
use binlog_optional_metadata::{OptionalMetadataError, TableMapColumns};
use binlog_rows::{RowsEventData, TableMapEvent};
use column_files::DeclaredTables;
use json_line::Line;
use std::alloc::{AllocError, Global};

/// What is shown of the rows of an event.
#[derive(Clone, Copy)]
pub(crate) struct ShownRows {
    /// Whether all rows are shown: false if one is refused, or if they can't be read at all.
    pub(crate) all_read: bool,
    /// The index of the first column that contradicts the file of columns, counted from 0.
    pub(crate) contradiction: Option<usize>,
}

impl ShownRows {
    // Of rows that can't be read at all, and of what isn't a row event.
    fn nothing() -> Self
        ensures { result ≡ nothing_shown }
    {
        ShownRows {
            all_read: false,
            contradiction: None,
        }
    }
}

/// Writes the rows of row events, in memory that is reused from event to event.
#[derive(Drop)]
pub struct RowsWriter {
    values: ValueWriter,
    name: Vec<u8>,
    tables: KeptTables,
}

// Writes the members of an event without a table map in force.
fn write_unmapped(line: &mut Line) -> Result<(), AllocError>
    ensures { Adds result line.old line.new unmapped_members }
{
    line.key("table")?;
    line.null()?;
    line.key("rows")?;
    line.null()
}

// Bytes are below 256, which is a premise of how they split into rows.
fn are_bytes(bytes: &[u8])
    ensures { IsBytes bytes.now }
{}

/// Writes the member `metadata` for the first field of a table map's optional metadata that is refused; nothing if none is.
///
/// # Errors
///
/// [`AllocError`] if an allocation fails.
pub fn write_metadata(
    line: &mut Line,
    refusal: &Option<OptionalMetadataError>,
) -> Result<(), AllocError>
    ensures { Adds result line.old line.new (metadata_member refusal.now) }
{
    match refusal {
        Some(error) => {
            line.key("metadata")?;
            write_metadata_refusal(line, error)
        }
        None => Ok(()),
    }
}

// The table map, if it is of the table id of the event.
fn map_for<'a, 'b>(
    event: &RowsEventData<'_>,
    table_map: Option<&'a TableMapEvent<'b>>,
) -> Option<&'a TableMapEvent<'b>>
    ensures { option_copied result ≡ map_for (event_in event.now) (option_copied table_map.entry) }
{
    match table_map {
        Some(table_map) if table_map.table_id() == event.table_id() => Some(table_map),
        _ => None,
    }
}

// Writes the member `rows` of rows that can't be read at all.
fn write_refused(line: &mut Line, error: &RowsEventError) -> Result<ShownRows, AllocError>
    ensures { IfOk result (λ shown. (shown ≡ nothing_shown) × (line.new ≡ line.old ++ member (codes "rows") (refusal_value error.now))) }
{
    line.key("rows")?;
    write_refusal(line, error)?;
    Ok(ShownRows::nothing())
}

// Whether the data of a row event has the stored bytes of its rows.
fn has_stored_rows(keeps_stored: bool, all_read: bool) -> bool
    ensures { result ≡ (keeps_stored || not all_read) }
{
    keeps_stored || !all_read
}

impl RowsWriter {
    ghost use Rattle.binlog_json_lines.specs.KeptTables.{IsOf};
    ghost use Rattle.binlog_json_lines.specs.KeptRows.{ShowsKept};

    /// A writer. Nothing is allocated.
    pub fn new(alloc: Global) -> Self {
        RowsWriter {
            values: ValueWriter::new(alloc),
            name: Vec::new(alloc),
            tables: KeptTables::new(alloc),
        }
    }

    /// Writes the members `table` and `rows` of a row event, and between them `metadata` where a field of the table map's
    /// optional metadata is refused, and behind them `data`; `data` alone of an event of another type, or one whose data isn't that
    /// of a row event. `rows` is what was read of its data. The table map is the one in force for the event's table id; one of
    /// another table id counts as none. The memory that is taken is that of a value's text, and of columns and their facts, which
    /// are kept for at most 16 tables.
    ///
    /// What the table map doesn't state of columns is what the options' files declare of them, unless the table contradicts that. The
    /// result is the column that does.
    ///
    /// # Errors
    ///
    /// [`AllocError`] if an allocation fails. Some tokens may then have been written.
    pub(crate) fn write_members(
        &mut self,
        line: &mut Line,
        alloc: Global,
        event: &EventRef<'_>,
        rows: Option<&RowsEventData<'_>>,
        table_map: Option<&TableMapEvent<'_>>,
        options: &LineOptions,
    ) -> Result<Option<usize>, AllocError>
        requires { option_copied rows ≡ rows_event_of (view_of event.now) }
        ensures { ShowsBy result line.old line.new (AreRowsAndData (options_of options.now) (option_copied table_map.entry) (view_of event.now)) }
    {
        match rows {
            Some(body) => self.write_read_rows(line, alloc, event, body, table_map, options),
            None => {
                write_data_member(line, alloc, event)?;
                Ok(None)
            }
        }
    }

    // Writes the members of a row event whose data is this body.
    fn write_read_rows(
        &mut self,
        line: &mut Line,
        alloc: Global,
        event: &EventRef<'_>,
        body: &RowsEventData<'_>,
        table_map: Option<&TableMapEvent<'_>>,
        options: &LineOptions,
    ) -> Result<Option<usize>, AllocError>
        requires { rows_event_of (view_of event.now) ≡ Some body.now }
        ensures { ShowsBy result line.old line.new (AreRowsAndData (options_of options.now) (option_copied table_map.entry) (view_of event.now)) }
    {
        let shown = self.write_event(
            line,
            alloc,
            body,
            map_for(body, table_map),
            is_maria_log(&event.fde()),
            &options.files,
        )?;
        let has_stored_rows = has_stored_rows(options.keeps_stored, shown.all_read);
        line.key("data")?;
        write_row_event(line, body, has_stored_rows)?;
        Ok(shown.contradiction)
    }

    // Writes the members of a row event.
    fn write_event(
        &mut self,
        line: &mut Line,
        alloc: Global,
        body: &RowsEventData<'_>,
        table_map: Option<&TableMapEvent<'_>>,
        is_maria_log: bool,
        files: &[DeclaredTables],
    ) -> Result<ShownRows, AllocError>
        ensures { ShowsBy result line.old line.new (AreEventMembers files.now is_maria_log body.now (option_copied table_map.entry)) }
    {
        let Some(table_map) = table_map else {
            write_unmapped(line)?;
            return Ok(ShownRows::nothing());
        };
        line.key("table")?;
        self.write_name(line, table_map)?;
        self.write_rows(line, alloc, body, table_map, is_maria_log, files)
    }

    // Writes the name of a table, with that of its schema.
    fn write_name(
        &mut self,
        line: &mut Line,
        table_map: &TableMapEvent<'_>,
    ) -> Result<(), AllocError>
        ensures { Adds result line.old line.new (text_value (name_of table_map.now)) }
    {
        self.name.clear();
        self.name.extend_from_slice(table_map.database_name_raw())?;
        self.name.push(b'.').map_err(AllocError::from)?;
        self.name.extend_from_slice(table_map.table_name_raw())?;
        line.text(&self.name)
    }

    // Writes the members behind the name of the table.
    fn write_rows(
        &mut self,
        line: &mut Line,
        alloc: Global,
        body: &RowsEventData<'_>,
        table_map: &TableMapEvent<'_>,
        is_maria_log: bool,
        files: &[DeclaredTables],
    ) -> Result<ShownRows, AllocError>
        ensures { ShowsBy result line.old line.new (AreRowsMembers files.now is_maria_log body.now table_map.now (rows_error table_map.now body.now)) }
    {
        let table_id = body.table_id();
        if table_id != table_map.table_id() {
            return write_refused(line, &RowsEventError::NoTableMap(table_id));
        }
        if files.is_empty() {
            return self.write_stated_rows(line, alloc, body, table_map, is_maria_log);
        }
        match table_map.table_columns() {
            Ok(columns) => {
                let columns = collected(alloc, columns)?;
                self.write_table_rows(line, alloc, body, &columns, table_map, is_maria_log, files)
            }
            Err(error) => write_refused(line, &RowsEventError::Columns(error)),
        }
    }

    // Writes the same, of an event of the table of this table map, where no file declares columns. What the table map states is kept
    // where the event before was of this table, too.
    fn write_stated_rows(
        &mut self,
        line: &mut Line,
        alloc: Global,
        body: &RowsEventData<'_>,
        table_map: &TableMapEvent<'_>,
        is_maria_log: bool,
    ) -> Result<ShownRows, AllocError>
        requires { (event_in body.now).head.table_id ≡ table_map.now.table.id }
        ensures { ShowsBy result line.old line.new (AreRowsMembers [] is_maria_log body.now table_map.now (rows_error table_map.now body.now)) }
    {
        if self.tables.is_repeated(body.table_id()) {
            return self.write_repeated_rows(line, alloc, body, table_map, is_maria_log);
        }
        match table_map.table_columns() {
            Ok(columns) => {
                let columns = collected(alloc, columns)?;
                self.write_table_rows(line, alloc, body, &columns, table_map, is_maria_log, &[])
            }
            Err(_) => self.write_repeated_rows(line, alloc, body, table_map, is_maria_log),
        }
    }

    // Writes the same, and keeps what the table map states for the table's next event.
    fn write_repeated_rows(
        &mut self,
        line: &mut Line,
        alloc: Global,
        body: &RowsEventData<'_>,
        table_map: &TableMapEvent<'_>,
        is_maria_log: bool,
    ) -> Result<ShownRows, AllocError>
        requires { (event_in body.now).head.table_id ≡ table_map.now.table.id }
        ensures { ShowsBy result line.old line.new (AreRowsMembers [] is_maria_log body.now table_map.now (rows_error table_map.now body.now)) }
    {
        match self.tables.take(alloc, table_map, is_maria_log)? {
            Ok(table) => {
                let written = self.write_kept_table(line, body, &table)?;
                self.tables.put(body.table_id(), table)?;
                Ok(written)
            }
            Err(error) => write_refused(line, &RowsEventError::Columns(error)),
        }
    }

    // Writes the same, of an event of a table that is kept.
    fn write_kept_table(
        &mut self,
        line: &mut Line,
        body: &RowsEventData<'_>,
        table: &KeptTable,
    ) -> Result<ShownRows, AllocError>
        ensures { (is_maria_log : Bool) (of : TableMapEvent) → IsOf table.now is_maria_log of → (event_in body.now).head.table_id ≡ of.table.id
            → ShowsBy result line.old line.new (AreRowsMembers [] is_maria_log body.now of (rows_error of body.now)) }
    {
        are_bytes(body.rows_data());
        are_bytes(table.optional_metadata_raw());
        let images = RowImages {
            before: body.columns_before_image().is_some(),
            after: body.columns_after_image().is_some(),
        };
        match body.rows_of_table(TableColumns::known(&table.columns)) {
            Ok(rows) => self.write_kept_rows(line, images, rows, table),
            Err(error) => write_refused(line, &error),
        }
    }

    // Writes what is refused of the metadata of a table that is kept, and the rows into which the bytes of an event split.
    fn write_kept_rows(
        &mut self,
        line: &mut Line,
        images: RowImages,
        rows: Rows<'_>,
        table: &KeptTable,
    ) -> Result<ShownRows, AllocError>
        requires { HasImages images.before images.after rows }
        ensures { IsBytes rows.entry.rest.now → IfOk result (λ shown. (shown.contradiction ≡ None) × ShowsKept table.now rows.entry shown.all_read line.old line.new) }
    {
        write_metadata(line, &table.refused)?;
        line.key("rows")?;
        let all_read = self
            .values
            .write_kept_rows(line, &table.known, images, rows)?;
        Ok(ShownRows {
            all_read,
            contradiction: None,
        })
    }

    // Writes the same, of an event of the table of this table map, which has these columns.
    fn write_table_rows(
        &mut self,
        line: &mut Line,
        alloc: Global,
        body: &RowsEventData<'_>,
        columns: &[Column],
        table_map: &TableMapEvent<'_>,
        is_maria_log: bool,
        files: &[DeclaredTables],
    ) -> Result<ShownRows, AllocError>
        requires id { (event_in body.now).head.table_id ≡ table_map.now.table.id }
        requires whole { refusal 0 table_map.now.columns.types table_map.now.columns.metadata ≡ None }
        requires columns { map typed_of columns.now ≡ mapped_columns table_map.now }
        ensures { ShowsBy result line.old line.new (AreRowsMembers files.now is_maria_log body.now table_map.now (rows_error table_map.now body.now)) }
    {
        are_bytes(body.rows_data());
        match body.rows_of_table(TableColumns::known(columns)) {
            Ok(rows) => self.write_split_rows(line, alloc, rows, table_map, is_maria_log, files),
            Err(error) => write_refused(line, &error),
        }
    }

    // Writes what is refused of the table's metadata, and the rows into which the bytes of an event split, with what the table
    // map and files of columns state of their columns.
    fn write_split_rows(
        &mut self,
        line: &mut Line,
        alloc: Global,
        rows: Rows<'_>,
        table_map: &TableMapEvent<'_>,
        is_maria_log: bool,
        files: &[DeclaredTables],
    ) -> Result<ShownRows, AllocError>
        requires { refusal 0 table_map.now.columns.types table_map.now.columns.metadata ≡ None }
        ensures { IsBytes rows.entry.rest.now → IfOk result (λ shown. ShowsStatedRows files.now is_maria_log table_map.now rows.entry shown line.old line.new) }
    {
        let (facts, contradiction) = table_facts(
            alloc,
            files,
            table_map.database_name_raw(),
            table_map.table_name_raw(),
            table_map.table_columns().unwrap(),
            table_map.optional_metadata_raw(),
            is_maria_log,
        )?;
        write_metadata(line, &facts.refusal)?;
        line.key("rows")?;
        let all_read = self.values.write_rows(line, &facts.columns, rows)?;
        Ok(ShownRows {
            all_read,
            contradiction,
        })
    }
}
