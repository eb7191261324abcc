//! The line of an item.
#![tactic(auto, using(std::proofs::Common::append_assoc))]

ghost use Rattle.std.specs.Prelude.{◌≡◌, ◌++◌, ℕ, IfErr, IfOk, MatchOption, Ok, Err, codes, option_copied};
ghost use Rattle.json.specs.Print.{print};
ghost use Rattle.json_line.specs.Tokens.{Adds};
ghost use Rattle.binlog_wire.specs.declared.error.Error.TheVariants.{Memory};
ghost use Rattle.binlog_event_format.specs.Headers.{header_of};
ghost use Rattle.binlog_events.specs.EventRefs.{view_of};
ghost use Rattle.binlog_mariadb.specs.EventTypes.{maria_event_type_of};
ghost use Rattle.binlog_filters.specs.RowEvents.{rows_event_of};
ghost use Rattle.binlog_json_lines.specs.ItemLines.{item_line};
ghost use Rattle.binlog_json_lines.specs.Options.{options_of};
ghost use Rattle.binlog_json_bodies.specs.Shown.{Shows, ShowsBy};
ghost use Rattle.binlog_json_lines.specs.Lines.{IsOfMaria, IsOther, type_members, head_members, IsEventObject, IsOwnLine, IsLine, IsRowsObject, IsRowsLine, IsLineWithoutRows, IsLineWith};
ghost use Rattle.binlog_json_lines.specs.PartLines.{IsPartEventLine, part_error_object};
ghost use Rattle.binlog_json_lines.specs.PayloadLines.{payload_line};
ghost use Rattle.binlog_payloads.specs.Events.{payload_in, payload_of};

use crate::event_members::{write_error, write_event, write_next_event_head};
use crate::header_members::write_header;
use crate::kept_heads::KeptHeads;
use crate::options::LineOptions;
use crate::part_members::{PartPlace, write_part, write_part_error, write_payload_event};
use crate::row_members::RowsWriter;
use crate::rows_read::{read_rows, rows_of_read};
use binlog_event_types::maria_name_of;
use binlog_file::{Error, EventRef, RowsEventData, TableMapEvent};
use binlog_filters::is_row_event;
use binlog_json_bodies::{KeptStatements, write_maria_data};
use binlog_mariadb::{MariaEventType, is_maria_log};
use binlog_payloads::{PayloadError, TransactionPayloadEvent};
use json_line::Line;
use std::alloc::{AllocError, Global};

/// Makes the lines of JSON of a log, in memory that is reused from line to line.
pub struct JsonLines {
    line: Line,
    text: String,
    rows: RowsWriter,
    heads: KeptHeads,
    statements: KeptStatements,
}

impl Drop for JsonLines {
    // By hand, so that it is proved here and not again in each crate that owns lines.
    fn drop(self) {
        let Self {
            line,
            text,
            rows,
            heads,
            statements,
        } = self;
        drop(line);
        drop(text);
        drop(rows);
        drop(heads);
        drop(statements);
    }
}

/// The line of an event, its line feed included.
#[derive(Drop)]
pub struct EventLine<'a> {
    /// The text.
    pub text: &'a [u8],
    /// The index of the first column of the event's table that contradicts the file that declares it, counted from 0. The rows have
    /// nothing of the file then.
    pub contradiction: Option<usize>,
}

impl JsonLines {
    /// An empty line. Nothing is allocated.
    pub fn new(alloc: Global) -> Self {
        JsonLines {
            line: Line::new(alloc),
            text: String::new(alloc),
            rows: RowsWriter::new(alloc),
            heads: KeptHeads::new(alloc),
            statements: KeptStatements::new(alloc),
        }
    }

    /// The line of an event, its line feed included. One of MariaDB's own events has the line of its type if MariaDB wrote
    /// the log, by the server version of the description in force.
    ///
    /// # Errors
    ///
    /// [`Error::Memory`] if an allocation fails.
    #[inline(always)]
    pub fn event_line(
        &mut self,
        alloc: Global,
        index: u64,
        event: &EventRef<'_>,
    ) -> Result<&[u8], Error>
        ensures line { IfOk result (λ text. IsLine index (Ok (view_of event.now)) text.now) }
        ensures memory { IfErr result (λ e. e ≡ Memory) }
    {
        match own_type(event) {
            Some(event_type) => self.own_line(alloc, index, event_type, event),
            None => self.other_line(alloc, index, event),
        }
    }

    /// The line of an event, with the rows of a row event: before `data` its object has the members `table` and `rows`. The
    /// table map is the one in force for the event's table id; one of another table id counts as none. The data has the
    /// stored bytes of the rows, `rows_data`, if the options keep them, and else only if `rows` doesn't have all rows. What the
    /// table map doesn't state of columns is what the options' files declare, unless the table contradicts that. Any other event
    /// has the line that [`JsonLines::event_line`] makes.
    ///
    /// # Errors
    ///
    /// [`Error::Memory`] if an allocation fails.
    #[inline(always)]
    pub fn event_line_with_rows(
        &mut self,
        alloc: Global,
        index: u64,
        event: &EventRef<'_>,
        table_map: Option<&TableMapEvent<'_>>,
        options: &LineOptions,
    ) -> Result<EventLine<'_>, Error>
        ensures line { IfOk result (λ line. IsLineWith (options_of options.now) (option_copied table_map.entry) index (view_of event.now) line.contradiction line.text.now) }
        ensures memory { IfErr result (λ e. e ≡ Memory) }
    {
        if is_row_event(event) {
            self.read_rows_line(alloc, index, event, table_map, options)
        } else {
            Ok(EventLine {
                text: self.line_without_rows(alloc, index, event, options.keeps_stored)?,
                contradiction: None,
            })
        }
    }

    /// The line of an event that is no row event. Where its data are those of a payload, they are shown with the payload's stored bytes
    /// or without them.
    #[inline(always)]
    pub(crate) fn line_without_rows(
        &mut self,
        alloc: Global,
        index: u64,
        event: &EventRef<'_>,
        keeps_stored: bool,
    ) -> Result<&[u8], Error>
        ensures line { IfOk result (λ text. IsLineWithoutRows keeps_stored index (view_of event.now) (payload_in (view_of event.now)) text.now) }
        ensures memory { IfErr result (λ e. e ≡ Memory) }
    {
        match TransactionPayloadEvent::of_event(event) {
            Ok(Some(payload)) => self.payload_line(index, event, &payload, keeps_stored),
            _ => self.event_line(alloc, index, event),
        }
    }

    // The line of an event with this payload.
    #[inline(never)]
    fn payload_line(
        &mut self,
        index: u64,
        event: &EventRef<'_>,
        payload: &TransactionPayloadEvent<'_>,
        keeps_stored: bool,
    ) -> Result<&[u8], Error>
        ensures line { IfOk result (λ text. text.now ≡ payload_line keeps_stored index (view_of event.now) (payload_of payload.now)) }
        ensures memory { IfErr result (λ e. e ≡ Memory) }
    {
        self.line.clear();
        write_payload_event(&mut self.line, index, event, payload, keeps_stored)?;
        Ok(self.line.end()?)
    }

    /// The line of an event inside a compressed transaction, with the rows of a row event as [`JsonLines::event_line_with_rows`] has
    /// them.
    ///
    /// # Errors
    ///
    /// [`Error::Memory`] if an allocation fails.
    pub fn part_line(
        &mut self,
        alloc: Global,
        place: PartPlace,
        event: &EventRef<'_>,
        table_map: Option<&TableMapEvent<'_>>,
        options: &LineOptions,
    ) -> Result<EventLine<'_>, Error>
        ensures line { IfOk result (λ line. IsPartEventLine (options_of options.now) (option_copied table_map.entry) place.index place.number (view_of event.now) line.contradiction line.text.now) }
        ensures memory { IfErr result (λ e. e ≡ Memory) }
    {
        let read = read_rows(alloc, event);
        let rows = rows_of_read(&read);
        let line = self.part_line_of(alloc, place, event, rows, table_map, options);
        drop(read);
        line
    }

    /// The same of an event of whose data these rows were read.
    pub(crate) fn part_line_of(
        &mut self,
        alloc: Global,
        place: PartPlace,
        event: &EventRef<'_>,
        rows: Option<&RowsEventData<'_>>,
        table_map: Option<&TableMapEvent<'_>>,
        options: &LineOptions,
    ) -> Result<EventLine<'_>, Error>
        requires { option_copied rows ≡ rows_event_of (view_of event.now) }
        ensures line { IfOk result (λ line. IsPartEventLine (options_of options.now) (option_copied table_map.entry) place.index place.number (view_of event.now) line.contradiction line.text.now) }
        ensures memory { IfErr result (λ e. e ≡ Memory) }
    {
        self.line.clear();
        let contradiction = write_part(
            &mut self.line,
            &mut self.rows,
            alloc,
            place,
            event,
            rows,
            table_map,
            options,
        )?;
        Ok(EventLine {
            text: self.line.end()?,
            contradiction,
        })
    }

    /// The line of an error in the place of an event inside a compressed transaction, or of all.
    ///
    /// # Errors
    ///
    /// [`Error::Memory`] if an allocation fails.
    pub fn part_error_line(
        &mut self,
        place: PartPlace,
        error: &PayloadError,
    ) -> Result<&[u8], Error>
        ensures line { IfOk result (λ text. text.now ≡ print (part_error_object place.index place.number error.now) ++ codes "\n") }
        ensures memory { IfErr result (λ e. e ≡ Memory) }
    {
        self.line.clear();
        write_part_error(&mut self.line, place, error)?;
        Ok(self.line.end()?)
    }

    // The line of a row event with its rows.
    #[inline(never)]
    fn read_rows_line(
        &mut self,
        alloc: Global,
        index: u64,
        event: &EventRef<'_>,
        table_map: Option<&TableMapEvent<'_>>,
        options: &LineOptions,
    ) -> Result<EventLine<'_>, Error>
        ensures line { IfOk result (λ line. IsRowsLine (options_of options.now) (option_copied table_map.entry) index (view_of event.now) line.contradiction line.text.now) }
        ensures memory { IfErr result (λ e. e ≡ Memory) }
    {
        let read = read_rows(alloc, event);
        let rows = rows_of_read(&read);
        let line = self.rows_line(alloc, index, event, rows, table_map, options);
        drop(read);
        line
    }

    /// The line of a row event, of whose data these rows were read, with its rows.
    pub(crate) fn rows_line(
        &mut self,
        alloc: Global,
        index: u64,
        event: &EventRef<'_>,
        rows: Option<&RowsEventData<'_>>,
        table_map: Option<&TableMapEvent<'_>>,
        options: &LineOptions,
    ) -> Result<EventLine<'_>, Error>
        requires { option_copied rows ≡ rows_event_of (view_of event.now) }
        ensures line { IfOk result (λ line. IsRowsLine (options_of options.now) (option_copied table_map.entry) index (view_of event.now) line.contradiction line.text.now) }
        ensures memory { IfErr result (λ e. e ≡ Memory) }
    {
        self.line.clear();
        let contradiction = write_rows_event(
            &mut self.line,
            &mut self.heads,
            &mut self.rows,
            alloc,
            index,
            event,
            rows,
            table_map,
            options,
        )?;
        Ok(EventLine {
            text: self.line.end()?,
            contradiction,
        })
    }

    /// The line of an error that is in the place of an event.
    ///
    /// # Errors
    ///
    /// [`Error::Memory`] if an allocation fails.
    pub fn error_line(&mut self, index: u64, error: &Error) -> Result<&[u8], Error>
        ensures line { IfOk result (λ text. IsLine index (Err error.now) text.now) }
        ensures memory { IfErr result (λ e. e ≡ Memory) }
    {
        self.line.clear();
        write_error(&mut self.line, index, error)?;
        Ok(self.line.end()?)
    }

    // The line of an event of one of MariaDB's own types.
    #[inline(never)]
    fn own_line(
        &mut self,
        alloc: Global,
        index: u64,
        event_type: MariaEventType,
        event: &EventRef<'_>,
    ) -> Result<&[u8], Error>
        requires { maria_event_type_of (header_of (view_of event.now).frame).event_type ≡ Ok event_type }
        ensures line { IfOk result (λ text. IsOwnLine index (view_of event.now) event_type text.now) }
        ensures memory { IfErr result (λ e. e ≡ Memory) }
    {
        self.line.clear();
        write_own_event(
            &mut self.line,
            &mut self.text,
            alloc,
            index,
            event_type,
            event,
        )?;
        Ok(self.line.end()?)
    }

    // The line of any other event.
    #[inline(always)]
    fn other_line(
        &mut self,
        alloc: Global,
        index: u64,
        event: &EventRef<'_>,
    ) -> Result<&[u8], Error>
        ensures line { IfOk result (λ text. text.now ≡ item_line index (Ok (view_of event.now))) }
        ensures memory { IfErr result (λ e. e ≡ Memory) }
    {
        self.line.clear();
        write_event(
            &mut self.line,
            &mut self.heads,
            &mut self.statements,
            alloc,
            index,
            event,
        )?;
        Ok(self.line.end()?)
    }
}

// The type of an event if it is one of MariaDB's own in a log that MariaDB wrote.
#[inline(always)]
fn own_type(event: &EventRef<'_>) -> Option<MariaEventType>
    ensures { MatchOption result (IsOther (view_of event.now))
        (λ type. IsOfMaria (view_of event.now) × (maria_event_type_of (header_of (view_of event.now).frame).event_type ≡ Ok type)) }
{
    let Ok(event_type) = MariaEventType::try_from(event.header().event_type_raw()) else {
        return None;
    };
    if is_maria_log(&event.fde()) {
        Some(event_type)
    } else {
        None
    }
}

// Writes the object of an event of this type.
fn write_own_event(
    line: &mut Line,
    text: &mut String,
    alloc: Global,
    index: u64,
    event_type: MariaEventType,
    event: &EventRef<'_>,
) -> Result<(), AllocError>
    requires { maria_event_type_of (header_of (view_of event.now).frame).event_type ≡ Ok event_type }
    ensures { Shows result line.old line.new (IsEventObject index (view_of event.now) event_type) }
{
    line.begin_object()?;
    write_head(line, index, event_type, event)?;
    line.key("data")?;
    write_maria_data(line, text, alloc, event_type, event)?;
    line.end_object()?;
    Ok(())
}

// Writes the object of a row event, of whose data these rows were read, with its rows. The result is the column of its table that
// contradicts the files of columns.
fn write_rows_event(
    line: &mut Line,
    heads: &mut KeptHeads,
    writer: &mut RowsWriter,
    alloc: Global,
    index: u64,
    event: &EventRef<'_>,
    rows: Option<&RowsEventData<'_>>,
    table_map: Option<&TableMapEvent<'_>>,
    options: &LineOptions,
) -> Result<Option<usize>, AllocError>
    requires { option_copied rows ≡ rows_event_of (view_of event.now) }
    ensures { ShowsBy result line.old line.new (IsRowsObject (options_of options.now) (option_copied table_map.entry) index (view_of event.now)) }
{
    line.begin_object()?;
    write_next_event_head(line, heads, alloc, index, event)?;
    let contradiction = writer.write_members(line, alloc, event, rows, table_map, options)?;
    line.end_object()?;
    Ok(contradiction)
}

// Writes the members before the data.
fn write_head(
    line: &mut Line,
    index: u64,
    event_type: MariaEventType,
    event: &EventRef<'_>,
) -> Result<(), AllocError>
    ensures { Adds result line.old line.new (head_members index (view_of event.now) event_type) }
{
    line.number_member("index", index)?;
    write_type(line, event_type)?;
    write_header(line, &event.header())?;
    line.key("checksum")?;
    line.checksum_or_null(event.checksum())?;
    Ok(())
}

// Writes the number and the name of a type.
#[tactic(auto, using(crate::proofs::MariaNames::plain_maria_name, std::proofs::Common::append_assoc))]
fn write_type(line: &mut Line, event_type: MariaEventType) -> Result<(), AllocError>
    ensures { Adds result line.old line.new (type_members event_type) }
{
    line.number_member("type", u64::from(u8::from(event_type)))?;
    line.key("name")?;
    line.plain_string(maria_name_of(event_type))
}
