//! The row event that undoes another one.
ghost use Rattle.std.specs.Prelude.{◌≡◌, ◌++◌, option_map, IfOk, IfSome, OnOk};
ghost use Rattle.binlog_columns.specs.TableColumns.{columns_of};
ghost use Rattle.binlog_rows.specs.Images.{bitmap_of};
ghost use Rattle.binlog_rows.specs.Rows.{head_written, columns_written, image_written, rows_written, IsOfForm};
ghost use Rattle.binlog_rows.specs.Columns.{IsBitmap};
ghost use Rattle.binlog_rows.specs.Writable.{RowsInRange};
ghost use Rattle.binlog_rows.specs.RowsData.{event_in, form_in};
ghost use Rattle.binlog_undo.specs.InverseEvents.{added_flags, inverse_head, inverse_columns, inverse_parts, inverse_type, GivesInverse, ChecksInverse};

use crate::undo_error::UndoError;
use crate::undone_rows::{UndoneRows, can_exchange, undo_rows};
use binlog_columns::TableColumns;
use binlog_consts::EventType;
use binlog_rows::RowsEventData;
use binlog_variable_fields::LenEnc;
use binlog_wire::{BitView, IntRepr, LeU16, LeU48, MySerialize, RawInt};
use std::alloc::{AllocError, Global};

/// Room for what is in front of the rows of an event: more than is there for a table with at most 100 columns.
const HEAD_ROOM: usize = 48;

/// Whether a server checks foreign keys while it applies the event that undoes another one.
#[derive(Clone, Copy, Debug, PartialEq, Eq, Hash)]
pub enum ForeignKeyChecks {
    /// As it did for the event that is undone.
    AsLogged,
    /// It checks none.
    Off,
}

impl ForeignKeyChecks {
    /// The flags that the event has beside those of the event that it undoes: STMT_END (1), and NO_FOREIGN_KEY_CHECKS (2) where
    /// none are to be checked.
    fn added_flags(self) -> u16
        ensures { result ≡ added_flags self }
    {
        match self {
            ForeignKeyChecks::AsLogged => 1,
            ForeignKeyChecks::Off => 3,
        }
    }
}

/// The row event that undoes another one: its type and its body.
#[derive(Debug, Drop)]
pub struct InverseEvent {
    event_type: EventType,
    body: Vec<u8>,
}

impl InverseEvent {
    /// The event's type.
    pub fn event_type(&self) -> EventType
        ensures { result ≡ self.now.event_type }
    {
        self.event_type
    }

    /// The event's body: the bytes between its header and its checksum. Its post-header has the length that binlog version 4 states.
    pub fn body(&self) -> &[u8]
        ensures { result.now ≡ self.now.body.items }
    {
        self.body.as_slice()
    }
}

/// The type of the event that undoes this one.
fn inverse_type(event: &RowsEventData<'_>) -> EventType
    ensures { result ≡ inverse_type event.now }
{
    match event {
        RowsEventData::WriteRowsEventV1(_) => EventType::DELETE_ROWS_EVENT_V1,
        RowsEventData::UpdateRowsEventV1(_) => EventType::UPDATE_ROWS_EVENT_V1,
        RowsEventData::DeleteRowsEventV1(_) => EventType::WRITE_ROWS_EVENT_V1,
        RowsEventData::WriteRowsEvent(_) => EventType::DELETE_ROWS_EVENT,
        RowsEventData::UpdateRowsEvent(_) => EventType::UPDATE_ROWS_EVENT,
        RowsEventData::DeleteRowsEvent(_) => EventType::WRITE_ROWS_EVENT,
        RowsEventData::PartialUpdateRowsEvent(_) => EventType::UPDATE_ROWS_EVENT,
    }
}

/// A bitmap has as many bytes as its bits need.
fn is_bitmap(columns: Option<BitView<'_>>)
    ensures { IfSome (option_map bitmap_of columns.entry) IsBitmap }
{}

/// The fields of an event are in the ranges of their types, and it has the parts of its type.
fn is_sound(event: &RowsEventData<'_>)
    ensures range { RowsInRange (event_in event.now) }
    ensures form { IsOfForm (form_in event.now) (event_in event.now) }
{
    let event = event.event();
    let _table_id = event.table_id();
    let _flags = event.flags_raw();
    let _count = event.num_columns();
    is_bitmap(event.columns_before_image());
    is_bitmap(event.columns_after_image());
}

/// Whether events of this one's type have extra bytes.
fn has_extra(event: &RowsEventData<'_>) -> bool
    ensures { result ≡ (form_in event.now).has_extra }
{
    !matches!(
        event,
        RowsEventData::WriteRowsEventV1(_)
            | RowsEventData::UpdateRowsEventV1(_)
            | RowsEventData::DeleteRowsEventV1(_)
    )
}

/// Appends an integer.
fn push_number<K: IntRepr>(
    alloc: Global,
    number: K::Primitive,
    body: &mut Vec<u8>,
) -> Result<(), AllocError>
    ensures { OnOk result (body.new.items ≡ body.old.items ++ K.written number) }
{
    match RawInt::<K>::new(number).serialize(alloc, body) {
        Ok(()) => Ok(()),
        Err(_) => Err(AllocError),
    }
}

/// Appends the table id, the flags and an empty list of extra bytes, if events of this type have one.
fn push_head(
    alloc: Global,
    event: &RowsEventData<'_>,
    checks: ForeignKeyChecks,
    body: &mut Vec<u8>,
) -> Result<(), AllocError>
    ensures { OnOk result (body.new.items ≡ body.old.items ++ head_written (inverse_head checks (event_in event.now).head)) }
{
    let flags = event.event().flags_raw() | checks.added_flags();
    push_number::<LeU48>(alloc, event.table_id(), body)?;
    push_number::<LeU16>(alloc, flags, body)?;
    if has_extra(event) {
        // The length includes itself.
        push_number::<LeU16>(alloc, 2, body)?;
    }
    Ok(())
}

/// Appends which columns an image has, if there is one.
fn push_image(columns: Option<BitView<'_>>, body: &mut Vec<u8>) -> Result<(), AllocError>
    ensures { OnOk result (body.new.items ≡ body.old.items ++ image_written (option_map bitmap_of columns.entry)) }
{
    match columns {
        Some(columns) => body.extend_from_slice(columns.as_bytes()),
        None => Ok(()),
    }
}

/// Appends the number of columns, and which of them the images have.
fn push_columns(
    alloc: Global,
    event: &RowsEventData<'_>,
    completes: bool,
    body: &mut Vec<u8>,
) -> Result<(), AllocError>
    ensures { OnOk result (body.new.items ≡ body.old.items ++ columns_written (inverse_columns completes (event_in event.now).columns)) }
{
    push_number::<LenEnc>(alloc, event.num_columns(), body)?;
    let after = event.columns_before_image();
    let before = if completes {
        after
    } else {
        event.columns_after_image()
    };
    push_image(before, body)?;
    push_image(after, body)
}

impl UndoneRows {
    /// The event with these rows that undoes the event.
    fn into_event(
        &self,
        alloc: Global,
        event: &RowsEventData<'_>,
        checks: ForeignKeyChecks,
    ) -> Result<InverseEvent, AllocError>
        ensures event_type { IfOk result (λ written. written.event_type ≡ inverse_type event.now) }
        ensures body { IfOk result (λ written. written.body.items ≡ rows_written (inverse_parts self.now.completes checks self.now.bytes.items (event_in event.now))) }
    {
        let mut body = Vec::with_capacity(alloc, self.as_bytes().len() + HEAD_ROOM)?;
        push_head(alloc, event, checks, &mut body)?;
        push_columns(alloc, event, self.completes(), &mut body)?;
        body.extend_from_slice(self.as_bytes())?;
        Ok(InverseEvent {
            event_type: inverse_type(event),
            body,
        })
    }
}

/// The row event that undoes this one, of a table with these columns: it has the rows that [`undo_rows`] gives, and their columns.
/// Inserted rows become deleted rows, and the other way round; updates stay updates, and PARTIAL_UPDATE_ROWS becomes UPDATE_ROWS.
/// The table id stays. The flags stay, with STMT_END, so that the event can be applied alone, and without checks of foreign keys if
/// these are to be off. It has no extra bytes. `key` is as for [`undo_rows`].
///
/// # Errors
///
/// Those of [`undo_rows`].
pub fn undo_event(
    alloc: Global,
    event: &RowsEventData<'_>,
    columns: TableColumns<'_>,
    key: &[u64],
    checks: ForeignKeyChecks,
) -> Result<InverseEvent, UndoError>
    ensures { GivesInverse key.now (columns_of columns.entry) checks event.now result }
{
    is_sound(event);
    let rows = undo_rows(alloc, event, columns, key)?;
    Ok(rows.into_event(alloc, event, checks)?)
}

/// The type of the event that undoes this one, as [`undo_event`] makes it, with the same `columns` and `key`. Where the images of the
/// rows have all columns, at most 64, and no row is refused, this takes no memory.
///
/// # Errors
///
/// Those of [`undo_rows`].
pub fn check_event(
    alloc: Global,
    event: &RowsEventData<'_>,
    columns: TableColumns<'_>,
    key: &[u64],
) -> Result<EventType, UndoError>
    ensures { ChecksInverse key.now (columns_of columns.entry) event.now result }
{
    let event_type = inverse_type(event);
    if can_exchange(event, columns, key) {
        return Ok(event_type);
    }
    undo_rows(alloc, event, columns, key)?;
    Ok(event_type)
}
