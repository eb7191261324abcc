//! The rows of row events, where they are known.
ghost use Rattle.std.specs.Prelude.{◌≡◌, ◌++◌, ◌∷◌, [], length, option_copied, option_map, IfOk, OnOk, MatchResult};
ghost use Rattle.std.specs.List.{list_any};
ghost use Rattle.binlog_columns.specs.TableColumns.{columns_of};
ghost use Rattle.binlog_events.specs.EventRefs.{view_of};
ghost use Rattle.binlog_images.specs.Bits.{is_set};
ghost use Rattle.binlog_images.specs.Cells.{whole};
ghost use Rattle.binlog_images.specs.EventRows.{is_partial};
ghost use Rattle.binlog_images.specs.Events.{HasBitEach};
ghost use Rattle.binlog_images.specs.RowsLeft.{row_shape};
ghost use Rattle.binlog_rows.specs.Images.{bitmap_of};
ghost use Rattle.binlog_undo.specs.Coverage.{has_all};
ghost use Rattle.binlog_undo.specs.Undoing.{stored_bytes};
ghost use Rattle.binlog_wire.specs.Fields.{IsBytes};
ghost use Rattle.change_statistics.specs.Names.{name_of};
ghost use Rattle.binlog_later_changes.specs.KeyedRows.{GivesKey, GivesKeyIf, GivesKeys, GivesKnown, HasKeys, IsUnread, shape_if};
ghost use Rattle.binlog_later_changes.specs.CompleteRows.{has_all_if, is_complete};
ghost use Rattle.binlog_later_changes.specs.KnownRows.{HasOldTemporal, KnowsIfRows, KnowsMapped, KnowsRows, KnowsRowsIf, is_old_temporal, rows_of_body, rows_of_mysql, rows_read};

use crate::row_key::RowKey;
use binlog_columns::TableColumns;
use binlog_file::{Error, EventData, EventRef, LogEventData};
use binlog_images::{Rows, RowsEventExt, StoredRow, read_stored_columns};
use binlog_mariadb::is_maria_log;
use binlog_rows::{RowsEventData, TableMapEvent};
use binlog_wire::BitView;
use change_statistics::TableName;
use std::alloc::{AllocError, Global};

/// A row of a row event: the key of the row that is removed from the table, and that of the row that is added to it.
#[derive(Drop)]
pub(crate) struct KeyedRow {
    pub(crate) removed: Option<RowKey>,
    pub(crate) added: Option<RowKey>,
}

/// Why rows aren't read.
#[derive(Clone, Copy)]
pub(crate) enum RowFault {
    /// A row is refused.
    Unreadable,
    /// Memory was refused.
    Memory,
}

impl From<AllocError> for RowFault {
    ghost use Rattle.binlog_later_changes.specs.declared.known_rows.RowFault.TheVariants.{Memory};

    ghost from_gives = { λ _ fault. fault ≡ Memory };

    fn from(_: AllocError) -> RowFault {
        RowFault::Memory
    }
}

// The key of an image of a row of this table, which has these columns.
#[tactic(auto, using(crate::proofs::KnownRows::key_is))]
fn image_key(
    alloc: Global,
    name: &TableName,
    columns: TableColumns<'_>,
    present: BitView<'_>,
    image: &[u8],
) -> Result<RowKey, RowFault>
    requires { present.len ≡ length (columns_of columns) }
    ensures { GivesKey (name_of name.now) (columns_of columns.entry, bitmap_of present.entry) image.now result }
{
    let Some(stored) = read_stored_columns(alloc, columns, present, image)? else {
        return Err(RowFault::Unreadable);
    };
    let key = RowKey::of(alloc, name, stored.as_slice())?;
    Ok(key)
}

// The same of an image that the row may not have.
#[tactic(auto, using(crate::proofs::KnownRows::key_there, crate::proofs::KnownRows::key_fault))]
fn key_if(
    alloc: Global,
    name: &TableName,
    columns: TableColumns<'_>,
    present: Option<BitView<'_>>,
    image: &[u8],
) -> Result<Option<RowKey>, RowFault>
    requires { HasBitEach (columns_of columns) (option_map bitmap_of present) }
    ensures { GivesKeyIf (name_of name.now) (shape_if (columns_of columns.entry) present.entry) image.now result }
{
    let Some(present) = present else {
        return Ok(None);
    };
    match image_key(alloc, name, columns, present, image) {
        Ok(key) => Ok(Some(key)),
        Err(fault) => Err(fault),
    }
}

// The keys of a row.
#[tactic(auto, using(crate::proofs::KnownRows::keys_are, crate::proofs::KnownRows::fault_before, crate::proofs::KnownRows::fault_after))]
fn keyed_row(
    alloc: Global,
    name: &TableName,
    columns: TableColumns<'_>,
    before: Option<BitView<'_>>,
    after: Option<BitView<'_>>,
    row: &StoredRow<'_>,
) -> Result<KeyedRow, RowFault>
    requires before { HasBitEach (columns_of columns) (option_map bitmap_of before) }
    requires after { HasBitEach (columns_of columns) (option_map bitmap_of after) }
    ensures { GivesKeys (name_of name.now) (shape_if (columns_of columns.entry) before.entry, shape_if (columns_of columns.entry) after.entry) (stored_bytes row.now) result }
{
    let removed = key_if(alloc, name, columns, before, row.before_data())?;
    let added = key_if(alloc, name, columns, after, row.after_data())?;
    Ok(KeyedRow { removed, added })
}

// Adds a row behind the others.
fn push_row(rows: &mut Vec<KeyedRow>, row: KeyedRow) -> Result<(), AllocError>
    ensures { OnOk result (rows.new.items ≡ rows.old.items ++ row ∷ []) }
{
    rows.push(row)?;
    Ok(())
}

// The keys of all rows that are left.
fn keyed_rows(
    alloc: Global,
    name: &TableName,
    columns: TableColumns<'_>,
    before: Option<BitView<'_>>,
    after: Option<BitView<'_>>,
    rows: Rows<'_>,
) -> Result<Vec<KeyedRow>, RowFault>
    requires before { HasBitEach (columns_of columns) (option_map bitmap_of before) }
    requires after { HasBitEach (columns_of columns) (option_map bitmap_of after) }
    requires shape { row_shape rows ≡ whole (shape_if (columns_of columns) before, shape_if (columns_of columns) after) }
    ensures { IsBytes rows.entry.rest.now → MatchResult result
        (λ keyed. HasKeys (name_of name.now) (shape_if (columns_of columns.entry) before.entry, shape_if (columns_of columns.entry) after.entry) rows.entry.rest.now keyed.items)
        (λ fault. IsUnread (shape_if (columns_of columns.entry) before.entry, shape_if (columns_of columns.entry) after.entry) rows.entry.row rows.entry.rest.now fault) }
{
    let mut left = rows;
    let mut keyed = Vec::new(alloc);
    'rows: while let Some(row) = left.next_stored() {
        let row = match row {
            Ok(row) => row,
            Err(_) => return Err(RowFault::Unreadable),
        };
        let keys = keyed_row(alloc, name, columns, before, after, &row)?;
        push_row(&mut keyed, keys)?;
    }
    Ok(keyed)
}

// A slice holds bytes.
fn are_bytes(bytes: &[u8])
    ensures { IsBytes bytes.now }
{}

// Whether the column with this index is in the image.
fn is_set(bits: BitView<'_>, index: u64) -> bool
    ensures { result ≡ is_set (bitmap_of bits.entry) index }
{
    bits.bit(index).unwrap_or(false)
}

// Whether each column is in the image.
#[tactic(auto, using(binlog_undo::proofs::Covered::one_holds, binlog_undo::proofs::Covered::one_fails, binlog_undo::proofs::Covered::all_hold))]
fn has_all(bits: BitView<'_>) -> bool
    ensures { result ≡ has_all (bitmap_of bits.entry) }
{
    for index in 0..bits.len() {
        if !is_set(bits, index) {
            return false;
        }
    }
    true
}

// The same of an image that there may not be.
fn has_all_if(bits: Option<BitView<'_>>) -> bool
    ensures { result ≡ has_all_if (option_map bitmap_of bits.entry) }
{
    match bits {
        Some(bits) => has_all(bits),
        None => true,
    }
}

// Whether the event holds partial updates.
fn is_partial(event: &RowsEventData<'_>) -> bool
    ensures { result ≡ is_partial event.now }
{
    matches!(event, RowsEventData::PartialUpdateRowsEvent(_))
}

/// Whether the rows are no partial updates, and each column is in each image.
pub(crate) fn is_complete(event: &RowsEventData<'_>) -> bool
    ensures { result ≡ is_complete event.now }
{
    !is_partial(event)
        && has_all_if(event.columns_before_image())
        && has_all_if(event.columns_after_image())
}

// The rows of an event of a table with this name and these columns; None if they aren't known.
fn rows_with(
    alloc: Global,
    name: &TableName,
    event: &RowsEventData<'_>,
    columns: TableColumns<'_>,
) -> Result<Option<Vec<KeyedRow>>, AllocError>
    ensures { IfOk result (λ given. GivesKnown (KnowsRows (columns_of columns.entry) event.now) (name_of name.now) (option_map (λ rows. rows.items) given)) }
{
    if !is_complete(event) {
        return Ok(None);
    }
    let rows = match event.rows_of_table(columns) {
        Ok(rows) => rows,
        Err(_) => return Ok(None),
    };
    let before = event.columns_before_image();
    let after = event.columns_after_image();
    are_bytes(rows.rest_data());
    match keyed_rows(alloc, name, columns, before, after, rows) {
        Ok(rows) => Ok(Some(rows)),
        Err(RowFault::Unreadable) => Ok(None),
        Err(RowFault::Memory) => Err(AllocError),
    }
}

// Whether one of these types is TIMESTAMP, TIME or DATETIME without a statement of its fractions.
fn has_old_type(types: &[u8]) -> bool
    ensures { result ≡ list_any is_old_temporal types.now }
{
    let mut left = types;
    'types: while let Some((number, others)) = left.split_first() {
        if matches!(*number, 7 | 11 | 12) {
            return true;
        }
        left = others;
    }
    false
}

// Whether values of these types have one form or another in the log of an event, which doesn't say which.
fn has_old_temporal(event: &EventRef<'_>, types: &[u8]) -> bool
    ensures { HasOldTemporal (view_of event.now) types.now result }
{
    is_maria_log(&event.fde()) && has_old_type(types)
}

// The rows of an event, of a table with this table map; None if they aren't known.
fn mapped_rows(
    alloc: Global,
    name: &TableName,
    event: &EventRef<'_>,
    rows: &RowsEventData<'_>,
    map: &TableMapEvent<'_>,
) -> Result<Option<Vec<KeyedRow>>, AllocError>
    ensures { IfOk result (λ given. GivesKnown (KnowsMapped (view_of event.now) map.now rows.now) (name_of name.now) (option_map (λ rows. rows.items) given)) }
{
    let types = map.columns_type_raw();
    if has_old_temporal(event, types) {
        return Ok(None);
    }
    match TableColumns::new(types, map.columns_metadata_raw()) {
        Ok(columns) => rows_with(alloc, name, rows, columns),
        Err(_) => Ok(None),
    }
}

// The rows of an event with this body, if it has some.
fn rows_of_mysql<'d, 'a>(body: &'d EventData<'a>) -> Option<&'d RowsEventData<'a>>
    ensures { option_copied result ≡ rows_of_mysql body.now }
{
    match body {
        EventData::RowsEvent(rows) => Some(rows),
        _ => None,
    }
}

// The same, if they aren't compressed.
fn rows_of_body<'d, 'a>(body: &'d LogEventData<'a>) -> Option<&'d RowsEventData<'a>>
    ensures { option_copied result ≡ rows_of_body body.now }
{
    match body {
        LogEventData::Mysql(body) => rows_of_mysql(body),
        LogEventData::Maria(_) => None,
    }
}

/// The same of an event of which this was read.
pub(crate) fn rows_read<'d, 'a>(
    read: &'d Result<Option<LogEventData<'a>>, Error>,
) -> Option<&'d RowsEventData<'a>>
    ensures { option_copied result ≡ rows_read read.now }
{
    let Ok(body) = read else {
        return None;
    };
    match body {
        Some(body) => rows_of_body(body),
        None => None,
    }
}

// The rows of an event, if it has some, of a table with this table map; None if they aren't known.
fn rows_if(
    alloc: Global,
    name: &TableName,
    event: &EventRef<'_>,
    rows: Option<&RowsEventData<'_>>,
    map: &TableMapEvent<'_>,
) -> Result<Option<Vec<KeyedRow>>, AllocError>
    ensures { IfOk result (λ given. GivesKnown (KnowsIfRows (view_of event.now) map.now (option_copied rows.entry)) (name_of name.now) (option_map (λ rows. rows.items) given)) }
{
    match rows {
        Some(rows) => mapped_rows(alloc, name, event, rows, map),
        None => Ok(None),
    }
}

/// The rows of an event, if it has some, of the table with this name, whose table map is this one, if there is one. None if they aren't known:
/// if they are no rows of its columns, if an image lacks a column, if they are partial updates or compressed, or if the log of MariaDB's doesn't say
/// which form values have.
pub(crate) fn event_rows(
    alloc: Global,
    name: &TableName,
    event: &EventRef<'_>,
    rows: Option<&RowsEventData<'_>>,
    map: Option<&TableMapEvent<'_>>,
) -> Result<Option<Vec<KeyedRow>>, AllocError>
    ensures { IfOk result (λ given. GivesKnown (KnowsRowsIf (view_of event.now) (option_copied map.entry) (option_copied rows.entry)) (name_of name.now) (option_map (λ rows. rows.items) given)) }
{
    match map {
        Some(map) => rows_if(alloc, name, event, rows, map),
        None => Ok(None),
    }
}
