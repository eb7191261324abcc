//! The primary key that a table map states.
ghost use Rattle.std.specs.Prelude.{◌≡◌, ℕ, map, option_map, IfOk};
ghost use Rattle.binlog_columns.specs.Columns.{typed_of};
ghost use Rattle.binlog_columns.specs.TableColumns.{columns_of};
ghost use Rattle.binlog_optional_metadata.specs.FieldValues.{content_of};
ghost use Rattle.binlog_optional_metadata.specs.FieldsLeft.{answer_field_content};
ghost use Rattle.binlog_optional_metadata.specs.IndexedNumbers.{indexed_of};
ghost use Rattle.binlog_optional_metadata.specs.Numbers.{numbers_of};
ghost use Rattle.binlog_undo_log.specs.Keys.{states_key, newer_key, key_of, LeavesKey, IsKey, GivesByKey, ChecksByKey};

use binlog_columns::{Column, TableColumns};
use binlog_consts::EventType;
use binlog_file::{RowsEventData, TableMapEvent};
use binlog_optional_metadata::{
    IndexedNumbers, Numbers, OptionalMetadata, OptionalMetadataError, OptionalMetadataField,
};
use binlog_undo::{ForeignKeyChecks, InverseEvent, UndoError, check_event, undo_event};
use std::alloc::{AllocError, Global};

/// With at most so many bytes for each column there are one or two rows, whose columns are read as they are needed.
const FEW_BYTES: usize = 16;

// Whether a field states the primary key.
fn states_key(field: &OptionalMetadataField<'_>) -> bool
    ensures { result ≡ states_key (content_of field.now) }
{
    matches!(
        field,
        OptionalMetadataField::SimplePrimaryKey(_) | OptionalMetadataField::PrimaryKeyWithPrefix(_)
    )
}

// The last field so far that states the primary key.
fn newer_key<'a>(
    found: Option<OptionalMetadataField<'a>>,
    item: Result<OptionalMetadataField<'a>, OptionalMetadataError>,
) -> Option<OptionalMetadataField<'a>>
    ensures { option_map content_of result ≡ newer_key (option_map content_of found.entry) (answer_field_content item.entry) }
{
    match item {
        Ok(field) if states_key(&field) => Some(field),
        _ => found,
    }
}

// The last field that states the primary key.
fn key_field<'a>(metadata: OptionalMetadata<'a>) -> Option<OptionalMetadataField<'a>>
    ensures { LeavesKey metadata.entry.counts metadata.entry.rest.now (option_map content_of result) }
{
    let mut found = None;
    'fields: for item in metadata {
        found = newer_key(found, item);
    }
    found
}

// These numbers.
fn all_numbers(alloc: Global, numbers: Numbers<'_>) -> Result<Vec<u64>, AllocError>
    ensures { IfOk result (λ key. key.items ≡ numbers_of numbers.entry) }
{
    let mut key = Vec::new(alloc);
    'numbers: for number in numbers {
        key.push(number)?;
    }
    Ok(key)
}

// The indexes of these pairs.
fn all_indexes(alloc: Global, pairs: IndexedNumbers<'_>) -> Result<Vec<u64>, AllocError>
    ensures { IfOk result (λ key. key.items ≡ map (λ (pair : ℕ × ℕ). pair.0) (indexed_of pairs.entry)) }
{
    let mut key = Vec::new(alloc);
    'pairs: for (index, _) in pairs {
        key.push(index)?;
    }
    Ok(key)
}

// The indexes of the columns of the primary key that a field states.
fn columns_in(
    alloc: Global,
    field: Option<OptionalMetadataField<'_>>,
) -> Result<Vec<u64>, AllocError>
    ensures { IfOk result (λ key. key.items ≡ key_of (option_map content_of field.entry)) }
{
    match field {
        Some(OptionalMetadataField::SimplePrimaryKey(numbers)) => all_numbers(alloc, numbers),
        Some(OptionalMetadataField::PrimaryKeyWithPrefix(pairs)) => all_indexes(alloc, pairs),
        _ => Ok(Vec::new(alloc)),
    }
}

// The indexes of the columns of the primary key of a table with these columns, as its table map states it: by the last of the fields
// SIMPLE_PRIMARY_KEY and PRIMARY_KEY_WITH_PREFIX that isn't refused. None if there is no such field.
fn primary_key(
    alloc: Global,
    map: &TableMapEvent<'_>,
    columns: TableColumns<'_>,
    is_maria_log: bool,
) -> Result<Vec<u64>, AllocError>
    ensures { IfOk result (λ key. IsKey is_maria_log (columns_of columns.entry) map.now key.items) }
{
    let metadata = OptionalMetadata::new(columns, map.optional_metadata_raw(), is_maria_log);
    columns_in(alloc, key_field(metadata))
}

// The event that undoes rows of a table with this map and these columns.
fn undo_by_columns(
    alloc: Global,
    map: &TableMapEvent<'_>,
    rows: &RowsEventData<'_>,
    columns: TableColumns<'_>,
    is_maria_log: bool,
    checks: ForeignKeyChecks,
) -> Result<InverseEvent, UndoError>
    ensures { GivesByKey is_maria_log map.now (columns_of columns.entry) checks rows.now result }
{
    match undo_event(alloc, rows, columns, &[], checks) {
        Err(UndoError::Image) => {
            let key = primary_key(alloc, map, columns, is_maria_log)?;
            undo_event(alloc, rows, columns, key.as_slice(), checks)
        }
        answer => answer,
    }
}

// The type of the event that undoes rows of a table with this map and these columns.
fn check_by_columns(
    alloc: Global,
    map: &TableMapEvent<'_>,
    rows: &RowsEventData<'_>,
    columns: TableColumns<'_>,
    is_maria_log: bool,
) -> Result<EventType, UndoError>
    ensures { ChecksByKey is_maria_log map.now (columns_of columns.entry) rows.now result }
{
    match check_event(alloc, rows, columns, &[]) {
        Err(UndoError::Image) => {
            let key = primary_key(alloc, map, columns, is_maria_log)?;
            check_event(alloc, rows, columns, key.as_slice())
        }
        answer => answer,
    }
}

// The columns, in memory, where each row is read by them.
fn collected(alloc: Global, columns: TableColumns<'_>) -> Result<Vec<Column>, AllocError>
    ensures { IfOk result (λ known. map typed_of known.items ≡ columns_of columns.entry) }
{
    let mut known = Vec::with_capacity(alloc, columns.num_columns())?;
    'columns: for column in columns {
        known.push(column)?;
    }
    Ok(known)
}

/// The event that undoes rows of a table with this map and these columns. Where the images lack columns, those of the primary key are
/// enough that the map states, as [`undo_event`] has it. The columns of many rows are read once.
///
/// # Errors
///
/// Those of [`undo_event`].
pub(crate) fn undo_by_key(
    alloc: Global,
    map: &TableMapEvent<'_>,
    rows: &RowsEventData<'_>,
    columns: TableColumns<'_>,
    is_maria_log: bool,
    checks: ForeignKeyChecks,
) -> Result<InverseEvent, UndoError>
    ensures { GivesByKey is_maria_log map.now (columns_of columns.entry) checks rows.now result }
{
    if rows.rows_data().len() / FEW_BYTES <= columns.num_columns() {
        return undo_by_columns(alloc, map, rows, columns, is_maria_log, checks);
    }
    let read = collected(alloc, columns)?;
    let known = TableColumns::known(read.as_slice());
    undo_by_columns(alloc, map, rows, known, is_maria_log, checks)
}

/// The type of the event that [`undo_by_key`] gives, or its error.
///
/// # Errors
///
/// Those of [`check_event`].
pub(crate) fn check_by_key(
    alloc: Global,
    map: &TableMapEvent<'_>,
    rows: &RowsEventData<'_>,
    columns: TableColumns<'_>,
    is_maria_log: bool,
) -> Result<EventType, UndoError>
    ensures { ChecksByKey is_maria_log map.now (columns_of columns.entry) rows.now result }
{
    if rows.rows_data().len() / FEW_BYTES <= columns.num_columns() {
        return check_by_columns(alloc, map, rows, columns, is_maria_log);
    }
    let read = collected(alloc, columns)?;
    let known = TableColumns::known(read.as_slice());
    check_by_columns(alloc, map, rows, known, is_maria_log)
}
