//! The rows of row events.
ghost use Rattle.std.specs.Prelude.{◌≡◌, Bool, true, false};
ghost use Rattle.binlog_columns.specs.TableColumns.{columns_of};
ghost use Rattle.binlog_rows.specs.Rows.{IsOfForm};
ghost use Rattle.binlog_rows.specs.declared.rows_form.RowsForm.{RowsForm};
ghost use Rattle.binlog_rows.specs.declared.rows_event.RowsEvent.{RowsEvent};
ghost use Rattle.binlog_rows.specs.RowsData.{event_in};
ghost use Rattle.binlog_images.specs.EventRows.{GivesRows, GivesRowsOf, is_partial};

use crate::rows::Rows;
use crate::rows_error::RowsEventError;
use binlog_columns::TableColumns;
use binlog_rows::{
    DeleteRows, DeleteRowsV1, PartialUpdateRows, RowsEvent, RowsEventData, RowsEventOf, RowsKind,
    TableMapEvent, UpdateRows, UpdateRowsV1, WriteRows, WriteRowsV1,
};

/// The kinds of row events whose rows are whole: all but PARTIAL_UPDATE_ROWS, whose rows may hold diffs of JSON documents.
pub trait HasWholeRows: RowsKind {}

impl HasWholeRows for WriteRows {}

impl HasWholeRows for UpdateRows {}

impl HasWholeRows for DeleteRows {}

impl HasWholeRows for WriteRowsV1 {}

impl HasWholeRows for UpdateRowsV1 {}

impl HasWholeRows for DeleteRowsV1 {}

/// The rows of this event, whose type says which images they have, and that they are partial updates or aren't.
#[tactic(auto, using(crate::proofs::Events::of_map))]
fn rows_of<'a>(
    event: &'a RowsEvent<'_>,
    is_partial: bool,
    table_map: &'a TableMapEvent<'_>,
) -> Result<Rows<'a>, RowsEventError>
    requires { (form : RowsForm) × IsOfForm form event.now }
    ensures { GivesRows is_partial table_map.now event.now result }
{
    if event.table_id() != table_map.table_id() {
        return Err(RowsEventError::NoTableMap(event.table_id()));
    }
    let types = table_map.columns_type_raw();
    let columns = match TableColumns::new(types, table_map.columns_metadata_raw()) {
        Ok(columns) => columns,
        Err(error) => return Err(RowsEventError::Columns(error)),
    };
    rows_with(event, is_partial, columns)
}

/// The rows of this event, of a table with these columns.
fn rows_with<'a>(
    event: &'a RowsEvent<'_>,
    is_partial: bool,
    columns: TableColumns<'a>,
) -> Result<Rows<'a>, RowsEventError>
    requires { (form : RowsForm) × IsOfForm form event.now }
    ensures { GivesRowsOf is_partial (columns_of columns.entry) event.now result }
{
    let table = columns.num_columns() as u64;
    if event.num_columns() != table {
        return Err(RowsEventError::ColumnCount {
            event: event.num_columns(),
            table,
        });
    }
    Ok(Rows::new(columns, event, is_partial))
}

/// Whether the event holds partial updates.
fn is_partial(event: &RowsEventData<'_>) -> bool
    ensures { result ≡ is_partial event.now }
{
    matches!(event, RowsEventData::PartialUpdateRowsEvent(_))
}

/// Row events, whose bytes are rows.
pub trait RowsEventExt {
    ghost event: { Self → RowsEvent };

    ghost is_partial: { Self → Bool };

    /// The rows of the event. `table_map` is the table map in force for its table id.
    ///
    /// # Errors
    ///
    /// The first of these:
    ///
    /// - [`RowsEventError::NoTableMap`] if the table map is of another table id than the event.
    /// - [`RowsEventError::Columns`] with the error of [`TableColumns::new`] if the table map's columns are refused.
    /// - [`RowsEventError::ColumnCount`] if the event has another number of columns than the table map.
    fn rows<'a>(&'a self, table_map: &'a TableMapEvent<'_>) -> Result<Rows<'a>, RowsEventError>
        ensures { GivesRows (is_partial self.now) table_map.now (event self.now) result };

    /// The rows of the event, of a table with these columns: those of the table map in force for its table id. So a table's
    /// columns need not be read again for each row event: see [`TableColumns::known`].
    ///
    /// # Errors
    ///
    /// [`RowsEventError::ColumnCount`] if the event has another number of columns.
    fn rows_of_table<'a>(&'a self, columns: TableColumns<'a>) -> Result<Rows<'a>, RowsEventError>
        ensures { GivesRowsOf (is_partial self.now) (columns_of columns.entry) (event self.now) result };
}

impl RowsEventExt for RowsEventData<'_> {
    ghost event = { event_in };

    ghost is_partial = { is_partial };

    fn rows<'a>(&'a self, table_map: &'a TableMapEvent<'_>) -> Result<Rows<'a>, RowsEventError> {
        rows_of(self.event(), is_partial(self), table_map)
    }

    fn rows_of_table<'a>(&'a self, columns: TableColumns<'a>) -> Result<Rows<'a>, RowsEventError> {
        rows_with(self.event(), is_partial(self), columns)
    }
}

/// Whole rows.
impl<K: HasWholeRows> RowsEventExt for RowsEventOf<'_, K> {
    ghost event = { λ event. event };

    ghost is_partial = { λ _. false };

    fn rows<'a>(&'a self, table_map: &'a TableMapEvent<'_>) -> Result<Rows<'a>, RowsEventError> {
        rows_of(self.event(), false, table_map)
    }

    fn rows_of_table<'a>(&'a self, columns: TableColumns<'a>) -> Result<Rows<'a>, RowsEventError> {
        rows_with(self.event(), false, columns)
    }
}

/// Partial updates.
impl RowsEventExt for RowsEventOf<'_, PartialUpdateRows> {
    ghost event = { λ event. event };

    ghost is_partial = { λ _. true };

    fn rows<'a>(&'a self, table_map: &'a TableMapEvent<'_>) -> Result<Rows<'a>, RowsEventError> {
        rows_of(self.event(), true, table_map)
    }

    fn rows_of_table<'a>(&'a self, columns: TableColumns<'a>) -> Result<Rows<'a>, RowsEventError> {
        rows_with(self.event(), true, columns)
    }
}
