//! What the first pass sees of rows.
ghost use Rattle.std.specs.Prelude.{◌≡◌, Some, IfErr, IfOk};
ghost use Rattle.std.specs.List.{list_any};
ghost use Rattle.binlog_columns.specs.TableColumns.{columns_of};
ghost use Rattle.binlog_event_format.specs.DescriptionRefs.{description_of};
ghost use Rattle.binlog_wire.specs.declared.error.Error.TheVariants.{Memory};
ghost use Rattle.binlog_events.specs.EventRefs.{view_of};
ghost use Rattle.binlog_file.specs.State.{state_of};
ghost use Rattle.binlog_undo_log.specs.Looking.{NamesTable, AsksFor, is_old_temporal, IsOldTemporal, IsUnknownTemporal, LooksAs, LooksAtColumns, LooksAtTable, LooksAtChosen, LooksByPlace, LooksAtEmpty, LooksAtRows, left_if_undone};

use crate::events::is_maria_event;
use crate::heads::{has_rows_length, is_writable};
use crate::primary_key::check_by_key;
use crate::scan::UndoScan;
use binlog_columns::TableColumns;
use binlog_consts::EventType;
use binlog_event_format::DescriptionRef;
use binlog_file::{Error, EventRef, EventStreamReader, RowsEventData, TableMapEvent};
use binlog_filters::TableFilter;
use binlog_undo::UndoError;
use binlog_undo_index::{ChangePlace, Reason};

/// What is seen of a row event.
#[derive(Clone, Copy, Debug, PartialEq, Eq)]
pub(crate) enum RowsLook {
    /// It isn't to be undone.
    Left,
    /// It is to be undone.
    Undone(ChangePlace),
    /// It can't be undone.
    Refused(Reason),
    /// It can't be read.
    Damaged,
}

// Whether one of these types is TIMESTAMP, TIME or DATETIME without a statement of its fractions.
fn has_old_temporal(types: &[u8]) -> bool
    ensures { result ≡ list_any is_old_temporal types.now }
{
    let mut left = types;
    'types: while let Some((number, others)) = left.split_first() {
        if matches!(*number, 7 | 11 | 12) {
            return true;
        }
        left = others;
    }
    false
}

// Whether values of these types have one form or another in the log of an event, which doesn't say which.
fn is_old_temporal(event: &EventRef<'_>, types: &[u8]) -> bool
    ensures { IsOldTemporal (view_of event.now) types.now result }
{
    is_maria_event(event) && has_old_temporal(types)
}

// Whether it isn't known which form values of these types have. `is_plain` says that they have no fractions.
fn is_unknown_temporal(is_plain: bool, event: &EventRef<'_>, types: &[u8]) -> bool
    ensures { IsUnknownTemporal is_plain (view_of event.now) types.now result }
{
    if is_plain {
        return false;
    }
    is_old_temporal(event, types)
}

// What is seen of rows at these places, which an event of this type undoes.
fn look_of(
    fde: DescriptionRef<'_>,
    checked: Result<EventType, UndoError>,
    place: ChangePlace,
) -> Result<RowsLook, Error>
    ensures ok { IfOk result (LooksAs (description_of fde.entry) place checked) }
    ensures memory { IfErr result (λ e. e ≡ Memory) }
{
    match checked {
        Ok(event_type) => {
            if has_rows_length(fde, event_type) {
                Ok(RowsLook::Undone(place))
            } else {
                Ok(RowsLook::Refused(Reason::Description))
            }
        }
        Err(UndoError::Memory) => Err(Error::Memory),
        Err(UndoError::Image) => Ok(RowsLook::Refused(Reason::Image)),
        Err(UndoError::PartialJson(_)) => Ok(RowsLook::Refused(Reason::PartialJson)),
        Err(UndoError::Event(_) | UndoError::Rows(_)) => Ok(RowsLook::Refused(Reason::Rows)),
    }
}

impl RowsLook {
    // The same of an event without bytes: what can be undone of it are no rows.
    fn without_bytes(self) -> RowsLook
        ensures { result ≡ left_if_undone self }
    {
        match self {
            RowsLook::Left | RowsLook::Undone(_) => RowsLook::Left,
            RowsLook::Refused(reason) => RowsLook::Refused(reason),
            RowsLook::Damaged => RowsLook::Damaged,
        }
    }
}

impl UndoScan {
    // Whether the table of a row event is one of these; without conditions that is said otherwise.
    fn names_table(
        &self,
        tables: &Option<TableFilter>,
        otherwise: bool,
        event: &EventRef<'_>,
        reader: &EventStreamReader,
    ) -> Result<bool, Error>
        ensures ok { IfOk result (NamesTable otherwise tables.now (state_of reader.now).table_maps (view_of event.now)) }
        ensures memory { IfErr result (λ e. e ≡ Memory) }
    {
        match tables {
            None => Ok(otherwise),
            Some(filter) => {
                let concern = filter.concern(self.alloc, false, event, reader)?;
                Ok(concern.is_taken(false, false))
            }
        }
    }

    // Whether the table of a row event is chosen.
    fn asks_for(&self, event: &EventRef<'_>, reader: &EventStreamReader) -> Result<bool, Error>
        ensures ok { IfOk result (AsksFor self.now.choice (state_of reader.now).table_maps (view_of event.now)) }
        ensures memory { IfErr result (λ e. e ≡ Memory) }
    {
        let is_within = self.names_table(&self.choice.tables, true, event, reader)?;
        let is_without = self.names_table(&self.choice.excluded, false, event, reader)?;
        Ok(is_within && !is_without)
    }

    // What is seen of rows of a table with this map and these columns; the map is at this place.
    fn look_at_columns(
        &self,
        event: &EventRef<'_>,
        rows: &RowsEventData<'_>,
        map: &TableMapEvent<'_>,
        columns: TableColumns<'_>,
        table_map: u64,
    ) -> Result<RowsLook, Error>
        ensures ok { IfOk result (LooksAtColumns self.now (view_of event.now) rows.now map.now (columns_of columns.entry) table_map) }
        ensures memory { IfErr result (λ e. e ≡ Memory) }
    {
        let place = ChangePlace {
            table_map,
            rows: self.place,
        };
        let is_maria_log = is_maria_event(event);
        let checked = check_by_key(self.alloc, map, rows, columns, is_maria_log);
        look_of(event.fde(), checked, place)
    }

    // What is seen of rows of a table with this map, which is at this place.
    fn look_at_table(
        &self,
        event: &EventRef<'_>,
        rows: &RowsEventData<'_>,
        map: &TableMapEvent<'_>,
        table_map: u64,
    ) -> Result<RowsLook, Error>
        ensures ok { IfOk result (LooksAtTable self.now (view_of event.now) rows.now map.now table_map) }
        ensures memory { IfErr result (λ e. e ≡ Memory) }
    {
        let types = map.columns_type_raw();
        match TableColumns::new(types, map.columns_metadata_raw()) {
            Err(_) => Ok(RowsLook::Refused(Reason::Rows)),
            Ok(columns) => {
                if is_unknown_temporal(self.choice.has_plain_temporal, event, types) {
                    Ok(RowsLook::Refused(Reason::OldTemporal))
                } else {
                    self.look_at_columns(event, rows, map, columns, table_map)
                }
            }
        }
    }

    // What is seen of rows of a table that is chosen, with this map, which is at this place.
    fn look_at_chosen(
        &self,
        event: &EventRef<'_>,
        rows: &RowsEventData<'_>,
        map: &TableMapEvent<'_>,
        table_map: u64,
    ) -> Result<RowsLook, Error>
        ensures ok { IfOk result (LooksAtChosen self.now (view_of event.now) rows.now map.now table_map) }
        ensures memory { IfErr result (λ e. e ≡ Memory) }
    {
        let has_description = self.description.is_some() && is_writable(event.fde());
        if !has_description {
            return Ok(RowsLook::Refused(Reason::Description));
        }
        self.look_at_table(event, rows, map, table_map)
    }

    // What is seen of rows with a table map at this place. One that isn't in force, as outside a compressed transaction, doesn't count.
    fn look_at_placed(
        &self,
        event: &EventRef<'_>,
        rows: &RowsEventData<'_>,
        table_map: u64,
        reader: &EventStreamReader,
    ) -> Result<RowsLook, Error>
        ensures ok { IfOk result (LooksByPlace (Some table_map) self.now (state_of reader.now).table_maps (view_of event.now) rows.now) }
        ensures memory { IfErr result (λ e. e ≡ Memory) }
    {
        let Some(map) = reader.get_tme(rows.table_id()) else {
            return Ok(RowsLook::Refused(Reason::NoTableMap));
        };
        let is_asked = self.asks_for(event, reader)?;
        if is_asked {
            self.look_at_chosen(event, rows, map, table_map)
        } else {
            Ok(RowsLook::Left)
        }
    }

    // What is seen of an event without bytes. It may have rows if a table map of its id is in its transaction: a row of no columns has no bytes.
    fn look_without_bytes(
        &self,
        event: &EventRef<'_>,
        rows: &RowsEventData<'_>,
        reader: &EventStreamReader,
    ) -> Result<RowsLook, Error>
        ensures ok { IfOk result (LooksAtEmpty self.now (state_of reader.now).table_maps (view_of event.now) rows.now) }
        ensures memory { IfErr result (λ e. e ≡ Memory) }
    {
        match self.index.table_map(rows.table_id()) {
            None => Ok(RowsLook::Left),
            Some(table_map) => {
                let look = self.look_at_placed(event, rows, table_map, reader)?;
                Ok(look.without_bytes())
            }
        }
    }

    /// What is seen of rows.
    pub(super) fn look_at_rows(
        &self,
        event: &EventRef<'_>,
        rows: &RowsEventData<'_>,
        reader: &EventStreamReader,
    ) -> Result<RowsLook, Error>
        ensures ok { IfOk result (LooksAtRows self.now (state_of reader.now).table_maps (view_of event.now) rows.now) }
        ensures memory { IfErr result (λ e. e ≡ Memory) }
    {
        if rows.rows_data().is_empty() {
            return self.look_without_bytes(event, rows, reader);
        }
        match self.index.table_map(rows.table_id()) {
            None => Ok(RowsLook::Refused(Reason::NoTableMap)),
            Some(table_map) => self.look_at_placed(event, rows, table_map, reader),
        }
    }
}
