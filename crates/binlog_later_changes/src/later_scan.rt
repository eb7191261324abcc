//! The visitor of logs that finds what is behind row events that are undone.
ghost use Rattle.std.specs.Prelude.{◌≡◌, ◌∷◌, [], Some, option_copied, length, IfErr, IfSome, OnOk};
ghost use Rattle.binlog_wire.specs.declared.error.Error.TheVariants.{Memory};
ghost use Rattle.binlog_events.specs.EventRefs.{view_of};
ghost use Rattle.binlog_file.specs.State.{state_of};
ghost use Rattle.binlog_file.specs.LogData.{ReadsLogData};
ghost use Rattle.binlog_payload_visits.specs.PartMaps.{maps_of};
ghost use Rattle.binlog_undo_index.specs.declared.reason.Reason.TheVariants.{Damaged};
ghost use Rattle.change_statistics.specs.Names.{name_of};
ghost use Rattle.binlog_later_changes.specs.KnownRows.{KnowsRowsIf};
ghost use Rattle.binlog_later_changes.specs.Later.{table, other};
ghost use Rattle.binlog_later_changes.specs.Looks.{at_of, in_front, at_event, at_error, at_part, behind, look_at, look_of, stopped, event_at, unknown_at, is_limit};
ghost use Rattle.binlog_later_changes.specs.Places.{places_of};
ghost use Rattle.binlog_later_changes.specs.Said.{said_of, rows_in, map_for, is_memory};
ghost use Rattle.binlog_later_changes.specs.RowsLeft.{left_of};
ghost use Rattle.binlog_later_changes.specs.Visits.{Sees, SeesSaid, SeesUndoneRows, SeesKeptRows, SeesCheckedRows, SeesRead, EndsLog, Enters};

use crate::known_rows::{event_rows, rows_read};
use crate::later_change::EventPlace;
use crate::later_changes::LaterChanges;
use crate::later_rules::LaterRules;
use crate::later_tables::LaterTables;
use crate::rows_left::RowsLeft;
use crate::saying::{RowsIn, Said, role_of, rows_in, say};
use crate::undone_events::{RowsPlace, UndoneEvents};
use binlog_file::{
    BinlogFileHeader, Error, EventRef, EventStreamReader, LogEventData, read_log_data,
};
use binlog_payload_visits::{PartTableMaps, PartVisitor};
use binlog_payloads::PayloadError;
use binlog_rows::{RowsEventData, TableMapEvent};
use binlog_transactions::Refusal;
use binlog_undo_index::Reason;
use binlog_visits::Visitor;
use change_statistics::TableName;
use std::alloc::Global;

/// Finds what is behind row events that are undone in a log, and may be in the way of that. It is shown the items of the log, and the events inside
/// compressed transactions. What is behind damage isn't looked at.
#[derive(Drop)]
pub(crate) struct LaterScan<'a> {
    alloc: Global,
    // Which events may be in the way.
    rules: LaterRules,
    // The number of the log, from 0, and what is undone of it.
    log: u64,
    undone: UndoneEvents<'a>,
    // The index and the place of the item that is visited, the place behind it, and the place in its content of the next event inside.
    index: u64,
    place: u64,
    end: u64,
    inside: u64,
    // How many items were visited.
    items: u64,
    is_stopped: bool,
    tables: LaterTables,
    rows: RowsLeft,
}

impl<'a> LaterScan<'a> {
    /// In front of the first item of the log with this number, from 0, of which these row events are undone. `changes` has what was found in the logs
    /// in front of it. The rules say which events may be in the way.
    pub(crate) fn new(
        alloc: Global,
        rules: LaterRules,
        log: u64,
        undone: UndoneEvents<'a>,
        changes: LaterChanges,
    ) -> Self
        ensures at { at_of result ≡ in_front (left_of changes.rows) (places_of undone.entry) }
        ensures rules { result.rules ≡ rules }
        ensures log { result.log ≡ log }
        ensures tables { result.tables ≡ changes.tables }
    {
        LaterScan {
            alloc,
            rules,
            log,
            undone,
            index: 0,
            place: 0,
            end: BinlogFileHeader::LEN as u64,
            inside: 0,
            items: 0,
            is_stopped: false,
            tables: changes.tables,
            rows: changes.rows,
        }
    }

    /// What was found, if all row events of the log that are undone were met.
    pub(crate) fn into_changes(self) -> Option<LaterChanges>
        ensures { IfSome result (λ changes. (changes.tables ≡ self.entry.tables) × (left_of changes.rows ≡ (at_of self.entry).rows) × ((at_of self.entry).left ≡ [])) }
    {
        let mut undone = self.undone;
        if undone.is_done() {
            Some(LaterChanges {
                tables: self.tables,
                rows: self.rows,
            })
        } else {
            None
        }
    }

    /// Behind the last item of the log, behind which this is the length of the tail.
    ///
    /// # Errors
    ///
    /// [`Error::Memory`] if memory is refused.
    pub(crate) fn end(&mut self, tail_len: Option<usize>) -> Result<(), Error>
        ensures ok { OnOk result (EndsLog tail_len self.old self.new) }
        ensures memory { IfErr result (λ e. e ≡ Memory) }
    {
        if self.is_stopped || tail_len == Some(0) {
            return Ok(());
        }
        self.index = self.items;
        self.place = self.end;
        self.note_unknown(Reason::Tail)
    }

    // Goes on to the event with this index.
    fn enter(&mut self, index: u64, event: &EventRef<'_>)
        ensures { Enters (at_event (at_of self.old) index (length (view_of event.now).frame)) self.old self.new }
    {
        self.index = index;
        self.place = self.end;
        self.end = self.end.saturating_add(event.frame().len() as u64);
        self.inside = 0;
        self.items = index.saturating_add(1);
    }

    // Goes on to the error with this index.
    fn enter_error(&mut self, index: u64)
        ensures { Enters (at_error (at_of self.old) index) self.old self.new }
    {
        self.index = index;
        self.place = self.end;
    }

    // Goes on behind an event inside.
    fn enter_part(&mut self, event: &EventRef<'_>)
        ensures { Enters (at_part (at_of self.old) (length (view_of event.now).frame)) self.old self.new }
    {
        self.inside = self.inside.saturating_add(event.frame().len() as u64);
    }

    // Where the item is that is visited.
    fn event(&self) -> EventPlace
        ensures { result ≡ event_at self.now.log (at_of self.now) }
    {
        EventPlace {
            log: self.log,
            index: self.index,
            place: self.place,
        }
    }

    // Notes that what is visited may change any table, for this reason.
    fn note_unknown(&mut self, reason: Reason) -> Result<(), Error>
        ensures ok { OnOk result (Sees (unknown_at self.old.rules self.old.log (at_of self.old) reason ∷ []) (at_of self.old) self.old self.new) }
        ensures memory { IfErr result (λ e. e ≡ Memory) }
    {
        if self.rules.skips.has(reason) {
            return Ok(());
        }
        let here = self.event();
        self.tables.change_any(here, reason)?;
        Ok(())
    }

    // Notes that an event at this place has rows of this table.
    fn note_rows(&mut self, place: RowsPlace, name: TableName) -> Result<(), Error>
        ensures ok { OnOk result (Sees (look_at self.old.rules self.old.log (at_of self.old) place (Some (table (name_of name))) ∷ []) (behind (at_of self.old) place (Some (table (name_of name)))) self.old self.new) }
        ensures memory { IfErr result (λ e. e ≡ Memory) }
    {
        if self.undone.meet(place) {
            self.tables.undo(name)?;
            return Ok(());
        }
        let here = self.event();
        self.tables.change(here, name)?;
        Ok(())
    }

    // Notes that an event has rows of this table, and isn't undone.
    fn note_kept(&mut self, name: TableName) -> Result<(), Error>
        ensures ok { OnOk result (Sees (look_of self.old.log (at_of self.old) (other (table (name_of name))) ∷ []) (at_of self.old) self.old self.new) }
        ensures memory { IfErr result (λ e. e ≡ Memory) }
    {
        let here = self.event();
        self.tables.change(here, name)?;
        Ok(())
    }

    // Notes that an event has these rows, if it has some, of this table, which are undone.
    fn check_undone(
        &mut self,
        name: TableName,
        event: &EventRef<'_>,
        rows: Option<&RowsEventData<'_>>,
        map: Option<&TableMapEvent<'_>>,
    ) -> Result<(), Error>
        ensures ok { OnOk result (SeesUndoneRows (KnowsRowsIf (view_of event.now) (option_copied map.entry) (option_copied rows.entry)) (name_of name) self.old self.new) }
        ensures memory { IfErr result (λ e. e ≡ Memory) }
    {
        let keyed = event_rows(self.alloc, &name, event, rows, map)?;
        self.rows.undo(&name, keyed)?;
        self.tables.undo(name)?;
        Ok(())
    }

    // Notes that an event has these rows, if it has some, of this table, and isn't undone, unless it removes no row that was left behind.
    fn check_kept(
        &mut self,
        name: TableName,
        event: &EventRef<'_>,
        rows: Option<&RowsEventData<'_>>,
        map: Option<&TableMapEvent<'_>>,
    ) -> Result<(), Error>
        ensures ok { OnOk result (SeesKeptRows (KnowsRowsIf (view_of event.now) (option_copied map.entry) (option_copied rows.entry)) (name_of name) self.old self.new) }
        ensures memory { IfErr result (λ e. e ≡ Memory) }
    {
        if !self.rows.knows(&name) {
            return self.note_kept(name);
        }
        let keyed = event_rows(self.alloc, &name, event, rows, map)?;
        if self.rows.is_apart(keyed) {
            return Ok(());
        }
        self.note_kept(name)
    }

    // Notes that an event at this place has these rows, if it has some, of this table, where rows are checked.
    fn check_rows(
        &mut self,
        place: RowsPlace,
        name: TableName,
        event: &EventRef<'_>,
        rows: Option<&RowsEventData<'_>>,
        map: Option<&TableMapEvent<'_>>,
    ) -> Result<(), Error>
        ensures ok { OnOk result (SeesCheckedRows (KnowsRowsIf (view_of event.now) (option_copied map.entry) (option_copied rows.entry)) place (name_of name) self.old self.new) }
        ensures memory { IfErr result (λ e. e ≡ Memory) }
    {
        if self.undone.meet(place) {
            return self.check_undone(name, event, rows, map);
        }
        self.check_kept(name, event, rows, map)
    }

    // Notes that an event at this place has these rows, if it has some, of this table, where rows are checked or aren't.
    fn note_rows_by_rules(
        &mut self,
        place: RowsPlace,
        name: TableName,
        event: &EventRef<'_>,
        rows: Option<&RowsEventData<'_>>,
        map: Option<&TableMapEvent<'_>>,
    ) -> Result<(), Error>
        ensures ok { OnOk result (SeesSaid (KnowsRowsIf (view_of event.now) (option_copied map.entry) (option_copied rows.entry)) place (Some (table (name_of name))) self.old self.new) }
        ensures memory { IfErr result (λ e. e ≡ Memory) }
    {
        if self.rules.checks_rows {
            return self.check_rows(place, name, event, rows, map);
        }
        self.note_rows(place, name)
    }

    // Notes what an event says that is at this place, and has these rows, if it has some.
    fn note(
        &mut self,
        place: RowsPlace,
        said: Said,
        event: &EventRef<'_>,
        rows: Option<&RowsEventData<'_>>,
        map: Option<&TableMapEvent<'_>>,
    ) -> Result<(), Error>
        ensures ok { OnOk result (SeesSaid (KnowsRowsIf (view_of event.now) (option_copied map.entry) (option_copied rows.entry)) place (said_of said) self.old self.new) }
        ensures memory { IfErr result (λ e. e ≡ Memory) }
    {
        match said {
            Said::Nothing => Ok(()),
            Said::Unknown(reason) => self.note_unknown(reason),
            Said::Rows(name) => self.note_rows_by_rules(place, name, event, rows, map),
        }
    }

    // Nothing that follows in the log is looked at: what is visited is damaged.
    fn stop(&mut self) -> Result<(), Error>
        ensures ok { OnOk result (Sees (unknown_at self.old.rules self.old.log (stopped (at_of self.old)) Damaged ∷ []) (stopped (at_of self.old)) self.old self.new) }
        ensures memory { IfErr result (λ e. e ≡ Memory) }
    {
        self.is_stopped = true;
        self.note_unknown(Reason::Damaged)
    }

    // Notes what an event says at this place of which this was read.
    fn note_read(
        &mut self,
        place: RowsPlace,
        event: &EventRef<'_>,
        read: &Result<Option<LogEventData<'_>>, Error>,
        map: Option<&TableMapEvent<'_>>,
    ) -> Result<(), Error>
        ensures ok { OnOk result (SeesRead place (view_of event.now) read.now (option_copied map.entry) self.old self.new) }
        ensures memory { IfErr result (λ e. e ≡ Memory) }
    {
        if is_memory(read) {
            return Err(Error::Memory);
        }
        let said = say(self.alloc, role_of(event), read, map)?;
        let rows = rows_read(read);
        self.note(place, said, event, rows, map)
    }
}

// Whether memory was refused.
fn is_memory(read: &Result<Option<LogEventData<'_>>, Error>) -> bool
    ensures { result ≡ is_memory read.now }
{
    matches!(read, Err(Error::Memory))
}

// The table map in force for what was read of an event.
fn outside_map<'a>(
    read: &Result<Option<LogEventData<'_>>, Error>,
    reader: &'a EventStreamReader,
) -> Option<&'a TableMapEvent<'static>>
    ensures { option_copied result ≡ map_for (state_of reader.now).table_maps (rows_in read.now) }
{
    match rows_in(read) {
        RowsIn::Table(table_id) | RowsIn::WithoutBytes(table_id) => reader.get_tme(table_id),
        _ => None,
    }
}

// The same inside a compressed transaction.
fn inside_map<'a, 'c>(
    read: &Result<Option<LogEventData<'_>>, Error>,
    maps: &'a PartTableMaps<'c>,
) -> Option<&'a TableMapEvent<'c>>
    ensures { option_copied result ≡ map_for (maps_of maps.now) (rows_in read.now) }
{
    match rows_in(read) {
        RowsIn::Table(table_id) | RowsIn::WithoutBytes(table_id) => maps.get(table_id),
        _ => None,
    }
}

// Why what is in a payload can't be read, if it isn't damaged: it is too long.
fn is_too_long(error: &PayloadError) -> bool
    ensures { result ≡ is_limit error.now }
{
    matches!(error, PayloadError::Limit)
}

/// A visit notes what the event says. It is refused with [`Error::Memory`] alone.
impl Visitor for LaterScan<'_> {
    ghost use Rattle.std.specs.Prelude.{◌≡◌};
    ghost use Rattle.binlog_wire.specs.declared.error.Error.TheVariants.{Memory};
    ghost use Rattle.binlog_later_changes.specs.Visits.{VisitsItem};

    ghost visits = { VisitsItem };

    ghost refuses = { λ old maps index item error new. error ≡ Memory };

    fn visit_event(
        &mut self,
        index: u64,
        event: &EventRef<'_>,
        reader: &EventStreamReader,
    ) -> Result<(), Error> {
        if self.is_stopped {
            return Ok(());
        }
        let place = self.end;
        self.enter(index, event);
        let read = read_log_data(self.alloc, event);
        let map = outside_map(&read, reader);
        let answer = self.note_read(RowsPlace::InLog(place), event, &read, map);
        drop(read);
        answer
    }

    fn visit_error(
        &mut self,
        index: u64,
        _error: &Error,
        _reader: &EventStreamReader,
    ) -> Result<(), Error> {
        if self.is_stopped {
            return Ok(());
        }
        self.enter_error(index);
        self.stop()
    }
}

/// A visit notes what the event inside says. It is refused as the visit of an event is.
impl PartVisitor for LaterScan<'_> {
    ghost use Rattle.std.specs.Prelude.{◌≡◌};
    ghost use Rattle.binlog_wire.specs.declared.error.Error.TheVariants.{Memory};
    ghost use Rattle.binlog_later_changes.specs.Visits.{VisitsOne};

    ghost visits_part = { λ old maps index number part new. VisitsOne old maps part new };

    ghost refuses_part = { λ old maps index number part error new. error ≡ Memory };

    fn visit_part(
        &mut self,
        _index: u64,
        _number: u64,
        event: &EventRef<'_>,
        maps: &PartTableMaps<'_>,
    ) -> Result<(), Error> {
        if self.is_stopped {
            return Ok(());
        }
        let place = RowsPlace::InContent {
            event: self.place,
            place: self.inside,
        };
        self.enter_part(event);
        let read = read_log_data(self.alloc, event);
        let map = inside_map(&read, maps);
        let answer = self.note_read(place, event, &read, map);
        drop(read);
        answer
    }

    fn visit_part_error(
        &mut self,
        _index: u64,
        _number: u64,
        error: &PayloadError,
        _maps: &PartTableMaps<'_>,
    ) -> Result<(), Error> {
        if self.is_stopped {
            return Ok(());
        }
        if is_too_long(error) {
            return self.note_unknown(Reason::Transaction(Refusal::Payload));
        }
        self.stop()
    }
}
