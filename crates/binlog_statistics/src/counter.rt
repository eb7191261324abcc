//! A visitor that counts events.
ghost use Rattle.std.specs.Prelude.{◌≡◌, option_copied, IfErr, OnOk};
ghost use Rattle.binlog_events.specs.EventRefs.{view_of};
ghost use Rattle.binlog_file.specs.State.{state_of};
ghost use Rattle.binlog_payload_visits.specs.PartMaps.{maps_of};
ghost use Rattle.binlog_statistics.specs.Counting.{CountsMapped, RefusesItem};
ghost use Rattle.binlog_statistics.specs.ItemFacts.{map_of_rows};

use crate::facts::{facts_of, part_facts_of};
use crate::finding::{RowsFound, find_mapped_rows, find_part_rows, find_rows};
use crate::transaction_gtids::follow_gtid;
use binlog_file::{Error, EventRef, EventStreamReader};
use binlog_payload_visits::{PartTableMaps, PartVisitor};
use binlog_payloads::PayloadError;
use binlog_rows::TableMapEvent;
use binlog_visits::{Refusing, Visitor};
use change_statistics::Counts;
use std::alloc::Global;

/// Counts the events of a log, and those inside its compressed transactions, if it is shown them. It goes on from file to file.
#[derive(Drop)]
pub struct Counter<C> {
    alloc: Global,
    // The text of the GTID of the transaction that began with the last event; empty if none did.
    gtid: String,
    // The position behind the last event in its log, as it states.
    end_position: u64,
    /// What is counted.
    pub stats: C,
}

impl<C> Counter<C> {
    /// Events are counted with these. Nothing is allocated.
    pub fn new(alloc: Global, stats: C) -> Self
        ensures { result.stats ≡ stats }
    {
        Counter {
            alloc,
            gtid: String::new(alloc),
            end_position: 0,
            stats,
        }
    }
}

impl<C: Counts> Counter<C> {
    /// Counts a row event of the table of this table map, whatever was shown before.
    ///
    /// # Errors
    ///
    /// [`Error::Memory`] if memory is refused. Nothing is counted then.
    pub fn count_rows(
        &mut self,
        event: &EventRef<'_>,
        table_map: &TableMapEvent<'_>,
    ) -> Result<(), Error>
        ensures ok { OnOk result (CountsMapped C.adds self.old.stats table_map.now (view_of event.now) self.new.stats) }
        ensures err { IfErr result (λ e. RefusesItem C.keeps self.old.stats e self.new.stats) }
    {
        let found = find_mapped_rows(self.alloc, event, table_map)?;
        let facts = facts_of(found, "", event, Some(table_map));
        match self.stats.add(&facts) {
            Ok(()) => Ok(()),
            Err(_) => Err(Error::Memory),
        }
    }
}

// The table map in force for the rows that were found.
fn outside_map<'a>(
    found: &RowsFound,
    reader: &'a EventStreamReader,
) -> Option<&'a TableMapEvent<'static>>
    ensures { option_copied result ≡ map_of_rows (state_of reader.now).table_maps found.now }
{
    match found {
        RowsFound::Rows(rows) => reader.get_tme(rows.table_id),
        RowsFound::Other | RowsFound::Unreadable => None,
    }
}

// The same inside a compressed transaction.
fn inside_map<'a, 'c>(
    found: &RowsFound,
    maps: &'a PartTableMaps<'c>,
) -> Option<&'a TableMapEvent<'c>>
    ensures { option_copied result ≡ map_of_rows (maps_of maps.now) found.now }
{
    match found {
        RowsFound::Rows(rows) => maps.get(rows.table_id),
        RowsFound::Other | RowsFound::Unreadable => None,
    }
}

/// A visit counts the event. It is refused with [`Error::Memory`] alone, and nothing is counted then.
impl<C: Counts> Visitor for Counter<C> {
    ghost use Rattle.std.specs.Prelude.{◌≡◌};
    ghost use Rattle.binlog_statistics.specs.Counting.{CountsItem, RefusesItem, end_behind};

    ghost visits = { λ old maps index item new. CountsItem C.adds old.stats maps item new.stats × (new.end_position ≡ end_behind old.end_position item) };

    ghost refuses = { λ old maps index item error new. RefusesItem C.keeps old.stats error new.stats };

    fn visit_event(
        &mut self,
        _index: u64,
        event: &EventRef<'_>,
        reader: &EventStreamReader,
    ) -> Result<(), Error> {
        let found = find_rows(self.alloc, event, reader)?;
        self.gtid.clear();
        follow_gtid(&mut self.gtid, self.alloc, event)?;
        self.end_position = u64::from(event.header().log_pos());
        let table_map = outside_map(&found, reader);
        let facts = facts_of(found, self.gtid.as_str(), event, table_map);
        match self.stats.add(&facts) {
            Ok(()) => Ok(()),
            Err(_) => Err(Error::Memory),
        }
    }

    fn visit_error(
        &mut self,
        _index: u64,
        _error: &Error,
        _reader: &EventStreamReader,
    ) -> Result<(), Error> {
        Ok(())
    }
}

/// A visit counts the event, as one of the event that has the transaction. It is refused as the visit of an event is.
impl<C: Counts> PartVisitor for Counter<C> {
    ghost use Rattle.std.specs.Prelude.{◌≡◌};
    ghost use Rattle.binlog_statistics.specs.Counting.{CountsPart, RefusesItem};

    ghost visits_part = { λ old maps index number part new. CountsPart C.adds old.end_position old.stats maps part new.stats × (new.end_position ≡ old.end_position) };

    ghost refuses_part = { λ old maps index number part error new. RefusesItem C.keeps old.stats error new.stats };

    fn visit_part(
        &mut self,
        _index: u64,
        _number: u64,
        event: &EventRef<'_>,
        maps: &PartTableMaps<'_>,
    ) -> Result<(), Error> {
        let found = find_part_rows(self.alloc, event, maps)?;
        let table_map = inside_map(&found, maps);
        let part = part_facts_of(found, self.end_position, event, table_map);
        match self.stats.add(&part) {
            Ok(()) => Ok(()),
            Err(_) => Err(Error::Memory),
        }
    }

    fn visit_part_error(
        &mut self,
        _index: u64,
        _number: u64,
        _error: &PayloadError,
        _maps: &PartTableMaps<'_>,
    ) -> Result<(), Error> {
        Ok(())
    }
}

impl<C> Refusing for Counter<C> {
    fn refused(&self) -> u64 {
        0
    }
}
