//! The table maps in force inside a compressed transaction.
ghost use Rattle.std.specs.Prelude.{◌≡◌, true, option_copied, OnOk, OnErr};
ghost use Rattle.binlog_events.specs.EventRefs.{view_of};
ghost use Rattle.binlog_events.specs.Parts.{is_rotate};
ghost use Rattle.binlog_file.specs.TableMapsInForce.{no_table_maps, with_table_map};
ghost use Rattle.binlog_payload_visits.specs.PartMaps.{Follows, FollowsPart, KeepsMap, LooksAtPosition, ReadsMap, maps_of};

use binlog_bodies::RotateEvent;
use binlog_events::EventRef;
use binlog_rows::TableMapEvent;
use binlog_wire::{Error, ParseBuf};
use std::alloc::{AllocError, Global};
use std::collections::BTreeMap;

/// The table maps in force at a place inside a compressed transaction: the newest of each table id, from the transaction's front on.
/// Each is borrowed from the transaction's content. Contracts see them through `maps_of`.
#[derive(Drop)]
pub struct PartTableMaps<'a> {
    newest: BTreeMap<u64, TableMapEvent<'a>>,
}

impl<'a> PartTableMaps<'a> {
    /// No table maps: those at the front of a transaction. Nothing is allocated.
    pub fn new(alloc: Global) -> Self
        ensures { maps_of result ≡ no_table_maps }
    {
        PartTableMaps {
            newest: BTreeMap::new(alloc),
        }
    }

    /// The table map of this id, if there is one.
    pub fn get(&self, table_id: u64) -> Option<&TableMapEvent<'a>>
        ensures { option_copied result ≡ maps_of self.now table_id }
    {
        self.newest.get(&table_id)
    }

    /// Brings into force what an event of the transaction does: a table map replaces that of its id, and a ROTATE of another
    /// position than 0 clears all. The result is the error in the place of the event, if there is one: [`Error::EndOfBody`] or
    /// [`Error::InvalidData`] where the data of a table map or of a ROTATE isn't one.
    ///
    /// # Errors
    ///
    /// [`AllocError`] if an allocation fails. Nothing changes then, nor where there is an error in the place of the event.
    pub(crate) fn follow(&mut self, event: &EventRef<'a>) -> Result<Option<Error>, AllocError>
        ensures { FollowsPart result (view_of event.now) (maps_of self.old) (maps_of self.new) }
    {
        if event.is_table_map() {
            return self.keep(event);
        }
        if event.is_rotate() {
            return Ok(self.turn(event));
        }
        Ok(None)
    }

    // Clears the table maps, if a ROTATE has another position than 0.
    fn turn(&mut self, event: &EventRef<'a>) -> Option<Error>
        requires { is_rotate (view_of event.now).frame ≡ true }
        ensures { Follows result (view_of event.now) (maps_of self.old) (maps_of self.new) }
    {
        match position(event) {
            Ok(0) => None,
            Ok(_) => {
                self.newest.clear();
                None
            }
            Err(error) => Some(error),
        }
    }

    // Keeps the table map of an event in place of that of its id.
    fn keep(&mut self, event: &EventRef<'a>) -> Result<Option<Error>, AllocError>
        ensures { KeepsMap result (view_of event.now) (maps_of self.old) (maps_of self.new) }
    {
        match table_map(event) {
            Ok(map) => match self.insert(map) {
                Ok(()) => Ok(None),
                Err(error) => Err(error),
            },
            Err(error) => Ok(Some(error)),
        }
    }

    // Keeps a table map in place of that of its id.
    fn insert(&mut self, map: TableMapEvent<'a>) -> Result<(), AllocError>
        ensures ok { OnOk result (maps_of self.new ≡ with_table_map (maps_of self.old) map.entry) }
        ensures err { OnErr result (maps_of self.new ≡ maps_of self.old) }
    {
        self.newest.insert(map.table_id(), map)?;
        Ok(())
    }
}

// The table map in the data of an event.
fn table_map<'a>(event: &EventRef<'a>) -> Result<TableMapEvent<'a>, Error>
    ensures { ReadsMap result (view_of event.now) }
{
    TableMapEvent::read(event.fde(), &mut ParseBuf(event.data()))
}

// The position in the data of a ROTATE.
fn position(event: &EventRef<'_>) -> Result<u64, Error>
    ensures { LooksAtPosition result (view_of event.now) }
{
    match RotateEvent::read(&mut ParseBuf(event.data())) {
        Ok(rotate) => Ok(rotate.position()),
        Err(error) => Err(error),
    }
}
