//! A visitor that is shown the events inside compressed transactions that are of the tables that are asked for.
ghost use Rattle.std.specs.Prelude.{◌≡◌, IfErr, IfOk};
ghost use Rattle.binlog_wire.specs.declared.error.Error.TheVariants.{Memory};
ghost use Rattle.binlog_events.specs.EventRefs.{view_of};
ghost use Rattle.binlog_payload_visits.specs.PartMaps.{maps_of};
ghost use Rattle.binlog_payload_filters.specs.PartConcerns.{TakesIfAsked};

use crate::part_concern::takes_event;
use binlog_events::EventRef;
use binlog_file::EventStreamReader;
use binlog_filters::TableFilter;
use binlog_payload_visits::{PartTableMaps, PartVisitor};
use binlog_payloads::PayloadError;
use binlog_visits::{Refusing, Visitor};
use binlog_wire::Error;
use std::alloc::Global;

/// Shows another visitor each item, and of the parts those of the tables, those that may change one of them, and each error.
#[derive(Drop)]
pub struct TakenParts<T> {
    alloc: Global,
    /// The tables that are asked for; all if there is no condition.
    pub tables: Option<TableFilter>,
    /// The visitor.
    pub visitor: T,
}

impl<T> TakenParts<T> {
    /// The visitor is shown the parts of these tables.
    pub fn new(alloc: Global, tables: Option<TableFilter>, visitor: T) -> Self
        ensures tables { result.tables ≡ tables }
        ensures visitor { result.visitor ≡ visitor }
    {
        TakenParts {
            alloc,
            tables,
            visitor,
        }
    }

    // Whether an event inside is taken.
    fn takes(&self, event: &EventRef<'_>, maps: &PartTableMaps<'_>) -> Result<bool, Error>
        ensures ok { IfOk result (TakesIfAsked self.now.tables (maps_of maps.now) (view_of event.now)) }
        ensures memory { IfErr result (λ e. e ≡ Memory) }
    {
        match &self.tables {
            Some(tables) => takes_event(self.alloc, tables, event, maps),
            None => Ok(true),
        }
    }
}

/// A visit is one of the other visitor.
impl<T: Visitor> Visitor for TakenParts<T> {
    ghost use Rattle.std.specs.Prelude.{◌≡◌};

    ghost visits = { λ old maps index item new. T.visits old.visitor maps index item new.visitor × (new.tables ≡ old.tables) };

    ghost refuses = { λ old maps index item error new. T.refuses old.visitor maps index item error new.visitor × (new.tables ≡ old.tables) };

    fn visit_event(
        &mut self,
        index: u64,
        event: &EventRef<'_>,
        reader: &EventStreamReader,
    ) -> Result<(), Error> {
        self.visitor.visit_event(index, event, reader)
    }

    fn visit_error(
        &mut self,
        index: u64,
        error: &Error,
        reader: &EventStreamReader,
    ) -> Result<(), Error> {
        self.visitor.visit_error(index, error, reader)
    }
}

/// A visit of a part that is taken is one of the other visitor; another one leaves that as it was. It is refused with an error of the
/// other visitor, or with [`Error::Memory`], where nothing changes.
impl<T: PartVisitor> PartVisitor for TakenParts<T> {
    ghost use Rattle.binlog_payload_filters.specs.PartFiltering.{ShowsTaken, RefusesTaken};

    ghost visits_part = { λ old maps index number part new. ShowsTaken T.visits_part old maps index number part new };

    ghost refuses_part = { λ old maps index number part error new. RefusesTaken T.refuses_part old maps index number part error new };

    fn visit_part(
        &mut self,
        index: u64,
        number: u64,
        event: &EventRef<'_>,
        maps: &PartTableMaps<'_>,
    ) -> Result<(), Error> {
        if !self.takes(event, maps)? {
            return Ok(());
        }
        self.visitor.visit_part(index, number, event, maps)
    }

    fn visit_part_error(
        &mut self,
        index: u64,
        number: u64,
        error: &PayloadError,
        maps: &PartTableMaps<'_>,
    ) -> Result<(), Error> {
        self.visitor.visit_part_error(index, number, error, maps)
    }
}

impl<T: Refusing> Refusing for TakenParts<T> {
    ghost refusals = { λ taken. T.refusals taken.visitor };

    fn refused(&self) -> u64 {
        self.visitor.refused()
    }
}
