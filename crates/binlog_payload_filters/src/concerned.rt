//! Whether a compressed transaction is of the tables that are asked for.
ghost use Rattle.std.specs.Prelude.{◌≡◌, IfErr, IfOk};
ghost use Rattle.binlog_wire.specs.declared.error.Error.TheVariants.{Memory};
ghost use Rattle.binlog_events.specs.EventRefs.{view_of};
ghost use Rattle.binlog_payload_filters.specs.Payloads.{TakesContent};

use crate::part_concern::takes_event;
use binlog_events::EventRef;
use binlog_file::EventStreamReader;
use binlog_filters::TableFilter;
use binlog_payload_visits::{PartTableMaps, PartVisitor, Spliced};
use binlog_payloads::PayloadError;
use binlog_visits::Visitor;
use binlog_wire::Error;
use std::alloc::Global;

/// Whether a part of an event is taken: an event inside of the tables, or that may change one of them, or an error. A content of more
/// than `limit` bytes is an error.
///
/// The only error is [`Error::Memory`].
pub(crate) fn takes_content(
    alloc: Global,
    limit: usize,
    tables: &TableFilter,
    event: &EventRef<'_>,
    reader: &EventStreamReader,
) -> Result<bool, Error>
    ensures ok { IfOk result (TakesContent limit tables.now (view_of event.now)) }
    ensures memory { IfErr result (λ e. e ≡ Memory) }
{
    let found = Concerned {
        alloc,
        tables,
        is_taken: false,
    };
    let mut spliced = Spliced::new(alloc, limit, found);
    spliced.visit_event(0, event, reader)?;
    Ok(spliced.visitor.is_taken)
}

// Notes whether a part is taken.
#[derive(Drop)]
struct Concerned<'f> {
    alloc: Global,
    tables: &'f TableFilter,
    is_taken: bool,
}

impl<'f> Visitor for Concerned<'f> {
    ghost use Rattle.std.specs.Prelude.{◌≡◌};

    ghost visits = { λ old maps index item new. new ≡ old };

    ghost refuses = { λ old maps index item error new. ⊥ };

    fn visit_event(
        &mut self,
        _index: u64,
        _event: &EventRef<'_>,
        _reader: &EventStreamReader,
    ) -> Result<(), Error> {
        Ok(())
    }

    fn visit_error(
        &mut self,
        _index: u64,
        _error: &Error,
        _reader: &EventStreamReader,
    ) -> Result<(), Error> {
        Ok(())
    }
}

impl<'f> PartVisitor for Concerned<'f> {
    ghost use Rattle.std.specs.Prelude.{◌≡◌};
    ghost use Rattle.binlog_wire.specs.declared.error.Error.TheVariants.{Memory};
    ghost use Rattle.binlog_payload_filters.specs.Payloads.{TakesFirst};

    ghost visits_part = { λ old maps index number part new. TakesFirst old.is_taken old.tables.now maps part new.is_taken × (new.tables ≡ old.tables) };

    ghost refuses_part = { λ old maps index number part error new. error ≡ Memory };

    fn visit_part(
        &mut self,
        _index: u64,
        _number: u64,
        event: &EventRef<'_>,
        maps: &PartTableMaps<'_>,
    ) -> Result<(), Error> {
        if self.is_taken {
            return Ok(());
        }
        self.is_taken = takes_event(self.alloc, self.tables, event, maps)?;
        Ok(())
    }

    fn visit_part_error(
        &mut self,
        _index: u64,
        _number: u64,
        _error: &PayloadError,
        _maps: &PartTableMaps<'_>,
    ) -> Result<(), Error> {
        self.is_taken = true;
        Ok(())
    }
}
