//! The first error inside an event.
ghost use Rattle.std.specs.Prelude.{◌≡◌, Ok, IfErr, IfOk};
ghost use Rattle.binlog_wire.specs.declared.error.Error.TheVariants.{Memory};
ghost use Rattle.binlog_events.specs.EventRefs.{view_of};
ghost use Rattle.binlog_payload_visits.specs.Finding.{IsFirstError};

use crate::noted::Noted;
use crate::part_error::PartError;
use crate::part_visitor::PartVisitor;
use crate::spliced::Spliced;
use crate::table_maps::PartTableMaps;
use binlog_events::EventRef;
use binlog_file::EventStreamReader;
use binlog_payloads::PayloadError;
use binlog_visits::Visitor;
use binlog_wire::Error;
use std::alloc::Global;

/// The first error among the parts of an event, if one is: why its payload or the content can't be read, or the error in the place
/// of an event inside. A content of more than `limit` bytes is refused. The reader is that of the event.
///
/// The only error is [`Error::Memory`], if an allocation failed.
pub fn first_part_error(
    alloc: Global,
    limit: usize,
    event: &EventRef<'_>,
    reader: &EventStreamReader,
) -> Result<Option<PartError>, Error>
    ensures ok { IfOk result (λ found. IsFirstError limit (Ok (view_of event.now)) found) }
    ensures memory { IfErr result (λ e. e ≡ Memory) }
{
    let mut spliced = Spliced::new(alloc, limit, Noted::new(Unseen));
    spliced.visit_event(0, event, reader)?;
    Ok(spliced.visitor.first_error)
}

// A visitor that does nothing.
#[derive(Drop)]
struct Unseen;

impl Visitor for Unseen {
    ghost use Rattle.binlog_payload_visits.specs.Noting.{IsNever};

    ghost visits = { λ old maps index item new. Unit {0} };

    ghost refuses = { λ old maps index item error new. IsNever };

    fn visit_event(
        &mut self,
        _index: u64,
        _event: &EventRef<'_>,
        _reader: &EventStreamReader,
    ) -> Result<(), Error> {
        Ok(())
    }

    fn visit_error(
        &mut self,
        _index: u64,
        _error: &Error,
        _reader: &EventStreamReader,
    ) -> Result<(), Error> {
        Ok(())
    }
}

impl PartVisitor for Unseen {
    ghost use Rattle.binlog_payload_visits.specs.Noting.{IsNever};

    ghost visits_part = { λ old maps index number part new. Unit {0} };

    ghost refuses_part = { λ old maps index number part error new. IsNever };

    fn visit_part(
        &mut self,
        _index: u64,
        _number: u64,
        _event: &EventRef<'_>,
        _maps: &PartTableMaps<'_>,
    ) -> Result<(), Error> {
        Ok(())
    }

    fn visit_part_error(
        &mut self,
        _index: u64,
        _number: u64,
        _error: &PayloadError,
        _maps: &PartTableMaps<'_>,
    ) -> Result<(), Error> {
        Ok(())
    }
}
