//! Visits the parts of an event: what is inside the compressed transaction that it has.
ghost use Rattle.std.specs.Prelude.{◌≡◌, Ok, Err, false, IfErr};
ghost use Rattle.binlog_event_format.specs.DescriptionRefs.{description_of};
ghost use Rattle.binlog_events.specs.EventRefs.{view_of};
ghost use Rattle.binlog_file.specs.Items.{checked_event};
ghost use Rattle.binlog_visits.specs.KnownCounts.{CountsKnown};
ghost use Rattle.binlog_visits.specs.Visits.{IsNoReaderError};
ghost use Rattle.binlog_payloads.specs.Contents.{content_of};
ghost use Rattle.binlog_payloads.specs.Events.{payload_of};
ghost use Rattle.binlog_payload_visits.specs.PartMaps.{maps_of};
ghost use Rattle.binlog_payload_visits.specs.Parts.{AreContentParts, AreParts, AreUnpackedParts, HasPayload, IsRefusal, part_of};
ghost use Rattle.binlog_payload_visits.specs.PartVisits.{VisitsPartsOf};
ghost use Rattle.binlog_payload_visits.specs.Stepping.{StepsParts, VisitsPart, answered, is_memory};

use crate::part_visitor::PartVisitor;
use crate::table_maps::PartTableMaps;
use binlog_event_format::DescriptionRef;
use binlog_events::EventRef;
use binlog_payloads::{PayloadError, TransactionPayloadEvent, TransactionPayloadReader};
use binlog_wire::Error;
use std::alloc::Global;

/// Visits the parts of an event, in order; those of an event without a payload are none. A content of more than `limit` bytes is
/// refused.
///
/// # Errors
///
/// That with which the visitor refused a part, and [`Error::Memory`] if an allocation failed. The parts before are visited.
pub(crate) fn visit_parts<T: PartVisitor>(
    alloc: Global,
    limit: usize,
    index: u64,
    event: &EventRef<'_>,
    visitor: &mut T,
) -> Result<(), Error>
    ensures visits { VisitsPartsOf T.visits_part T.refuses_part (AreParts limit (Ok (view_of event.now))) (HasPayload (view_of event.now)) index visitor.old result visitor.new }
    ensures reader { IfErr result IsNoReaderError }
    ensures writer { CountsKnown result (T.count visitor.old) (T.count visitor.new) }
{
    match TransactionPayloadEvent::of_event(event) {
        Ok(None) => Ok(()),
        Ok(Some(payload)) => visit_payload(alloc, limit, index, event.fde(), &payload, visitor),
        Err(error) => visit_refusal(alloc, index, &error, visitor),
    }
}

// Visits the parts of a payload.
fn visit_payload<T: PartVisitor>(
    alloc: Global,
    limit: usize,
    index: u64,
    fde: DescriptionRef<'_>,
    payload: &TransactionPayloadEvent<'_>,
    visitor: &mut T,
) -> Result<(), Error>
    ensures visits { VisitsPartsOf T.visits_part T.refuses_part (AreUnpackedParts (description_of fde.entry) (content_of limit (payload_of payload.now))) (Unit {0}) index visitor.old result visitor.new }
    ensures reader { IfErr result IsNoReaderError }
    ensures writer { CountsKnown result (T.count visitor.old) (T.count visitor.new) }
{
    match payload.decompressed(alloc, limit) {
        Ok(content) => visit_content(alloc, index, fde, &content, visitor),
        Err(refusal) => {
            if is_memory(&refusal) {
                return Err(Error::Memory);
            }
            visit_refusal(alloc, index, &refusal, visitor)
        }
    }
}

// Visits a refusal, which is the only part.
fn visit_refusal<T: PartVisitor>(
    alloc: Global,
    index: u64,
    error: &PayloadError,
    visitor: &mut T,
) -> Result<(), Error>
    ensures visits { VisitsPartsOf T.visits_part T.refuses_part (IsRefusal error.now) ⊥ index visitor.old result visitor.new }
    ensures reader { IfErr result IsNoReaderError }
    ensures writer { CountsKnown result (T.count visitor.old) (T.count visitor.new) }
{
    visitor.visit_part_error(index, 0, error, &PartTableMaps::new(alloc))
}

// Visits the parts of a content.
fn visit_content<T: PartVisitor>(
    alloc: Global,
    index: u64,
    fde: DescriptionRef<'_>,
    content: &[u8],
    visitor: &mut T,
) -> Result<(), Error>
    ensures visits { VisitsPartsOf T.visits_part T.refuses_part (AreContentParts (description_of fde.entry) content.now) (Unit {0}) index visitor.old result visitor.new }
    ensures reader { IfErr result IsNoReaderError }
    ensures writer { CountsKnown result (T.count visitor.old) (T.count visitor.new) }
{
    let mut reader = TransactionPayloadReader::new(fde, content);
    let mut maps = PartTableMaps::new(alloc);
    // Bounded, so that the loop is proved to end; no content has so many events.
    'parts: for number in 0..u64::MAX {
        if !visit_next(index, number, &mut reader, &mut maps, visitor)? {
            return Ok(());
        }
    }
    Ok(())
}

// Visits the next part of a content; false at the end.
fn visit_next<'a, T: PartVisitor>(
    index: u64,
    number: u64,
    reader: &mut TransactionPayloadReader<'a>,
    maps: &mut PartTableMaps<'a>,
    visitor: &mut T,
) -> Result<bool, Error>
    ensures steps { StepsParts T.visits_part T.refuses_part index number reader.old reader.new (maps_of maps.old) (maps_of maps.new) visitor.old result visitor.new }
    ensures reader { IfErr result IsNoReaderError }
    ensures writer { CountsKnown result (T.count visitor.old) (T.count visitor.new) }
{
    match reader.next() {
        None => Ok(false),
        Some(Ok(event)) => visit_inner(index, number, &event, maps, visitor),
        Some(Err(error)) => answered(visitor.visit_part_error(index, number, &error, maps)),
    }
}

// Visits an event of a content, with what it brings into force, or the error in its place.
fn visit_inner<'a, T: PartVisitor>(
    index: u64,
    number: u64,
    event: &EventRef<'a>,
    maps: &mut PartTableMaps<'a>,
    visitor: &mut T,
) -> Result<bool, Error>
    ensures visits { VisitsPart T.visits_part T.refuses_part index number (part_of (checked_event (view_of event.now))) (maps_of maps.old) (maps_of maps.new) visitor.old result visitor.new }
    ensures reader { IfErr result IsNoReaderError }
    ensures writer { CountsKnown result (T.count visitor.old) (T.count visitor.new) }
{
    match maps.follow(event) {
        Ok(None) => answered(visitor.visit_part(index, number, event, maps)),
        Ok(Some(error)) => {
            let error = PayloadError::Event(error);
            answered(visitor.visit_part_error(index, number, &error, maps))
        }
        Err(_) => Err(Error::Memory),
    }
}

// The result of a step over a part, from that of its visit.
fn answered(visited: Result<(), Error>) -> Result<bool, Error>
    ensures { result ≡ answered visited }
{
    match visited {
        Ok(()) => Ok(true),
        Err(error) => Err(error),
    }
}

// Whether memory ran out.
fn is_memory(error: &PayloadError) -> bool
    ensures { result ≡ is_memory error.now }
{
    match error {
        PayloadError::Memory => true,
        _ => false,
    }
}
