//! The object of an event with a payload, those of the events inside, and that of an error in their place.
#![tactic(auto, using(std::proofs::Common::append_assoc))]

ghost use Rattle.std.specs.Prelude.{◌≡◌, option_copied};
ghost use Rattle.json_line.specs.Lines.{IsPlainText};
ghost use Rattle.json_line.specs.Tokens.{Adds, number_value, object, or_null};
ghost use Rattle.binlog_events.specs.EventRefs.{view_of};
ghost use Rattle.binlog_filters.specs.RowEvents.{rows_event_of};
ghost use Rattle.binlog_payloads.specs.Events.{payload_of};
ghost use Rattle.binlog_json_bodies.specs.Shown.{ShowsBy};
ghost use Rattle.binlog_json_lines.specs.Options.{options_of};
ghost use Rattle.binlog_json_lines.specs.PartLines.{IsPartObject, part_error_object, part_head, place_members};
ghost use Rattle.binlog_json_lines.specs.PayloadLines.{compression_name, payload_members, payload_object, stored_payload};

use crate::event_members::{write_event_fields, write_event_head};
use crate::options::LineOptions;
use crate::payload_refusals::write_payload_refusal;
use crate::row_members::RowsWriter;
use binlog_events::EventRef;
use binlog_payloads::{PayloadError, TransactionPayloadCompressionType, TransactionPayloadEvent};
use binlog_rows::{RowsEventData, TableMapEvent};
use json_line::Line;
use std::alloc::{AllocError, Global};

/// The place of an event inside a compressed transaction.
#[derive(Clone, Copy, Debug, PartialEq, Eq)]
pub struct PartPlace {
    /// The index of the event with the payload.
    pub index: u64,
    /// The number of the part, from 0.
    pub number: u64,
}

/// Writes the object of an event inside, of whose data these rows were read, with the rows of a row event. The result is the column
/// of its table that contradicts the files of columns.
///
/// # Errors
///
/// [`AllocError`] if an allocation fails. Some tokens may then have been written.
pub(crate) fn write_part(
    line: &mut Line,
    writer: &mut RowsWriter,
    alloc: Global,
    place: PartPlace,
    event: &EventRef<'_>,
    rows: Option<&RowsEventData<'_>>,
    table_map: Option<&TableMapEvent<'_>>,
    options: &LineOptions,
) -> Result<Option<usize>, AllocError>
    requires { option_copied rows ≡ rows_event_of (view_of event.now) }
    ensures { ShowsBy result line.old line.new (IsPartObject (options_of options.now) (option_copied table_map.entry) place.index place.number (view_of event.now)) }
{
    line.begin_object()?;
    write_part_head(line, place, event)?;
    let contradiction = writer.write_members(line, alloc, event, rows, table_map, options)?;
    line.end_object()?;
    Ok(contradiction)
}

// Writes the members of an event inside before its rows and its data.
fn write_part_head(
    line: &mut Line,
    place: PartPlace,
    event: &EventRef<'_>,
) -> Result<(), AllocError>
    ensures { Adds result line.old line.new (part_head place.index place.number (view_of event.now)) }
{
    write_place(line, place)?;
    write_event_fields(line, event)
}

// Writes the place of a part.
fn write_place(line: &mut Line, place: PartPlace) -> Result<(), AllocError>
    ensures { Adds result line.old line.new (place_members place.index place.number) }
{
    line.number_member("index", place.index)?;
    line.number_member("part", place.number)
}

/// Writes the object of an error in the place of an event inside, or of all.
///
/// # Errors
///
/// [`AllocError`] if an allocation fails. Some tokens may then have been written.
pub(crate) fn write_part_error(
    line: &mut Line,
    place: PartPlace,
    error: &PayloadError,
) -> Result<(), AllocError>
    ensures { Adds result line.old line.new (part_error_object place.index place.number error.now) }
{
    line.begin_object()?;
    write_place(line, place)?;
    write_payload_refusal(line, error)?;
    line.end_object()
}

/// Writes the object of an event with a payload, whose data say this. The payload itself is written only if the stored bytes are kept.
///
/// # Errors
///
/// [`AllocError`] if an allocation fails. Some tokens may then have been written.
pub(crate) fn write_payload_event(
    line: &mut Line,
    index: u64,
    event: &EventRef<'_>,
    payload: &TransactionPayloadEvent<'_>,
    keeps_stored: bool,
) -> Result<(), AllocError>
    ensures { Adds result line.old line.new (payload_object keeps_stored index (view_of event.now) (payload_of payload.now)) }
{
    line.begin_object()?;
    write_event_head(line, index, event)?;
    line.key("data")?;
    write_payload(line, payload, keeps_stored)?;
    line.end_object()
}

// Writes what the data of an event with a payload say.
fn write_payload(
    line: &mut Line,
    payload: &TransactionPayloadEvent<'_>,
    keeps_stored: bool,
) -> Result<(), AllocError>
    ensures { Adds result line.old line.new (object (payload_members keeps_stored (payload_of payload.now))) }
{
    line.begin_object()?;
    line.key("compression")?;
    line.plain_string(compression_name(payload.algorithm()))?;
    line.number_member("payload_size", payload.payload_size())?;
    line.key("uncompressed_size")?;
    write_size(line, payload.uncompressed_size())?;
    write_stored(line, payload, keeps_stored)?;
    line.end_object()
}

// Writes a size, or null.
fn write_size(line: &mut Line, size: Option<u64>) -> Result<(), AllocError>
    ensures { Adds result line.old line.new (or_null number_value size) }
{
    match size {
        Some(size) => line.number(size),
        None => line.null(),
    }
}

// Writes the stored bytes of the payload, if they are kept.
fn write_stored(
    line: &mut Line,
    payload: &TransactionPayloadEvent<'_>,
    keeps_stored: bool,
) -> Result<(), AllocError>
    ensures { Adds result line.old line.new (stored_payload keeps_stored (payload_of payload.now)) }
{
    if keeps_stored {
        line.bytes_member("payload", payload.payload_raw())
    } else {
        Ok(())
    }
}

// The name of a compression type.
fn compression_name(algorithm: TransactionPayloadCompressionType) -> &'static str
    ensures name { result.now ≡ compression_name algorithm }
    ensures plain { IsPlainText result.now }
{
    match algorithm {
        TransactionPayloadCompressionType::ZSTD => "ZSTD",
        TransactionPayloadCompressionType::NONE => "NONE",
    }
}
