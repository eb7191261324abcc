//! The objects of the smaller events.
#![tactic(auto, using(std::proofs::Common::append_assoc))]

ghost use Rattle.std.specs.Prelude.{◌≡◌};
ghost use Rattle.json_line.specs.Tokens.{Adds};
ghost use Rattle.binlog_json_bodies.specs.Bodies.{rotate_object, intvar_object, rand_object, xid_object, begin_load_query_object, incident_number, incident_object, rows_query_object, description_head, description_object, up_to_zero};

use binlog_file::{
    BeginLoadQueryEvent, FormatDescriptionEvent, IncidentEvent, IncidentType, IntvarEvent,
    RandEvent, RotateEvent, RowsQueryEvent, UnknownIncidentType, XidEvent,
};
use json_line::Line;
use memchr::memchr;
use std::alloc::AllocError;

/// Writes the object of a ROTATE event.
pub(crate) fn write_rotate(line: &mut Line, event: &RotateEvent<'_>) -> Result<(), AllocError>
    ensures { Adds result line.old line.new (rotate_object event.now) }
{
    line.begin_object()?;
    line.number_member("position", event.position())?;
    line.text_member("name", event.name_raw())?;
    line.end_object()?;
    Ok(())
}

/// Writes the object of an INTVAR event.
pub(crate) fn write_intvar(line: &mut Line, event: &IntvarEvent) -> Result<(), AllocError>
    ensures { Adds result line.old line.new (intvar_object event.now) }
{
    line.begin_object()?;
    line.number_member("subtype", u64::from(u8::from(event.subtype())))?;
    line.number_member("value", event.value())?;
    line.end_object()?;
    Ok(())
}

/// Writes the object of a RAND event.
pub(crate) fn write_rand(line: &mut Line, event: &RandEvent) -> Result<(), AllocError>
    ensures { Adds result line.old line.new (rand_object event.now) }
{
    line.begin_object()?;
    line.number_member("seed1", event.seed1.0)?;
    line.number_member("seed2", event.seed2.0)?;
    line.end_object()?;
    Ok(())
}

/// Writes the object of an XID event.
pub(crate) fn write_xid(line: &mut Line, event: &XidEvent) -> Result<(), AllocError>
    ensures { Adds result line.old line.new (xid_object event.now) }
{
    line.begin_object()?;
    line.number_member("xid", event.xid)?;
    line.end_object()?;
    Ok(())
}

/// Writes the object of a BEGIN_LOAD_QUERY event.
pub(crate) fn write_begin_load_query(
    line: &mut Line,
    event: &BeginLoadQueryEvent<'_>,
) -> Result<(), AllocError>
    ensures { Adds result line.old line.new (begin_load_query_object event.now) }
{
    line.begin_object()?;
    line.number_member("file_id", u64::from(event.file_id()))?;
    line.bytes_member("block_data", event.block_data())?;
    line.end_object()?;
    Ok(())
}

// The incident's number, known or not.
fn incident_number(incident: Result<IncidentType, UnknownIncidentType>) -> u16
    ensures { result ≡ incident_number incident }
{
    match incident {
        Ok(incident_type) => u16::from(incident_type),
        Err(unknown) => unknown.0,
    }
}

/// Writes the object of an INCIDENT event.
pub(crate) fn write_incident(line: &mut Line, event: &IncidentEvent<'_>) -> Result<(), AllocError>
    ensures { Adds result line.old line.new (incident_object event.now) }
{
    line.begin_object()?;
    line.number_member(
        "incident_type",
        u64::from(incident_number(event.incident_type())),
    )?;
    line.text_member("message", event.message_raw())?;
    line.end_object()?;
    Ok(())
}

/// Writes the object of a ROWS_QUERY event.
pub(crate) fn write_rows_query(
    line: &mut Line,
    event: &RowsQueryEvent<'_>,
) -> Result<(), AllocError>
    ensures { Adds result line.old line.new (rows_query_object event.now) }
{
    line.begin_object()?;
    line.text_member("query", event.query_raw())?;
    line.end_object()?;
    Ok(())
}

// The bytes before the first zero byte, or all if there is none.
fn before_zero(text: &[u8]) -> &[u8]
    ensures { result.now ≡ up_to_zero text.now }
{
    match memchr(0, text) {
        Some(end) => &text[..end],
        None => text,
    }
}

/// Writes the object of a format description.
pub(crate) fn write_description(
    line: &mut Line,
    event: &FormatDescriptionEvent<'_>,
) -> Result<(), AllocError>
    ensures { Adds result line.old line.new (description_object event.now) }
{
    line.begin_object()?;
    write_description_head(line, event)?;
    line.number_member(
        "event_header_length",
        u64::from(event.event_header_length()),
    )?;
    line.bytes_member(
        "event_type_header_lengths",
        event.event_type_header_lengths(),
    )?;
    line.key("checksum_alg")?;
    line.byte_or_null(event.footer().checksum_alg_raw())?;
    line.end_object()?;
    Ok(())
}

// Writes the binlog version, the server version and the creation timestamp of a format description.
fn write_description_head(
    line: &mut Line,
    event: &FormatDescriptionEvent<'_>,
) -> Result<(), AllocError>
    ensures { Adds result line.old line.new (description_head event.now) }
{
    line.number_member(
        "binlog_version",
        u64::from(u16::from(event.binlog_version())),
    )?;
    line.text_member("server_version", before_zero(event.server_version_raw()))?;
    line.number_member("create_timestamp", u64::from(event.create_timestamp()))?;
    Ok(())
}
