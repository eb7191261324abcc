//! The `data` member of an event, by the event's type.
#![tactic(auto, using(std::proofs::Common::append_assoc))]

ghost use Rattle.std.specs.Prelude.{◌≡◌, false, Ok, OnOk};
ghost use Rattle.binlog_file.specs.Errors.{error_number, is_environment_error};
ghost use Rattle.binlog_file.specs.declared.EventType.TheVariants.{QUERY_EVENT};
ghost use Rattle.binlog_file.specs.EventTypes.{event_type_of};
ghost use Rattle.binlog_file.specs.Headers.{header_of};
ghost use Rattle.binlog_file.specs.EventRefs.{view_of};
ghost use Rattle.binlog_file.specs.Parts.{data_of};
ghost use Rattle.json_line.specs.Tokens.{Adds};
ghost use Rattle.binlog_json_bodies.specs.ClientSets.{is_of_maria};
ghost use Rattle.binlog_json_bodies.specs.Data.{empty_object, raw_object, error_object, data_object, name_value, data_value};

use crate::bodies::{
    write_begin_load_query, write_description, write_incident, write_intvar, write_rand,
    write_rotate, write_rows_query, write_xid,
};
use crate::gtids::{write_gtid, write_previous_gtids};
use crate::kept_statements::KeptStatements;
use crate::rows::{write_rows, write_table_map};
use crate::statements::{write_execute_load_query, write_next_query, write_query, write_user_var};
use binlog_event_types::name_of;
use binlog_file::{Error, EventData, EventRef, EventType, QueryEvent, UnknownEventType};
use json_line::Line;
use std::alloc::{AllocError, Global};

/// Writes the name of an event type; null for an unknown type.
///
/// # Errors
///
/// [`AllocError`] if an allocation fails.
#[tactic(auto, using(crate::proofs::TypeNames::plain_type_name, std::proofs::Common::append_assoc))]
pub fn write_name(
    line: &mut Line,
    event_type: Result<EventType, UnknownEventType>,
) -> Result<(), AllocError>
    ensures { Adds result line.old line.new (name_value event_type) }
{
    match event_type {
        Ok(event_type) => line.plain_string(name_of(event_type)),
        Err(_) => line.null(),
    }
}

/// Writes the data of an event: null for an unknown type, and an object with the error number if the body isn't one of
/// the type.
///
/// # Errors
///
/// [`AllocError`] if an allocation fails. Some tokens may then have been written.
pub fn write_data(line: &mut Line, alloc: Global, event: &EventRef<'_>) -> Result<(), AllocError>
    ensures { Adds result line.old line.new (data_value (view_of event.now).fde
        (data_of (view_of event.now).fde.footer (view_of event.now).frame) (event_type_of (header_of (view_of event.now).frame).event_type)) }
{
    let mut none_kept = KeptStatements::new(alloc);
    write_next_data(line, &mut none_kept, alloc, event)
}

/// Writes the same of an event behind others. What statements in turn have in common is copied where it is kept.
///
/// # Errors
///
/// Those of [`write_data`].
pub fn write_next_data(
    line: &mut Line,
    kept: &mut KeptStatements,
    alloc: Global,
    event: &EventRef<'_>,
) -> Result<(), AllocError>
    ensures { Adds result line.old line.new (data_value (view_of event.now).fde
        (data_of (view_of event.now).fde.footer (view_of event.now).frame) (event_type_of (header_of (view_of event.now).frame).event_type)) }
{
    if matches!(event.header().event_type(), Ok(EventType::QUERY_EVENT)) {
        return write_statement(line, kept, alloc, event);
    }
    write_other_data(line, alloc, event)
}

// Writes the data of an event of any type.
#[inline(never)]
fn write_other_data(line: &mut Line, alloc: Global, event: &EventRef<'_>) -> Result<(), AllocError>
    ensures { Adds result line.old line.new (data_value (view_of event.now).fde
        (data_of (view_of event.now).fde.footer (view_of event.now).frame) (event_type_of (header_of (view_of event.now).frame).event_type)) }
{
    match event.read_data(alloc) {
        Ok(Some(body)) => {
            let written = write_object(line, alloc, event, &body);
            drop(body);
            written
        }
        Ok(None) => line.null(),
        Err(error) => write_refusal(line, &error),
    }
}

// Writes the data of a QUERY event. Most events are of this type, and reading it directly is cheaper than filling an
// `EventData`.
fn write_statement(
    line: &mut Line,
    kept: &mut KeptStatements,
    alloc: Global,
    event: &EventRef<'_>,
) -> Result<(), AllocError>
    ensures { Adds result line.old line.new (data_value (view_of event.now).fde
        (data_of (view_of event.now).fde.footer (view_of event.now).frame) (Ok QUERY_EVENT)) }
{
    match event.read_event::<QueryEvent<'_>>(alloc) {
        Ok(statement) => write_next_query(line, kept, alloc, event, &statement),
        Err(refusal) => write_refusal(line, &refusal),
    }
}

/// Writes an object with the number of an error, in the place of data that can't be read.
/// [`AllocError`] if an allocation fails, and if the error is one itself, which isn't written.
pub(crate) fn write_refusal(line: &mut Line, error: &Error) -> Result<(), AllocError>
    ensures number { Adds result line.old line.new (error_object (error_number error.now)) }
    ensures inside { OnOk result (is_environment_error error.now ≡ false) }
{
    if error.is_environment_error() {
        return Err(AllocError);
    }
    line.begin_object()?;
    line.number_member("error", u64::from(error.number()))?;
    line.end_object()?;
    Ok(())
}

fn write_empty(line: &mut Line) -> Result<(), AllocError>
    ensures { Adds result line.old line.new empty_object }
{
    line.begin_object()?;
    line.end_object()?;
    Ok(())
}

// Writes the bytes of a body that isn't parsed.
fn write_raw(line: &mut Line, bytes: &[u8]) -> Result<(), AllocError>
    ensures { Adds result line.old line.new (raw_object bytes.now) }
{
    line.begin_object()?;
    line.bytes_member("raw", bytes)?;
    line.end_object()?;
    Ok(())
}

// Writes event data, by its variant.
fn write_object(
    line: &mut Line,
    alloc: Global,
    event: &EventRef<'_>,
    body: &EventData<'_>,
) -> Result<(), AllocError>
    ensures { Adds result line.old line.new (data_object (is_of_maria (view_of event.now).fde) body.now) }
{
    match body {
        EventData::UnknownEvent
        | EventData::StopEvent
        | EventData::SlaveEvent
        | EventData::HeartbeatEvent => write_empty(line),
        EventData::StartEventV3(bytes)
        | EventData::LoadEvent(bytes)
        | EventData::CreateFileEvent(bytes)
        | EventData::AppendBlockEvent(bytes)
        | EventData::ExecLoadEvent(bytes)
        | EventData::DeleteFileEvent(bytes)
        | EventData::NewLoadEvent(bytes)
        | EventData::PreGaWriteRowsEvent(bytes)
        | EventData::PreGaUpdateRowsEvent(bytes)
        | EventData::PreGaDeleteRowsEvent(bytes)
        | EventData::IgnorableEvent(bytes)
        | EventData::TransactionContextEvent(bytes)
        | EventData::ViewChangeEvent(bytes)
        | EventData::XaPrepareLogEvent(bytes)
        | EventData::TransactionPayloadEvent(bytes) => write_raw(line, bytes.as_bytes()),
        EventData::QueryEvent(data) => write_query(line, alloc, event, data),
        EventData::RotateEvent(data) => write_rotate(line, data),
        EventData::IntvarEvent(data) => write_intvar(line, data),
        EventData::RandEvent(data) => write_rand(line, data),
        EventData::UserVarEvent(data) => write_user_var(line, data),
        EventData::FormatDescriptionEvent(data) => write_description(line, data),
        EventData::XidEvent(data) => write_xid(line, data),
        EventData::BeginLoadQueryEvent(data) => write_begin_load_query(line, data),
        EventData::ExecuteLoadQueryEvent(data) => write_execute_load_query(
            line, alloc, event, data,
        ),
        EventData::TableMapEvent(data) => write_table_map(line, data),
        EventData::RowsEvent(data) => write_rows(line, data),
        EventData::IncidentEvent(data) => write_incident(line, data),
        EventData::RowsQueryEvent(data) => write_rows_query(line, data),
        EventData::GtidEvent(data) => write_gtid(line, data),
        EventData::AnonymousGtidEvent(data) => write_gtid(line, &data.0),
        EventData::PreviousGtidsEvent(data) => write_previous_gtids(line, data),
    }
}
