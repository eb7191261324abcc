//! The `data` member of one of MariaDB's own events.
ghost use Rattle.std.specs.Prelude.{◌≡◌, Ok};
ghost use Rattle.binlog_event_format.specs.Headers.{header_of};
ghost use Rattle.binlog_events.specs.EventRefs.{view_of};
ghost use Rattle.binlog_mariadb.specs.EventTypes.{maria_event_type_of};
ghost use Rattle.binlog_json_bodies.specs.Shown.{Shows};
ghost use Rattle.binlog_json_bodies.specs.MariaData.{IsObject, IsEventData};

use crate::compressed::{write_compressed_query, write_compressed_rows};
use crate::data_value::write_refusal;
use crate::maria_bodies::{write_annotate_rows, write_binlog_checkpoint, write_start_encryption};
use crate::maria_gtids::{write_gtid, write_gtid_list};
use binlog_file::EventRef;
use binlog_mariadb::{MariaEventData, MariaEventType, read_maria_data};
use json_line::Line;
use std::alloc::{AllocError, Global};

/// Writes the data of an event of this type: its object, or an object with the error number if the body isn't one of the
/// type. The text is for those of GTIDs.
///
/// # Errors
///
/// [`AllocError`] if an allocation fails. Some tokens may then have been written.
pub fn write_maria_data(
    line: &mut Line,
    text: &mut String,
    alloc: Global,
    event_type: MariaEventType,
    event: &EventRef<'_>,
) -> Result<(), AllocError>
    requires { maria_event_type_of (header_of (view_of event.now).frame).event_type ≡ Ok event_type }
    ensures { Shows result line.old line.new (IsEventData (view_of event.now) event_type) }
{
    let header = event.header();
    match read_maria_data(alloc, event.fde(), header.event_type_raw(), event.data()) {
        Ok(Some(data)) => {
            let written = write_object(line, text, alloc, header.server_id(), &data);
            drop(data);
            written
        }
        Ok(None) => unreachable!(),
        Err(error) => write_refusal(line, &error),
    }
}

// Writes event data, by its variant, in an event of this server.
fn write_object(
    line: &mut Line,
    text: &mut String,
    alloc: Global,
    server_id: u32,
    data: &MariaEventData<'_>,
) -> Result<(), AllocError>
    ensures { Shows result line.old line.new (IsObject server_id data.now) }
{
    match data {
        MariaEventData::AnnotateRowsEvent(event) => write_annotate_rows(line, event),
        MariaEventData::BinlogCheckpointEvent(event) => write_binlog_checkpoint(line, event),
        MariaEventData::GtidEvent(event) => write_gtid(line, text, server_id, event),
        MariaEventData::GtidListEvent(event) => write_gtid_list(line, text, event),
        MariaEventData::StartEncryptionEvent(event) => write_start_encryption(line, event),
        MariaEventData::QueryCompressedEvent(event) => write_compressed_query(line, alloc, event),
        MariaEventData::RowsCompressedEvent(event) => write_compressed_rows(line, alloc, event),
    }
}
