//! What the lines of the rows of an event begin with.
#![tactic(auto, using(std::proofs::Common::append_assoc))]

ghost use Rattle.std.specs.Prelude.{◌≡◌};
ghost use Rattle.json_line.specs.Lines.{IsPlainText};
ghost use Rattle.json_line.specs.Tokens.{Adds, number_value, or_null};
ghost use Rattle.binlog_change_lines.specs.Heads.{gtid_value, part_member, place_members, place_of, operation_name, operation_of, name_members, table_members, operation_member, head_members};

use binlog_json_lines::write_metadata;
use binlog_optional_metadata::OptionalMetadataError;
use binlog_rows::{RowsEventData, TableMapEvent};
use json_line::Line;
use std::alloc::AllocError;

/// Where an event stands.
#[derive(Clone, Copy)]
pub struct EventPlace<'a> {
    /// The name of its file.
    pub file: &'a str,
    /// Where it begins in the file, in bytes, if that is known. Of an event inside a compressed transaction it is where the event with the
    /// payload begins.
    pub position: Option<u64>,
    /// The number, from 0, of an event inside a compressed transaction.
    pub part: Option<u64>,
    /// The text of the GTID of its transaction; empty if it has none.
    pub gtid: &'a str,
}

// Writes a number, or null.
fn write_number_or_null(line: &mut Line, number: Option<u64>) -> Result<(), AllocError>
    ensures { Adds result line.old line.new (or_null number_value number) }
{
    match number {
        Some(number) => line.number(number),
        None => line.null(),
    }
}

// Writes the member of an event inside a compressed transaction; nothing outside.
fn write_part(line: &mut Line, part: Option<u64>) -> Result<(), AllocError>
    ensures { Adds result line.old line.new (part_member part) }
{
    match part {
        Some(number) => line.number_member("part", number),
        None => Ok(()),
    }
}

// Writes a GTID, or null if there is none.
fn write_gtid(line: &mut Line, gtid: &str) -> Result<(), AllocError>
    ensures { Adds result line.old line.new (gtid_value gtid.now) }
{
    if gtid.is_empty() {
        return line.null();
    }
    line.string(gtid)
}

// Writes where an event stands.
fn write_place(line: &mut Line, place: &EventPlace<'_>) -> Result<(), AllocError>
    ensures { Adds result line.old line.new (place_members (place_of place.now)) }
{
    line.key("file")?;
    line.string(place.file)?;
    line.key("pos")?;
    write_number_or_null(line, place.position)?;
    write_part(line, place.part)?;
    line.key("gtid")?;
    write_gtid(line, place.gtid)
}

// Writes the time of an event, and the names of its table.
fn write_table(line: &mut Line, time: u32, table_map: &TableMapEvent<'_>) -> Result<(), AllocError>
    ensures { Adds result line.old line.new (table_members time table_map.now) }
{
    line.number_member("time", u64::from(time))?;
    write_names(line, table_map)
}

// Writes the names of a table.
fn write_names(line: &mut Line, table_map: &TableMapEvent<'_>) -> Result<(), AllocError>
    ensures { Adds result line.old line.new (name_members table_map.now) }
{
    line.text_member("database", table_map.database_name_raw())?;
    line.text_member("table", table_map.table_name_raw())
}

// What is done to the rows of an event, by its name.
fn operation_name(body: &RowsEventData<'_>) -> &'static str
    ensures name { result.now ≡ operation_name (operation_of body.now) }
    ensures plain { IsPlainText result.now }
{
    match body {
        RowsEventData::WriteRowsEventV1(_) | RowsEventData::WriteRowsEvent(_) => "insert",
        RowsEventData::UpdateRowsEventV1(_)
        | RowsEventData::UpdateRowsEvent(_)
        | RowsEventData::PartialUpdateRowsEvent(_) => "update",
        RowsEventData::DeleteRowsEventV1(_) | RowsEventData::DeleteRowsEvent(_) => "delete",
    }
}

// Writes what is done to the rows of an event.
fn write_operation(line: &mut Line, body: &RowsEventData<'_>) -> Result<(), AllocError>
    ensures { Adds result line.old line.new (operation_member body.now) }
{
    line.key("op")?;
    line.plain_string(operation_name(body))
}

/// Writes what the line of each row of an event of this time begins with, whose table has this table map, and why the first field of the
/// optional metadata is refused that is.
pub(crate) fn write_head(
    line: &mut Line,
    place: &EventPlace<'_>,
    time: u32,
    table_map: &TableMapEvent<'_>,
    body: &RowsEventData<'_>,
    refusal: &Option<OptionalMetadataError>,
) -> Result<(), AllocError>
    ensures { Adds result line.old line.new (head_members (place_of place.now) time table_map.now body.now refusal.now) }
{
    write_place(line, place)?;
    write_table(line, time, table_map)?;
    write_operation(line, body)?;
    write_metadata(line, refusal)
}
