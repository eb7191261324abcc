//! The members that state the header of an event.
#![tactic(auto, using(std::proofs::Common::append_assoc))]

ghost use Rattle.json_line.specs.Tokens.{Adds};
ghost use Rattle.binlog_json_lines.specs.ItemLines.{type_members, source_members, origin_members, extent_members, header_members};

use binlog_file::BinlogEventHeader;
use binlog_json_bodies::write_name;
use json_line::Line;
use std::alloc::AllocError;

/// Writes the raw type and the type's name.
///
/// # Errors
///
/// [`AllocError`] if an allocation fails.
#[inline(always)]
#[tactic(auto, using(std::proofs::Common::append_assoc), unfolding(crate::specs::ItemLines::type_members))]
pub(crate) fn write_type(line: &mut Line, header: &BinlogEventHeader) -> Result<(), AllocError>
    ensures { Adds result line.old line.new (type_members header.now.event_type) }
{
    line.number_member("type", u64::from(header.event_type_raw()))?;
    line.key("name")?;
    write_name(line, header.event_type())?;
    Ok(())
}

/// Writes the members that state the type, the time and the server of an event.
///
/// # Errors
///
/// [`AllocError`] if an allocation fails. Some members may then have been written.
#[inline(always)]
pub(crate) fn write_origin(line: &mut Line, header: &BinlogEventHeader) -> Result<(), AllocError>
    ensures { Adds result line.old line.new (origin_members header.now.event_type header.now.timestamp header.now.server_id) }
{
    write_type(line, header)?;
    write_source(line, header)?;
    Ok(())
}

// Writes the time and the server of an event.
#[inline(always)]
fn write_source(line: &mut Line, header: &BinlogEventHeader) -> Result<(), AllocError>
    ensures { Adds result line.old line.new (source_members header.now.timestamp header.now.server_id) }
{
    line.number_member("timestamp", u64::from(header.timestamp()))?;
    line.number_member("server_id", u64::from(header.server_id()))?;
    Ok(())
}

/// Writes the size of an event, the position behind it and its flags.
///
/// # Errors
///
/// [`AllocError`] if an allocation fails.
#[inline(always)]
pub(crate) fn write_extent(line: &mut Line, header: &BinlogEventHeader) -> Result<(), AllocError>
    ensures { Adds result line.old line.new (extent_members header.now) }
{
    line.number_member("event_size", u64::from(header.event_size()))?;
    line.number_member("log_pos", u64::from(header.log_pos()))?;
    line.number_member("flags", u64::from(header.flags_raw()))?;
    Ok(())
}

/// Writes the fields of a header but for the event's type, as members of the object of an event.
///
/// # Errors
///
/// [`AllocError`] if an allocation fails.
#[inline(always)]
pub(crate) fn write_header(line: &mut Line, header: &BinlogEventHeader) -> Result<(), AllocError>
    ensures { Adds result line.old line.new (header_members header.now) }
{
    write_source(line, header)?;
    write_extent(line, header)?;
    Ok(())
}
