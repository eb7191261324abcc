//! The members of the object of an event, and the object of an error.
#![tactic(auto, using(std::proofs::Common::append_assoc))]

ghost use Rattle.std.specs.Prelude.{true};
ghost use Rattle.binlog_file.specs.EventRefs.{view_of};
ghost use Rattle.json_line.specs.Tokens.{Adds};
ghost use Rattle.binlog_json_lines.specs.ItemLines.{checksum_member, event_fields, event_head, data_member, event_members, event_object, error_object, mismatch_members};

use crate::header_members::{write_extent, write_header, write_type};
use crate::kept_heads::KeptHeads;
use binlog_file::{Error, EventRef};
use binlog_json_bodies::{KeptStatements, write_data, write_next_data};
use json_line::Line;
use std::alloc::{AllocError, Global};

/// Writes the object of an event.
#[inline(always)]
pub(crate) fn write_event(
    line: &mut Line,
    heads: &mut KeptHeads,
    kept: &mut KeptStatements,
    alloc: Global,
    index: u64,
    event: &EventRef<'_>,
) -> Result<(), AllocError>
    ensures { Adds result line.old line.new (event_object index (view_of event.now)) }
{
    line.begin_object()?;
    write_event_members(line, heads, kept, alloc, index, event)?;
    line.end_object()?;
    Ok(())
}

// Writes the members of the object of an event.
#[inline(always)]
fn write_event_members(
    line: &mut Line,
    heads: &mut KeptHeads,
    kept: &mut KeptStatements,
    alloc: Global,
    index: u64,
    event: &EventRef<'_>,
) -> Result<(), AllocError>
    ensures { Adds result line.old line.new (event_members index (view_of event.now)) }
{
    write_next_event_head(line, heads, alloc, index, event)?;
    write_next_data_member(line, kept, alloc, event)?;
    Ok(())
}

/// Writes the members of the object of an event before its data. A caller may write others behind them.
///
/// # Errors
///
/// [`AllocError`] if an allocation fails. Some members may then have been written.
#[inline(always)]
pub(crate) fn write_event_head(
    line: &mut Line,
    index: u64,
    event: &EventRef<'_>,
) -> Result<(), AllocError>
    ensures { Adds result line.old line.new (event_head index (view_of event.now)) }
{
    line.number_member("index", index)?;
    write_event_fields(line, event)
}

/// The same of an event behind others, whose type, time and server may be kept.
///
/// # Errors
///
/// Those of [`write_event_head`].
#[inline(always)]
pub(crate) fn write_next_event_head(
    line: &mut Line,
    heads: &mut KeptHeads,
    alloc: Global,
    index: u64,
    event: &EventRef<'_>,
) -> Result<(), AllocError>
    ensures { Adds result line.old line.new (event_head index (view_of event.now)) }
{
    line.number_member("index", index)?;
    let header = event.header();
    heads.write(line, alloc, &header)?;
    write_extent(line, &header)?;
    write_checksum(line, event)?;
    Ok(())
}

/// Writes the members of the object of an event that state its header and its checksum.
///
/// # Errors
///
/// [`AllocError`] if an allocation fails. Some members may then have been written.
#[inline(always)]
pub(crate) fn write_event_fields(line: &mut Line, event: &EventRef<'_>) -> Result<(), AllocError>
    ensures { Adds result line.old line.new (event_fields (view_of event.now)) }
{
    let header = event.header();
    write_type(line, &header)?;
    write_header(line, &header)?;
    write_checksum(line, event)?;
    Ok(())
}

// Writes the stored checksum.
#[inline(always)]
#[tactic(auto, using(std::proofs::Common::append_assoc), unfolding(crate::specs::ItemLines::checksum_member))]
fn write_checksum(line: &mut Line, event: &EventRef<'_>) -> Result<(), AllocError>
    ensures { Adds result line.old line.new (checksum_member (view_of event.now)) }
{
    line.key("checksum")?;
    line.checksum_or_null(event.checksum())?;
    Ok(())
}

/// Writes the member `data` of the object of an event.
///
/// # Errors
///
/// [`AllocError`] if an allocation fails. Some tokens may then have been written.
#[inline(always)]
pub(crate) fn write_data_member(
    line: &mut Line,
    alloc: Global,
    event: &EventRef<'_>,
) -> Result<(), AllocError>
    ensures { Adds result line.old line.new (data_member true (view_of event.now)) }
{
    line.key("data")?;
    write_data(line, alloc, event)
}

// The same of an event behind others, with which it may have members in common.
#[inline(always)]
fn write_next_data_member(
    line: &mut Line,
    kept: &mut KeptStatements,
    alloc: Global,
    event: &EventRef<'_>,
) -> Result<(), AllocError>
    ensures { Adds result line.old line.new (data_member true (view_of event.now)) }
{
    line.key("data")?;
    write_next_data(line, kept, alloc, event)
}

/// Writes the object of an error.
pub(crate) fn write_error(line: &mut Line, index: u64, error: &Error) -> Result<(), AllocError>
    ensures { Adds result line.old line.new (error_object index error.now) }
{
    line.begin_object()?;
    line.number_member("index", index)?;
    line.number_member("error", u64::from(error.number()))?;
    write_mismatch(line, error)?;
    line.end_object()?;
    Ok(())
}

// Writes the two checksums of a mismatch.
fn write_mismatch(line: &mut Line, error: &Error) -> Result<(), AllocError>
    ensures { Adds result line.old line.new (mismatch_members error.now) }
{
    if let Error::ChecksumMismatch { stored, computed } = error {
        line.bytes_member("stored", &stored.to_le_bytes())?;
        line.bytes_member("computed", &computed.to_le_bytes())?;
    }
    Ok(())
}
