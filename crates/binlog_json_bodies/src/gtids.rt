//! The objects of GTIDs and of previous GTIDs.
#![tactic(auto, using(std::proofs::Common::append_assoc))]

ghost use Rattle.std.specs.Prelude.{flat_map, option_copied};
ghost use Rattle.json_line.specs.Tokens.{Adds, array};
ghost use Rattle.binlog_json_bodies.specs.Gtids.{tag_value, gtid_id, gtid_clock, gtid_commit, gtid_object, interval_value, sid_object, previous_gtids_object};

use binlog_file::{GnoInterval, GtidEvent, PreviousGtidsEvent, PreviousGtidsSid, Tag};
use json_line::Line;
use std::alloc::AllocError;

/// Writes the object of a GTID, with a tag or without, or of an anonymous GTID.
pub(crate) fn write_gtid(line: &mut Line, event: &GtidEvent) -> Result<(), AllocError>
    ensures { Adds result line.old line.new (gtid_object event.now) }
{
    line.begin_object()?;
    write_id(line, event)?;
    write_clock(line, event)?;
    write_commit(line, event)?;
    line.end_object()?;
    Ok(())
}

// Writes the flags and the GTID.
fn write_id(line: &mut Line, event: &GtidEvent) -> Result<(), AllocError>
    ensures { Adds result line.old line.new (gtid_id event.now) }
{
    line.number_member("flags", u64::from(event.flags_raw()))?;
    line.key("sid")?;
    line.uuid(event.sid())?;
    line.number_member("gno", event.gno())?;
    line.key("tag")?;
    write_tag(line, event.tag())?;
    Ok(())
}

// Writes a tag, or null.
fn write_tag(line: &mut Line, tag: Option<&Tag<'_>>) -> Result<(), AllocError>
    ensures { Adds result line.old line.new (tag_value (option_copied tag.entry)) }
{
    match tag {
        Some(tag) => line.string(tag.as_str()),
        None => line.null(),
    }
}

// Writes the clock code and the logical timestamps.
fn write_clock(line: &mut Line, event: &GtidEvent) -> Result<(), AllocError>
    ensures { Adds result line.old line.new (gtid_clock event.now) }
{
    line.key("lc_typecode")?;
    line.byte_or_null(event.lc_typecode())?;
    line.number_member("last_committed", event.last_committed())?;
    line.number_member("sequence_number", event.sequence_number())?;
    Ok(())
}

// Writes the commit timestamps, the transaction length, the server versions and the commit group ticket.
fn write_commit(line: &mut Line, event: &GtidEvent) -> Result<(), AllocError>
    ensures { Adds result line.old line.new (gtid_commit event.now) }
{
    line.number_member(
        "immediate_commit_timestamp",
        event.immediate_commit_timestamp(),
    )?;
    line.number_member(
        "original_commit_timestamp",
        event.original_commit_timestamp(),
    )?;
    line.number_member("tx_length", event.tx_length())?;
    line.number_member(
        "immediate_server_version",
        u64::from(event.immediate_server_version()),
    )?;
    line.number_member(
        "original_server_version",
        u64::from(event.original_server_version()),
    )?;
    line.number_member("commit_group_ticket", event.commit_group_ticket())?;
    Ok(())
}

/// Writes the object of previous GTIDs.
pub(crate) fn write_previous_gtids(
    line: &mut Line,
    event: &PreviousGtidsEvent<'_>,
) -> Result<(), AllocError>
    ensures { Adds result line.old line.new (previous_gtids_object event.now) }
{
    line.begin_object()?;
    line.key("sids")?;
    write_sids(line, event.sids())?;
    line.end_object()?;
    Ok(())
}

fn write_sids(line: &mut Line, sids: &[PreviousGtidsSid<'_>]) -> Result<(), AllocError>
    ensures { Adds result line.old line.new (array (flat_map sid_object sids.now)) }
{
    line.begin_array()?;
    'sids: for sid in sids {
        write_sid(line, sid)?;
    }
    line.end_array()?;
    Ok(())
}

fn write_sid(line: &mut Line, sid: &PreviousGtidsSid<'_>) -> Result<(), AllocError>
    ensures { Adds result line.old line.new (sid_object sid.now) }
{
    line.begin_object()?;
    line.key("uuid")?;
    line.uuid(sid.uuid())?;
    line.key("tag")?;
    write_tag(line, sid.tag())?;
    line.key("intervals")?;
    write_intervals(line, sid.intervals())?;
    line.end_object()?;
    Ok(())
}

fn write_intervals(line: &mut Line, intervals: &[GnoInterval]) -> Result<(), AllocError>
    ensures { Adds result line.old line.new (array (flat_map interval_value intervals.now)) }
{
    line.begin_array()?;
    'intervals: for interval in intervals {
        write_interval(line, interval)?;
    }
    line.end_array()?;
    Ok(())
}

fn write_interval(line: &mut Line, interval: &GnoInterval) -> Result<(), AllocError>
    ensures { Adds result line.old line.new (interval_value interval.now) }
{
    line.begin_array()?;
    line.number(interval.start())?;
    line.number(interval.end())?;
    line.end_array()?;
    Ok(())
}
