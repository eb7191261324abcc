//! The objects of GTIDs and of lists of them.
#![tactic(auto, using(std::proofs::Common::append_assoc))]

ghost use Rattle.std.specs.Prelude.{◌≡◌, ◌++◌, flat_map, option_copied};
ghost use Rattle.json_line.specs.Tokens.{Adds, number_value, or_null, array};
ghost use Rattle.binlog_json_bodies.specs.MariaGtids.{gtid_text, gtid_value, xa_object, extra_object, gtid_parts, gtid_object, gtid_list_object};

use binlog_mariadb::{GtidExtra, GtidListEvent, MariaGtid, MariaGtidEvent, XaId};
use binlog_values::text::push_number;
use json_line::Line;
use std::alloc::AllocError;

/// Writes the object of a GTID event of this server. The text is for the GTID's.
pub(crate) fn write_gtid(
    line: &mut Line,
    text: &mut String,
    server_id: u32,
    event: &MariaGtidEvent<'_>,
) -> Result<(), AllocError>
    ensures { Adds result line.old line.new (gtid_object server_id event.now) }
{
    let gtid = MariaGtid::new(event.domain(), server_id, event.sequence());
    line.begin_object()?;
    line.key("gtid")?;
    write_gtid_text(line, text, &gtid)?;
    line.number_member("flags", u64::from(event.flags_raw()))?;
    write_gtid_parts(line, event)?;
    line.end_object()?;
    Ok(())
}

// Writes the parts that the flags announce.
fn write_gtid_parts(line: &mut Line, event: &MariaGtidEvent<'_>) -> Result<(), AllocError>
    ensures { Adds result line.old line.new (gtid_parts event.now) }
{
    line.key("commit_id")?;
    write_number_or_null(line, event.commit_id())?;
    line.key("xa_id")?;
    write_xa_id_or_null(line, event.xa_id())?;
    line.key("extra")?;
    write_extra_or_null(line, event.extra())?;
    Ok(())
}

// Writes a number, or null.
fn write_number_or_null(line: &mut Line, number: Option<u64>) -> Result<(), AllocError>
    ensures { Adds result line.old line.new (or_null number_value number) }
{
    match number {
        Some(number) => line.number(number),
        None => line.null(),
    }
}

// Writes the id of a thread, or null.
fn write_thread_id_or_null(line: &mut Line, thread_id: Option<u32>) -> Result<(), AllocError>
    ensures { Adds result line.old line.new (or_null number_value thread_id) }
{
    match thread_id {
        Some(thread_id) => line.number(u64::from(thread_id)),
        None => line.null(),
    }
}

// Writes the id of an XA transaction, or null.
fn write_xa_id_or_null(line: &mut Line, xa_id: Option<&XaId<'_>>) -> Result<(), AllocError>
    ensures { Adds result line.old line.new (or_null xa_object (option_copied xa_id.entry)) }
{
    match xa_id {
        Some(xa_id) => write_xa_id(line, xa_id),
        None => line.null(),
    }
}

fn write_xa_id(line: &mut Line, xa_id: &XaId<'_>) -> Result<(), AllocError>
    ensures { Adds result line.old line.new (xa_object xa_id.now) }
{
    line.begin_object()?;
    line.number_member("format_id", u64::from(xa_id.format_id()))?;
    line.bytes_member("gtrid", xa_id.gtrid())?;
    line.bytes_member("bqual", xa_id.bqual())?;
    line.end_object()?;
    Ok(())
}

// Writes the extra flags and their parts, or null.
fn write_extra_or_null(line: &mut Line, extra: Option<&GtidExtra<'_>>) -> Result<(), AllocError>
    ensures { Adds result line.old line.new (or_null extra_object (option_copied extra.entry)) }
{
    match extra {
        Some(extra) => write_extra(line, extra),
        None => line.null(),
    }
}

fn write_extra(line: &mut Line, extra: &GtidExtra<'_>) -> Result<(), AllocError>
    ensures { Adds result line.old line.new (extra_object extra.now) }
{
    line.begin_object()?;
    line.number_member("flags", u64::from(extra.flags()))?;
    line.key("engines")?;
    line.byte_or_null(extra.engines())?;
    line.key("alter_sequence")?;
    write_number_or_null(line, extra.alter_sequence())?;
    line.key("thread_id")?;
    write_thread_id_or_null(line, extra.thread_id())?;
    line.end_object()?;
    Ok(())
}

/// Writes the object of a GTID_LIST event. The text is for those of the GTIDs.
pub(crate) fn write_gtid_list(
    line: &mut Line,
    text: &mut String,
    event: &GtidListEvent,
) -> Result<(), AllocError>
    ensures { Adds result line.old line.new (gtid_list_object event.now) }
{
    line.begin_object()?;
    line.number_member("flags", u64::from(event.flags()))?;
    line.key("gtids")?;
    write_gtids(line, text, event.entries())?;
    line.end_object()?;
    Ok(())
}

fn write_gtids(line: &mut Line, text: &mut String, gtids: &[MariaGtid]) -> Result<(), AllocError>
    ensures { Adds result line.old line.new (array (flat_map gtid_value gtids.now)) }
{
    line.begin_array()?;
    'gtids: for gtid in gtids {
        write_gtid_text(line, text, gtid)?;
    }
    line.end_array()?;
    Ok(())
}

// Writes a GTID as a string.
fn write_gtid_text(line: &mut Line, text: &mut String, gtid: &MariaGtid) -> Result<(), AllocError>
    ensures { Adds result line.old line.new (gtid_value gtid.now) }
{
    text.clear();
    push_number(text, u64::from(gtid.domain()))?;
    text.push_str("-")?;
    push_number(text, u64::from(gtid.server_id()))?;
    text.push_str("-")?;
    push_number(text, gtid.sequence())?;
    line.string(text.as_str())
}
