//! Reading a GTID with a tag.
ghost use Rattle.std.specs.Prelude.{◌≡◌, ◌++◌, ⊤, [], Ok, MatchResult};
ghost use Rattle.binlog_wire.specs.Fields.{meant};
ghost use Rattle.binlog_wire.specs.Reading.{Gives, Refuses};
ghost use Rattle.binlog_gtids.specs.Tagged.{Head, head};
ghost use Rattle.binlog_gtids.specs.Formats.{tagged};
ghost use Rattle.binlog_gtids.specs.Taking.{event_known};
ghost use Rattle.binlog_gtids.specs.TaggedReading.{payload_at};

use crate::gtid_event::GtidEvent;
use crate::tagged_fields::TaggedFields;
use binlog_variable_fields::Varlen;
use binlog_wire::{Error, IntRepr, IntoOwned, Invalid, ParseBuf};
use std::alloc::Global;

/// Reads the serialization version, which is 2, the size of the whole body, and the last non-ignorable field id.
fn read_head(buf: &mut ParseBuf<'_>) -> Result<(u64, u64), Error>
    ensures { MatchResult result (λ sizes. head.reads buf.old ≡ Ok ((2, sizes), buf.new)) (λ e. Refuses ⊥ e (head.reads buf.old)) }
{
    let version = u8::read(buf)?;
    if version != GtidEvent::TAGGED_SERIALIZATION_VERSION_V2 {
        return Err(Error::InvalidData(Invalid::SerializationVersion(version)));
    }
    let size = Varlen::read(buf)?;
    let last_id = Varlen::read(buf)?;
    Ok((size, last_id))
}

/// Reads what the payload size counts: the last non-ignorable field id, and the bytes after it.
fn read_payload<'a>(buf: &mut ParseBuf<'a>) -> Result<(u64, &'a [u8]), Error>
    ensures { MatchResult result (λ found. (h : Head) × (payload_at buf.old ≡ Ok ((h, found.1.now), buf.new)) × (h.1.1 ≡ found.0)) (λ e. Refuses ⊥ e (payload_at buf.old)) }
{
    let whole = buf.len() as u64;
    let (size, last_id) = read_head(buf)?;
    let left = buf.len() as u64;
    if size < whole.saturating_sub(left) {
        return Err(Error::InvalidData(Invalid::PayloadSize(size)));
    }
    if whole < size {
        return Err(Error::EndOfBody);
    }
    let behind = whole - size;
    let (body, rest) = buf.0.split_at((left - behind) as usize);
    buf.0 = rest;
    Ok((last_id, body))
}

/// The event with these fields. [`Invalid::MissingTag`] if there is no tag; [`Error::Memory`] if the allocation for it
/// fails.
fn event_of(alloc: Global, fields: TaggedFields<'_>) -> Result<GtidEvent, Error>
    ensures { Gives ⊤ [] result (meant (event_known fields.entry) []) }
{
    let TaggedFields {
        flags,
        sid,
        gno,
        tag,
        last_committed,
        sequence_number,
        immediate_commit_timestamp,
        original_commit_timestamp,
        tx_length,
        immediate_server_version,
        original_server_version,
        commit_group_ticket,
    } = fields;
    let tag = match tag {
        Some(tag) => tag.into_owned(alloc)?,
        None => return Err(Error::InvalidData(Invalid::MissingTag)),
    };
    let time = immediate_commit_timestamp.unwrap_or(0);
    let version = immediate_server_version.unwrap_or(GtidEvent::UNDEFINED_SERVER_VERSION);
    Ok(GtidEvent {
        flags: flags.unwrap_or(0),
        sid: sid.unwrap_or([0; 16]),
        gno: gno.unwrap_or(0),
        tag: Some(tag),
        has_clock: false,
        last_committed: last_committed.unwrap_or(0),
        sequence_number: sequence_number.unwrap_or(0),
        immediate_commit_timestamp: time,
        original_commit_timestamp: original_commit_timestamp.unwrap_or(time),
        tx_length: tx_length.unwrap_or(0),
        immediate_server_version: version,
        original_server_version: original_server_version.unwrap_or(version),
        commit_group_ticket: commit_group_ticket.unwrap_or(0),
    })
}

/// Reads a GTID with a tag.
pub(crate) fn read_tagged(alloc: Global, buf: &mut ParseBuf<'_>) -> Result<GtidEvent, Error>
    ensures { Gives ⊤ buf.new result (tagged.reads buf.old) }
{
    let (last_id, body) = read_payload(buf)?;
    let fields = TaggedFields::read(last_id, body)?;
    event_of(alloc, fields)
}
