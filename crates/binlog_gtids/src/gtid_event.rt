//! GTID_EVENT: the GTID of the next transaction.
ghost use Rattle.std.specs.Prelude.{◌≡◌, Option, None, Some, Bool, true, false, if◌then◌else◌, refl, bit_and, is_some, option_copied, Ok, IfOk, IsOkUnless};
ghost use Rattle.bitflags.specs.Sets.{known_bits};
ghost use Rattle.binlog_wire.specs.declared.error.Error.TheVariants.{Memory};
ghost use Rattle.binlog_consts.specs.declared.event_type.EventType.TheVariants.{GTID_EVENT, GTID_TAGGED_LOG_EVENT};
ghost use Rattle.binlog_gtids.specs.Flags.{gtid_flags};
ghost use Rattle.binlog_gtids.specs.Gtids.{gtid, by_tag, raw_type_of, gtid_written, unwritable};
ghost use Rattle.binlog_gtids.specs.Laws.Gtids.{gtid_written_is};
ghost use Rattle.binlog_gtids.specs.Untagged.{is_untagged_type};

use crate::gtid_flags::GtidFlags;
use crate::tagged::read_tagged;
use binlog_consts::EventType;
use binlog_event_format::{BinlogCtx, BinlogEvent};
use binlog_variable_fields::Tag;
use binlog_wire::{Error, IntoOwned, MyDeserialize, ParseBuf, Put, RawFlags, TryClone};
use bitflags::Flags;
use std::alloc::Global;

/// A GTID event: the GTID of the transaction after it, which is the source's UUID, an optional tag, and the
/// transaction number (GNO).
///
/// Without a tag, type 33, little-endian numbers: flags (1), source UUID (16), GNO (8). If the clock code 2 follows:
/// `last_committed` and `sequence_number` (8 each); then, as far as the body goes, the commit timestamps on the
/// immediate and the original server, the transaction length, and the versions of both servers.
///
/// With a tag, type 42: the serialization version 2, the size of the whole body, the last non-ignorable field id, and
/// fields, each a field id ([`field_id`](crate::field_id)) and a value, in variable-length integers.
///
/// An original timestamp or version is written only if it differs from the immediate one.
///
/// Source: MySQL's source documentation, `Gtid_event`.
#[derive(Debug, PartialEq, Eq, Hash, Drop)]
pub struct GtidEvent {
    pub(crate) flags: u8,
    pub(crate) sid: [u8; 16],
    pub(crate) gno: u64,
    pub(crate) tag: Option<Tag<'static>>,
    pub(crate) has_clock: bool,
    pub(crate) last_committed: u64,
    pub(crate) sequence_number: u64,
    pub(crate) immediate_commit_timestamp: u64,
    pub(crate) original_commit_timestamp: u64,
    pub(crate) tx_length: u64,
    pub(crate) immediate_server_version: u32,
    pub(crate) original_server_version: u32,
    pub(crate) commit_group_ticket: u64,
}

impl GtidEvent {
    /// The length of the post-header that descriptions state.
    pub const POST_HEADER_LENGTH: usize = 42;
    /// The length of a source's UUID in bytes.
    pub const ENCODED_SID_LENGTH: usize = 16;
    /// The serialization version of GTIDs with a tag.
    pub const TAGGED_SERIALIZATION_VERSION_V2: u8 = 2;
    /// The value for no commit group ticket.
    pub const COMMIT_GROUP_TICKET_UNSET: u64 = 0;
    /// The clock code.
    pub const LOGICAL_TIMESTAMP_TYPECODE: u8 = 2;
    /// The length of an immediate commit timestamp in bytes.
    pub const IMMEDIATE_COMMIT_TIMESTAMP_LENGTH: usize = 7;
    /// The length of an original commit timestamp in bytes.
    pub const ORIGINAL_COMMIT_TIMESTAMP_LENGTH: usize = 7;
    /// The version of a server that doesn't state one.
    pub const UNDEFINED_SERVER_VERSION: u32 = 999_999;
    /// The length of an immediate server version in bytes.
    pub const IMMEDIATE_SERVER_VERSION_LENGTH: usize = 4;

    /// A GTID without a tag, with a clock code. All other fields are 0.
    pub fn new(sid: [u8; 16], gno: u64) -> Self
        ensures { result ≡ record {
          flags = 0;
          sid = sid;
          gno = gno;
          tag = None;
          has_clock = true;
          last_committed = 0;
          sequence_number = 0;
          immediate_commit_timestamp = 0;
          original_commit_timestamp = 0;
          tx_length = 0;
          immediate_server_version = 0;
          original_server_version = 0;
          commit_group_ticket = 0;
        } }
    {
        GtidEvent {
            flags: 0,
            sid,
            gno,
            tag: None,
            has_clock: true,
            last_committed: 0,
            sequence_number: 0,
            immediate_commit_timestamp: 0,
            original_commit_timestamp: 0,
            tx_length: 0,
            immediate_server_version: 0,
            original_server_version: 0,
            commit_group_ticket: 0,
        }
    }

    /// A GTID with a tag, without a clock code. Both server versions are undefined; all other fields are 0.
    pub fn new_tagged(sid: [u8; 16], tag: Tag<'static>, gno: u64) -> Self
        ensures { result ≡ record {
          flags = 0;
          sid = sid;
          gno = gno;
          tag = Some tag.entry;
          has_clock = false;
          last_committed = 0;
          sequence_number = 0;
          immediate_commit_timestamp = 0;
          original_commit_timestamp = 0;
          tx_length = 0;
          immediate_server_version = 999999;
          original_server_version = 999999;
          commit_group_ticket = 0;
        } }
    {
        GtidEvent {
            flags: 0,
            sid,
            gno,
            tag: Some(tag),
            has_clock: false,
            last_committed: 0,
            sequence_number: 0,
            immediate_commit_timestamp: 0,
            original_commit_timestamp: 0,
            tx_length: 0,
            immediate_server_version: Self::UNDEFINED_SERVER_VERSION,
            original_server_version: Self::UNDEFINED_SERVER_VERSION,
            commit_group_ticket: 0,
        }
    }

    /// Whether the event has a tag.
    pub fn is_tagged(&self) -> bool
        ensures { result ≡ is_some self.now.tag }
    {
        self.tag.is_some()
    }

    /// The type under which the event is written: [`EventType::GTID_TAGGED_LOG_EVENT`] with a tag,
    /// [`EventType::GTID_EVENT`] without.
    pub fn event_type(&self) -> EventType
        ensures { result ≡ by_tag self.now.tag GTID_TAGGED_LOG_EVENT GTID_EVENT }
    {
        match &self.tag {
            Some(_) => EventType::GTID_TAGGED_LOG_EVENT,
            None => EventType::GTID_EVENT,
        }
    }

    /// Sets the tag.
    pub fn with_tag(mut self, tag: Tag<'static>) -> Self
        ensures { result ≡ record self { tag = Some tag.entry } }
    {
        self.tag = Some(tag);
        self
    }

    /// The tag, if any.
    pub fn tag(&self) -> Option<&Tag<'static>>
        ensures { option_copied result ≡ self.now.tag }
    {
        self.tag.as_ref()
    }

    /// Sets the commit group ticket.
    pub fn with_commit_group_ticket(mut self, commit_group_ticket: u64) -> Self
        ensures { result ≡ record self { commit_group_ticket = commit_group_ticket } }
    {
        self.commit_group_ticket = commit_group_ticket;
        self
    }

    /// The commit group ticket: transactions with the same ticket are committed together. 0 is none.
    pub fn commit_group_ticket(&self) -> u64
        ensures { result ≡ self.now.commit_group_ticket }
    {
        self.commit_group_ticket
    }

    /// Sets the flags.
    pub fn with_flags(mut self, flags: GtidFlags) -> Self
        ensures { result ≡ record self { flags = flags.0 } }
    {
        self.flags = flags.bits();
        self
    }

    /// The known flags.
    pub fn flags(&self) -> GtidFlags
        ensures { result.0 ≡ bit_and self.now.flags (known_bits gtid_flags) }
    {
        RawFlags::<GtidFlags, u8>::new(self.flags).get()
    }

    /// All bits of the flags.
    pub fn flags_raw(&self) -> u8
        ensures { result ≡ self.now.flags }
    {
        self.flags
    }

    /// The clock code 2, if any.
    pub fn lc_typecode(&self) -> Option<u8>
        ensures { result ≡ (if self.now.has_clock then Some 2 else None) }
    {
        if self.has_clock {
            Some(Self::LOGICAL_TIMESTAMP_TYPECODE)
        } else {
            None
        }
    }

    /// Sets the clock code: the fields after it are written.
    pub fn with_lc_typecode(mut self) -> Self
        ensures { result ≡ record self { has_clock = true } }
    {
        self.has_clock = true;
        self
    }

    /// Sets the source's UUID.
    pub fn with_sid(mut self, sid: [u8; 16]) -> Self
        ensures { result ≡ record self { sid = sid } }
    {
        self.sid = sid;
        self
    }

    /// The source's UUID: 16 bytes, in the order of its text form.
    pub fn sid(&self) -> [u8; 16]
        ensures { result ≡ self.now.sid }
    {
        self.sid
    }

    /// Sets the transaction number.
    pub fn with_gno(mut self, gno: u64) -> Self
        ensures { result ≡ record self { gno = gno } }
    {
        self.gno = gno;
        self
    }

    /// The transaction number (GNO).
    pub fn gno(&self) -> u64
        ensures { result ≡ self.now.gno }
    {
        self.gno
    }

    /// Sets `last_committed`.
    pub fn with_last_committed(mut self, last_committed: u64) -> Self
        ensures { result ≡ record self { last_committed = last_committed } }
    {
        self.last_committed = last_committed;
        self
    }

    /// `last_committed`: the logical timestamp of the latest commit that the transaction depends on.
    pub fn last_committed(&self) -> u64
        ensures { result ≡ self.now.last_committed }
    {
        self.last_committed
    }

    /// Sets `sequence_number`.
    pub fn with_sequence_number(mut self, sequence_number: u64) -> Self
        ensures { result ≡ record self { sequence_number = sequence_number } }
    {
        self.sequence_number = sequence_number;
        self
    }

    /// `sequence_number`: the logical timestamp of the transaction's own commit.
    pub fn sequence_number(&self) -> u64
        ensures { result ≡ self.now.sequence_number }
    {
        self.sequence_number
    }

    /// Sets the immediate commit timestamp, in microseconds since 1970-01-01 UTC.
    pub fn with_immediate_commit_timestamp(mut self, immediate_commit_timestamp: u64) -> Self
        ensures { result ≡ record self { immediate_commit_timestamp = immediate_commit_timestamp } }
    {
        self.immediate_commit_timestamp = immediate_commit_timestamp;
        self
    }

    /// The commit timestamp on the immediate server, in microseconds since 1970-01-01 UTC.
    pub fn immediate_commit_timestamp(&self) -> u64
        ensures { result ≡ self.now.immediate_commit_timestamp }
    {
        self.immediate_commit_timestamp
    }

    /// Sets the original commit timestamp, in microseconds since 1970-01-01 UTC.
    pub fn with_original_commit_timestamp(mut self, original_commit_timestamp: u64) -> Self
        ensures { result ≡ record self { original_commit_timestamp = original_commit_timestamp } }
    {
        self.original_commit_timestamp = original_commit_timestamp;
        self
    }

    /// The commit timestamp on the original server, in microseconds since 1970-01-01 UTC.
    pub fn original_commit_timestamp(&self) -> u64
        ensures { result ≡ self.now.original_commit_timestamp }
    {
        self.original_commit_timestamp
    }

    /// Sets the transaction length in bytes.
    pub fn with_tx_length(mut self, tx_length: u64) -> Self
        ensures { result ≡ record self { tx_length = tx_length } }
    {
        self.tx_length = tx_length;
        self
    }

    /// The transaction length in bytes.
    pub fn tx_length(&self) -> u64
        ensures { result ≡ self.now.tx_length }
    {
        self.tx_length
    }

    /// Sets the version of the original server.
    pub fn with_original_server_version(mut self, original_server_version: u32) -> Self
        ensures { result ≡ record self { original_server_version = original_server_version } }
    {
        self.original_server_version = original_server_version;
        self
    }

    /// The version of the original server, for example 80036 for 8.0.36.
    pub fn original_server_version(&self) -> u32
        ensures { result ≡ self.now.original_server_version }
    {
        self.original_server_version
    }

    /// Sets the version of the immediate server.
    pub fn with_immediate_server_version(mut self, immediate_server_version: u32) -> Self
        ensures { result ≡ record self { immediate_server_version = immediate_server_version } }
    {
        self.immediate_server_version = immediate_server_version;
        self
    }

    /// The version of the immediate server, for example 80036 for 8.0.36.
    pub fn immediate_server_version(&self) -> u32
        ensures { result ≡ self.now.immediate_server_version }
    {
        self.immediate_server_version
    }
}

impl TryClone for GtidEvent {
    fn clone(&self, alloc: Global) -> Result<Self, Error> {
        let tag = match &self.tag {
            Some(tag) => Some(tag.clone(alloc)?),
            None => None,
        };
        Ok(GtidEvent {
            flags: self.flags,
            sid: self.sid,
            gno: self.gno,
            tag,
            has_clock: self.has_clock,
            last_committed: self.last_committed,
            sequence_number: self.sequence_number,
            immediate_commit_timestamp: self.immediate_commit_timestamp,
            original_commit_timestamp: self.original_commit_timestamp,
            tx_length: self.tx_length,
            immediate_server_version: self.immediate_server_version,
            original_server_version: self.original_server_version,
            commit_group_ticket: self.commit_group_ticket,
        })
    }
}

/// The event borrows nothing, so no memory is allocated and the result is always Ok.
impl IntoOwned for GtidEvent {
    type Owned = GtidEvent;

    ghost is_owned = { λ value owned. owned ≡ value };

    fn into_owned(self, _alloc: Global) -> Result<GtidEvent, Error>
        ensures { result ≡ Ok self }
    {
        Ok(self)
    }
}

/// Whether bodies of this raw type are GTIDs without a tag.
fn is_untagged_type(raw_type: u8) -> bool
    ensures { result ≡ is_untagged_type raw_type }
{
    matches!(raw_type, 33 | 34)
}

/// The raw types 33 and 34 have a body without a tag, 42 one with a tag. Memory is allocated only for a tag.
///
/// # Errors
///
/// - [`Error::WrongEventType`] for any other raw type.
/// - [`Error::EndOfBody`] if the bytes end within a field.
/// - [`Error::InvalidData`] if a field has an invalid value.
/// - [`Error::Memory`] if the allocation for a tag fails.
impl<'de> MyDeserialize<'de> for GtidEvent {
    const SIZE: Option<usize> = None;

    type Ctx = BinlogCtx<'de>;

    ghost reads = { λ ctx. (gtid ctx.event_type_raw).reads };

    ghost grows = { λ ctx. ctx.event_type_raw ≡ 42 };

    fn deserialize(
        alloc: Global,
        ctx: BinlogCtx<'de>,
        buf: &mut ParseBuf<'de>,
    ) -> Result<Self, Error> {
        let event = if ctx.event_type_raw == 42 {
            read_tagged(alloc, buf)?
        } else if is_untagged_type(ctx.event_type_raw) {
            GtidEvent::read_untagged(buf)?
        } else {
            return Err(Error::WrongEventType(ctx.event_type_raw));
        };
        Ok(event)
    }
}

impl Put for GtidEvent {
    ghost bytes = { gtid_written };

    ghost refusal = { unwritable };

    /// # Errors
    ///
    /// [`Error::Unwritable`] for the first of these fields, in this order:
    ///
    /// - with a tag: a GNO, a `last_committed` or a `sequence_number` of 2^63 or more;
    /// - without a tag, and only with a clock code: an immediate timestamp of 2^55 or more, an original timestamp of
    ///   2^56 or more that differs from it, an immediate version of 2^31 or more.
    fn check(&self) -> Result<(), Error> {
        match &self.tag {
            Some(_) => self.check_tagged(),
            None => self.check_untagged(),
        }
    }

    fn written_len(&self) -> usize {
        match &self.tag {
            Some(tag) => self.tagged_len(tag) as usize,
            None => self.untagged_len(),
        }
    }

    fn put(&self, buf: &mut Vec<u8>) {
        match &self.tag {
            Some(tag) => self.put_tagged(tag, buf),
            None => self.put_untagged(buf),
        }
    }
}

impl<'a> BinlogEvent<'a> for GtidEvent {
    const EVENT_TYPE: EventType = EventType::GTID_EVENT;

    ghost format = { λ _ raw. gtid raw };

    ghost raw_type = { raw_type_of };

    ghost reading = { λ _. refl };

    ghost writing = { λ _ event _. gtid_written_is event };
}
