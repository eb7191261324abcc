//! GTID: the GTID of the event group after it.
ghost use Rattle.std.specs.Prelude.{◌≡◌, ◌++◌, ◌+◌, ◌^◌, ◌≤◌, Some, None, length, bit_and, option_copied, if◌then◌else◌, refl, IfOk, IsOkUnless, vec_len, vec_capacity};
ghost use Rattle.bitflags.specs.Sets.{known_bits};
ghost use Rattle.binlog_wire.specs.declared.error.Error.TheVariants.{Memory};
ghost use Rattle.binlog_wire.specs.Reading.{Gives};
ghost use Rattle.binlog_wire.specs.Formats.{anywhere, number};
ghost use Rattle.binlog_mariadb.specs.Flags.{maria_gtid_flags};
ghost use Rattle.binlog_mariadb.specs.Parts.{part};
ghost use Rattle.binlog_mariadb.specs.Gtids.{has_commit_id, has_xa, is_short, no_xa, no_extra, xa, tail, head, behind_flags, maria_gtid};

use crate::event_type::MariaEventType;
use crate::gtid_extra::GtidExtra;
use crate::gtid_flags::{MariaGtidFlags, has_bit};
use crate::traits::MariaEvent;
use crate::xa_id::XaId;
use binlog_event_format::BinlogCtx;
use binlog_wire::{
    Error, IntRepr, IntoOwned, LeU32, LeU64, MyDeserialize, ParseBuf, Put, RawFlags, TryClone,
};
use bitflags::Flags;
use std::alloc::Global;

/// The number of bytes before the parts that the flags announce.
const HEAD_LEN: usize = 13;

/// The least number of bytes after the extra flags if there is neither a commit id nor an XA id.
const NEEDED: usize = 5;

/// The first three fields of a GTID: the sequence number, the domain and the flags.
#[derive(Clone, Copy, Debug, PartialEq, Eq, Hash)]
pub struct GtidHead {
    sequence: u64,
    domain: u32,
    flags: u8,
}

/// The GTID event (type 162): the GTID of the event group after it. The GTID is the domain, the server id of the
/// event's header, and the sequence number, written as `0-7-123`.
///
/// Its body is, in this order and little-endian:
///
/// - the sequence number, 8 bytes; the domain, 4 bytes; the flags, 1 byte;
/// - with [`MariaGtidFlags::FL_GROUP_COMMIT_ID`] the commit id, 8 bytes;
/// - with [`MariaGtidFlags::FL_PREPARED_XA`] or [`MariaGtidFlags::FL_COMPLETED_XA`] the XA id ([`XaId`]);
/// - if bytes are left, the extra flags and the parts that they announce ([`GtidExtra`]), and reserved bytes, which are
///   kept.
///
/// If there is neither a commit id nor an XA id, at least six bytes follow the flags, so a body has at least 19 bytes.
/// On writing, missing ones are zeros.
///
/// Source: "GTID_EVENT" in MariaDB's documentation.
#[derive(Debug, PartialEq, Eq, Hash, Drop)]
pub struct MariaGtidEvent<'a> {
    head: GtidHead,
    commit_id: u64,
    xa_id: XaId<'a>,
    extra: Option<GtidExtra<'a>>,
}

/// Whether a commit id follows these flags.
fn has_commit_id(flags: u8) -> bool
    ensures { result ≡ has_commit_id flags }
{
    has_bit(flags, 0x2)
}

/// Whether an XA id follows these flags.
fn has_xa(flags: u8) -> bool
    ensures { result ≡ has_xa flags }
{
    has_bit(flags, 0x40) || has_bit(flags, 0x80)
}

/// Whether neither a commit id nor an XA id follows these flags.
fn is_short(flags: u8) -> bool
    ensures { result ≡ is_short flags }
{
    !(has_commit_id(flags) || has_xa(flags))
}

/// Reads the sequence number, the domain and the flags.
fn read_head(buf: &mut ParseBuf<'_>) -> Result<GtidHead, Error>
    ensures { Gives ⊥ buf.new result (head.reads buf.old) }
{
    let sequence = LeU64::read(buf)?;
    let domain = LeU32::read(buf)?;
    let flags = u8::read(buf)?;
    Ok(GtidHead {
        sequence,
        domain,
        flags,
    })
}

/// Reads a commit id if these flags announce it.
fn read_commit_id(flags: u8, buf: &mut ParseBuf<'_>) -> Result<u64, Error>
    ensures { Gives ⊥ buf.new result ((part {place = anywhere} (has_commit_id flags) 0 (number 8)).reads buf.old) }
{
    if has_commit_id(flags) {
        LeU64::read(buf)
    } else {
        Ok(0)
    }
}

/// Reads an XA id if these flags announce it.
fn read_xa_id<'a>(alloc: Global, flags: u8, buf: &mut ParseBuf<'a>) -> Result<XaId<'a>, Error>
    ensures { Gives ⊥ buf.new result ((part (has_xa flags) no_xa xa).reads buf.old) }
{
    if has_xa(flags) {
        buf.parse(alloc, ())
    } else {
        Ok(XaId::empty())
    }
}

/// Reads the extra flags after these flags, and the parts that they announce.
fn read_tail<'a>(
    alloc: Global,
    flags: u8,
    buf: &mut ParseBuf<'a>,
) -> Result<Option<GtidExtra<'a>>, Error>
    ensures { Gives ⊥ buf.new result ((tail flags).reads buf.old) }
{
    if is_short(flags) {
        Ok(Some(GtidExtra::read(alloc, NEEDED, buf)?))
    } else if buf.is_empty() {
        Ok(None)
    } else {
        Ok(Some(GtidExtra::read(alloc, 0, buf)?))
    }
}

impl<'a> MariaGtidEvent<'a> {
    /// The GTID of this domain and sequence number, with no flags.
    pub fn new(domain: u32, sequence: u64) -> Self
        ensures { result ≡ record { head = record { sequence = sequence; domain = domain; flags = 0 }; commit_id = 0; xa_id = no_xa; extra = None } }
    {
        MariaGtidEvent {
            head: GtidHead {
                sequence,
                domain,
                flags: 0,
            },
            commit_id: 0,
            xa_id: XaId::empty(),
            extra: None,
        }
    }

    /// Sets the flags. A part that they don't announce isn't written.
    pub fn with_flags(mut self, flags: MariaGtidFlags) -> Self
        ensures { result ≡ record self.entry { head = record self.entry.head { flags = flags.0 } } }
    {
        self.head.flags = flags.bits();
        self
    }

    /// Sets the commit id; it is written only if [`MariaGtidFlags::FL_GROUP_COMMIT_ID`] is set.
    pub fn with_commit_id(mut self, commit_id: u64) -> Self
        ensures { result ≡ record self.entry { commit_id = commit_id } }
    {
        self.commit_id = commit_id;
        self
    }

    /// Sets the XA id; it is written only if [`MariaGtidFlags::FL_PREPARED_XA`] or [`MariaGtidFlags::FL_COMPLETED_XA`]
    /// is set.
    pub fn with_xa_id(self, xa_id: XaId<'a>) -> Self
        ensures { result ≡ record self.entry { xa_id = xa_id.entry } }
    {
        MariaGtidEvent {
            head: self.head,
            commit_id: self.commit_id,
            xa_id,
            extra: self.extra,
        }
    }

    /// Sets the extra flags and the parts that they announce.
    pub fn with_extra(mut self, extra: GtidExtra<'a>) -> Self
        ensures { result ≡ record self.entry { extra = Some extra.entry } }
    {
        self.extra = Some(extra);
        self
    }

    /// The sequence number.
    pub fn sequence(&self) -> u64
        ensures { result ≡ self.now.head.sequence }
    {
        self.head.sequence
    }

    /// The replication domain.
    pub fn domain(&self) -> u32
        ensures { result ≡ self.now.head.domain }
    {
        self.head.domain
    }

    /// The known flags.
    pub fn flags(&self) -> MariaGtidFlags
        ensures { result.0 ≡ bit_and self.now.head.flags (known_bits maria_gtid_flags) }
    {
        RawFlags::<MariaGtidFlags, u8>::new(self.head.flags).get()
    }

    /// All bits of the flags.
    pub fn flags_raw(&self) -> u8
        ensures { result ≡ self.now.head.flags }
    {
        self.head.flags
    }

    /// The commit id, if the flags announce it. Event groups with the same id were committed together.
    pub fn commit_id(&self) -> Option<u64>
        ensures { result ≡ (if has_commit_id self.now.head.flags then Some self.now.commit_id else None) }
    {
        if has_commit_id(self.head.flags) {
            Some(self.commit_id)
        } else {
            None
        }
    }

    /// The XA id, if the flags announce it.
    pub fn xa_id(&self) -> Option<&XaId<'a>>
        ensures { option_copied result ≡ (if has_xa self.now.head.flags then Some self.now.xa_id else None) }
    {
        if has_xa(self.head.flags) {
            Some(&self.xa_id)
        } else {
            None
        }
    }

    /// The extra flags and the parts that they announce, if there are any.
    pub fn extra(&self) -> Option<&GtidExtra<'a>>
        ensures { option_copied result ≡ self.now.extra }
    {
        self.extra.as_ref()
    }
}

impl<'a> IntoOwned for MariaGtidEvent<'a> {
    type Owned = MariaGtidEvent<'static>;

    ghost is_owned = { λ value owned. owned ≡ value };

    fn into_owned(self, alloc: Global) -> Result<MariaGtidEvent<'static>, Error> {
        let MariaGtidEvent {
            head,
            commit_id,
            xa_id,
            extra,
        } = self;
        let xa_id = xa_id.into_owned(alloc)?;
        let extra = match extra {
            Some(extra) => Some(extra.into_owned(alloc)?),
            None => None,
        };
        Ok(MariaGtidEvent {
            head,
            commit_id,
            xa_id,
            extra,
        })
    }
}

impl<'a> TryClone for MariaGtidEvent<'a> {
    fn clone(&self, alloc: Global) -> Result<Self, Error> {
        let xa_id = self.xa_id.clone(alloc)?;
        let extra = match &self.extra {
            Some(extra) => Some(extra.clone(alloc)?),
            None => None,
        };
        Ok(MariaGtidEvent {
            head: self.head,
            commit_id: self.commit_id,
            xa_id,
            extra,
        })
    }
}

/// The only error is [`Error::EndOfBody`]: if the bytes end within a part that is announced, or if fewer than six bytes
/// follow flags that announce neither a commit id nor an XA id.
impl<'de> MyDeserialize<'de> for MariaGtidEvent<'de> {
    const SIZE: Option<usize> = None;

    type Ctx = BinlogCtx<'de>;

    ghost reads = { λ _. maria_gtid.reads };

    fn deserialize(alloc: Global, _ctx: Self::Ctx, buf: &mut ParseBuf<'de>) -> Result<Self, Error> {
        let head = read_head(buf)?;
        let commit_id = read_commit_id(head.flags, buf)?;
        let xa_id = read_xa_id(alloc, head.flags, buf)?;
        let extra = read_tail(alloc, head.flags, buf)?;
        Ok(MariaGtidEvent {
            head,
            commit_id,
            xa_id,
            extra,
        })
    }
}

/// Appends the sequence number, the domain and the flags. `buf` has room for them.
fn put_head(fields: GtidHead, buf: &mut Vec<u8>)
    requires { vec_len buf.old + 13 ≤ vec_capacity buf.old }
    ensures items { buf.new.items ≡ buf.old.items ++ head.written fields }
    ensures len { vec_len buf.new ≡ vec_len buf.old + 13 }
    ensures capacity { vec_capacity buf.old ≤ vec_capacity buf.new }
{
    LeU64::put(fields.sequence, buf);
    LeU32::put(fields.domain, buf);
    u8::put(fields.flags, buf);
}

/// The number of bytes written for a commit id.
fn commit_id_len(flags: u8) -> usize
    ensures { result ≡ (if has_commit_id flags then 8 else 0) }
{
    if has_commit_id(flags) { 8 } else { 0 }
}

/// Appends a commit id if these flags announce it. `buf` has room for it.
fn put_commit_id(flags: u8, commit_id: u64, buf: &mut Vec<u8>)
    requires { vec_len buf.old + length ((part {place = anywhere} (has_commit_id flags) 0 (number 8)).written commit_id) ≤ vec_capacity buf.old }
    ensures items { buf.new.items ≡ buf.old.items ++ (part {place = anywhere} (has_commit_id flags) 0 (number 8)).written commit_id }
    ensures len { vec_len buf.new ≡ vec_len buf.old + length ((part {place = anywhere} (has_commit_id flags) 0 (number 8)).written commit_id) }
    ensures capacity { vec_capacity buf.old ≤ vec_capacity buf.new }
{
    if has_commit_id(flags) {
        LeU64::put(commit_id, buf);
    }
}

/// The number of bytes written for an XA id.
fn xa_id_len(flags: u8, xa_id: &XaId<'_>) -> usize
    ensures count { result ≡ length ((part (has_xa flags) no_xa xa).written xa_id.now) }
    ensures small { result ≤ 516 }
{
    if has_xa(flags) {
        xa_id.written_len()
    } else {
        0
    }
}

/// Appends an XA id if these flags announce it. `buf` has room for it.
fn put_xa_id(flags: u8, xa_id: &XaId<'_>, buf: &mut Vec<u8>)
    requires { vec_len buf.old + length ((part (has_xa flags) no_xa xa).written xa_id.now) ≤ vec_capacity buf.old }
    ensures items { buf.new.items ≡ buf.old.items ++ (part (has_xa flags) no_xa xa).written xa_id.now }
    ensures len { vec_len buf.new ≡ vec_len buf.old + length ((part (has_xa flags) no_xa xa).written xa_id.now) }
    ensures capacity { vec_capacity buf.old ≤ vec_capacity buf.new }
{
    if has_xa(flags) {
        xa_id.put(buf);
    }
}

/// The number of bytes written for the extra flags and their parts.
fn tail_len(flags: u8, extra: &Option<GtidExtra<'_>>) -> usize
    ensures count { result ≡ length ((tail flags).written extra.now) }
    ensures small { result ≤ 2 ^ 63 + 14 }
{
    match extra {
        Some(extra) if is_short(flags) => extra.written_len(NEEDED),
        Some(extra) => extra.written_len(0),
        None if is_short(flags) => GtidExtra::empty().written_len(NEEDED),
        None => 0,
    }
}

/// Appends the extra flags and their parts. `buf` has room for them.
fn put_tail(flags: u8, extra: &Option<GtidExtra<'_>>, buf: &mut Vec<u8>)
    requires { vec_len buf.old + length ((tail flags).written extra.now) ≤ vec_capacity buf.old }
    ensures items { buf.new.items ≡ buf.old.items ++ (tail flags).written extra.now }
    ensures len { vec_len buf.new ≡ vec_len buf.old + length ((tail flags).written extra.now) }
    ensures capacity { vec_capacity buf.old ≤ vec_capacity buf.new }
{
    match extra {
        Some(extra) if is_short(flags) => extra.put(NEEDED, buf),
        Some(extra) => extra.put(0, buf),
        None if is_short(flags) => GtidExtra::empty().put(NEEDED, buf),
        None => {}
    }
}

impl Put for MariaGtidEvent<'_> {
    ghost bytes = { maria_gtid.written };

    fn check(&self) -> Result<(), Error> {
        Ok(())
    }

    fn written_len(&self) -> usize {
        let flags = self.head.flags;
        let ids = commit_id_len(flags) + xa_id_len(flags, &self.xa_id);
        HEAD_LEN + ids + tail_len(flags, &self.extra)
    }

    #[tactic(auto, using(std::proofs::Common::append_assoc))]
    fn put(&self, buf: &mut Vec<u8>) {
        put_head(self.head, buf);
        put_commit_id(self.head.flags, self.commit_id, buf);
        put_xa_id(self.head.flags, &self.xa_id, buf);
        put_tail(self.head.flags, &self.extra, buf);
    }
}

impl<'a> MariaEvent<'a> for MariaGtidEvent<'a> {
    const EVENT_TYPE: MariaEventType = MariaEventType::GTID_EVENT;

    ghost format = { λ _ _. maria_gtid };

    ghost raw_type = { λ _. 162 };

    ghost reading = { λ _. refl };

    ghost writing = { λ _ _ _. refl };
}
