//! XID: the commit of a transaction.
ghost use Rattle.std.specs.Prelude.{refl};
ghost use Rattle.binlog_wire.specs.Reading.{Gives};
ghost use Rattle.binlog_consts.specs.declared.event_type.EventType.TheVariants.{XID_EVENT};
ghost use Rattle.binlog_event_format.specs.DescriptionRefs.{description_of};
ghost use Rattle.binlog_event_format.specs.PostHeaders.{post_header};
ghost use Rattle.binlog_bodies.specs.Xid.{xid};

use binlog_consts::EventType;
use binlog_event_format::{BinlogCtx, BinlogEvent, DescriptionRef};
use binlog_wire::{Error, IntRepr, LeU64, MyDeserialize, ParseBuf, Put};
use std::alloc::Global;

/// The size of the written body in bytes.
const XID_LEN: usize = 8;

/// The XID event (type 16): the commit of a transaction in an engine with two-phase commit.
///
/// Its body is a post-header of the length that the format description states, which is reserved and isn't written,
/// and the transaction's id, 8 bytes, little-endian.
///
/// Source: "XID_EVENT" in MySQL's internals documentation.
#[derive(Clone, Copy, Debug, PartialEq, Eq, Hash)]
pub struct XidEvent {
    /// The transaction's id.
    pub xid: u64,
}

impl XidEvent {
    /// Reads an event from the start of `buf` under a format description, as `deserialize` does. Needs no allocator.
    ///
    /// The only error is [`Error::EndOfBody`], where there are fewer bytes than the post-header and 8.
    #[inline(always)]
    pub fn read(fde: DescriptionRef<'_>, buf: &mut ParseBuf<'_>) -> Result<Self, Error>
        ensures { Gives ⊥ buf.new result ((xid (post_header (description_of fde.entry) XID_EVENT)).reads buf.old) }
    {
        let post_header = fde.get_event_type_header_length(EventType::XID_EVENT);
        if !buf.checked_skip(usize::from(post_header)) {
            return Err(Error::EndOfBody);
        }
        let xid = buf.checked_eat_u64_le().ok_or(Error::EndOfBody)?;
        Ok(XidEvent { xid })
    }
}

/// The only error is [`Error::EndOfBody`], where there are fewer bytes than the post-header and 8.
impl<'de> MyDeserialize<'de> for XidEvent {
    const SIZE: Option<usize> = None;

    type Ctx = BinlogCtx<'de>;

    ghost reads = { λ ctx. (xid (post_header (description_of ctx.fde) XID_EVENT)).reads };

    fn deserialize(_alloc: Global, ctx: Self::Ctx, buf: &mut ParseBuf<'de>) -> Result<Self, Error> {
        XidEvent::read(ctx.fde, buf)
    }
}

impl Put for XidEvent {
    ghost bytes = { (xid 0).written };

    fn check(&self) -> Result<(), Error> {
        Ok(())
    }

    fn written_len(&self) -> usize {
        XID_LEN
    }

    fn put(&self, buf: &mut Vec<u8>) {
        LeU64::put(self.xid, buf);
    }
}

impl<'a> BinlogEvent<'a> for XidEvent {
    const EVENT_TYPE: EventType = EventType::XID_EVENT;

    ghost format = { λ d _. xid (post_header d XID_EVENT) };

    ghost raw_type = { λ _. 16 };

    ghost reading = { λ _. refl };

    ghost writing = { λ _ _ _. refl };
}
