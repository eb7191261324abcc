//! ANONYMOUS_GTID_EVENT: a transaction without a GTID follows.
ghost use Rattle.std.specs.Prelude.{◌≡◌, refl, Ok, IfOk, IsOkUnless};
ghost use Rattle.binlog_wire.specs.declared.error.Error.TheVariants.{Memory};
ghost use Rattle.binlog_gtids.specs.Gtids.{anonymous, unwritable_anonymous};
ghost use Rattle.binlog_gtids.specs.Formats.{untagged};

use crate::gtid_event::GtidEvent;
use binlog_consts::EventType;
use binlog_event_format::{BinlogCtx, BinlogEvent};
use binlog_wire::{Error, Field, IntoOwned, MyDeserialize, ParseBuf, Put, TryClone};
use std::alloc::Global;

/// An ANONYMOUS_GTID event, type 34: the transaction after it has no GTID. Its body is that of a [`GtidEvent`] without
/// a tag.
#[derive(Debug, PartialEq, Eq, Hash, Drop)]
pub struct AnonymousGtidEvent(pub GtidEvent);

/// The event borrows nothing, so no memory is allocated and the result is always Ok.
impl IntoOwned for AnonymousGtidEvent {
    type Owned = AnonymousGtidEvent;

    ghost is_owned = { λ value owned. owned ≡ value };

    fn into_owned(self, alloc: Global) -> Result<AnonymousGtidEvent, Error>
        ensures { result ≡ Ok self }
    {
        Ok(AnonymousGtidEvent(self.0.into_owned(alloc)?))
    }
}

impl TryClone for AnonymousGtidEvent {
    fn clone(&self, alloc: Global) -> Result<Self, Error> {
        Ok(AnonymousGtidEvent(self.0.clone(alloc)?))
    }
}

/// As a [`GtidEvent`] under the same raw type.
impl<'de> MyDeserialize<'de> for AnonymousGtidEvent {
    const SIZE: Option<usize> = None;

    type Ctx = BinlogCtx<'de>;

    ghost reads = { λ ctx. (anonymous ctx.event_type_raw).reads };

    ghost grows = { λ ctx. ctx.event_type_raw ≡ 42 };

    fn deserialize(
        alloc: Global,
        ctx: BinlogCtx<'de>,
        buf: &mut ParseBuf<'de>,
    ) -> Result<Self, Error> {
        Ok(AnonymousGtidEvent(GtidEvent::deserialize(alloc, ctx, buf)?))
    }
}

impl Put for AnonymousGtidEvent {
    ghost bytes = { λ event. untagged.written event.0 };

    ghost refusal = { λ event. unwritable_anonymous event.0 };

    /// [`Error::Unwritable`] if the event has a tag; otherwise as for a [`GtidEvent`].
    fn check(&self) -> Result<(), Error> {
        if self.0.is_tagged() {
            return Err(Error::Unwritable(Field::Tag));
        }
        self.0.check_untagged()
    }

    fn written_len(&self) -> usize {
        self.0.untagged_len()
    }

    fn put(&self, buf: &mut Vec<u8>) {
        self.0.put_untagged(buf);
    }
}

impl<'a> BinlogEvent<'a> for AnonymousGtidEvent {
    const EVENT_TYPE: EventType = EventType::ANONYMOUS_GTID_EVENT;

    ghost format = { λ _ raw. anonymous raw };

    ghost raw_type = { λ _. 34 };

    ghost reading = { λ _. refl };

    ghost writing = { λ _ _ _. refl };
}
