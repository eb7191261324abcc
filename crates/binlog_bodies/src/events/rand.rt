//! RAND: the seeds of `RAND()`.
ghost use Rattle.std.specs.Prelude.{Some, refl};
ghost use Rattle.binlog_wire.specs.Reading.{Gives};
ghost use Rattle.binlog_bodies.specs.Rand.{rand};

use binlog_consts::EventType;
use binlog_event_format::{BinlogCtx, BinlogEvent};
use binlog_wire::{Error, IntRepr, LeU64, MyDeserialize, ParseBuf, Put, RawInt};
use std::alloc::Global;

/// The size of the body in bytes.
const RAND_LEN: usize = 16;

/// The RAND event (type 13): the seeds that `RAND()` uses in the next statement.
///
/// Its body is one unit of 16 bytes: the two seeds, 8 bytes each, little-endian.
///
/// Source: "RAND_EVENT" in MySQL's internals documentation.
#[derive(Clone, Debug, PartialEq, Eq, Hash, Drop)]
pub struct RandEvent {
    /// The first seed.
    pub seed1: RawInt<LeU64>,
    /// The second seed.
    pub seed2: RawInt<LeU64>,
}

impl RandEvent {
    /// Reads an event from the start of `buf`, as `deserialize` does. Needs no allocator.
    ///
    /// The only error is [`Error::EndOfBody`], where there are fewer than 16 bytes.
    #[inline(always)]
    pub fn read(buf: &mut ParseBuf<'_>) -> Result<Self, Error>
        ensures { Gives ⊥ buf.new result (rand.reads buf.old) }
    {
        if buf.len() < RAND_LEN {
            return Err(Error::EndOfBody);
        }
        let seed1 = LeU64::read(buf)?;
        let seed2 = LeU64::read(buf)?;
        Ok(RandEvent {
            seed1: RawInt::new(seed1),
            seed2: RawInt::new(seed2),
        })
    }
}

/// The only error is [`Error::EndOfBody`], where there are fewer than 16 bytes.
impl<'de> MyDeserialize<'de> for RandEvent {
    const SIZE: Option<usize> = Some(16);

    type Ctx = BinlogCtx<'de>;

    ghost reads = { λ _. rand.reads };

    ghost size = { Some 16 };

    fn deserialize(
        _alloc: Global,
        _ctx: Self::Ctx,
        buf: &mut ParseBuf<'de>,
    ) -> Result<Self, Error> {
        RandEvent::read(buf)
    }
}

impl Put for RandEvent {
    ghost bytes = { rand.written };

    fn check(&self) -> Result<(), Error> {
        Ok(())
    }

    fn written_len(&self) -> usize {
        RAND_LEN
    }

    fn put(&self, buf: &mut Vec<u8>) {
        self.seed1.put(buf);
        self.seed2.put(buf);
    }
}

impl<'a> BinlogEvent<'a> for RandEvent {
    const EVENT_TYPE: EventType = EventType::RAND_EVENT;

    ghost format = { λ _ _. rand };

    ghost raw_type = { λ _. 13 };

    ghost reading = { λ _. refl };

    ghost writing = { λ _ _ _. refl };
}
