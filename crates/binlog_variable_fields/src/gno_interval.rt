//! Intervals of GNOs.
ghost use Rattle.std.specs.Prelude.{◌≡◌, Some};
ghost use Rattle.binlog_variable_fields.specs.GnoIntervals.{gno_interval};

use binlog_wire::{Error, IntRepr, LeU64, MyDeserialize, ParseBuf, Put};
use std::alloc::Global;

/// The size of an interval in bytes.
const INTERVAL_LEN: usize = 16;

/// An interval of GNOs (the transaction numbers of one source): from `start`, to `end`, which isn't included.
///
/// It is encoded as two u64, little-endian. Any values are accepted: `start` may be 0 or above `end`.
///
/// Source: `Gtid_set::encode` in MySQL's source documentation.
#[derive(Clone, Copy, Debug, PartialEq, Eq, Hash)]
pub struct GnoInterval {
    start: u64,
    end: u64,
}

impl GnoInterval {
    /// The interval from `start`, to `end`, which isn't included.
    pub fn new(start: u64, end: u64) -> Self
        ensures { result ≡ record { start = start; end = end } }
    {
        GnoInterval { start, end }
    }

    /// The first GNO.
    pub fn start(&self) -> u64
        ensures { result ≡ self.now.start }
    {
        self.start
    }

    /// The GNO after the last.
    pub fn end(&self) -> u64
        ensures { result ≡ self.now.end }
    {
        self.end
    }
}

/// The only error is [`Error::EndOfBody`], where there are fewer than 16 bytes.
impl<'de> MyDeserialize<'de> for GnoInterval {
    const SIZE: Option<usize> = Some(INTERVAL_LEN);

    type Ctx = ();

    ghost reads = { λ _. gno_interval.reads };

    ghost size = { Some 16 };

    fn deserialize(_alloc: Global, _ctx: (), buf: &mut ParseBuf<'de>) -> Result<Self, Error> {
        if buf.len() < INTERVAL_LEN {
            return Err(Error::EndOfBody);
        }
        let start = LeU64::read(buf)?;
        let end = LeU64::read(buf)?;
        Ok(GnoInterval { start, end })
    }
}

impl Put for GnoInterval {
    ghost bytes = { gno_interval.written };

    fn check(&self) -> Result<(), Error> {
        Ok(())
    }

    fn written_len(&self) -> usize {
        INTERVAL_LEN
    }

    fn put(&self, buf: &mut Vec<u8>) {
        LeU64::put(self.start, buf);
        LeU64::put(self.end, buf);
    }
}
