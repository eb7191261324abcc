//! INTVAR: the last insert id, or an auto-increment value.
ghost use Rattle.std.specs.Prelude.{◌≡◌, Some, refl};
ghost use Rattle.binlog_wire.specs.Reading.{Gives};
ghost use Rattle.binlog_bodies.specs.Intvar.{intvar};

use binlog_consts::{EventType, IntvarEventType};
use binlog_event_format::{BinlogCtx, BinlogEvent};
use binlog_wire::{Constant, Error, IntRepr, LeU64, MyDeserialize, ParseBuf, Put};
use std::alloc::Global;

/// The size of the body in bytes.
const INTVAR_LEN: usize = 9;

/// The INTVAR event (type 5): an integer variable that the next statement uses, LAST_INSERT_ID or INSERT_ID.
///
/// Its body is one unit of 9 bytes: the subtype, 1 byte, 0 to 2, and the value, 8 bytes, little-endian.
///
/// Source: "INTVAR_EVENT" in MySQL's internals documentation.
#[derive(Clone, Copy, Debug, PartialEq, Eq, Hash)]
pub struct IntvarEvent {
    subtype: IntvarEventType,
    value: u64,
}

impl IntvarEvent {
    /// Reads an event from the start of `buf`, as `deserialize` does. Needs no allocator.
    ///
    /// # Errors
    ///
    /// - [`Error::EndOfBody`] where there are fewer than 9 bytes;
    /// - else [`Error::InvalidData`] where the subtype is above 2 (`Subtype`).
    #[inline(always)]
    pub fn read(buf: &mut ParseBuf<'_>) -> Result<Self, Error>
        ensures { Gives ⊥ buf.new result (intvar.reads buf.old) }
    {
        if buf.len() < INTVAR_LEN {
            return Err(Error::EndOfBody);
        }
        let number = u8::read(buf)?;
        let subtype = IntvarEventType::from_number(number).map_err(Error::InvalidData)?;
        let value = LeU64::read(buf)?;
        Ok(IntvarEvent { subtype, value })
    }

    /// The event of this variable and value.
    pub fn new(subtype: IntvarEventType, value: u64) -> Self
        ensures { result ≡ record { subtype = subtype; value = value } }
    {
        IntvarEvent { subtype, value }
    }

    /// The same event with another variable.
    pub fn with_subtype(mut self, subtype: IntvarEventType) -> Self
        ensures { result ≡ record self { subtype = subtype } }
    {
        self.subtype = subtype;
        self
    }

    /// The same event with another value.
    pub fn with_value(mut self, value: u64) -> Self
        ensures { result ≡ record self { value = value } }
    {
        self.value = value;
        self
    }

    /// The variable.
    pub fn subtype(&self) -> IntvarEventType
        ensures { result ≡ self.now.subtype }
    {
        self.subtype
    }

    /// The value of the variable.
    pub fn value(&self) -> u64
        ensures { result ≡ self.now.value }
    {
        self.value
    }
}

/// # Errors
///
/// - [`Error::EndOfBody`] where there are fewer than 9 bytes;
/// - else [`Error::InvalidData`] where the subtype is above 2 (`Subtype`).
impl<'de> MyDeserialize<'de> for IntvarEvent {
    const SIZE: Option<usize> = Some(9);

    type Ctx = BinlogCtx<'de>;

    ghost reads = { λ _. intvar.reads };

    ghost size = { Some 9 };

    fn deserialize(
        _alloc: Global,
        _ctx: Self::Ctx,
        buf: &mut ParseBuf<'de>,
    ) -> Result<Self, Error> {
        IntvarEvent::read(buf)
    }
}

impl Put for IntvarEvent {
    ghost bytes = { intvar.written };

    fn check(&self) -> Result<(), Error> {
        Ok(())
    }

    fn written_len(&self) -> usize {
        INTVAR_LEN
    }

    fn put(&self, buf: &mut Vec<u8>) {
        u8::put(u8::from(self.subtype), buf);
        LeU64::put(self.value, buf);
    }
}

impl<'a> BinlogEvent<'a> for IntvarEvent {
    const EVENT_TYPE: EventType = EventType::INTVAR_EVENT;

    ghost format = { λ _ _. intvar };

    ghost raw_type = { λ _. 5 };

    ghost reading = { λ _. refl };

    ghost writing = { λ _ _ _. refl };
}
