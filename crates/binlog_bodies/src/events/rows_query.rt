//! ROWS_QUERY: the statement that the following row events come from.
ghost use Rattle.std.specs.Prelude.{◌≡◌, IfOk, IsOkUnless, refl};
ghost use Rattle.std.specs.Cow.{cow_slice_items, cow_str_bytes};
ghost use Rattle.std.specs.Str.Lossy.{utf8_lossy};
ghost use Rattle.binlog_wire.specs.declared.error.Error.TheVariants.{Memory};
ghost use Rattle.binlog_wire.specs.Reading.{Gives};
ghost use Rattle.binlog_bodies.specs.RowsQuery.{rows_query};

use binlog_consts::EventType;
use binlog_event_format::{BinlogCtx, BinlogEvent};
use binlog_wire::{
    BytesRepr, EofBytes, Error, IntRepr, IntoOwned, MyDeserialize, ParseBuf, Put, RawBytes,
    TryClone,
};
use std::alloc::Global;
use std::borrow::{CowSlice, CowStr};

/// The ROWS_QUERY event (type 29): the statement that the following row events come from.
///
/// Its body is one reserved byte, which is written as 0, and the statement, to the end.
///
/// Source: "ROWS_QUERY_EVENT" in MySQL's internals documentation.
#[derive(Debug, PartialEq, Eq, Hash, Drop)]
pub struct RowsQueryEvent<'a> {
    query: RawBytes<'a, EofBytes>,
}

impl<'a> RowsQueryEvent<'a> {
    /// Reads an event from the start of `buf`, as `deserialize` does. Needs no allocator.
    ///
    /// The only error is [`Error::EndOfBody`], where there are no bytes.
    #[inline(always)]
    pub fn read(buf: &mut ParseBuf<'a>) -> Result<Self, Error>
        ensures { Gives ⊥ buf.new result (rows_query.reads buf.old) }
    {
        if !buf.checked_skip(1) {
            return Err(Error::EndOfBody);
        }
        let query = EofBytes::read((), buf)?;
        Ok(RowsQueryEvent {
            query: RawBytes::new(CowSlice::Borrowed(query)),
        })
    }

    /// The event of this statement.
    pub fn new(query: CowSlice<'a, u8>) -> Self
        ensures { result ≡ record { query = cow_slice_items query.entry } }
    {
        let query = RawBytes::new(query);
        RowsQueryEvent { query }
    }

    /// The statement.
    pub fn query_raw(&self) -> &[u8]
        ensures { result.now ≡ self.now.query }
    {
        self.query.as_bytes()
    }

    /// The statement as UTF-8 text, with U+FFFD in place of each malformed sequence. The only error is
    /// [`Error::Memory`].
    pub fn query(&self, alloc: Global) -> Result<CowStr<'_, Global>, Error>
        ensures ok { IfOk result (λ text. cow_str_bytes text ≡ utf8_lossy self.now.query) }
        ensures memory { IsOkUnless result Memory }
    {
        self.query.as_str(alloc)
    }
}

impl<'a> IntoOwned for RowsQueryEvent<'a> {
    type Owned = RowsQueryEvent<'static>;

    ghost is_owned = { λ value owned. owned ≡ value };

    fn into_owned(self, alloc: Global) -> Result<RowsQueryEvent<'static>, Error> {
        let query = self.query.into_owned(alloc)?;
        Ok(RowsQueryEvent { query })
    }
}

impl<'a> TryClone for RowsQueryEvent<'a> {
    fn clone(&self, alloc: Global) -> Result<Self, Error> {
        let query = self.query.clone(alloc)?;
        Ok(RowsQueryEvent { query })
    }
}

/// The only error is [`Error::EndOfBody`], where there are no bytes.
impl<'de> MyDeserialize<'de> for RowsQueryEvent<'de> {
    const SIZE: Option<usize> = None;

    type Ctx = BinlogCtx<'de>;

    ghost reads = { λ _. rows_query.reads };

    fn deserialize(
        _alloc: Global,
        _ctx: Self::Ctx,
        buf: &mut ParseBuf<'de>,
    ) -> Result<Self, Error> {
        RowsQueryEvent::read(buf)
    }
}

impl Put for RowsQueryEvent<'_> {
    ghost bytes = { rows_query.written };

    fn check(&self) -> Result<(), Error> {
        Ok(())
    }

    fn written_len(&self) -> usize {
        1 + self.query.written_len()
    }

    fn put(&self, buf: &mut Vec<u8>) {
        u8::put(0, buf);
        self.query.put(buf);
    }
}

impl<'a> BinlogEvent<'a> for RowsQueryEvent<'a> {
    const EVENT_TYPE: EventType = EventType::ROWS_QUERY_EVENT;

    ghost format = { λ _ _. rows_query };

    ghost raw_type = { λ _. 29 };

    ghost reading = { λ _. refl };

    ghost writing = { λ _ _ _. refl };
}
