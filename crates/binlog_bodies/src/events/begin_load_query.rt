//! BEGIN_LOAD_QUERY: the first block of a file that `LOAD DATA` loads.
ghost use Rattle.std.specs.Prelude.{◌≡◌, [], IfOk, IsOkUnless, refl};
ghost use Rattle.std.specs.Cow.{cow_slice_items};
ghost use Rattle.binlog_wire.specs.declared.error.Error.TheVariants.{Memory};
ghost use Rattle.binlog_wire.specs.Reading.{Gives};
ghost use Rattle.binlog_bodies.specs.BeginLoadQuery.{begin_load_query};

use binlog_consts::EventType;
use binlog_event_format::{BinlogCtx, BinlogEvent};
use binlog_wire::{
    BytesRepr, EofBytes, Error, IntRepr, IntoOwned, LeU32, MyDeserialize, ParseBuf, Put, RawBytes,
    TryClone,
};
use std::alloc::Global;
use std::borrow::CowSlice;

/// The BEGIN_LOAD_QUERY event (type 17): the first block of a file that `LOAD DATA` loads.
///
/// Its body is the file id, 4 bytes, little-endian, and the block, to the end.
///
/// Source: "BEGIN_LOAD_QUERY_EVENT" in MySQL's internals documentation.
#[derive(Debug, PartialEq, Eq, Hash, Drop)]
pub struct BeginLoadQueryEvent<'a> {
    file_id: u32,
    block_data: RawBytes<'a, EofBytes>,
}

impl<'a> BeginLoadQueryEvent<'a> {
    /// Reads an event from the start of `buf`, as `deserialize` does. Needs no allocator.
    ///
    /// The only error is [`Error::EndOfBody`], where there are fewer than 4 bytes.
    #[inline(always)]
    pub fn read(buf: &mut ParseBuf<'a>) -> Result<Self, Error>
        ensures { Gives ⊥ buf.new result (begin_load_query.reads buf.old) }
    {
        let file_id = LeU32::read(buf)?;
        let block_data = EofBytes::read((), buf)?;
        Ok(BeginLoadQueryEvent {
            file_id,
            block_data: RawBytes::new(CowSlice::Borrowed(block_data)),
        })
    }

    /// The event of an empty block of the file with this id.
    pub fn new(file_id: u32) -> Self
        ensures { result ≡ record { file_id = file_id; block_data = [] } }
    {
        BeginLoadQueryEvent {
            file_id,
            block_data: RawBytes::new(CowSlice::Borrowed(&[])),
        }
    }

    /// The same event with another file id.
    pub fn with_file_id(mut self, file_id: u32) -> Self
        ensures { result ≡ record self.entry { file_id = file_id } }
    {
        self.file_id = file_id;
        self
    }

    /// The same event with another block.
    pub fn with_block_data(mut self, block_data: CowSlice<'a, u8>) -> Self
        ensures { result ≡ record self.entry { block_data = cow_slice_items block_data.entry } }
    {
        self.block_data = RawBytes::new(block_data);
        self
    }

    /// The id of the file, by which later events refer to it.
    pub fn file_id(&self) -> u32
        ensures { result ≡ self.now.file_id }
    {
        self.file_id
    }

    /// The first block of the file.
    pub fn block_data(&self) -> &[u8]
        ensures { result.now ≡ self.now.block_data }
    {
        self.block_data.as_bytes()
    }
}

impl<'a> IntoOwned for BeginLoadQueryEvent<'a> {
    type Owned = BeginLoadQueryEvent<'static>;

    ghost is_owned = { λ value owned. owned ≡ value };

    fn into_owned(self, alloc: Global) -> Result<BeginLoadQueryEvent<'static>, Error> {
        let block_data = self.block_data.into_owned(alloc)?;
        Ok(BeginLoadQueryEvent {
            file_id: self.file_id,
            block_data,
        })
    }
}

impl<'a> TryClone for BeginLoadQueryEvent<'a> {
    fn clone(&self, alloc: Global) -> Result<Self, Error> {
        let block_data = self.block_data.clone(alloc)?;
        Ok(BeginLoadQueryEvent {
            file_id: self.file_id,
            block_data,
        })
    }
}

/// The only error is [`Error::EndOfBody`], where there are fewer than 4 bytes.
impl<'de> MyDeserialize<'de> for BeginLoadQueryEvent<'de> {
    const SIZE: Option<usize> = None;

    type Ctx = BinlogCtx<'de>;

    ghost reads = { λ _. begin_load_query.reads };

    fn deserialize(
        _alloc: Global,
        _ctx: Self::Ctx,
        buf: &mut ParseBuf<'de>,
    ) -> Result<Self, Error> {
        BeginLoadQueryEvent::read(buf)
    }
}

impl Put for BeginLoadQueryEvent<'_> {
    ghost bytes = { begin_load_query.written };

    fn check(&self) -> Result<(), Error> {
        Ok(())
    }

    fn written_len(&self) -> usize {
        4 + self.block_data.written_len()
    }

    fn put(&self, buf: &mut Vec<u8>) {
        LeU32::put(self.file_id, buf);
        self.block_data.put(buf);
    }
}

impl<'a> BinlogEvent<'a> for BeginLoadQueryEvent<'a> {
    const EVENT_TYPE: EventType = EventType::BEGIN_LOAD_QUERY_EVENT;

    ghost format = { λ _ _. begin_load_query };

    ghost raw_type = { λ _. 17 };

    ghost reading = { λ _. refl };

    ghost writing = { λ _ _ _. refl };
}
