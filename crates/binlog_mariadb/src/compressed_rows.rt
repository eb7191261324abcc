//! Compressed row events.
ghost use Rattle.std.specs.Prelude.{◌≡◌, ◌<◌, ◌^◌, option_map, bit_and, take};
ghost use Rattle.bitflags.specs.Sets.{known_bits};
ghost use Rattle.binlog_consts.specs.Flags.{rows_event_flags};
ghost use Rattle.binlog_rows.specs.Images.{bitmap_of};
ghost use Rattle.binlog_rows.specs.RowsData.{event_in};

use binlog_consts::RowsEventFlags;
use binlog_rows::RowsEventData;
use binlog_wire::{BitView, Error, IntoOwned, Put, TryClone};
use std::alloc::Global;

/// Inserted, updated or deleted rows of any compressed type (166 to 171).
///
/// The body is that of the uncompressed type, with the stored bytes in place of the rows. They are neither decompressed
/// nor checked, and they aren't rows, so that nothing here gives a row event.
#[derive(Debug, PartialEq, Eq, Hash, Drop)]
pub struct RowsCompressedEvent<'a> {
    event: RowsEventData<'a>,
}

impl<'a> RowsCompressedEvent<'a> {
    /// The event whose parts these are, with the stored bytes in place of the rows.
    pub(crate) fn new(event: RowsEventData<'a>) -> Self
        ensures { result.event ≡ event.entry }
    {
        RowsCompressedEvent { event }
    }

    /// The table id, below 2^48. The latest table map with this id describes the table.
    pub fn table_id(&self) -> u64
        ensures number { result ≡ (event_in self.now.event).head.table_id }
        ensures small { result < 2 ^ 48 }
    {
        self.event.table_id()
    }

    /// The number of the table's columns.
    pub fn num_columns(&self) -> u64
        ensures { result ≡ (event_in self.now.event).columns.count }
    {
        self.event.num_columns()
    }

    /// The columns that are present in the before-image; None for inserted rows, which have no before-image.
    pub fn columns_before_image(&self) -> Option<BitView<'_>>
        ensures { option_map bitmap_of result ≡ (event_in self.now.event).columns.before }
    {
        self.event.columns_before_image()
    }

    /// The columns that are present in the after-image; None for deleted rows, which have no after-image.
    pub fn columns_after_image(&self) -> Option<BitView<'_>>
        ensures { option_map bitmap_of result ≡ (event_in self.now.event).columns.after }
    {
        self.event.columns_after_image()
    }

    /// The stored bytes: the rows as they were compressed.
    pub fn compressed_data(&self) -> &[u8]
        ensures { result.now ≡ (event_in self.now.event).rows }
    {
        self.event.rows_data()
    }

    /// The extra bytes, at most 65,533; None for an older (V1) event type, which keeps none.
    pub fn extra_data(&self) -> Option<&[u8]>
        ensures { option_map (λ bytes. bytes.now) result ≡ option_map (take 65533) (event_in self.now.event).head.extra }
    {
        self.event.event().extra_data()
    }

    /// All bits of the flags.
    pub fn flags_raw(&self) -> u16
        ensures { result ≡ (event_in self.now.event).head.flags }
    {
        self.event.event().flags_raw()
    }

    /// The known flags.
    pub fn flags(&self) -> RowsEventFlags
        ensures { result.0 ≡ bit_and (event_in self.now.event).head.flags (known_bits rows_event_flags) }
    {
        self.event.flags()
    }
}

impl<'a> IntoOwned for RowsCompressedEvent<'a> {
    type Owned = RowsCompressedEvent<'static>;

    ghost is_owned = { λ value owned. owned ≡ value };

    fn into_owned(self, alloc: Global) -> Result<RowsCompressedEvent<'static>, Error> {
        let event = self.event.into_owned(alloc)?;
        Ok(RowsCompressedEvent { event })
    }
}

impl<'a> TryClone for RowsCompressedEvent<'a> {
    fn clone(&self, alloc: Global) -> Result<Self, Error> {
        let event = self.event.clone(alloc)?;
        Ok(RowsCompressedEvent { event })
    }
}

/// Writes the body as its type does.
impl Put for RowsCompressedEvent<'_> {
    ghost use Rattle.binlog_rows.specs.RowsData.{data_written};

    ghost bytes = { λ compressed. data_written compressed.event };

    fn check(&self) -> Result<(), Error> {
        Ok(())
    }

    fn written_len(&self) -> usize {
        self.event.written_len()
    }

    fn put(&self, buf: &mut Vec<u8>) {
        self.event.put(buf);
    }
}
