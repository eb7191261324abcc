//! A row event of one type.
ghost use Rattle.std.specs.Prelude.{◌≡◌, ◌<◌, ◌^◌, Some, bit_and, IfOk, IsOkUnless};
ghost use Rattle.bitflags.specs.Sets.{known_bits};
ghost use Rattle.binlog_wire.specs.declared.error.Error.TheVariants.{Memory};
ghost use Rattle.binlog_wire.specs.Reading.{Gives};
ghost use Rattle.binlog_consts.specs.Flags.{rows_event_flags};
ghost use Rattle.binlog_rows.specs.Images.{bitmap_of};
ghost use Rattle.binlog_rows.specs.Rows.{IsOfForm};

use crate::rows_event::RowsEvent;
use crate::rows_kind::{
    DeleteRows, DeleteRowsV1, HasAfterImage, HasBeforeImage, PartialUpdateRows, RowsKind,
    UpdateRows, UpdateRowsV1, WriteRows, WriteRowsV1,
};
use binlog_consts::{EventType, RowsEventFlags};
use binlog_event_format::{BinlogCtx, BinlogEvent, DescriptionRef};
use binlog_wire::{BitView, Error, IntoOwned, MyDeserialize, ParseBuf, Put, TryClone};
use std::alloc::Global;
use std::marker::{Model, PhantomData};

/// A row event of the type given by its kind `K`, which also says which row images the event has.
///
/// The body, with little-endian numbers:
///
/// - table id: 6 bytes, or 4 if the stated length of the post-header is 6;
/// - flags: 2 bytes;
/// - extra bytes, after a 2-byte length that includes itself: only if the stated length of the post-header is 10;
/// - number of columns: length-encoded;
/// - for each image a columns-present bitmap, least significant bit first;
/// - rows: to the end.
///
/// The older (V1) types keep no extra bytes.
///
/// Source: MySQL's documentation of its source code, `mysql::binlog::event::Rows_event`.
///
/// Contracts see the [`RowsEvent`], which has exactly the parts of the kind.
#[derive(Drop)]
#[derive_where(Debug, PartialEq, Eq, Hash)]
pub struct RowsEventOf<'a, K: RowsKind> {
    event: RowsEvent<'a>,
    #[derive_where(skip)]
    kind: PhantomData<K>,
}

impl<'a, K: RowsKind> Model for RowsEventOf<'a, K> {
    ghost use Rattle.binlog_rows.specs.declared.rows_event.RowsEvent.{RowsEvent};
    ghost use Rattle.binlog_rows.specs.Rows.{IsOfForm};

    ghost Value = { RowsEvent };

    ghost view = { λ of. of.event };

    ghost invariant = { λ of. IsOfForm K.FORM of.event };

    ghost inverse = { λ event. record { event = event; kind = record {} } };
}

/// Inserted rows: WRITE_ROWS, type 30.
pub type WriteRowsEvent<'a> = RowsEventOf<'a, WriteRows>;

/// Updated rows: UPDATE_ROWS, type 31.
pub type UpdateRowsEvent<'a> = RowsEventOf<'a, UpdateRows>;

/// Deleted rows: DELETE_ROWS, type 32.
pub type DeleteRowsEvent<'a> = RowsEventOf<'a, DeleteRows>;

/// Updated rows: PARTIAL_UPDATE_ROWS, type 39. Some JSON columns may be logged as partial updates.
pub type PartialUpdateRowsEvent<'a> = RowsEventOf<'a, PartialUpdateRows>;

/// Inserted rows, as servers before 5.6 log them.
pub type WriteRowsEventV1<'a> = RowsEventOf<'a, WriteRowsV1>;

/// Updated rows, as servers before 5.6 log them.
pub type UpdateRowsEventV1<'a> = RowsEventOf<'a, UpdateRowsV1>;

/// Deleted rows, as servers before 5.6 log them.
pub type DeleteRowsEventV1<'a> = RowsEventOf<'a, DeleteRowsV1>;

impl<'a, K: RowsKind> RowsEventOf<'a, K> {
    ghost use Rattle.binlog_event_format.specs.DescriptionRefs.{description_of};
    ghost use Rattle.binlog_event_format.specs.PostHeaders.{post_header};
    ghost use Rattle.binlog_rows.specs.Rows.{rows};

    /// Reads an event from the start of `buf` under a format description, as `deserialize` does. Needs no allocator.
    ///
    /// # Errors
    ///
    /// - [`Error::EndOfBody`] if the bytes end before the rows.
    /// - [`Invalid::LenEnc`](binlog_wire::Invalid::LenEnc) if the column count begins with `fb` or `ff`.
    #[inline(always)]
    pub fn read(fde: DescriptionRef<'_>, buf: &mut ParseBuf<'a>) -> Result<Self, Error>
        ensures { Gives ⊥ buf.new result ((rows K.FORM (post_header (description_of fde.entry) K.EVENT_TYPE)).reads buf.old) }
    {
        let post_header = fde.get_event_type_header_length(K::EVENT_TYPE);
        let event = RowsEvent::read(K::FORM, post_header, buf)?;
        Ok(RowsEventOf {
            event,
            kind: PhantomData,
        })
    }

    /// The event, of whatever type.
    pub fn event(&self) -> &RowsEvent<'a>
        ensures same { result.now ≡ self.now }
        ensures form { IsOfForm K.FORM self.now }
    {
        &self.event
    }

    /// The table id, below 2^48. The latest table map with this id describes the table.
    pub fn table_id(&self) -> u64
        ensures number { result ≡ self.now.head.table_id }
        ensures small { result < 2 ^ 48 }
    {
        self.event.table_id()
    }

    /// The number of the table's columns.
    pub fn num_columns(&self) -> u64
        ensures { result ≡ self.now.columns.count }
    {
        self.event.num_columns()
    }

    /// The encoded rows.
    pub fn rows_data(&self) -> &[u8]
        ensures { result.now ≡ self.now.rows }
    {
        self.event.rows_data()
    }

    /// The known flags.
    pub fn flags(&self) -> RowsEventFlags
        ensures { result.0 ≡ bit_and self.now.head.flags (known_bits rows_event_flags) }
    {
        self.event.flags()
    }

    /// All bits of the flags.
    pub fn flags_raw(&self) -> u16
        ensures { result ≡ self.now.head.flags }
    {
        self.event.flags_raw()
    }
}

impl<'a, K: RowsKind> IntoOwned for RowsEventOf<'a, K> {
    type Owned = RowsEventOf<'static, K>;

    ghost is_owned = { λ value owned. owned ≡ value };

    fn into_owned(self, alloc: Global) -> Result<RowsEventOf<'static, K>, Error> {
        let RowsEventOf { event, kind: _ } = self;
        let event = event.into_owned(alloc)?;
        Ok(RowsEventOf {
            event,
            kind: PhantomData,
        })
    }
}

impl<'a, K: RowsKind> TryClone for RowsEventOf<'a, K> {
    fn clone(&self, alloc: Global) -> Result<Self, Error> {
        let event = self.event.clone(alloc)?;
        Ok(RowsEventOf {
            event,
            kind: PhantomData,
        })
    }
}

impl<'a, K: HasBeforeImage> RowsEventOf<'a, K> {
    /// The columns that are present in the before-image.
    pub fn columns_before_image(&self) -> BitView<'_>
        ensures image { Some (bitmap_of result) ≡ self.now.columns.before }
        ensures len { result.len ≡ self.now.columns.count }
    {
        self.event.columns_before_image().unwrap()
    }
}

impl<'a, K: HasAfterImage> RowsEventOf<'a, K> {
    /// The columns that are present in the after-image.
    pub fn columns_after_image(&self) -> BitView<'_>
        ensures image { Some (bitmap_of result) ≡ self.now.columns.after }
        ensures len { result.len ≡ self.now.columns.count }
    {
        self.event.columns_after_image().unwrap()
    }
}

/// # Errors
///
/// - [`Error::EndOfBody`] if the bytes end before the rows.
/// - [`Invalid::LenEnc`](binlog_wire::Invalid::LenEnc) if the column count begins with `fb` or `ff`.
impl<'de, K: RowsKind> MyDeserialize<'de> for RowsEventOf<'de, K> {
    ghost use Rattle.binlog_event_format.specs.DescriptionRefs.{description_of};
    ghost use Rattle.binlog_event_format.specs.PostHeaders.{post_header};
    ghost use Rattle.binlog_rows.specs.Rows.{rows};

    const SIZE: Option<usize> = None;

    type Ctx = BinlogCtx<'de>;

    ghost reads = { λ ctx. (rows K.FORM (post_header (description_of ctx.fde) K.EVENT_TYPE)).reads };

    ghost grows = { λ _. ⊥ };

    fn deserialize(
        _alloc: Global,
        ctx: BinlogCtx<'de>,
        buf: &mut ParseBuf<'de>,
    ) -> Result<Self, Error> {
        RowsEventOf::read(ctx.fde, buf)
    }
}

/// Writes the table id in 6 bytes, and the extra-data length for all but the older (V1) types.
impl<K: RowsKind> Put for RowsEventOf<'_, K> {
    ghost use Rattle.binlog_rows.specs.Forms.{default_length};
    ghost use Rattle.binlog_rows.specs.Rows.{rows};

    ghost bytes = { (rows K.FORM (default_length K.FORM)).written };

    fn check(&self) -> Result<(), Error> {
        Ok(())
    }

    #[tactic(auto, using(crate::specs::Laws::RowsWriting::rows_written_is))]
    fn written_len(&self) -> usize {
        self.event.written_len()
    }

    #[tactic(auto, using(crate::specs::Laws::RowsWriting::rows_written_is))]
    fn put(&self, buf: &mut Vec<u8>) {
        self.event.put(buf);
    }
}

impl<'a, K: RowsKind> BinlogEvent<'a> for RowsEventOf<'a, K> {
    ghost use Rattle.std.specs.Prelude.{refl};
    ghost use Rattle.binlog_consts.specs.EventTypes.{event_number};
    ghost use Rattle.binlog_event_format.specs.PostHeaders.{post_header};
    ghost use Rattle.binlog_rows.specs.Rows.{rows};
    ghost use Rattle.binlog_rows.specs.Laws.RowsWriting.{rows_written_under};

    const EVENT_TYPE: EventType = K::EVENT_TYPE;

    ghost format = { λ d _. rows K.FORM (post_header d K.EVENT_TYPE) };

    ghost raw_type = { λ _. event_number K.EVENT_TYPE };

    ghost reading = { λ _. refl };

    ghost writing = { λ version event _. rows_written_under K.FORM event _ (K.by_default version) };
}
