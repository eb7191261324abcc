//! A row event of any kind.
ghost use Rattle.std.specs.Prelude.{◌≡◌, ◌<◌, ◌^◌, [], length, min, take, option_map, bit_and, IfOk, IsOkUnless};
ghost use Rattle.bitflags.specs.Sets.{known_bits};
ghost use Rattle.binlog_wire.specs.declared.error.Error.TheVariants.{Memory};
ghost use Rattle.binlog_wire.specs.Reading.{Gives};
ghost use Rattle.binlog_consts.specs.Flags.{rows_event_flags};
ghost use Rattle.binlog_rows.specs.Images.{bitmap_of};
ghost use Rattle.binlog_rows.specs.Rows.{rows, rows_written, IsOfForm};

use crate::rows_columns::RowsColumns;
use crate::rows_form::RowsForm;
use crate::rows_head::RowsHead;
use binlog_consts::{BinlogVersion, RowsEventFlags};
use binlog_event_format::MAX_BODY_LEN;
use binlog_wire::{
    BitView, BytesRepr, EofBytes, Error, IntoOwned, LeU16, ParseBuf, Put, RawBytes, RawFlags,
    TryClone,
};
use std::alloc::Global;
use std::borrow::CowSlice;

/// The rows of a table that an event writes, updates or deletes, for any event type.
///
/// It is the content of an event of one type, such as a [`WriteRowsEvent`](crate::WriteRowsEvent). Only reading such
/// an event makes one.
#[derive(Debug, PartialEq, Eq, Hash, Drop)]
pub struct RowsEvent<'a> {
    head: RowsHead<'a>,
    columns: RowsColumns<'a>,
    rows: RawBytes<'a, EofBytes>,
}

impl<'a> RowsEvent<'a> {
    /// Reads the body of an event of this form from `buf`, to its end, for a post-header of this length.
    ///
    /// # Errors
    ///
    /// - [`Error::EndOfBody`] if the bytes end before the rows.
    /// - [`Invalid::LenEnc`](binlog_wire::Invalid::LenEnc) if the column count begins with `fb` or `ff`.
    #[tactic(auto, unfolding(crate::specs::Rows::rows))]
    #[inline(always)]
    pub(crate) fn read(
        form: RowsForm,
        post_header: u8,
        buf: &mut ParseBuf<'a>,
    ) -> Result<Self, Error>
        ensures reads { Gives ⊥ buf.new result ((rows form post_header).reads buf.old) }
        ensures form { IfOk result (λ event. IsOfForm form event) }
    {
        let head = RowsHead::read(form, post_header, buf)?;
        let columns = RowsColumns::read(form, buf)?;
        let rows = EofBytes::read((), buf)?;
        Ok(RowsEvent {
            head,
            columns,
            rows: RawBytes::new(CowSlice::Borrowed(rows)),
        })
    }

    /// The table id, below 2^48. The latest table map with this id describes the table.
    pub fn table_id(&self) -> u64
        ensures number { result ≡ self.now.head.table_id }
        ensures small { result < 2 ^ 48 }
    {
        self.head.table_id.get()
    }

    /// The number of the table's columns.
    pub fn num_columns(&self) -> u64
        ensures { result ≡ self.now.columns.count }
    {
        self.columns.count
    }

    /// The columns that are present in the before-image; None for inserted rows, which have no before-image.
    pub fn columns_before_image(&self) -> Option<BitView<'_>>
        ensures { option_map bitmap_of result ≡ self.now.columns.before }
    {
        match &self.columns.before {
            Some(columns) => Some(columns.view()),
            None => None,
        }
    }

    /// The columns that are present in the after-image; None for deleted rows, which have no after-image.
    pub fn columns_after_image(&self) -> Option<BitView<'_>>
        ensures { option_map bitmap_of result ≡ self.now.columns.after }
    {
        match &self.columns.after {
            Some(columns) => Some(columns.view()),
            None => None,
        }
    }

    /// The encoded rows.
    pub fn rows_data(&self) -> &[u8]
        ensures { result.now ≡ self.now.rows }
    {
        self.rows.as_bytes()
    }

    /// The known flags.
    pub fn flags(&self) -> RowsEventFlags
        ensures { result.0 ≡ bit_and self.now.head.flags (known_bits rows_event_flags) }
    {
        RawFlags::<RowsEventFlags, LeU16>::new(self.head.flags).get()
    }

    /// All bits of the flags.
    pub fn flags_raw(&self) -> u16
        ensures { result ≡ self.now.head.flags }
    {
        self.head.flags
    }

    /// The extra bytes, at most 65,533; None for an older (V1) event type, which keeps none.
    pub fn extra_data(&self) -> Option<&[u8]>
        ensures { option_map (λ bytes. bytes.now) result ≡ option_map (take 65533) self.now.head.extra }
    {
        match &self.head.extra {
            Some(extra) => Some(extra.as_bytes()),
            None => None,
        }
    }

    /// The number of bytes written for the event, or [`MAX_BODY_LEN`] if it would be more.
    pub fn len(&self, _version: BinlogVersion) -> usize
        ensures { result ≡ min (length (rows_written self.now)) 4294967276 }
    {
        MAX_BODY_LEN.min(self.written_len())
    }
}

impl<'a> IntoOwned for RowsEvent<'a> {
    type Owned = RowsEvent<'static>;

    ghost is_owned = { λ value owned. owned ≡ value };

    fn into_owned(self, alloc: Global) -> Result<RowsEvent<'static>, Error> {
        let RowsEvent {
            head,
            columns,
            rows,
        } = self;
        let head = head.into_owned(alloc)?;
        let columns = columns.into_owned(alloc)?;
        let rows = rows.into_owned(alloc)?;
        Ok(RowsEvent {
            head,
            columns,
            rows,
        })
    }
}

impl<'a> TryClone for RowsEvent<'a> {
    fn clone(&self, alloc: Global) -> Result<Self, Error> {
        let head = self.head.clone(alloc)?;
        let columns = self.columns.clone(alloc)?;
        let rows = self.rows.clone(alloc)?;
        Ok(RowsEvent {
            head,
            columns,
            rows,
        })
    }
}

/// Writes the table id in 6 bytes, and the extra-data length exactly if the event's type keeps extra bytes.
impl Put for RowsEvent<'_> {
    ghost bytes = { rows_written };

    fn check(&self) -> Result<(), Error> {
        Ok(())
    }

    fn written_len(&self) -> usize {
        self.head.written_len() + self.columns.written_len() + self.rows.written_len()
    }

    #[tactic(auto, using(std::proofs::Common::append_assoc))]
    fn put(&self, buf: &mut Vec<u8>) {
        self.head.put(buf);
        self.columns.put(buf);
        self.rows.put(buf);
    }
}
