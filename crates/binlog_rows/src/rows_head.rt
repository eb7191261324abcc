//! The table id, the flags and the extra bytes of a row event.
ghost use Rattle.std.specs.Prelude.{◌≡◌, ◌+◌, ◌++◌, ◌≤◌, length, is_some, vec_len, vec_capacity, IfOk, IsOkUnless};
ghost use Rattle.binlog_wire.specs.declared.error.Error.TheVariants.{Memory};
ghost use Rattle.binlog_wire.specs.Putting.{Puts};
ghost use Rattle.binlog_wire.specs.Reading.{Gives, result_now};
ghost use Rattle.binlog_wire.specs.Formats.{anywhere};
ghost use Rattle.binlog_rows.specs.Rows.{extra, extra_in, extra_written, head, head_written};

use crate::rows_form::RowsForm;
use crate::table_id::TableId;
use binlog_wire::{BareBytes, Error, IntRepr, IntoOwned, LeU16, ParseBuf, Put, RawBytes, TryClone};
use std::alloc::Global;
use std::borrow::CowSlice;

/// The greatest number of extra bytes, 65,533: the extra-data length is 65,535 then.
pub const MAX_EXTRA_LEN: usize = 65533;

/// The length of the post-header of an event with extra bytes.
const WITH_EXTRA: u8 = 10;

/// The number of bytes of the extra-data length. The length includes these bytes.
const COUNT_LEN: usize = 2;

/// The post-header of a row event.
#[derive(Debug, PartialEq, Eq, Hash, Drop)]
pub struct RowsHead<'a> {
    /// The table id.
    pub table_id: TableId,
    /// All bits of the flags.
    pub flags: u16,
    /// The extra bytes; None for an older (V1) event type, which keeps none.
    pub extra: Option<RawBytes<'a, BareBytes<MAX_EXTRA_LEN>>>,
}

/// Reads the extra-data length and the extra bytes from the start of `buf`. The only error is [`Error::EndOfBody`], if
/// the bytes end within them.
#[inline(always)]
fn read_extra<'a>(buf: &mut ParseBuf<'a>) -> Result<&'a [u8], Error>
    ensures { Gives ⊥ buf.new (result_now result) ((extra {place = anywhere}).reads buf.old) }
{
    let count = usize::from(LeU16::read(buf)?);
    buf.checked_eat(count.saturating_sub(COUNT_LEN))
        .ok_or(Error::EndOfBody)
}

/// The extra bytes of an event whose type keeps them or not, for a post-header of this length.
#[inline(always)]
fn read_extra_in<'a>(
    has_extra: bool,
    post_header: u8,
    buf: &mut ParseBuf<'a>,
) -> Result<Option<RawBytes<'a, BareBytes<MAX_EXTRA_LEN>>>, Error>
    ensures reads { Gives ⊥ buf.new result ((extra_in has_extra post_header).reads buf.old) }
    ensures kept { IfOk result (λ extra. is_some extra ≡ has_extra) }
{
    let bytes = if post_header == WITH_EXTRA {
        read_extra(buf)?
    } else {
        &[]
    };
    if has_extra {
        Ok(Some(RawBytes::new(CowSlice::Borrowed(bytes))))
    } else {
        Ok(None)
    }
}

/// The number of bytes written for the extra bytes, including their length field.
fn extra_len(extra: &Option<RawBytes<'_, BareBytes<MAX_EXTRA_LEN>>>) -> usize
    ensures count { result ≡ length (extra_written extra.now) }
    ensures small { result ≤ 65535 }
{
    match extra {
        Some(extra) => COUNT_LEN + extra.written_len(),
        None => 0,
    }
}

/// Appends the extra-data length and the extra bytes. `buf` has room for them.
#[tactic(auto, using(std::proofs::Common::append_assoc))]
fn put_extra(extra: &Option<RawBytes<'_, BareBytes<MAX_EXTRA_LEN>>>, buf: &mut Vec<u8>)
    requires { vec_len buf.old + length (extra_written extra.now) ≤ vec_capacity buf.old }
    ensures { Puts buf.old buf.new (extra_written extra.now) }
{
    if let Some(extra) = extra {
        let len = COUNT_LEN + extra.written_len();
        LeU16::put(len as u16, buf);
        extra.put(buf);
    }
}

impl<'a> RowsHead<'a> {
    /// Reads the post-header of an event of this form from the start of `buf`, for this stated length. The only error
    /// is [`Error::EndOfBody`], if the bytes end within it.
    #[inline(always)]
    pub fn read(form: RowsForm, post_header: u8, buf: &mut ParseBuf<'a>) -> Result<Self, Error>
        ensures reads { Gives ⊥ buf.new result ((head form post_header).reads buf.old) }
        ensures kept { IfOk result (λ head. is_some head.extra ≡ form.has_extra) }
    {
        let table_id = TableId::read(post_header, buf)?;
        let flags = LeU16::read(buf)?;
        let extra = read_extra_in(form.has_extra, post_header, buf)?;
        Ok(RowsHead {
            table_id,
            flags,
            extra,
        })
    }
}

impl<'a> IntoOwned for RowsHead<'a> {
    type Owned = RowsHead<'static>;

    ghost is_owned = { λ value owned. owned ≡ value };

    fn into_owned(self, alloc: Global) -> Result<RowsHead<'static>, Error> {
        let RowsHead {
            table_id,
            flags,
            extra,
        } = self;
        let extra = match extra {
            Some(extra) => Some(extra.into_owned(alloc)?),
            None => None,
        };
        Ok(RowsHead {
            table_id,
            flags,
            extra,
        })
    }
}

impl<'a> TryClone for RowsHead<'a> {
    fn clone(&self, alloc: Global) -> Result<Self, Error> {
        let extra = match &self.extra {
            Some(extra) => Some(extra.clone(alloc)?),
            None => None,
        };
        Ok(RowsHead {
            table_id: self.table_id,
            flags: self.flags,
            extra,
        })
    }
}

/// Writes the extra-data length exactly if the event's type keeps extra bytes, even if there are none.
impl Put for RowsHead<'_> {
    ghost bytes = { head_written };

    fn check(&self) -> Result<(), Error> {
        Ok(())
    }

    fn written_len(&self) -> usize
        ensures count { result ≡ length (head_written self.now) }
        ensures small { result ≤ 65543 }
    {
        TableId::LEN + 2 + extra_len(&self.extra)
    }

    #[tactic(auto, using(std::proofs::Common::append_assoc))]
    fn put(&self, buf: &mut Vec<u8>) {
        self.table_id.put(buf);
        LeU16::put(self.flags, buf);
        put_extra(&self.extra, buf);
    }
}
