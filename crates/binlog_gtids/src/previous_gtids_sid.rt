//! An entry of the GTIDs of earlier files.
ghost use Rattle.std.specs.Prelude.{◌≡◌, ◌++◌, ◌+◌, ◌≤◌, ⊤, true, min, length, option_copied, IfOk, IsOkUnless, vec_len, vec_capacity};
ghost use Rattle.binlog_wire.specs.declared.error.Error.TheVariants.{Memory};
ghost use Rattle.binlog_wire.specs.Putting.{Puts};
ghost use Rattle.binlog_wire.specs.Reading.{Gives};
ghost use Rattle.binlog_variable_fields.specs.GnoIntervals.{gno_interval};
ghost use Rattle.binlog_variable_fields.specs.Repeated.{each_written};
ghost use Rattle.binlog_gtids.specs.PreviousGtids.{tag_if_any, tag_in, intervals, sid_in, tag_written, sid_written};

use crate::sid::read_sid;
use binlog_variable_fields::{
    GnoInterval, Tag, ValueList, Varlen, read_varlen_text, varlen_uint_size,
};
use binlog_wire::{Error, IntRepr, IntoOwned, LeU64, MyDeserialize, ParseBuf, Put, TryClone};
use std::alloc::Global;

/// The number of bytes of an entry without its tag and its intervals.
const PLAIN_LEN: usize = 24;

/// The number of bytes of an interval.
const INTERVAL_LEN: usize = 16;

/// The GTIDs of one source and tag: the source's UUID (16 bytes), an optional tag, and the transaction numbers as
/// intervals. The intervals may be in any order, and may overlap or be empty.
#[derive(Debug, PartialEq, Eq, Hash, Drop)]
pub struct PreviousGtidsSid<'a> {
    uuid: [u8; 16],
    tag: Option<Tag<'a>>,
    intervals: ValueList<GnoInterval>,
}

impl<'a> PreviousGtidsSid<'a> {
    /// An entry with these parts.
    pub fn new(uuid: [u8; 16], tag: Option<Tag<'a>>, intervals: Vec<GnoInterval>) -> Self
        ensures { result ≡ record { uuid = uuid; tag = tag.entry; intervals = intervals.items } }
    {
        PreviousGtidsSid {
            uuid,
            tag,
            intervals: ValueList::new(intervals),
        }
    }

    /// The source's UUID.
    pub fn uuid(&self) -> [u8; 16]
        ensures { result ≡ self.now.uuid }
    {
        self.uuid
    }

    /// The tag, if any.
    pub fn tag(&self) -> Option<&Tag<'a>>
        ensures { option_copied result ≡ self.now.tag }
    {
        self.tag.as_ref()
    }

    /// The intervals, in the order of the body.
    pub fn intervals(&self) -> &[GnoInterval]
        ensures { result.now ≡ self.now.intervals }
    {
        self.intervals.as_slice()
    }
}

impl<'a> IntoOwned for PreviousGtidsSid<'a> {
    type Owned = PreviousGtidsSid<'static>;

    ghost is_owned = { λ value owned. owned ≡ value };

    fn into_owned(self, alloc: Global) -> Result<PreviousGtidsSid<'static>, Error> {
        let PreviousGtidsSid {
            uuid,
            tag,
            intervals,
        } = self;
        let tag = match tag {
            Some(tag) => Some(tag.into_owned(alloc)?),
            None => None,
        };
        Ok(PreviousGtidsSid {
            uuid,
            tag,
            intervals,
        })
    }
}

impl<'a> TryClone for PreviousGtidsSid<'a> {
    fn clone(&self, alloc: Global) -> Result<Self, Error> {
        let tag = match &self.tag {
            Some(tag) => Some(tag.clone(alloc)?),
            None => None,
        };
        let intervals = Vec::from_slice(alloc, self.intervals.as_slice())?;
        Ok(PreviousGtidsSid {
            uuid: self.uuid,
            tag,
            intervals: ValueList::new(intervals),
        })
    }
}

/// Reads a tag after its length from the start of `buf`; None if the length is 0.
fn read_tag<'a>(buf: &mut ParseBuf<'a>) -> Result<Option<Tag<'a>>, Error>
    ensures { Gives ⊥ buf.new result (tag_if_any.reads buf.old) }
{
    let text = read_varlen_text(buf)?;
    if text.is_empty() {
        return Ok(None);
    }
    Ok(Some(Tag::from_bytes(text)?))
}

/// Reads an optional tag from the start of `buf` in the form with tags; reads nothing in the form without.
fn read_tag_in<'a>(with_tags: bool, buf: &mut ParseBuf<'a>) -> Result<Option<Tag<'a>>, Error>
    ensures { Gives ⊥ buf.new result ((tag_in with_tags).reads buf.old) }
{
    if with_tags { read_tag(buf) } else { Ok(None) }
}

/// Reads the number of intervals and the intervals from the start of `buf`.
fn read_intervals(alloc: Global, buf: &mut ParseBuf<'_>) -> Result<ValueList<GnoInterval>, Error>
    ensures { Gives ⊤ buf.new result (intervals.reads buf.old) }
{
    let count = LeU64::read(buf)?;
    ValueList::deserialize(alloc, (count, ()), buf)
}

/// The context says whether the entry is of the form with tags.
///
/// # Errors
///
/// - [`Error::EndOfBody`] if the bytes end within a field or an interval.
/// - [`Invalid::Tag`](binlog_wire::Invalid::Tag) if a text isn't a valid tag.
/// - [`Error::Memory`] if an allocation fails.
impl<'de> MyDeserialize<'de> for PreviousGtidsSid<'de> {
    const SIZE: Option<usize> = None;

    type Ctx = bool;

    ghost reads = { λ with_tags. (sid_in with_tags).reads };

    ghost grows = { λ _. ⊤ };

    fn deserialize(alloc: Global, with_tags: bool, buf: &mut ParseBuf<'de>) -> Result<Self, Error> {
        let uuid = read_sid(buf)?;
        let tag = read_tag_in(with_tags, buf)?;
        let intervals = read_intervals(alloc, buf)?;
        Ok(PreviousGtidsSid {
            uuid,
            tag,
            intervals,
        })
    }
}

/// The number of bytes written for an optional tag, in the form with tags or without.
fn tag_len(tag: &Option<Tag<'_>>, with_tags: bool) -> usize
    ensures count { result ≡ length (tag_written with_tags tag.now) }
    ensures small { result ≤ 41 }
{
    match tag {
        _ if !with_tags => 0,
        None => varlen_uint_size(0),
        Some(tag) => {
            let len = tag.as_str().len();
            varlen_uint_size(len as u64) + len
        }
    }
}

/// Appends a tag after its length; the length is 0 for no tag. `buf` has room for them.
fn put_tag(tag: &Option<Tag<'_>>, buf: &mut Vec<u8>)
    requires { vec_len buf.old + length (tag_written true tag.now) ≤ vec_capacity buf.old }
    ensures { Puts buf.old buf.new (tag_written true tag.now) }
{
    match tag {
        None => Varlen::put(0, buf),
        Some(tag) => {
            let text = tag.as_str().as_bytes();
            Varlen::put(text.len() as u64, buf);
            buf.extend_from_slice(text).unwrap();
        }
    }
}

/// Appends the intervals. `buf` has room for them.
fn put_intervals(intervals: &[GnoInterval], buf: &mut Vec<u8>)
    requires { vec_len buf.old + length (each_written gno_interval.written intervals.now) ≤ vec_capacity buf.old }
    ensures { Puts buf.old buf.new (each_written gno_interval.written intervals.now) }
{
    for interval in intervals {
        interval.put(buf);
    }
}

impl PreviousGtidsSid<'_> {
    /// The number of bytes written for the entry, with or without tags; `usize::MAX` if it would be more.
    pub(crate) fn written_len(&self, with_tags: bool) -> usize
        ensures { result ≡ min (length (sid_written with_tags self.now)) 18446744073709551615 }
    {
        let intervals = self.intervals.as_slice().len().saturating_mul(INTERVAL_LEN);
        intervals.saturating_add(PLAIN_LEN + tag_len(&self.tag, with_tags))
    }

    /// Appends the entry, with or without tags. `buf` has room for it.
    pub(crate) fn put(&self, with_tags: bool, buf: &mut Vec<u8>)
        requires { vec_len buf.old + length (sid_written with_tags self.now) ≤ vec_capacity buf.old }
        ensures { Puts buf.old buf.new (sid_written with_tags self.now) }
    {
        buf.extend_from_slice(&self.uuid).unwrap();
        if with_tags {
            put_tag(&self.tag, buf);
        }
        let intervals = self.intervals.as_slice();
        LeU64::put(intervals.len() as u64, buf);
        put_intervals(intervals, buf);
    }
}
