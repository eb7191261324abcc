//! PREVIOUS_GTIDS_EVENT: the GTIDs of earlier files.
ghost use Rattle.std.specs.Prelude.{◌≡◌, ◌++◌, ◌+◌, ◌≤◌, ⊤, min, length, refl, IfOk, IsOkUnless, OnOk, MatchOption, Ok, Err, ◌∷◌, [], vec_len, vec_capacity};
ghost use Rattle.binlog_wire.specs.Putting.{Puts};
ghost use Rattle.binlog_wire.specs.declared.error.Error.TheVariants.{Memory};
ghost use Rattle.binlog_variable_fields.specs.Repeated.{each_written};
ghost use Rattle.binlog_gtids.specs.Formats.{previous_gtids};
ghost use Rattle.binlog_gtids.specs.PreviousGtids.{has_tags, count_in, any_tagged, first_number, sid_written, sids_written, unwritable_sids};

use crate::previous_gtids_sid::PreviousGtidsSid;
use binlog_consts::{BinlogVersion, EventType};
use binlog_event_format::{BinlogCtx, BinlogEvent, BinlogStruct, MAX_BODY_LEN};
use binlog_variable_fields::ValueList;
use binlog_wire::{
    Error, Field, IntRepr, IntoOwned, LeU64, MyDeserialize, MySerialize, ParseBuf, TryClone,
    reserve,
};
use std::alloc::Global;

/// A PREVIOUS_GTIDS event, type 35: the GTIDs of all transactions in earlier files, with an entry for each source UUID
/// and tag.
///
/// The body starts with a number (8) that encodes the form and the number of entries:
///
/// - A top byte of 0 is the form without tags; the other 56 bits are the number of entries.
/// - Any other top byte is the form with tags; bits 8 to 55 are the number of entries.
///
/// Each entry is the source's UUID (16); in the form with tags a tag after its length, where a length of 0 is no tag;
/// the number of intervals (8), and the intervals (16 each). The form with tags is written only if an entry has a tag.
///
/// Source: MySQL's source documentation, `Gtid_set::encode`.
#[derive(Debug, PartialEq, Eq, Hash, Drop)]
pub struct PreviousGtidsEvent<'a> {
    sids: ValueList<PreviousGtidsSid<'a>>,
}

impl<'a> PreviousGtidsEvent<'a> {
    /// An event with these entries.
    pub fn new(sids: Vec<PreviousGtidsSid<'a>>) -> Self
        ensures { result ≡ record { sids = sids.entry.items } }
    {
        PreviousGtidsEvent {
            sids: ValueList::new(sids),
        }
    }

    /// The entries, in the order of the body.
    pub fn sids(&self) -> &[PreviousGtidsSid<'a>]
        ensures { result.now ≡ self.now.sids }
    {
        self.sids.as_slice()
    }
}

impl<'a> IntoOwned for PreviousGtidsEvent<'a> {
    type Owned = PreviousGtidsEvent<'static>;

    ghost is_owned = { λ value owned. owned ≡ value };

    fn into_owned(self, alloc: Global) -> Result<PreviousGtidsEvent<'static>, Error> {
        let mut owned = Vec::new(alloc);
        for sid in self.sids.into_vec() {
            let sid = sid.into_owned(alloc)?;
            push(&mut owned, sid)?;
        }
        Ok(PreviousGtidsEvent {
            sids: ValueList::new(owned),
        })
    }
}

impl<'a> TryClone for PreviousGtidsEvent<'a> {
    fn clone(&self, alloc: Global) -> Result<Self, Error> {
        let mut copies = Vec::new(alloc);
        for sid in self.sids.as_slice() {
            let copy = sid.clone(alloc)?;
            push(&mut copies, copy)?;
        }
        Ok(PreviousGtidsEvent {
            sids: ValueList::new(copies),
        })
    }
}

/// Appends an entry. The only error is [`Error::Memory`].
fn push<'a>(sids: &mut Vec<PreviousGtidsSid<'a>>, sid: PreviousGtidsSid<'a>) -> Result<(), Error>
    ensures ok { OnOk result (sids.new.items ≡ sids.old.items ++ sid.entry ∷ []) }
    ensures memory { IsOkUnless result Memory }
{
    match sids.push(sid) {
        Ok(()) => Ok(()),
        Err(_) => Err(Error::Memory),
    }
}

/// Whether a body that begins with this number has the form with tags.
fn has_tags(head: u64) -> bool
    ensures { result ≡ has_tags head }
{
    head >= 1 << 56
}

/// The number of entries of a body that begins with this number.
fn count_in(head: u64) -> u64
    ensures { result ≡ count_in head }
{
    if has_tags(head) {
        (head >> 8) % (1 << 48)
    } else {
        head
    }
}

/// Memory grows with the entries that were read, not by the stated count.
///
/// # Errors
///
/// - [`Error::EndOfBody`] if the bytes end within a field.
/// - [`Invalid::Tag`](binlog_wire::Invalid::Tag) if a text isn't a valid tag.
/// - [`Error::Memory`] if an allocation fails.
impl<'de> MyDeserialize<'de> for PreviousGtidsEvent<'de> {
    const SIZE: Option<usize> = None;

    type Ctx = BinlogCtx<'de>;

    ghost reads = { λ _. previous_gtids.reads };

    ghost grows = { λ _. ⊤ };

    fn deserialize(
        alloc: Global,
        _ctx: BinlogCtx<'de>,
        buf: &mut ParseBuf<'de>,
    ) -> Result<Self, Error> {
        let head = LeU64::read(buf)?;
        let sids = ValueList::deserialize(alloc, (count_in(head), has_tags(head)), buf)?;
        Ok(PreviousGtidsEvent { sids })
    }
}

/// The number of bytes written for the entries, with or without tags; `usize::MAX` if it would be more.
fn sids_len(sids: &[PreviousGtidsSid<'_>], with_tags: bool) -> usize
    ensures { result ≡ min (length (each_written (sid_written with_tags) sids.now)) 18446744073709551615 }
{
    let mut len: usize = 0;
    for sid in sids {
        len = len.saturating_add(sid.written_len(with_tags));
    }
    len
}

/// Appends the entries, with or without tags. `buf` has room for them.
fn put_sids(sids: &[PreviousGtidsSid<'_>], with_tags: bool, buf: &mut Vec<u8>)
    requires { vec_len buf.old + length (each_written (sid_written with_tags) sids.now) ≤ vec_capacity buf.old }
    ensures { Puts buf.old buf.new (each_written (sid_written with_tags) sids.now) }
{
    for sid in sids {
        sid.put(with_tags, buf);
    }
}

impl PreviousGtidsEvent<'_> {
    /// Whether any entry has a tag.
    fn is_tagged(&self) -> bool
        ensures { result ≡ any_tagged self.now.sids }
    {
        self.sids.as_slice().iter().any(|sid| sid.tag().is_some())
    }

    /// The first number of the body. [`Error::Unwritable`] if there are 2^48 or more entries and one has a tag, or
    /// 2^56 or more without tags.
    fn head(&self) -> Result<u64, Error>
        ensures { MatchOption (unwritable_sids self.now.sids) (result ≡ Ok (first_number (any_tagged self.now.sids) (length self.now.sids))) (λ why. result ≡ Err why) }
    {
        let count = self.sids.as_slice().len() as u64;
        if self.is_tagged() {
            if count >= 1 << 48 {
                return Err(Error::Unwritable(Field::Sids));
            }
            return Ok((1 << 56) + count * 256 + 1);
        }
        if count >= 1 << 56 {
            return Err(Error::Unwritable(Field::Sids));
        }
        Ok(count)
    }

    /// The length of the body; `usize::MAX` if it would be more.
    fn written_len(&self) -> usize
        ensures { result ≡ min (length (sids_written self.now.sids)) 18446744073709551615 }
    {
        sids_len(self.sids.as_slice(), self.is_tagged()).saturating_add(8)
    }
}

impl MySerialize for PreviousGtidsEvent<'_> {
    ghost written = { previous_gtids.written };

    ghost refusal = { λ event. unwritable_sids event.sids };

    fn serialize(&self, _alloc: Global, buf: &mut Vec<u8>) -> Result<(), Error> {
        let head = self.head()?;
        let len = self.written_len();
        if len == usize::MAX {
            return Err(Error::Memory);
        }
        reserve(buf, len)?;
        LeU64::put(head, buf);
        put_sids(self.sids.as_slice(), self.is_tagged(), buf);
        Ok(())
    }
}

impl<'a> BinlogStruct<'a> for PreviousGtidsEvent<'a> {
    fn len(&self, _version: BinlogVersion) -> usize {
        MAX_BODY_LEN.min(self.written_len())
    }
}

impl<'a> BinlogEvent<'a> for PreviousGtidsEvent<'a> {
    const EVENT_TYPE: EventType = EventType::PREVIOUS_GTIDS_EVENT;

    ghost format = { λ _ _. previous_gtids };

    ghost raw_type = { λ _. 35 };

    ghost reading = { λ _. refl };

    ghost writing = { λ _ _ _. refl };
}
