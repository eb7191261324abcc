//! The transaction numbers of one source and tag.
ghost use Rattle.std.specs.Prelude.{◌≡◌, ◌^◌, ◌<◌, ◌≤◌, ◌||◌, ℕ, option_copied, IfOk, OnOk, OnErr, IsOkUnless};
ghost use Rattle.binlog_wire.specs.declared.error.Error.TheVariants.{Memory};
ghost use Rattle.binlog_gtids.specs.GnoSets.{is_within, is_held};
ghost use Rattle.binlog_gtid_sets.specs.GtidGroups.{tag_text, pair_in, compare_pairs};

use binlog_gtids::GnoSet;
use binlog_variable_fields::Tag;
use binlog_wire::{Error, IntoOwned, TryClone};
use std::alloc::Global;
use std::cmp::Ordering;

/// The transaction numbers of one source and tag.
#[derive(Debug, Drop)]
pub struct GtidGroup {
    pub(crate) sid: [u8; 16],
    pub(crate) tag: Option<Tag<'static>>,
    pub(crate) gnos: GnoSet,
}

impl GtidGroup {
    /// A group with the numbers from `start` to `end`, `end` excluded, and room for `count` intervals. The only error is
    /// [`Error::Memory`].
    pub(crate) fn new(
        alloc: Global,
        sid: &[u8; 16],
        tag: Option<&Tag<'_>>,
        start: u64,
        end: u64,
        count: usize,
    ) -> Result<Self, Error>
        requires positive { 1 ≤ start }
        requires some { start < end }
        requires small { end ≤ 2 ^ 63 }
        ensures sid { IfOk result (λ group. group.sid ≡ sid.now) }
        ensures tag { IfOk result (λ group. group.tag ≡ option_copied tag.entry) }
        ensures gnos { IfOk result (λ group. (n : ℕ) → is_held group.gnos n ≡ is_within (record { start = start; end = end }) n) }
        ensures memory { IsOkUnless result Memory }
    {
        let tag = owned_tag(alloc, tag)?;
        let mut gnos = GnoSet::new(alloc);
        gnos.reserve(count)?;
        gnos.insert(start, end)?;
        Ok(GtidGroup {
            sid: *sid,
            tag,
            gnos,
        })
    }

    /// Adds the numbers from `start` to `end`, `end` excluded. The only error is [`Error::Memory`], which leaves the
    /// group unchanged.
    pub(crate) fn insert(&mut self, start: u64, end: u64) -> Result<(), Error>
        requires positive { 1 ≤ start }
        requires some { start < end }
        requires small { end ≤ 2 ^ 63 }
        ensures sid { self.new.sid ≡ self.old.sid }
        ensures tag { self.new.tag ≡ self.old.tag }
        ensures ok { OnOk result ((n : ℕ) → is_held self.new.gnos n ≡ (is_within (record { start = start; end = end }) n || is_held self.old.gnos n)) }
        ensures err { OnErr result (self.new ≡ self.old) }
        ensures memory { IsOkUnless result Memory }
    {
        self.gnos.insert(start, end)
    }

    /// Makes room for `count` more intervals. The only error is [`Error::Memory`]. The group never changes.
    pub(crate) fn reserve(&mut self, count: usize) -> Result<(), Error>
        ensures same { self.new ≡ self.old }
        ensures memory { IsOkUnless result Memory }
    {
        self.gnos.reserve(count)
    }

    /// Compares the group's source and tag with others.
    pub(crate) fn compare(&self, sid: &[u8; 16], tag: &str) -> Ordering
        ensures { result ≡ compare_pairs (pair_in self.now) (record { sid = sid.now; tag = tag.now }) }
    {
        compare_pairs(&self.sid, tag_text(self.tag.as_ref()), sid, tag)
    }

    /// A group of the same source and tag with other numbers. The only error is [`Error::Memory`].
    pub(crate) fn with_gnos(&self, alloc: Global, gnos: GnoSet) -> Result<Self, Error>
        ensures ok { IfOk result (λ group. group ≡ record { sid = self.now.sid; tag = self.now.tag; gnos = gnos }) }
        ensures memory { IsOkUnless result Memory }
    {
        let tag = owned_tag(alloc, self.tag.as_ref())?;
        Ok(GtidGroup {
            sid: self.sid,
            tag,
            gnos,
        })
    }
}

impl TryClone for GtidGroup {
    fn clone(&self, alloc: Global) -> Result<Self, Error> {
        let gnos = self.gnos.clone()?;
        self.with_gnos(alloc, gnos)
    }
}

/// Compares a source and the text of its tag with others: the sources first, and then the tags.
pub(crate) fn compare_pairs(
    sid: &[u8; 16],
    tag: &str,
    other_sid: &[u8; 16],
    other_tag: &str,
) -> Ordering
    ensures { result ≡ compare_pairs (record { sid = sid.now; tag = tag.now }) (record { sid = other_sid.now; tag = other_tag.now }) }
{
    match sid.cmp(other_sid) {
        Ordering::Equal => tag.cmp(other_tag),
        other => other,
    }
}

/// The text of a tag; empty for no tag.
pub(crate) fn tag_text<'a>(tag: Option<&'a Tag<'_>>) -> &'a str
    ensures { result.now ≡ tag_text (option_copied tag.entry) }
{
    match tag {
        Some(tag) => tag.as_str(),
        None => "",
    }
}

// A copy of a tag with owned text.
fn owned_tag(alloc: Global, tag: Option<&Tag<'_>>) -> Result<Option<Tag<'static>>, Error>
    ensures ok { IfOk result (λ copy. copy ≡ option_copied tag.entry) }
    ensures memory { IsOkUnless result Memory }
{
    match tag {
        Some(tag) => Ok(Some(tag.clone(alloc)?.into_owned(alloc)?)),
        None => Ok(None),
    }
}
