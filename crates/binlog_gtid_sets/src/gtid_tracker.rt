//! The GTIDs of the events of a log.
ghost use Rattle.std.specs.Prelude.{◌≡◌, ◌^◌, ◌<◌, ◌≤◌, ◌&&◌, ◌||◌, ◌↔◌, ℕ, [], ◌∷◌, ◌++◌, length, slice_index_or, option_copied, IfOk, IfErr, OnOk, OnErr, IsOkUnless, IsTrue, MatchOption};
ghost use Rattle.std.specs.List.{insert};
ghost use Rattle.binlog_wire.specs.declared.error.Error.TheVariants.{Memory};
ghost use Rattle.binlog_gtids.specs.GnoSets.{is_within, is_held, is_missing, AreApart};
ghost use Rattle.binlog_gtid_sets.specs.declared.gtid_group.GtidGroup.{GtidGroup};
ghost use Rattle.binlog_gtid_sets.specs.GtidGroups.{Pair, pair_of, is_same, intervals_of, is_tracked, AreGroups, IsAt, IsGapFor};

mod difference;
mod listed;

use crate::gtid_group::{GtidGroup, tag_text};
use crate::rooms::Rooms;
use binlog_gtids::{GnoSet, PreviousGtidsSid};
use binlog_variable_fields::{GnoInterval, Tag};
use binlog_wire::{Error, TryClone};
use std::alloc::{AllocError, Global};
use std::cmp::Ordering;
use std::marker::Model;

/// A set of GTIDs. Each GTID is the UUID of a source, an optional tag, and a transaction number from 1 to 2^63 - 1.
///
/// The set is kept as groups of numbers, one for each source and tag that has a number. They are in the order of the
/// UUIDs' bytes; for one source, no tag comes before any tag, and tags are in the order of their bytes. Contracts see
/// these groups.
#[derive(Debug, Drop)]
pub struct GtidTracker {
    groups: Vec<GtidGroup>,
}

impl Model for GtidTracker {
    ghost use Rattle.std.specs.Prelude.{List};
    ghost use Rattle.binlog_gtid_sets.specs.declared.gtid_group.GtidGroup.{GtidGroup};
    ghost use Rattle.binlog_gtid_sets.specs.GtidGroups.{AreGroups};

    ghost Value = { List GtidGroup };

    ghost view = { λ tracker. tracker.groups.items };

    ghost invariant = { λ tracker. AreGroups tracker.groups.items };
}

impl GtidTracker {
    /// The empty set. No memory is allocated.
    pub fn new(alloc: Global) -> Self
        ensures { result ≡ [] }
    {
        GtidTracker {
            groups: Vec::new(alloc),
        }
    }

    /// The number of groups: the pairs of a source and a tag, or no tag, that have a number.
    pub fn len(&self) -> usize
        ensures count { result ≡ length self.now }
        ensures groups { AreGroups self.now }
    {
        self.groups.len()
    }

    /// Whether the set is empty.
    pub fn is_empty(&self) -> bool
        ensures { IsTrue result ↔ (self.now ≡ []) }
    {
        self.groups.is_empty()
    }

    /// The source and the tag of the group at an index, counted from 0. None if the index isn't below
    /// [`len`](Self::len).
    pub fn group(&self, i: usize) -> Option<([u8; 16], Option<&Tag<'static>>)>
        ensures { MatchOption result (length self.now ≤ i) (λ pair. (i < length self.now) × ((d : GtidGroup) → pair.0 ≡ (slice_index_or self.now i d).sid) × ((d : GtidGroup) → option_copied pair.1 ≡ (slice_index_or self.now i d).tag)) }
    {
        match self.groups.get(i) {
            Some(group) => Some((group.sid, group.tag.as_ref())),
            None => None,
        }
    }

    /// The numbers of a source and a tag, or no tag, as intervals in ascending order. Between any two there is a number
    /// that the set doesn't contain. Empty if the set has no number of this source and tag.
    pub fn intervals(&self, sid: [u8; 16], tag: Option<&Tag<'_>>) -> &[GnoInterval]
        ensures list { result.now ≡ intervals_of self.now (pair_of sid (option_copied tag.entry)) }
        ensures apart { AreApart 0 result.now }
    {
        match find(&self.groups, &sid, tag_text(tag)) {
            Ok(at) => self.groups[at].gnos.intervals(),
            Err(_) => &[],
        }
    }

    /// Whether the set contains a GTID.
    pub fn contains(&self, sid: [u8; 16], tag: Option<&Tag<'_>>, gno: u64) -> bool
        ensures { result ≡ is_tracked self.now (pair_of sid (option_copied tag.entry)) gno }
    {
        match find(&self.groups, &sid, tag_text(tag)) {
            Ok(at) => self.groups[at].gnos.contains(gno),
            Err(_) => false,
        }
    }

    /// The missing numbers of a source and a tag, from 1 to the greatest number that the set contains, as intervals in
    /// ascending order. Between any two there is a number that the set contains. The only error is [`Error::Memory`];
    /// without gaps no memory is allocated.
    pub fn gaps(&self, sid: [u8; 16], tag: Option<&Tag<'_>>) -> Result<Vec<GnoInterval>, Error>
        ensures missing { IfOk result (λ gaps. (n : ℕ) → is_held gaps.items n ≡ is_missing (intervals_of self.now (pair_of sid (option_copied tag.entry))) n) }
        ensures apart { IfOk result (λ gaps. AreApart 0 gaps.items) }
        ensures memory { IsOkUnless result Memory }
    {
        match find(&self.groups, &sid, tag_text(tag)) {
            Ok(at) => self.groups[at].gnos.gaps(),
            Err(_) => Ok(Vec::new(*self.groups.allocator())),
        }
    }

    /// A copy of the set. The only error is [`Error::Memory`].
    pub fn clone(&self) -> Result<Self, Error>
        ensures ok { IfOk result (λ copy. copy ≡ self.now) }
        ensures memory { IsOkUnless result Memory }
    {
        self.clone_with_room(0)
    }

    // For how many intervals each entry makes room, in a list from this set's allocator. The only error is
    // [`Error::Memory`].
    pub(crate) fn rooms_for(&self, entries: &[PreviousGtidsSid<'_>]) -> Result<Rooms, Error>
        ensures memory { IsOkUnless result Memory }
    {
        Rooms::new(*self.groups.allocator(), entries)
    }

    // A copy of the set with room for `count` more groups. The only error is [`Error::Memory`].
    pub(crate) fn clone_with_room(&self, count: usize) -> Result<Self, Error>
        ensures ok { IfOk result (λ copy. copy ≡ self.now) }
        ensures memory { IsOkUnless result Memory }
    {
        let alloc = *self.groups.allocator();
        let mut groups = Vec::with_capacity(alloc, self.groups.len().saturating_add(count))?;
        for group in &self.groups {
            let copy = group.clone(alloc)?;
            push(&mut groups, copy)?;
        }
        Ok(GtidTracker { groups })
    }

    /// Adds the numbers of a source and a tag from `start` to `end`, `end` excluded. The only error is
    /// [`Error::Memory`], which leaves the set unchanged.
    pub fn insert(
        &mut self,
        sid: &[u8; 16],
        tag: Option<&Tag<'_>>,
        start: u64,
        end: u64,
    ) -> Result<(), Error>
        requires positive { 1 ≤ start }
        requires some { start < end }
        requires small { end ≤ 2 ^ 63 }
        ensures ok { OnOk result ((pair : Pair) (n : ℕ) → is_tracked self.new pair n ≡ ((is_same (pair_of sid.now (option_copied tag.entry)) pair && is_within (record { start = start; end = end }) n) || is_tracked self.old pair n)) }
        ensures err { OnErr result (self.new ≡ self.old) }
        ensures memory { IsOkUnless result Memory }
    {
        self.insert_with_room(sid, tag, start, end, 1)
    }

    // The same; a new group gets room for `count` intervals.
    pub(crate) fn insert_with_room(
        &mut self,
        sid: &[u8; 16],
        tag: Option<&Tag<'_>>,
        start: u64,
        end: u64,
        count: usize,
    ) -> Result<(), Error>
        requires positive { 1 ≤ start }
        requires some { start < end }
        requires small { end ≤ 2 ^ 63 }
        ensures ok { OnOk result ((pair : Pair) (n : ℕ) → is_tracked self.new pair n ≡ ((is_same (pair_of sid.now (option_copied tag.entry)) pair && is_within (record { start = start; end = end }) n) || is_tracked self.old pair n)) }
        ensures err { OnErr result (self.new ≡ self.old) }
        ensures memory { IsOkUnless result Memory }
    {
        match find(&self.groups, sid, tag_text(tag)) {
            Ok(at) => self.groups[at].insert(start, end),
            Err(at) => {
                let alloc = *self.groups.allocator();
                let group = GtidGroup::new(alloc, sid, tag, start, end, count)?;
                add(&mut self.groups, at, group)
            }
        }
    }

    // Makes room for `count` more intervals of a source and a tag, if the set has a number of them. The only error is
    // [`Error::Memory`]. The set never changes.
    pub(crate) fn reserve(
        &mut self,
        sid: &[u8; 16],
        tag: Option<&Tag<'_>>,
        count: usize,
    ) -> Result<(), Error>
        ensures same { self.new ≡ self.old }
        ensures memory { IsOkUnless result Memory }
    {
        match find(&self.groups, sid, tag_text(tag)) {
            Ok(at) => self.groups[at].reserve(count),
            Err(_) => Ok(()),
        }
    }
}

// The index of the group with this source and tag, or the index where it would be inserted; constant time if it is the
// last group or after it.
fn find(groups: &[GtidGroup], sid: &[u8; 16], tag: &str) -> Result<usize, usize>
    requires { AreGroups groups.now }
    ensures found { IfOk result (λ at. IsAt groups.now (record { sid = sid.now; tag = tag.now }) at) }
    ensures absent { IfErr result (λ at. IsGapFor groups.now (record { sid = sid.now; tag = tag.now }) at) }
{
    if let Some(last) = groups.last() {
        match last.compare(sid, tag) {
            Ordering::Less => return Err(groups.len()),
            Ordering::Equal => return Ok(groups.len() - 1),
            Ordering::Greater => {}
        }
    }
    groups.binary_search_by(|group| group.compare(sid, tag))
}

// Appends a group.
fn push(groups: &mut Vec<GtidGroup>, group: GtidGroup) -> Result<(), Error>
    ensures ok { OnOk result (groups.new.items ≡ groups.old.items ++ group ∷ []) }
    ensures memory { IsOkUnless result Memory }
{
    match groups.push(group) {
        Ok(()) => Ok(()),
        Err(failed) => Err(AllocError::from(failed).into()),
    }
}

// Inserts a group at an index.
fn add(groups: &mut Vec<GtidGroup>, at: usize, group: GtidGroup) -> Result<(), Error>
    requires { at ≤ length groups.old.items }
    ensures ok { OnOk result (groups.new.items ≡ insert groups.old.items at group) }
    ensures err { OnErr result (groups.new.items ≡ groups.old.items) }
    ensures memory { IsOkUnless result Memory }
{
    match groups.insert(at, group) {
        Ok(()) => Ok(()),
        Err(failed) => Err(AllocError::from(failed).into()),
    }
}
