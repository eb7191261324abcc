//! Room for the intervals of a PREVIOUS_GTIDS event.
ghost use Rattle.std.specs.Prelude.{◌≡◌, IsOkUnless};
ghost use Rattle.binlog_wire.specs.declared.error.Error.TheVariants.{Memory};
ghost use Rattle.binlog_gtid_sets.specs.GtidGroups.{pair_of, compare_pairs};

use crate::gtid_group::{compare_pairs, tag_text};
use binlog_gtids::PreviousGtidsSid;
use binlog_wire::Error;
use std::alloc::{AllocError, Global};
use std::cmp::Ordering;

/// For how many intervals each entry makes room. If several entries have one source and tag, the first of them that has
/// numbers makes room for the intervals of all, and the others make none. So the group makes room once.
#[derive(Drop)]
pub(crate) struct Rooms {
    // The number of each entry; empty if each makes room for its own intervals.
    shared: Vec<usize>,
}

impl Rooms {
    /// Those of the entries. If the entries ascend by source and tag, as a server writes them, nothing is allocated. The only
    /// error is [`Error::Memory`].
    pub(crate) fn new(alloc: Global, entries: &[PreviousGtidsSid<'_>]) -> Result<Self, Error>
        ensures memory { IsOkUnless result Memory }
    {
        if are_ascending(entries) {
            return Ok(Rooms {
                shared: Vec::new(alloc),
            });
        }
        let places = sorted_places(alloc, entries)?;
        let shared = shared_rooms(alloc, entries, &places)?;
        Ok(Rooms { shared })
    }

    /// The number of intervals for which the entry at this place makes room.
    pub(crate) fn of_entry(&self, place: usize, entry: &PreviousGtidsSid<'_>) -> usize {
        match self.shared.get(place) {
            Some(count) => *count,
            None => entry.intervals().len(),
        }
    }
}

// Whether each entry is before the next one, by source and tag.
fn are_ascending(entries: &[PreviousGtidsSid<'_>]) -> bool {
    entries.is_sorted_by(|a, b| compare(a, b) == Ordering::Less)
}

// The places of the entries in the order of their sources and tags. The places of one source and tag ascend.
fn sorted_places(alloc: Global, entries: &[PreviousGtidsSid<'_>]) -> Result<Vec<usize>, Error>
    ensures memory { IsOkUnless result Memory }
{
    let mut places = Vec::with_capacity(alloc, entries.len())?;
    for place in 0..entries.len() {
        places.push(place).map_err(AllocError::from)?;
    }
    places.sort_unstable_by(|a, b| compare_at(entries, *a, *b).then(a.cmp(b)));
    Ok(places)
}

// For each entry the number of intervals for which it makes room; `places` are those of the entries in their order.
fn shared_rooms(
    alloc: Global,
    entries: &[PreviousGtidsSid<'_>],
    places: &[usize],
) -> Result<Vec<usize>, Error>
    ensures memory { IsOkUnless result Memory }
{
    let mut rooms = Vec::with_capacity(alloc, entries.len())?;
    rooms.resize(entries.len(), 0)?;
    let mut first = None;
    for place in places {
        let count = count_at(entries, *place);
        if count > 0 {
            let makes = maker(entries, first, *place);
            add_at(&mut rooms, makes, count);
            first = Some(makes);
        }
    }
    Ok(rooms)
}

// The place of the entry that makes room for the one at this place: `first` if both have one source and tag.
fn maker(entries: &[PreviousGtidsSid<'_>], first: Option<usize>, place: usize) -> usize {
    match first {
        Some(first) if compare_at(entries, first, place) == Ordering::Equal => first,
        _ => place,
    }
}

// Adds to the room at a place.
fn add_at(rooms: &mut [usize], place: usize, count: usize) {
    if let Some(room) = rooms.get_mut(place) {
        *room = room.saturating_add(count);
    }
}

// The number of intervals that have numbers, of the entry at a place.
fn count_at(entries: &[PreviousGtidsSid<'_>], place: usize) -> usize {
    match entries.get(place) {
        Some(entry) => entry
            .intervals()
            .iter()
            .filter(|interval| interval.start() < interval.end())
            .count(),
        None => 0,
    }
}

// Compares the entries at two places.
fn compare_at(entries: &[PreviousGtidsSid<'_>], a: usize, b: usize) -> Ordering {
    match (entries.get(a), entries.get(b)) {
        (Some(a), Some(b)) => compare(a, b),
        _ => Ordering::Equal,
    }
}

// Compares the sources of entries, then their tags.
fn compare(a: &PreviousGtidsSid<'_>, b: &PreviousGtidsSid<'_>) -> Ordering
    ensures { result ≡ compare_pairs (pair_of a.now.uuid a.now.tag) (pair_of b.now.uuid b.now.tag) }
{
    compare_pairs(&a.uuid(), tag_text(a.tag()), &b.uuid(), tag_text(b.tag()))
}
