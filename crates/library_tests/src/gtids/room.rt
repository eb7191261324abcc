//! How often room is made: each test makes as many allocations as its name says.
use binlog_event_data::EventData;
use binlog_gtid_sets::GtidTracker;
use binlog_gtids::{GtidEvent, PreviousGtidsEvent, PreviousGtidsSid};
use binlog_variable_fields::GnoInterval;
use binlog_wire::Error;
use std::alloc::{AllocError, Global};

/// A source.
const A: [u8; 16] = [0xab; 16];

/// A source before it.
const B: [u8; 16] = [0x12; 16];

/// A source, and the first of a hundred numbers, of which no two are neighbours; or no number.
type Entry = ([u8; 16], Option<u64>);

// The intervals of an entry. One allocation, if there is any.
fn intervals_of(alloc: Global, first: Option<u64>) -> Result<Vec<GnoInterval>, AllocError> {
    let Some(first) = first else {
        return Ok(Vec::new(alloc));
    };
    let mut intervals = Vec::with_capacity(alloc, 100)?;
    for index in 0..100_u64 {
        let start = first.saturating_add(2 * index);
        intervals.push(GnoInterval::new(start, start.saturating_add(1)))?;
    }
    Ok(intervals)
}

// The entries of a PREVIOUS_GTIDS event. An allocation for the list, and one for each entry's intervals.
fn sids_of(alloc: Global, entries: &[Entry]) -> Result<Vec<PreviousGtidsSid<'static>>, AllocError> {
    let mut sids = Vec::with_capacity(alloc, 4)?;
    for entry in entries {
        let sid = PreviousGtidsSid::new(entry.0, None, intervals_of(alloc, entry.1)?);
        sids.push(sid)?;
    }
    Ok(sids)
}

// Adds the GTIDs of an event.
fn add(set: &mut GtidTracker, data: EventData<'static>) -> Result<(), Error> {
    let added = set.add_event(&data);
    drop(data);
    added
}

// Adds a PREVIOUS_GTIDS event.
fn add_entries(alloc: Global, set: &mut GtidTracker, entries: &[Entry]) -> Result<(), Error> {
    let sids = sids_of(alloc, entries)?;
    add(
        set,
        EventData::PreviousGtidsEvent(PreviousGtidsEvent::new(sids)),
    )
}

// Adds the GTID of the first source with this number.
fn add_gtid(set: &mut GtidTracker, gno: u64) -> Result<(), Error> {
    add(set, EventData::GtidEvent(GtidEvent::new(A, gno)))
}

// Adds as many, with the numbers from 1,000 on.
fn add_gtids(set: &mut GtidTracker, count: u64) -> Result<(), Error> {
    for index in 0..count {
        add_gtid(set, index.saturating_add(1_000))?;
    }
    Ok(())
}

// How many intervals of each source a set has to which these were added.
fn counts(alloc: Global, gtids: u64, entries: &[Entry]) -> Result<(usize, usize), Error> {
    let mut set = GtidTracker::new(alloc);
    add_gtids(&mut set, gtids)?;
    if !entries.is_empty() {
        add_entries(alloc, &mut set, entries)?;
    }
    Ok((set.intervals(A, None).len(), set.intervals(B, None).len()))
}

// In the order of a server: the groups and the intervals.
#[test]
fn gtids_in_order_make_two_allocations(rt: HostRuntime) {
    assert!(rt; counts(rt.alloc(), 1_000, &[]) == Ok((1, 0)));
}

// Two for the event, the groups and the intervals.
#[test]
fn previous_gtids_of_a_new_source_make_four_allocations(rt: HostRuntime) {
    assert!(rt; counts(rt.alloc(), 0, &[(A, Some(1))]) == Ok((100, 0)));
}

// Two for the set before and two for the event; the groups and the intervals are copied, and there is room for more intervals.
#[test]
fn previous_gtids_of_a_known_source_make_seven_allocations(rt: HostRuntime) {
    assert!(rt; counts(rt.alloc(), 1, &[(A, Some(1))]) == Ok((101, 0)));
}

/// Two entries of one source, with one of another source between them, behind an entry without numbers.
const TWICE: &[Entry] = &[(A, None), (A, Some(1)), (B, Some(1)), (A, Some(1_001))];

// Four for the event, the groups, the intervals of each source once, and which entries belong together: two lists.
#[test]
fn previous_gtids_with_a_source_twice_make_nine_allocations(rt: HostRuntime) {
    assert!(rt; counts(rt.alloc(), 0, TWICE) == Ok((200, 100)));
}
