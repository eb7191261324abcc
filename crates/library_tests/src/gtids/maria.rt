//! The last GTIDs of MariaDB: how often they make room.
use binlog_maria_gtids::MariaGtidTracker;
use binlog_mariadb::{GtidListEvent, MariaEventData, MariaGtid};
use binlog_wire::Error;
use std::alloc::Global;

/// A domain, a server id and a sequence number.
type Gtid = (u32, u32, u64);

/// What a list adds.
const MORE: &[Gtid] = &[
    (3, 1, 1),
    (2, 1, 4),
    (1, 9, 2),
    (4, 1, 1),
    (5, 1, 1),
    (6, 1, 1),
];

fn entries_of(alloc: Global, gtids: &[Gtid]) -> Result<Vec<MariaGtid>, Error> {
    let mut entries = Vec::with_capacity(alloc, gtids.len())?;
    for &(domain, server_id, sequence) in gtids {
        if entries
            .push(MariaGtid::new(domain, server_id, sequence))
            .is_err()
        {
            return Err(Error::Memory);
        }
    }
    Ok(entries)
}

// Adds the GTIDs of a list.
fn add_list(alloc: Global, tracker: &mut MariaGtidTracker, gtids: &[Gtid]) -> Result<(), Error> {
    let list = GtidListEvent::new(entries_of(alloc, gtids)?);
    let data = MariaEventData::GtidListEvent(list);
    let added = tracker.add_event(99, &data);
    drop(data);
    added
}

// A list of six entries for a new tracker: its own entries, and room for them.
fn adds_list(alloc: Global) -> Result<(), Error> {
    let mut tracker = MariaGtidTracker::new(alloc);
    add_list(alloc, &mut tracker, MORE)
}

#[test]
fn a_list_and_room_for_it_make_two_allocations(rt: HostRuntime) {
    assert!(rt; adds_list(rt.alloc()) == Ok(()));
}
