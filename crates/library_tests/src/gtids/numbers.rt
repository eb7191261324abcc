//! Sets of transaction numbers.
use binlog_gtids::GnoSet;
use binlog_wire::Error;
use std::alloc::Global;

// A set of so many intervals of two numbers, for which it makes room: of 10 and 11, of 20 and 21, and so on.
fn set_of(alloc: Global, count: u16) -> Result<GnoSet, Error> {
    let mut set = GnoSet::new(alloc);
    set.reserve(usize::from(count))?;
    for index in 0..u64::from(count) {
        let start = 10 * index + 10;
        set.insert(start, start + 2)?;
    }
    Ok(set)
}

// Adds an interval that touches the first one of a set, and one that overlaps it and begins with 1.
fn add_touching(set: &mut GnoSet) -> Result<(), Error> {
    set.insert(12, 15)?;
    set.insert(1, 13)
}

// How many intervals a set has with these, and how many gaps.
fn count_of_touching(alloc: Global) -> Result<(usize, usize), Error> {
    let mut set = set_of(alloc, 1)?;
    let added = add_touching(&mut set);
    let count = set.intervals().len();
    let gaps = set.gaps();
    drop(set);
    let gaps = gaps?;
    let count_of_gaps = gaps.len();
    drop(gaps);
    added?;
    Ok((count, count_of_gaps))
}

// The only allocation is for the first interval.
#[test]
fn a_set_of_touching_intervals_makes_one_allocation(rt: HostRuntime) {
    assert!(rt; count_of_touching(rt.alloc()) == Ok((1, 0)));
}

// How many of a hundred intervals a set has that makes room for as many.
fn count_in_room(alloc: Global) -> Result<usize, Error> {
    let set = set_of(alloc, 100)?;
    let count = set.intervals().len();
    drop(set);
    Ok(count)
}

#[test]
fn room_for_intervals_makes_one_allocation(rt: HostRuntime) {
    assert!(rt; count_in_room(rt.alloc()) == Ok(100));
}
