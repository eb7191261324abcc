//! How often a body that is written asks for room.
use crate::helpers::{ONE_COLUMN, read};
use binlog_gtids::GtidEvent;
use binlog_variable_fields::Tag;
use binlog_wire::{Error, MySerialize};
use std::alloc::Global;

// The number of bytes that are written for data that was read.
fn written_len<T: MySerialize + Drop>(
    alloc: Global,
    data: Result<Option<T>, Error>,
) -> Result<usize, Error> {
    let Some(data) = data? else {
        return Ok(0);
    };
    let mut bytes = Vec::new(alloc);
    data.serialize(alloc, &mut bytes)?;
    Ok(bytes.len())
}

// The same of a table map, of a GTID, and of one with a tag.
fn table_map_len(alloc: Global) -> Result<usize, Error> {
    written_len(alloc, read(alloc, 19, ONE_COLUMN))
}

fn gtid_len(alloc: Global) -> Result<usize, Error> {
    written_len(alloc, Ok(Some(GtidEvent::new([0; 16], 1))))
}

fn tagged_len(alloc: Global) -> Result<usize, Error> {
    let tag = Tag::from_bytes(b"test")?;
    written_len(alloc, Ok(Some(GtidEvent::new_tagged([0xab; 16], tag, 1))))
}

// Each buffer grows once.
#[test]
fn writing_a_table_map_and_two_gtids_makes_three_allocations(rt: HostRuntime) {
    assert!(rt; table_map_len(rt.alloc()) == Ok(18));
    assert!(rt; gtid_len(rt.alloc()) == Ok(54));
    assert!(rt; tagged_len(rt.alloc()) == Ok(58));
}
