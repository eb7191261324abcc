//! Status variables of statements.
use crate::helpers::is_copied;
use binlog_statements::StatusVarsIterator;
use binlog_wire::Error;
use std::alloc::Global;

/// The status variables of the first statement in a log of MySQL 5.0.86.
const STATUS: &[u8] = b"\0\0\x40\0\0\x01\0\0\0\0\0\0\0\0\x06\x03std\x04\x08\0\x08\0\x08\0";

/// A catalog with a zero byte after it, a time zone, a catalog and an invoker.
const TEXTS: &[u8] = b"\x02\x03std\0\x05\x03UTC\x06\x03std\x0b\x01a\x01b";

/// The variables of fixed size that aren't in the first: the keys 3, 7 to 10 and 13 to 20.
const NUMBERS: &[u8] =
    b"\x03\x01\0\x01\0\x07\x08\0\x08\x08\0\x09\x01\0\0\0\0\0\0\0\x0a\x01\0\0\0\x0d\x01\0\0\x0e\x0f\x10\x01\
    \x11\x01\0\0\0\0\0\0\0\x12\xff\0\x13\x01\x14\x01";

/// Two database names, and a count of too many, which has none.
const NAMES: &[u8] = b"\x0c\x02a\0bc\0";

const TOO_MANY: &[u8] = b"\x0c\xfe";

// How many of these status variables have a value that is equal to its copy.
fn count_of_copied(alloc: Global, text: &[u8]) -> Result<usize, Error> {
    let mut count: usize = 0;
    for var in StatusVarsIterator::new(text) {
        let Ok(value) = var.get_value(alloc) else {
            return Err(Error::Memory);
        };
        let is_copied = is_copied(alloc, Ok(Some(value)))?;
        count = count.saturating_add(usize::from(is_copied == Some(true)));
    }
    Ok(count)
}

/// Status variables, and how many there are.
const BORROWED: [(&[u8], usize); 4] = [(STATUS, 4), (TEXTS, 4), (NUMBERS, 13), (TOO_MANY, 1)];

// The texts stay borrowed, and a list without names stays empty.
#[test]
fn reading_and_copying_borrowed_status_variables_takes_no_memory(rt: HostRuntime) {
    for (text, count) in BORROWED {
        assert!(rt; count_of_copied(rt.alloc(), text) == Ok(count));
    }
}

// One for each list of the two names, which stay borrowed.
#[test]
fn reading_and_copying_names_of_databases_makes_two_allocations(rt: HostRuntime) {
    assert!(rt; count_of_copied(rt.alloc(), NAMES) == Ok(1));
}
