//! Tests of what no line of `tests/cases` and no test of the cargo packages (`cargo/templates/binlog-tests/tests`) can show:
//!
//! - of bodies and of sets of GTIDs: laws and generic calls at concrete types, and how much memory they take;
//! - of devices and of what reads, lists and writes logs: readers and writers that fail at each of their calls, memory that is
//!   refused, what outlives what it was read of, and generic calls that no program makes.
//!
//! A test whose name ends in `takes_no_memory` or in `makes_two_allocations` makes as many, and any other one whose name speaks of
//! memory passes whichever allocation fails (`tests/refused_memory.py`). `tests/allocations.py` runs them, too.
//!
//! The functions are short, since the time of a proof grows with the square of a function's length. They are one crate, since each
//! crate of tests proves again how the types are dropped that it owns.
#![tactic(auto)]

#[cfg(test)]
mod boundless;
#[cfg(test)]
mod bytes;
#[cfg(test)]
mod calls;
#[cfg(test)]
mod concrete_laws;
#[cfg(test)]
mod devices;
#[cfg(test)]
mod ends;
#[cfg(test)]
mod event_data;
#[cfg(test)]
mod events;
#[cfg(test)]
mod failing_reads;
#[cfg(test)]
mod failing_writes;
#[cfg(test)]
mod gtids;
#[cfg(test)]
mod helpers;
#[cfg(test)]
mod refused_memory;
#[cfg(test)]
mod slices;
#[cfg(test)]
mod statements;
#[cfg(test)]
mod written_bodies;
