//! What lines of JSON have in common, kept from call to call in an object that the caller holds, as a C program can: it has the pointer
//! of a box and whether there is one, and owns the box ([`BinlogCache`]).
#![tactic(auto)]

mod box_parts;
mod line_cache;

pub use line_cache::{BinlogCache, Opaque};
