//! Filters by table for compressed transactions. [`PayloadFiltered`] takes an event with a payload if an event inside is of the tables
//! that are asked for, and [`TakenParts`] shows a visitor only these of the events inside.
#![tactic(auto)]

mod concerned;
mod filtered;
pub mod laws;
mod part_concern;
mod taken_parts;

pub use filtered::PayloadFiltered;
pub use taken_parts::TakenParts;
