//! The command `binlog stats`: what it counts together, and how the counts are written, once or again and again.
#![tactic(auto)]

mod interval_statistics;
pub mod laws;
mod repeated_stats;
mod statistics;
mod table_statistics;
mod transaction_counter;
mod transaction_statistics;
mod type_statistics;

pub use statistics::stats;
