//! Lists the items of a binary log, one line for each.
#![tactic(auto)]

mod line;
mod listing;
mod word;

pub use listing::{TextLines, list, list_counted, list_slice, list_verified};
