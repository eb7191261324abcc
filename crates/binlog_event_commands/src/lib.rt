//! The commands of the program `binlog` that list events and rows, verify and copy them, and print their GTIDs.
#![tactic(auto)]

pub mod changes;
mod columns;
pub mod commands;
pub mod copying;
pub mod gtids;
pub mod verifying;
