//! How to read, verify and write a log with `binlog_file`, one module for each task.
#![tactic(auto)]

pub mod copying;
pub mod damaged_logs;
pub mod filtering;
pub mod gtids;
pub mod new_events;
pub mod replication;
pub mod row_events;
pub mod verifying;
