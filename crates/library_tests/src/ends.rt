//! Tests of `binlog_ends`: readers and writers that fail, are interrupted, and take a part of what they are given.

mod reading;
mod retrying;
mod writing;
