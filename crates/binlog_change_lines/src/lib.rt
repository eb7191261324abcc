//! The changes of rows in a binary log as lines of JSON, a line for each row, with the position of its event and the GTID of its
//! transaction.
//!
//! `specs/RowLines` defines the line of a row, and `specs/EventTexts` what is written for an event: the lines of its rows if all of
//! them can be read, and else its line of `binlog_json_lines`, as for any other event whose rows aren't read. The law of
//! [`laws::rows_are_those_of_lines`] says that these are the rows of that line.
#![tactic(auto)]

mod change_filter;
mod change_lines;
mod change_writer;
mod heads;
pub mod laws;
mod part_writer;
mod row_lines;
mod rows_read;

pub use change_filter::ChangeFilter;
pub use change_lines::ChangeLines;
pub use change_writer::ChangeWriter;
pub use heads::EventPlace;
