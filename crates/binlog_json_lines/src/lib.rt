//! The items of a binary log as lines of JSON, an object for each, with the rows of row events.
//!
//! In a log that MariaDB wrote, events of the types 160 to 171 have an object of their own, and compressed statements and
//! rows that of the uncompressed event. `specs/RowMembers` defines the members `table`, `metadata` and `rows` of a row event. What
//! table maps don't state of columns may come from files of columns, the options of lines; [`JsonWriter`] notes the tables that
//! contradict these.
#![tactic(auto)]

mod event_members;
mod header_members;
mod kept_heads;
mod kept_tables;
pub mod laws;
mod lines;
mod options;
pub mod part_laws;
mod part_members;
mod part_writer;
mod payload_refusals;
mod refusals;
mod row_members;
mod rows_read;
mod writer;

pub use binlog_filters::{is_row_event, table_id};
pub use lines::{EventLine, JsonLines};
pub use options::LineOptions;
pub use part_members::PartPlace;
pub use row_members::write_metadata;
pub use writer::JsonWriter;
