//! Row-based events: TABLE_MAP events, which describe a table's columns, and the events that write, update and delete
//! its rows.
//!
//! Their formats are defined in `specs/`: `Columns` (what they share), `TableMaps` and `Rows`.
#![tactic(auto)]

mod column_bitmap;
pub mod laws;
mod mapped_columns;
mod mapped_table;
mod rows_columns;
mod rows_event;
mod rows_event_data;
mod rows_event_of;
mod rows_form;
mod rows_head;
mod rows_kind;
mod table_id;
mod table_map_event;

pub use binlog_consts::RowsEventFlags;
pub use rows_event::RowsEvent;
pub use rows_event_data::RowsEventData;
pub use rows_event_of::{
    DeleteRowsEvent, DeleteRowsEventV1, PartialUpdateRowsEvent, RowsEventOf, UpdateRowsEvent,
    UpdateRowsEventV1, WriteRowsEvent, WriteRowsEventV1,
};
pub use rows_form::RowsForm;
pub use rows_kind::{
    DeleteRows, DeleteRowsV1, HasAfterImage, HasBeforeImage, PartialUpdateRows, RowsKind,
    UpdateRows, UpdateRowsV1, WriteRows, WriteRowsV1,
};
pub use table_map_event::TableMapEvent;
