//! The typed bodies of the smaller event types of a MySQL binary log.
//!
//! Names follow the Rust crate `mysql_common`, module `binlog::events`.
#![tactic(auto)]

mod events;
pub mod laws;

pub use binlog_event_format::{
    BinlogCtx, BinlogEvent, BinlogStruct, BinlogVersion, Error, Field, Invalid, read_body,
};
pub use events::begin_load_query::BeginLoadQueryEvent;
pub use events::incident::IncidentEvent;
pub use events::intvar::IntvarEvent;
pub use events::rand::RandEvent;
pub use events::rotate::RotateEvent;
pub use events::rows_query::RowsQueryEvent;
pub use events::xid::XidEvent;
