//! The constants of MySQL's binary log: event types, flags, versions, status variable keys and small tables of codes.
//!
//! Each table is an enum with its codes, or a set of flags. The tables are in `specs/`; the law
//! [`laws::numbers_are_codes`] states that each value has one code and each code one value.
//!
//! Names follow the Rust crate `mysql_common`, module `binlog::consts`.
#![tactic(auto)]

mod codes;
mod event_flags;
mod event_type;
pub mod laws;
mod rows_event_flags;
mod statement_codes;
mod status_var_key;
mod version;

pub use codes::{
    BinlogChecksumAlg, IncidentType, IntvarEventType, UnknownChecksumAlg, UnknownIncidentType,
};
pub use event_flags::EventFlags;
pub use event_type::{EventType, UnknownEventType};
pub use rows_event_flags::RowsEventFlags;
pub use statement_codes::{ItemResult, LoadDuplicateHandling, UnknownItemResultType, UserVarFlags};
pub use status_var_key::{StatusVarKey, UnknownStatusVarKey};
pub use version::BinlogVersion;
