//! MariaDB's own events, types 160 to 171, which MySQL's logs don't have.
//!
//! [`read_maria_body`] reads a body as one type; [`read_maria_data`] reads the body that the event's raw type states.
//! [`is_maria_version`] and [`is_maria_log`] state whether MariaDB wrote a log, by the server version of its
//! description. The other crates of this library don't read these types: their `read_data` returns `Ok(None)`.
//!
//! A compressed statement (165) has what is stored in place of a text as its query, and the compressed row events 166 to
//! 171 as their `compressed_data`. [`uncompress`] gives the text.
//!
//! The formats are defined in `specs/`, in a module for each body.
#![tactic(auto)]

mod annotate_rows;
mod binlog_checkpoint;
mod compressed_rows;
mod compression;
mod compression_error;
mod event_data;
mod event_type;
mod flavour;
mod gtid_event;
mod gtid_extra;
mod gtid_flags;
mod gtid_list;
pub mod laws;
mod maria_gtid;
mod start_encryption;
mod traits;
mod xa_id;

pub use annotate_rows::AnnotateRowsEvent;
pub use binlog_checkpoint::BinlogCheckpointEvent;
pub use compressed_rows::RowsCompressedEvent;
pub use compression::uncompress;
pub use compression_error::CompressionError;
pub use event_data::{MariaEventData, read_maria_data};
pub use event_type::{MariaEventType, UnknownMariaEventType};
pub use flavour::{is_maria_log, is_maria_version};
pub use gtid_event::{GtidHead, MariaGtidEvent};
pub use gtid_extra::GtidExtra;
pub use gtid_flags::MariaGtidFlags;
pub use gtid_list::GtidListEvent;
pub use maria_gtid::MariaGtid;
pub use start_encryption::StartEncryptionEvent;
pub use traits::{MariaEvent, read_maria_body};
pub use xa_id::XaId;
