//! MySQL's compressed transactions: the data of TRANSACTION_PAYLOAD events, their contents, and the events in them.
//!
//! With `binlog_transaction_compression=ON` a server writes a transaction as one event, whose payload is the bytes of the
//! transaction's events, compressed.
//!
//! [`TransactionPayloadEvent::of_event`] reads such an event, and [`TransactionPayloadEvent::read`] its data, as `EventData` keeps
//! them; [`TransactionPayloadEvent::decompressed`] gives the content. A [`TransactionPayloadReader`] goes over the events in it, which it
//! borrows; [`read_decompressed`] reads them one by one for the reader of a stream, so that their table maps are in force:
//!
//! ```text
//! let Some(payload) = TransactionPayloadEvent::of_event(&event.as_ref())? else { .. };
//! let content = payload.decompressed(alloc, limit)?;
//! let fde = content_description(alloc, event.fde().as_ref())?;
//! let mut left = content.as_slice();
//! while let Some(inner) = read_decompressed(alloc, &mut reader, &fde, &mut left)? {
//!     // `reader.get_tme(id)` has the table map of a row event.
//! }
//! ```
#![tactic(auto)]

mod compression;
mod content;
mod decompressed;
mod error;
mod event;
mod fields;
mod inner;
pub mod laws;
mod writing;

pub use compression::TransactionPayloadCompressionType;
pub use decompressed::{content_description, read_decompressed};
pub use error::PayloadError;
pub use event::TransactionPayloadEvent;
pub use inner::TransactionPayloadReader;
