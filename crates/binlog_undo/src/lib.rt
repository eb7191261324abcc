//! The changes of a row event, the rows of the event that undoes it, and the events that are written for a transaction that is undone.
//!
//! Which changes rows are is defined in `specs/RowChanges`, over the format of rows of `binlog_images` and the changes of
//! `table_changes`; the bytes that undo rows are in `specs/RowBytes`. [`laws`] says that both are the inverse changes.
//! [`undo_rows`] makes these bytes, or says why the event can't be undone; [`check_event`] says that alone.
//!
//! [`Heading`] is what the headers of written events take from the events of the log, and [`EventsWriter`] makes their bytes, one event after
//! the other. `specs/Events` has the bytes of an event, and `specs/Transactions` the events of a transaction.
#![tactic(auto)]

mod backward;
mod bytes;
mod completion;
mod coverage;
mod events_writer;
mod full_image;
mod full_rows;
mod heading;
mod image_pair;
mod inverse_event;
pub mod laws;
mod null_bits;
mod null_word;
mod undo_error;
mod undoing;
mod undone_change;
mod undone_rows;
mod undone_transaction;
mod write_error;

pub use events_writer::EventsWriter;
pub use heading::Heading;
pub use inverse_event::{ForeignKeyChecks, InverseEvent, check_event, undo_event};
pub use undo_error::UndoError;
pub use undone_change::UndoneChange;
pub use undone_rows::{UndoneRows, undo_rows};
pub use write_error::WriteError;
