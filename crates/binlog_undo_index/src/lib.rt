//! Which transactions of a log are undone: the places of their row events, kept while the log is read once from its front.
//!
//! [`UndoIndex::note`] is told what is seen of each event, in order. It keeps 16 bytes for each row event that is undone and 16 for
//! its transaction, and names each transaction that can't be undone. `specs/Groups` has the groups of events that the transactions of
//! a log are, and what is kept of each; [`laws`] says that this is what [`UndoIndex`] has.
#![tactic(auto)]

mod begun;
mod index;
pub mod laws;
mod places;
mod reason;
mod rules;
mod seen;
mod skips;

pub use index::UndoIndex;
pub use places::{ChangePlace, TransactionPlace};
pub use reason::{Reason, Refused};
pub use rules::{Positions, Rules};
pub use seen::SeenEvent;
pub use skips::Skips;
