//! The transactions of a log: which events are those of one transaction, how each ends, and what in it can't be undone.
//!
//! [`Mark`] is what an event is to the transactions of its log: [`Role`] says it by the event's type, [`Mark::of_data`] by its data, and
//! [`statement_kind`] by the text of a statement. [`Transactions`] says of each event, by its mark, whether a transaction begins with it, goes on or ends.
//! `specs/Tables` has what each mark does, `specs/Pieces` which lists of marks are which transactions, and [`laws`] says that these are
//! the transactions that [`Transactions`] finds. Nothing here takes memory.
#![tactic(auto)]

mod data_marks;
pub mod laws;
mod mark;
mod refusal;
mod role;
mod statements;
mod transaction;
mod transactions;
mod turn;

pub use mark::{GtidMark, Mark, RowsMark, Unsupported};
pub use refusal::Refusal;
pub use role::Role;
pub use statements::{StatementKind, statement_kind};
pub use transactions::Transactions;
pub use turn::{Place, Turn};
