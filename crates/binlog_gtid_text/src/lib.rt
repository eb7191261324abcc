//! The text of a set of GTIDs, as MySQL writes it: `3e11fa47-71ca-11e1-9e33-c80aa9429562:1-5:11:tag:1-3`.
//!
//! Which GTIDs a text names is defined in `specs/Pieces`, over its parts in `specs/Reading`; `specs/Spellings` has its grammar.
//! What is written is defined in `specs/Printing`.
#![tactic(auto)]

mod error;
pub mod laws;
mod parsing;
mod piece;
mod printing;
mod reading;

pub use error::{GtidTextError, GtidTextFault};
pub use parsing::parse;
pub use printing::to_text;
