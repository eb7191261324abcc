//! MySQL's binary JSON as text: documents of JSON columns, written into lines of JSON.
#![tactic(auto)]

mod decimals;
mod diffs;
mod documents;
mod doubles;
pub mod laws;
mod opaques;
mod texts;
mod times;

pub use diffs::{diffs_have_text, write_diffs};
pub use documents::{write_document, write_document_if_text, write_value_if_text};
pub use texts::{has_text, value_has_text};
