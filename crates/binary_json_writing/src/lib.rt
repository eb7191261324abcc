//! MySQL's binary JSON, written: documents of values, as MySQL's serializer makes them.
#![tactic(auto)]

mod applying;
mod builders;
mod changing;
mod copying;
mod entries;
mod entry;
mod error;
pub mod laws;
mod list;
mod owned;
mod paths;
mod rewriting;
mod words;

pub use applying::{JsonApplyError, apply};
pub use builders::{ArrayBuilder, ObjectBuilder};
pub use error::{JsonChangeError, JsonWriteError};
pub use owned::OwnedDocument;
pub use paths::{JsonPath, JsonPathError, JsonPathLeg};
pub use rewriting::rewritten;
