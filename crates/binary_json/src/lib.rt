//! MySQL's binary JSON: the documents of JSON columns.
#![tactic(auto)]

mod check;
mod container;
mod containers;
pub mod decimal;
mod diffs;
mod document;
mod error;
mod iterators;
pub mod laws;
mod opaque;
mod scalar;
mod temporal;
mod value;

pub use containers::{Array, Object};
pub use decimal::Decimal;
pub use diffs::{JsonDiff, JsonDiffError, JsonDiffOperation, JsonDiffs};
pub use document::Document;
pub use error::{JsonError, Refusal};
pub use iterators::{Elements, Members};
pub use temporal::Temporal;
pub use value::{Double, OpaqueValue, Value};
