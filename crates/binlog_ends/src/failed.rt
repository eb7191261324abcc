//! The failure of a reader or a writer.
use thiserror::Error;

/// A reader or a writer failed, and the failure was counted.
///
/// The kind of the failure isn't part of it: see [`Counted::last_failure`](crate::Counted::last_failure).
#[derive(Clone, Copy, Debug, PartialEq, Eq, Error)]
#[error("a reader or a writer failed")]
pub struct Failed;
