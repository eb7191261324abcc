//! What a filter knows of the events before an event.

/// What a filter knows of the events before an event.
#[derive(Clone, Copy, Debug, PartialEq, Eq)]
pub struct FilterState {
    /// Whether the transaction of the last event is wanted.
    pub is_wanted: bool,
    /// Whether rows of a statement were taken that hasn't ended.
    pub is_in_statement: bool,
    /// The number of events that were left out though they may change a table that is asked for: statements and transactions of
    /// which it isn't known which tables they change, and rows without a table map. It stays at `u64::MAX`.
    pub left_out: u64,
}
