//! Places in a file.

/// Where a row event that is undone is in its file, or in the content of the compressed transaction that it is in. A place is the number of
/// bytes in front of an event.
#[derive(Clone, Copy, Debug, PartialEq, Eq)]
pub struct ChangePlace {
    /// The place of its table map.
    pub table_map: u64,
    /// Its own place.
    pub rows: u64,
}

/// A transaction that is undone.
#[derive(Clone, Copy, Debug, PartialEq, Eq)]
pub struct TransactionPlace {
    /// The place of its last event.
    pub last: u64,
    /// How many of its row events are undone, at least one.
    pub changes: u64,
}
