//! Changes behind what is undone.
use binlog_undo_index::Reason;
use change_statistics::TableName;

/// Where an event is.
#[derive(Clone, Copy, Debug, PartialEq, Eq)]
pub struct EventPlace {
    /// The number of its log, from 0.
    pub log: u64,
    /// The index of the event, from 0; of an event inside a compressed transaction that of the event that has the transaction.
    pub index: u64,
    /// Where that event begins in its log, in bytes.
    pub place: u64,
}

/// Why an event behind what is undone may be in the way of that.
#[derive(Debug, Drop)]
pub enum LaterReason {
    /// It has rows of this table, and rows of it are undone.
    Table(TableName),
    /// It may change any table: why a transaction with it can't be undone.
    Unknown(Reason),
}

/// An event behind what is undone that may be in the way of that.
#[derive(Debug, Drop)]
pub struct LaterChange {
    /// Where the event is.
    pub event: EventPlace,
    /// Why.
    pub reason: LaterReason,
}
