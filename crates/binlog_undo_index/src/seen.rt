//! What is seen of an event.
use crate::places::ChangePlace;
use crate::reason::Reason;
use binlog_transactions::Mark;

/// What is seen of an event.
#[derive(Clone, Copy, Debug, PartialEq, Eq)]
pub struct SeenEvent {
    /// Its index, from 0.
    pub index: u64,
    /// Where it begins in its file, in bytes.
    pub place: u64,
    /// Where it ends in its file: the place of the byte behind it.
    pub end: u64,
    /// Where it begins in what it is read from, in bytes: in its file, or in the content of a compressed transaction. An event of a
    /// content is in its file where the compressed transaction is.
    pub read_at: u64,
    /// What it is to the transactions of its log.
    pub mark: Mark,
    /// The id of its table, if it is a table map.
    pub table_id: Option<u64>,
    /// Its places, if it is a row event that is to be undone.
    pub change: Option<ChangePlace>,
    /// Why it can't be undone, if not for its mark.
    pub refusal: Option<Reason>,
    /// Whether a transaction is taken of which it is the first event.
    pub takes_first: bool,
    /// Whether a transaction is taken of which it is the last event.
    pub takes_last: bool,
}
