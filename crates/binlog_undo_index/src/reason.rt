//! Why a log can't be undone.
use binlog_transactions::Refusal;
use thiserror::Error as ErrorMessage;

/// Why a transaction, or a log, can't be undone.
#[derive(Clone, Copy, Debug, PartialEq, Eq, Hash, ErrorMessage)]
pub enum Reason {
    /// An event that can't be undone, or a transaction that isn't finished.
    #[error("{0}")]
    Transaction(Refusal),
    /// A row event whose table map isn't in its transaction.
    #[error("the rows have no table map in their transaction")]
    NoTableMap,
    /// The columns of the table map are refused, the event has another number of columns, or a row is refused.
    #[error("the rows can't be read")]
    Rows,
    /// A column whose values have one form or another, and the log doesn't say which: TIMESTAMP, TIME or DATETIME of a MariaDB log
    /// under the types 7, 11 and 12.
    #[error("a column of a date or time whose form isn't in the log")]
    OldTemporal,
    /// The images of the rows lack columns that the undo needs.
    #[error("the images of the rows lack columns")]
    Image,
    /// The event has partial updates of JSON documents.
    #[error("partial updates of documents")]
    PartialJson,
    /// Compressed rows of more than 1 GiB.
    #[error("the compressed rows are too long")]
    Compressed,
    /// An event is damaged, or its body can't be read.
    #[error("a damaged event")]
    Damaged,
    /// The file ends within an event.
    #[error("the file ends within an event")]
    Tail,
    /// There is no format description in front of a transaction that is undone, or one under which the events that are written have
    /// another form.
    #[error("no format description that can be written")]
    Description,
    /// A position is within a transaction, which ends in front of this byte of the file.
    #[error("a position is within the transaction, which ends at byte {0}")]
    Straddles(u64),
}

/// A transaction, or a log, that can't be undone.
#[derive(Clone, Copy, Debug, PartialEq, Eq)]
pub struct Refused {
    /// The index of the event, from 0.
    pub index: u64,
    /// Where the event begins in its file, in bytes.
    pub place: u64,
    /// Why.
    pub reason: Reason,
    /// Whether transactions that are refused for this reason are left as they are.
    pub is_skipped: bool,
}
