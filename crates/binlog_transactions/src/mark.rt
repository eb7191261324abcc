//! What events are to transactions.
use crate::statements::StatementKind;

/// The GTID of a transaction.
#[derive(Clone, Copy, Debug, PartialEq, Eq, Hash)]
pub struct GtidMark {
    /// Whether the transaction may have events up to a COMMIT or an XID. Else it is one statement, unless a BEGIN follows.
    pub is_group: bool,
    /// Whether it is a part of an XA transaction.
    pub is_xa: bool,
}

/// A row event.
#[derive(Clone, Copy, Debug, PartialEq, Eq, Hash)]
pub struct RowsMark {
    /// Whether it is the last one of its statement.
    pub ends_statement: bool,
    /// Whether its rows are to be undone.
    pub is_undone: bool,
}

/// An event that can't be undone.
#[derive(Clone, Copy, Debug, PartialEq, Eq, Hash)]
pub enum Unsupported {
    /// XA_PREPARE: the end of a prepared XA transaction.
    XaPrepare,
    /// TRANSACTION_PAYLOAD: all events of a transaction.
    Payload,
    /// A statement that loads a file, or the end of one.
    LoadData,
    /// A part of a file that is loaded: CREATE_FILE, APPEND_BLOCK and BEGIN_LOAD_QUERY.
    LoadDataPart,
    /// INCIDENT.
    Incident,
    /// A row event of a version before 5.1.16.
    OldRows,
    /// An event of a type that isn't known.
    UnknownEvent,
}

/// What an event is to the transactions of its log.
#[derive(Clone, Copy, Debug, PartialEq, Eq, Hash)]
pub enum Mark {
    /// It is nothing to them.
    Nothing,
    /// No transaction goes across it: FORMAT_DESCRIPTION, ROTATE, STOP, and the end of a file.
    Border,
    /// START_ENCRYPTION: the events behind it are encrypted.
    Encryption,
    /// The GTID of a transaction.
    Gtid(GtidMark),
    /// The text of a statement.
    Statement(StatementKind),
    /// The commit of a transaction.
    Xid,
    /// The table of row events.
    TableMap,
    /// Rows.
    Rows(RowsMark),
    /// An event that can't be undone.
    Unsupported(Unsupported),
}
