//! A transaction that is read.
ghost use Rattle.std.specs.Prelude.{◌≡◌};
ghost use Rattle.binlog_transactions.specs.Tables.{starting, begun, statement_cuts, cuts, with_rows, ending_behind, behind, is_open, is_by_rows, statement_ends, unsupported_ends, ends, statement_refusal, unsupported_refusal, refusal_at, refusal_outside};

use crate::mark::{Mark, Unsupported};
use crate::refusal::Refusal;
use crate::statements::StatementKind;

/// How a transaction ends.
#[derive(Clone, Copy, Debug, PartialEq, Eq)]
pub(crate) enum Ending {
    /// With its first statement, unless that is a BEGIN or has rows.
    ByStatement,
    /// With a COMMIT, a ROLLBACK or an XID alone.
    ByCommit,
    /// With the last row event of a statement, and with all that ends a transaction that isn't open.
    ByRows,
}

/// A transaction that is read.
#[derive(Clone, Copy, Debug, PartialEq, Eq)]
pub(crate) struct Transaction {
    /// How it ends.
    pub(crate) ending: Ending,
    /// Whether it has nothing but a GTID.
    pub(crate) is_fresh: bool,
    /// Whether it has rows that are to be undone.
    pub(crate) has_undone_rows: bool,
}

impl Ending {
    /// Behind a table map or rows.
    fn with_rows(self) -> Ending
        ensures { result ≡ with_rows self }
    {
        match self {
            Ending::ByStatement | Ending::ByRows => Ending::ByRows,
            Ending::ByCommit => Ending::ByCommit,
        }
    }

    /// Behind a statement.
    fn behind(self, kind: StatementKind) -> Ending
        ensures { result ≡ ending_behind self kind }
    {
        match kind {
            StatementKind::Begin | StatementKind::XaStart => Ending::ByCommit,
            _ => self,
        }
    }

    /// Whether only a COMMIT, a ROLLBACK or an XID ends the transaction.
    fn is_open(self) -> bool
        ensures { result ≡ is_open self }
    {
        matches!(self, Ending::ByCommit)
    }

    /// Whether the last row event of a statement ends the transaction.
    fn is_by_rows(self) -> bool
        ensures { result ≡ is_by_rows self }
    {
        matches!(self, Ending::ByRows)
    }

    /// Whether a statement of this kind ends the transaction.
    fn ends_with(self, kind: StatementKind) -> bool
        ensures { result ≡ statement_ends self kind }
    {
        match kind {
            StatementKind::Commit | StatementKind::Rollback | StatementKind::XaEnd => true,
            StatementKind::Harmless | StatementKind::Other => !self.is_open(),
            StatementKind::Begin
            | StatementKind::RollbackToSavepoint
            | StatementKind::XaStart
            | StatementKind::Xa => false,
        }
    }

    /// Whether such an event ends the transaction.
    fn ends_with_event(self, event: Unsupported) -> bool
        ensures { result ≡ unsupported_ends self event }
    {
        match event {
            Unsupported::XaPrepare | Unsupported::Payload => true,
            Unsupported::LoadDataPart => false,
            _ => !self.is_open(),
        }
    }
}

/// Why a transaction can't be undone that has such an event.
fn refusal_of(event: Unsupported) -> Refusal
    ensures { result ≡ unsupported_refusal event }
{
    match event {
        Unsupported::XaPrepare => Refusal::Xa,
        Unsupported::Payload => Refusal::Payload,
        Unsupported::LoadData | Unsupported::LoadDataPart => Refusal::LoadData,
        Unsupported::Incident => Refusal::Incident,
        Unsupported::OldRows => Refusal::OldRows,
        Unsupported::UnknownEvent => Refusal::UnknownEvent,
    }
}

/// Why an event of no transaction can't be passed.
pub(crate) fn refusal_outside(mark: Mark) -> Option<Refusal>
    ensures { result ≡ refusal_outside mark }
{
    match mark {
        Mark::Encryption => Some(Refusal::Encrypted),
        _ => None,
    }
}

impl Transaction {
    /// A transaction before its first event.
    fn new(ending: Ending) -> Transaction
        ensures { result ≡ starting ending }
    {
        Transaction {
            ending,
            is_fresh: true,
            has_undone_rows: false,
        }
    }

    /// The transaction that begins with this mark, if none is there, before its first event.
    pub(crate) fn begun(mark: Mark) -> Option<Transaction>
        ensures { result ≡ begun mark }
    {
        match mark {
            Mark::Nothing | Mark::Border | Mark::Encryption => None,
            Mark::Gtid(gtid) if gtid.is_group => Some(Transaction::new(Ending::ByCommit)),
            Mark::Gtid(_) | Mark::Statement(_) | Mark::Xid => {
                Some(Transaction::new(Ending::ByStatement))
            }
            Mark::TableMap | Mark::Rows(_) | Mark::Unsupported(_) => {
                Some(Transaction::new(Ending::ByRows))
            }
        }
    }

    /// Whether a statement of this kind begins another transaction.
    fn is_cut_by(self, kind: StatementKind) -> bool
        ensures { result ≡ statement_cuts self kind }
    {
        match kind {
            StatementKind::Begin => !self.is_fresh,
            _ => false,
        }
    }

    /// Whether the transaction ends in front of the event.
    pub(crate) fn is_cut(self, mark: Mark) -> bool
        ensures { result ≡ cuts self mark }
    {
        match mark {
            Mark::Border | Mark::Gtid(_) => true,
            Mark::Statement(kind) => self.is_cut_by(kind),
            _ => false,
        }
    }

    /// Whether the transaction ends with the event.
    pub(crate) fn ends_with(self, mark: Mark) -> bool
        ensures { result ≡ ends self mark }
    {
        match mark {
            Mark::Statement(kind) => self.ending.ends_with(kind),
            Mark::Xid => true,
            Mark::Rows(rows) => self.ending.with_rows().is_by_rows() && rows.ends_statement,
            Mark::Unsupported(event) => self.ending.ends_with_event(event),
            _ => false,
        }
    }

    /// The transaction behind the event.
    pub(crate) fn behind(self, mark: Mark) -> Transaction
        ensures { result ≡ behind self mark }
    {
        match mark {
            Mark::Statement(kind) => Transaction {
                ending: self.ending.behind(kind),
                is_fresh: false,
                ..self
            },
            Mark::TableMap => Transaction {
                ending: self.ending.with_rows(),
                is_fresh: false,
                ..self
            },
            Mark::Rows(rows) => Transaction {
                ending: self.ending.with_rows(),
                is_fresh: false,
                has_undone_rows: self.has_undone_rows || rows.is_undone,
            },
            Mark::Xid | Mark::Unsupported(_) => Transaction {
                is_fresh: false,
                ..self
            },
            Mark::Nothing | Mark::Border | Mark::Encryption | Mark::Gtid(_) => self,
        }
    }

    /// Why a statement of this kind can't be undone.
    fn statement_refusal(self, kind: StatementKind) -> Option<Refusal>
        ensures { result ≡ statement_refusal self kind }
    {
        match kind {
            StatementKind::Rollback if self.has_undone_rows => Some(Refusal::Rollback),
            StatementKind::RollbackToSavepoint => Some(Refusal::Rollback),
            StatementKind::XaStart | StatementKind::XaEnd | StatementKind::Xa => Some(Refusal::Xa),
            StatementKind::Other => Some(Refusal::Statement),
            _ => None,
        }
    }

    /// Why the transaction can't be undone, because of this event of it.
    pub(crate) fn refusal_at(self, mark: Mark) -> Option<Refusal>
        ensures { result ≡ refusal_at self mark }
    {
        match mark {
            Mark::Gtid(gtid) if gtid.is_xa => Some(Refusal::Xa),
            Mark::Statement(kind) => self.statement_refusal(kind),
            Mark::Unsupported(event) => Some(refusal_of(event)),
            Mark::Encryption => Some(Refusal::Encrypted),
            _ => None,
        }
    }
}
