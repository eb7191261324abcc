//! Which refused transactions are left as they are.
ghost use Rattle.std.specs.Prelude.{◌≡◌};
ghost use Rattle.binlog_undo_index.specs.Skips.{is_event_skipped, is_skipped};

use crate::reason::Reason;
use binlog_transactions::Refusal;

/// For which reasons transactions that can't be undone are left as they are. Else they are refused.
#[derive(Clone, Copy, Debug, PartialEq, Eq, Default)]
pub struct Skips {
    /// [`Refusal::Unfinished`].
    pub unfinished: bool,
    /// [`Refusal::Statement`].
    pub statement: bool,
    /// [`Refusal::LoadData`].
    pub load_data: bool,
    /// [`Refusal::Xa`].
    pub xa: bool,
    /// [`Refusal::Rollback`].
    pub rollback: bool,
    /// [`Refusal::Incident`].
    pub incident: bool,
    /// [`Refusal::Payload`].
    pub payload: bool,
    /// [`Refusal::OldRows`].
    pub old_rows: bool,
    /// [`Refusal::UnknownEvent`].
    pub unknown_event: bool,
    /// [`Reason::NoTableMap`].
    pub no_table_map: bool,
    /// [`Reason::Rows`].
    pub rows: bool,
    /// [`Reason::OldTemporal`].
    pub old_temporal: bool,
    /// [`Reason::Image`].
    pub image: bool,
    /// [`Reason::PartialJson`].
    pub partial_json: bool,
    /// [`Reason::Compressed`].
    pub compressed: bool,
}

impl Skips {
    // Whether this is skipped, of an event or a transaction.
    fn has_refusal(self, refusal: Refusal) -> bool
        ensures { result ≡ is_event_skipped self refusal }
    {
        match refusal {
            Refusal::Unfinished => self.unfinished,
            Refusal::Statement => self.statement,
            Refusal::LoadData => self.load_data,
            Refusal::Xa => self.xa,
            Refusal::Rollback => self.rollback,
            Refusal::Incident => self.incident,
            Refusal::Payload => self.payload,
            Refusal::OldRows => self.old_rows,
            Refusal::UnknownEvent => self.unknown_event,
            Refusal::Encrypted => false,
        }
    }

    /// Whether this reason is skipped. Damage, the end of a file within an event, encryption, a description and
    /// a position within a transaction never are.
    pub fn has(self, reason: Reason) -> bool
        ensures { result ≡ is_skipped self reason }
    {
        match reason {
            Reason::Transaction(refusal) => self.has_refusal(refusal),
            Reason::NoTableMap => self.no_table_map,
            Reason::Rows => self.rows,
            Reason::OldTemporal => self.old_temporal,
            Reason::Image => self.image,
            Reason::PartialJson => self.partial_json,
            Reason::Compressed => self.compressed,
            Reason::Damaged | Reason::Tail | Reason::Description | Reason::Straddles(_) => false,
        }
    }
}
