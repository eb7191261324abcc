//! The marks of events that depend on their data.
ghost use Rattle.std.specs.Prelude.{◌≡◌};
ghost use Rattle.binlog_transactions.specs.DataMarks.{rows_mark, statement_mark, mark_of_data, mark_of_maria_data};

use crate::mark::{GtidMark, Mark, RowsMark};
use crate::statements::statement_kind;
use binlog_event_data::EventData;
use binlog_mariadb::MariaEventData;

impl Mark {
    /// The mark of a statement with this text.
    pub fn of_statement(text: &[u8]) -> Mark
        ensures { result ≡ statement_mark text.now }
    {
        Mark::Statement(statement_kind(text))
    }

    /// The mark of a row event with these flags: it is the last one of its statement if bit 0 (STMT_END) is set. `is_undone` says
    /// whether its rows are to be undone.
    pub fn of_rows(flags: u16, is_undone: bool) -> Mark
        ensures { result ≡ rows_mark is_undone flags }
    {
        Mark::Rows(RowsMark {
            ends_statement: flags & 1 != 0,
            is_undone,
        })
    }

    /// The mark of an event of one of MySQL's types with this data, where the type alone doesn't say it: of statements and of rows.
    /// None for all others.
    pub fn of_data(body: &EventData<'_>, is_undone: bool) -> Option<Mark>
        ensures { result ≡ mark_of_data is_undone body.now }
    {
        match body {
            EventData::QueryEvent(query) => Some(Mark::of_statement(query.query_raw())),
            EventData::RowsEvent(rows) => {
                Some(Mark::of_rows(rows.event().flags_raw(), is_undone))
            }
            _ => None,
        }
    }

    /// The mark of one of MariaDB's own events with this data, where the type alone doesn't say it: of GTIDs and of compressed rows.
    /// None for all others, and for compressed statements: [`Mark::of_statement`] has to have their text.
    pub fn of_maria_data(body: &MariaEventData<'_>, is_undone: bool) -> Option<Mark>
        ensures { result ≡ mark_of_maria_data is_undone body.now }
    {
        match body {
            MariaEventData::GtidEvent(gtid) => {
                Some(Mark::Gtid(GtidMark::of_maria_flags(gtid.flags_raw())))
            }
            MariaEventData::RowsCompressedEvent(rows) => {
                Some(Mark::of_rows(rows.flags_raw(), is_undone))
            }
            _ => None,
        }
    }
}
