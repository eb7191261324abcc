//! What filters of tables make of an event.
ghost use Rattle.std.specs.Prelude.{◌≡◌};
ghost use Rattle.binlog_filters.specs.Concerns.{is_concerned, is_in_statement, is_unknown};

/// What a filter of tables makes of an event.
#[derive(Clone, Copy, Debug, PartialEq, Eq)]
pub enum Concern {
    /// It takes the event, whatever is before it.
    Taken,
    /// It leaves the event out.
    Other,
    /// It leaves the event out, which may change one of the tables: which ones it changes isn't known.
    Unknown,
    /// It takes these rows, or leaves them out.
    Rows(RowsConcern),
}

/// What a filter of tables makes of a row event.
#[derive(Clone, Copy, Debug, PartialEq, Eq)]
pub struct RowsConcern {
    /// Whether the rows are those of a table that is asked for; None if no table map is in force for them.
    pub is_asked: Option<bool>,
    /// Whether the event is the last one of its statement.
    pub ends_statement: bool,
}

impl Concern {
    /// Whether the event is taken. For a copy, the last row event of a statement is, if rows of the statement are taken:
    /// `is_in_statement` says so.
    pub fn is_taken(self, is_for_copy: bool, is_in_statement: bool) -> bool
        ensures { result ≡ is_concerned is_for_copy is_in_statement self }
    {
        match self {
            Concern::Taken => true,
            Concern::Other | Concern::Unknown => false,
            Concern::Rows(rows) => {
                rows.is_asked == Some(true)
                    || (is_for_copy && is_in_statement && rows.ends_statement)
            }
        }
    }

    /// Whether the event may change one of the tables, though nothing says so.
    pub fn is_unknown(self) -> bool
        ensures { result ≡ is_unknown self }
    {
        match self {
            Concern::Taken | Concern::Other => false,
            Concern::Unknown => true,
            Concern::Rows(rows) => rows.is_asked.is_none(),
        }
    }

    /// Whether rows of a statement are taken that hasn't ended behind the event, where `was` says so before it.
    pub fn is_in_statement(self, was: bool, is_taken: bool) -> bool
        ensures { result ≡ is_in_statement was is_taken self }
    {
        match self {
            Concern::Rows(rows) => !rows.ends_statement && (was || is_taken),
            _ => was,
        }
    }
}
