//! What statistics see of an event.
ghost use Rattle.std.specs.Prelude.{◌≡◌};
ghost use Rattle.change_statistics.specs.Counting.{rows_as};
ghost use Rattle.change_statistics.specs.Facts.{begin_of, fact_of};

/// How rows change a table.
#[derive(Clone, Copy, Debug, PartialEq, Eq)]
pub enum ChangeKind {
    /// They are inserted.
    Inserted,
    /// They are updated.
    Updated,
    /// They are deleted.
    Deleted,
}

/// Changes of rows of a table.
#[derive(Clone, Copy, Debug)]
pub struct TableChange<'a> {
    /// The name of the database.
    pub database: &'a [u8],
    /// The name of the table.
    pub table: &'a [u8],
    /// How the rows change the table.
    pub kind: ChangeKind,
    /// The number of the rows; None if they can't be read.
    pub count: Option<u64>,
}

/// What an event says of changes of rows.
#[derive(Clone, Copy, Debug)]
pub enum Change<'a> {
    /// It has no rows.
    Nothing,
    /// It may have rows, and of which table isn't known.
    Unknown,
    /// It has rows of a table.
    Rows(TableChange<'a>),
}

/// What statistics see of an event.
#[derive(Clone, Copy, Debug)]
pub struct EventFacts<'a> {
    /// Whether a transaction begins with it.
    pub begins_transaction: bool,
    /// The text of the GTID of the transaction that begins with it; empty if that has none, or if none begins.
    pub gtid: &'a str,
    /// The number of bytes that it takes in its log; none if it is inside a compressed transaction, whose event has them.
    pub bytes: u64,
    /// The number of its bytes. Inside a compressed transaction they are those of the uncompressed event.
    pub size: u64,
    /// The position behind it in its log, as it states.
    pub end_position: u64,
    /// Its timestamp, in seconds since 1970.
    pub time: u32,
    /// What it says of changes of rows.
    pub change: Change<'a>,
}

impl TableChange<'_> {
    /// The number of the rows that change the table like this; 0 if they can't be read.
    pub(crate) fn rows_as(&self, kind: ChangeKind) -> u64
        ensures { result ≡ rows_as kind self.now.kind self.now.count }
    {
        if self.kind == kind {
            self.count.unwrap_or(0)
        } else {
            0
        }
    }
}

impl EventFacts<'_> {
    /// The position where the event begins, by its bytes; None if it states that it ends before so many.
    pub(crate) fn begin_position(&self) -> Option<u64>
        ensures { result ≡ begin_of (fact_of self.now) }
    {
        self.end_position.checked_sub(self.bytes)
    }
}
