//! Which events behind what is undone may be in its way.
use binlog_undo_index::Skips;

/// Which events behind what is undone may be in its way.
#[derive(Clone, Copy, Debug)]
pub struct LaterRules {
    /// Events that may change any table aren't, if their transactions are left as they are for one of these reasons.
    pub skips: Skips,
    /// Events of a table of which rows are undone are only if they remove a row that what is undone has left behind, or if rows aren't known: those of
    /// the event, or those of an undone event of the table.
    pub checks_rows: bool,
}
