//! What is undone, and how.

use crate::options::BinlogUndoOptions;

/// The logs that are undone, and what is asked of the log that undoes them.
#[derive(Clone, Copy)]
pub struct UndoRequest<'a> {
    /// The logs, one behind the other.
    pub logs: &'a [u8],
    /// Their sizes in bytes.
    pub sizes: &'a [u64],
    /// Numbers.
    pub options: BinlogUndoOptions,
    /// Rows of these tables are undone; of all tables if there are none: of each the name of its database and its own, with a zero behind
    /// each of the two. A `*` stands for any bytes, and a `?` for one.
    pub tables: &'a [u8],
    /// No rows of these tables, which are named in the same way.
    pub excluded: &'a [u8],
}
