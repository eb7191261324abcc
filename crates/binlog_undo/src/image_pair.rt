//! The images of updates.
ghost use Rattle.std.specs.Prelude.{◌≡◌, length};
ghost use Rattle.binlog_columns.specs.TableColumns.{columns_of};

use binlog_columns::TableColumns;
use binlog_wire::BitView;

/// The columns of a table, and which of them are present in the images of an update.
#[derive(Clone, Copy, Debug)]
pub(crate) struct ImagePair<'a> {
    pub(crate) columns: TableColumns<'a>,
    pub(crate) before: BitView<'a>,
    pub(crate) after: BitView<'a>,
    ghost bit_each_before: { before.len ≡ length (columns_of columns) },
    ghost bit_each_after: { after.len ≡ length (columns_of columns) },
}
