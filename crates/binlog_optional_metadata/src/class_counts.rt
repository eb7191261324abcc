//! How many columns there are of each class.
ghost use Rattle.std.specs.Prelude.{◌≡◌, ◌+◌, Bool, length};
ghost use Rattle.binlog_columns.specs.TableColumns.{columns_of};

use crate::column_class::ColumnClass;
use binlog_columns::TableColumns;

/// How many columns of a table there are of each class.
#[derive(Clone, Copy, Debug)]
pub(crate) struct ClassCounts {
    pub(crate) columns: u64,
    pub(crate) numeric: u64,
    pub(crate) character: u64,
    pub(crate) enums: u64,
    pub(crate) sets: u64,
    /// ENUM and SET.
    pub(crate) listed: u64,
    pub(crate) geometries: u64,
    pub(crate) vectors: u64,
}

impl ClassCounts {
    ghost use Rattle.binlog_optional_metadata.specs.Counts.{counts_of};

    /// Counts these columns, of a log that MariaDB wrote or another server.
    pub(crate) fn new(columns: TableColumns<'_>, is_maria_log: bool) -> Self
        ensures { result ≡ counts_of is_maria_log (columns_of columns.entry) }
    {
        ClassCounts {
            columns: columns.num_columns() as u64,
            numeric: ColumnClass::Numeric.count_in(columns),
            character: ColumnClass::character(is_maria_log).count_in(columns),
            enums: ColumnClass::Enum.count_in(columns),
            sets: ColumnClass::Set.count_in(columns),
            listed: ColumnClass::EnumOrSet.count_in(columns),
            geometries: ColumnClass::Geometry.count_in(columns),
            vectors: ColumnClass::Vector.count_in(columns),
        }
    }
}
