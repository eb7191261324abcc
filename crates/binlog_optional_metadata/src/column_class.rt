//! The classes of columns.
ghost use Rattle.std.specs.Prelude.{◌≡◌, ◌<◌, ◌^◌, length};
ghost use Rattle.binlog_columns.specs.TableColumns.{columns_of};
ghost use Rattle.binlog_optional_metadata.specs.Classes.{is_numeric, is_string, is_in_class, character_class, class_count};

use binlog_columns::{ColumnType, TableColumns};

/// The columns that a field of the optional metadata is about, by their real types.
#[derive(Clone, Copy, Debug, PartialEq, Eq, Hash)]
pub enum ColumnClass {
    /// TINY, SHORT, INT24, LONG, LONGLONG, FLOAT, DOUBLE, NEWDECIMAL and YEAR.
    Numeric,
    /// The columns with a collation in MySQL's logs: STRING, VARCHAR, VAR_STRING, the four BLOB types, the two compressed
    /// types and VECTOR.
    Character,
    /// The columns with a collation in MariaDB's logs: the same, but GEOMETRY in place of VECTOR.
    MariaCharacter,
    /// ENUM.
    Enum,
    /// SET.
    Set,
    /// ENUM and SET.
    EnumOrSet,
    /// GEOMETRY.
    Geometry,
    /// VECTOR.
    Vector,
}

impl ColumnClass {
    /// Whether columns of this real type are in the class.
    pub fn contains(self, real_type: ColumnType) -> bool
        ensures { result ≡ is_in_class self real_type }
    {
        match self {
            ColumnClass::Numeric => is_numeric(real_type),
            ColumnClass::Character => match real_type {
                ColumnType::MYSQL_TYPE_VECTOR => true,
                other => is_string(other),
            },
            ColumnClass::MariaCharacter => match real_type {
                ColumnType::MYSQL_TYPE_GEOMETRY => true,
                other => is_string(other),
            },
            ColumnClass::Enum => matches!(real_type, ColumnType::MYSQL_TYPE_ENUM),
            ColumnClass::Set => matches!(real_type, ColumnType::MYSQL_TYPE_SET),
            ColumnClass::EnumOrSet => matches!(
                real_type,
                ColumnType::MYSQL_TYPE_ENUM | ColumnType::MYSQL_TYPE_SET
            ),
            ColumnClass::Geometry => matches!(real_type, ColumnType::MYSQL_TYPE_GEOMETRY),
            ColumnClass::Vector => matches!(real_type, ColumnType::MYSQL_TYPE_VECTOR),
        }
    }

    /// The class of the columns with a collation, by the server that wrote the log.
    pub fn character(is_maria_log: bool) -> Self
        ensures { result ≡ character_class is_maria_log }
    {
        if is_maria_log {
            ColumnClass::MariaCharacter
        } else {
            ColumnClass::Character
        }
    }

    /// The number of these columns that are in the class.
    #[tactic(auto, using(crate::proofs::Classes::count_step, crate::proofs::Classes::count_end))]
    pub(crate) fn count_in(self, columns: TableColumns<'_>) -> u64
        requires { length (columns_of columns) < 2 ^ 64 }
        ensures { result ≡ class_count self (columns_of columns.entry) }
    {
        let mut count = 0;
        for column in columns {
            if self.contains(column.real_type()) {
                count += 1;
            }
        }
        count
    }
}

/// Whether columns of this type are numbers or years.
fn is_numeric(column_type: ColumnType) -> bool
    ensures { result ≡ is_numeric column_type }
{
    matches!(
        column_type,
        ColumnType::MYSQL_TYPE_TINY
            | ColumnType::MYSQL_TYPE_SHORT
            | ColumnType::MYSQL_TYPE_LONG
            | ColumnType::MYSQL_TYPE_FLOAT
            | ColumnType::MYSQL_TYPE_DOUBLE
            | ColumnType::MYSQL_TYPE_LONGLONG
            | ColumnType::MYSQL_TYPE_INT24
            | ColumnType::MYSQL_TYPE_NEWDECIMAL
            | ColumnType::MYSQL_TYPE_YEAR
    )
}

/// Whether columns of this real type are strings of characters or bytes.
fn is_string(real_type: ColumnType) -> bool
    ensures { result ≡ is_string real_type }
{
    matches!(
        real_type,
        ColumnType::MYSQL_TYPE_VARCHAR
            | ColumnType::MYSQL_TYPE_BLOB_COMPRESSED
            | ColumnType::MYSQL_TYPE_VARCHAR_COMPRESSED
            | ColumnType::MYSQL_TYPE_TINY_BLOB
            | ColumnType::MYSQL_TYPE_MEDIUM_BLOB
            | ColumnType::MYSQL_TYPE_LONG_BLOB
            | ColumnType::MYSQL_TYPE_BLOB
            | ColumnType::MYSQL_TYPE_VAR_STRING
            | ColumnType::MYSQL_TYPE_STRING
    )
}
