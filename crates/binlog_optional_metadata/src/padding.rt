//! The padding of BINARY columns.
ghost use Rattle.std.specs.Prelude.{◌≡◌};
ghost use Rattle.binlog_columns.specs.Columns.{typed_of};
ghost use Rattle.binlog_optional_metadata.specs.StringLengths.{most_bytes};
ghost use Rattle.binlog_optional_metadata.specs.Stated.{string_length_as, padded_length};

use crate::column_facts::is_binary;
use binlog_columns::{Column, ColumnType, Layout};
use character_sets::CharacterSet;

/// The length to which the values of a column are padded with zeros, where this is stated of its character set.
pub(crate) fn padded_length(column: &Column, character_set: Option<CharacterSet>) -> u32
    ensures { result ≡ padded_length character_set (typed_of column.now) }
{
    if is_binary(character_set) {
        string_length(column)
    } else {
        0
    }
}

/// The length of a STRING; 0 for any other column.
#[tactic(auto, using(crate::proofs::StringLengths::string_length_is))]
fn string_length(column: &Column) -> u32
    ensures { result ≡ string_length_as (typed_of column.now).0 (typed_of column.now).1 }
{
    match column.column_type() {
        ColumnType::MYSQL_TYPE_STRING => most_bytes(column.layout()),
        _ => 0,
    }
}

/// The greatest length of a string; 0 for any other layout.
fn most_bytes(layout: Layout) -> u32
    ensures { result ≡ most_bytes layout }
{
    match layout {
        Layout::Counted { max, .. } => max,
        _ => 0,
    }
}
