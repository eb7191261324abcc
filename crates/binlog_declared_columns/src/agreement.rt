//! Whether a column of a log may be a declared one.
ghost use Rattle.std.specs.Prelude.{◌≡◌, option_map, option_copied, map, slice_get};
ghost use Rattle.binlog_columns.specs.Columns.{typed_of};
ghost use Rattle.binlog_optional_metadata.specs.Facts.{facts_of};
ghost use Rattle.column_files.specs.Tables.{described};
ghost use Rattle.column_files.specs.Types.{type_of};
ghost use Rattle.binlog_declared_columns.specs.Facts.{unsigned_in, unsigned_in_simple, set_in, set_in_simple, agrees_sign, agrees_set, agrees, is_hidden, is_hidden_type, fits, fits_at, all_facts};

use crate::possible::is_possible;
use binlog_columns::{Column, ColumnType};
use binlog_optional_metadata::ColumnFacts;
use character_sets::CharacterSet;
use column_files::{DeclaredColumn, DeclaredType, SimpleType};

/// Whether the type is that of a number without sign, if it is that of a number.
pub(crate) fn unsigned_in(declared: &DeclaredType) -> Option<bool>
    ensures { result ≡ unsigned_in (type_of declared.now) }
{
    match declared {
        DeclaredType::Simple(simple_type) => unsigned_in_simple(*simple_type),
        _ => None,
    }
}

// Whether the type without members is that of a number without sign, if it is that of a number.
fn unsigned_in_simple(simple_type: SimpleType) -> Option<bool>
    ensures { result ≡ unsigned_in_simple simple_type }
{
    match simple_type {
        SimpleType::Integer { is_unsigned, .. } => Some(is_unsigned),
        SimpleType::Float { is_unsigned } => Some(is_unsigned),
        SimpleType::Double { is_unsigned } => Some(is_unsigned),
        SimpleType::Decimal { is_unsigned, .. } => Some(is_unsigned),
        _ => None,
    }
}

/// The character set of the strings of a column, or of its members, by the one that is declared.
pub(crate) fn set_in(declared: &DeclaredType, set: Option<CharacterSet>) -> Option<CharacterSet>
    ensures { result ≡ set_in (type_of declared.now) set }
{
    match declared {
        DeclaredType::Simple(simple_type) => set_in_simple(*simple_type, set),
        _ => set,
    }
}

// The character set of the strings of a column without members, by the one that is declared.
fn set_in_simple(simple_type: SimpleType, set: Option<CharacterSet>) -> Option<CharacterSet>
    ensures { result ≡ set_in_simple simple_type set }
{
    match simple_type {
        SimpleType::Char(_) | SimpleType::VarChar { .. } | SimpleType::Text { .. } => set,
        SimpleType::Binary(_)
        | SimpleType::VarBinary { .. }
        | SimpleType::Blob { .. }
        | SimpleType::Inet4
        | SimpleType::Inet6
        | SimpleType::Uuid
        | SimpleType::Vector(_) => Some(CharacterSet::Binary),
        _ => None,
    }
}

// Whether what is stated of the sign agrees with what is declared.
fn agrees_sign(states_signs: bool, is_unsigned: bool, declared: Option<bool>) -> bool
    ensures { result ≡ agrees_sign states_signs is_unsigned declared }
{
    match declared {
        Some(declared) if states_signs => is_unsigned == declared,
        _ => true,
    }
}

// Whether the character set that is stated is the declared one.
fn agrees_set(stated: Option<CharacterSet>, declared: Option<CharacterSet>) -> bool
    ensures { result ≡ agrees_set stated declared }
{
    match (stated, declared) {
        (Some(stated), Some(declared)) => stated.name() == declared.name(),
        _ => true,
    }
}

/// Whether a column of the log, of which these facts are stated, may be the declared one.
pub(crate) fn agrees(
    states_signs: bool,
    column: &Column,
    facts: &ColumnFacts<'_>,
    declared: &DeclaredColumn,
) -> bool
    ensures { result ≡ agrees states_signs (typed_of column.now) (facts_of facts.now) (described declared.now) }
{
    let set = declared.character_set;
    match &declared.column_type {
        Some(declared) => {
            is_possible(declared, set, column)
                && agrees_sign(states_signs, facts.is_unsigned, unsigned_in(declared))
                && agrees_set(facts.character_set, set_in(declared, set))
        }
        None => false,
    }
}

// Whether the column, of which these facts are stated, may be one that MariaDB adds to a table.
fn is_hidden(states_signs: bool, column: &Column, facts: &ColumnFacts<'_>) -> bool
    ensures { result ≡ is_hidden states_signs (typed_of column.now) (facts_of facts.now) }
{
    match column.column_type() {
        ColumnType::MYSQL_TYPE_LONGLONG => agrees_sign(states_signs, facts.is_unsigned, Some(true)),
        ColumnType::MYSQL_TYPE_TIMESTAMP2 => column.metadata() == 6,
        _ => false,
    }
}

/// Whether the column with this index of the log, if it has one, may be that of the file, if it has one.
pub(crate) fn fits_at(
    is_maria_log: bool,
    states_signs: bool,
    columns: &[Column],
    facts: &[ColumnFacts<'_>],
    declared: &[DeclaredColumn],
    index: usize,
) -> bool
    ensures { result ≡ fits_at is_maria_log states_signs (map typed_of columns.now) (all_facts facts.now) (map described declared.now) index }
{
    match (columns.get(index), facts.get(index), declared.get(index)) {
        (None, _, None) => true,
        (Some(column), Some(facts), None) => {
            is_maria_log && is_hidden(states_signs, column, facts)
        }
        (Some(column), Some(facts), Some(declared)) => {
            agrees(states_signs, column, facts, declared)
        }
        _ => false,
    }
}
