//! The facts of columns that a log and a file of columns state.
ghost use Rattle.std.specs.Prelude.{◌≡◌, map, option_map, Some, IfOk};
ghost use Rattle.std.specs.Option.{option_or};
ghost use Rattle.binlog_columns.specs.Columns.{typed_of};
ghost use Rattle.binlog_optional_metadata.specs.Facts.{facts_of, is_binary, texts_of};
ghost use Rattle.column_files.specs.Tables.{described, text_of};
ghost use Rattle.column_files.specs.Types.{type_of};
ghost use Rattle.binlog_declared_columns.specs.Facts.{padding_in, padding_in_simple, known_members, has_members, members_in, set_of_members, set_of_both, padding_of_both, facts_of_both, all_with, fits_at, IsContradiction, AreOfBoth, all_facts};

use crate::agreement::{fits_at, set_in, unsigned_in};
use crate::known_members::are_known;
use binlog_columns::Column;
use binlog_optional_metadata::ColumnFacts;
use character_sets::CharacterSet;
use column_files::{DeclaredColumn, DeclaredType, SimpleType};
use std::alloc::{AllocError, Global};

// The length to which values are padded with zeros.
fn padding_in(declared: &DeclaredType) -> u32
    ensures { result ≡ padding_in (type_of declared.now) }
{
    match declared {
        DeclaredType::Simple(simple_type) => padding_in_simple(*simple_type),
        _ => 0,
    }
}

// The length to which values of a type without members are padded with zeros.
fn padding_in_simple(simple_type: SimpleType) -> u32
    ensures { result ≡ padding_in_simple simple_type }
{
    match simple_type {
        SimpleType::Binary(count) => count,
        SimpleType::Inet4 => 4,
        SimpleType::Inet6 | SimpleType::Uuid => 16,
        _ => 0,
    }
}

// The texts of members, in place.
fn texts(alloc: Global, members: &[Vec<u8>]) -> Result<Vec<&[u8]>, AllocError>
    ensures { IfOk result (λ texts. texts_of texts.items ≡ map (λ text. text.items) members.now) }
{
    let mut texts = Vec::with_capacity(alloc, members.len())?;
    for member in members {
        texts.push(member.as_slice()).map_err(AllocError::from)?;
    }
    Ok(texts)
}

// The texts of members, in place, if all are known.
fn known_texts<'a>(
    alloc: Global,
    members: &'a [Vec<u8>],
) -> Result<Option<Vec<&'a [u8]>>, AllocError>
    ensures { IfOk result (λ known. option_map (λ texts. texts_of texts.items) known ≡ known_members (map (λ text. text.items) members.now)) }
{
    if are_known(members) {
        Ok(Some(texts(alloc, members)?))
    } else {
        Ok(None)
    }
}

// The members of a type, if it has some and all are known.
fn members_in<'a>(
    alloc: Global,
    declared: &'a DeclaredType,
) -> Result<Option<Vec<&'a [u8]>>, AllocError>
    ensures { IfOk result (λ members. option_map (λ texts. texts_of texts.items) members ≡ members_in (type_of declared.now)) }
{
    match declared {
        DeclaredType::Simple(_) => Ok(None),
        DeclaredType::Enum(members) | DeclaredType::Set(members) => known_texts(alloc, members),
    }
}

// The character set in which a file has members.
fn set_of_members(set: Option<CharacterSet>) -> Option<CharacterSet>
    ensures { result ≡ set_of_members set }
{
    match set {
        Some(CharacterSet::Binary) => set,
        _ => Some(CharacterSet::Utf8mb4),
    }
}

// Whether the type has members, and all are known.
fn has_members(declared: &DeclaredType) -> bool
    ensures { result ≡ has_members (type_of declared.now) }
{
    match declared {
        DeclaredType::Simple(_) => false,
        DeclaredType::Enum(members) | DeclaredType::Set(members) => are_known(members),
    }
}

// The character set of strings and members, by what both state.
fn set_of_both(
    facts: &ColumnFacts<'_>,
    set: Option<CharacterSet>,
    declared: &DeclaredType,
) -> Option<CharacterSet>
    ensures { result ≡ set_of_both (facts_of facts.now) set (type_of declared.now) }
{
    if has_members(declared) && facts.members.is_none() {
        set_of_members(set)
    } else {
        facts.character_set.or(set_in(declared, set))
    }
}

// The members that the log states, and else those that are declared.
fn members_of_both<'a>(
    alloc: Global,
    stated: Option<Vec<&'a [u8]>>,
    declared: &'a DeclaredType,
) -> Result<Option<Vec<&'a [u8]>>, AllocError>
    ensures { IfOk result (λ members. option_map (λ texts. texts_of texts.items) members
        ≡ option_or (option_map (λ texts. texts_of texts.items) stated.entry) (members_in (type_of declared.now))) }
{
    match stated {
        Some(members) => Ok(Some(members)),
        None => members_in(alloc, declared),
    }
}

// The length of padded values that the log states, and else the declared one.
fn padding_of_both(facts: &ColumnFacts<'_>, declared: &DeclaredType) -> u32
    ensures { result ≡ padding_of_both (facts_of facts.now) (type_of declared.now) }
{
    match facts.character_set {
        Some(_) => facts.padded_length,
        None => padding_in(declared),
    }
}

// What the log states of a column, and else what is declared.
fn facts_of_both<'a>(
    alloc: Global,
    facts: ColumnFacts<'a>,
    declared: &'a DeclaredColumn,
    column_type: &'a DeclaredType,
) -> Result<ColumnFacts<'a>, AllocError>
    ensures { IfOk result (λ both. facts_of both ≡ facts_of_both (facts_of facts.entry) (described declared.now) (Some (type_of column_type.now))) }
{
    let character_set = set_of_both(&facts, declared.character_set, column_type);
    let padded_length = padding_of_both(&facts, column_type);
    Ok(ColumnFacts {
        name: facts.name.or(declared.name_text()),
        is_unsigned: facts.is_unsigned || unsigned_in(column_type).unwrap_or(false),
        character_set,
        padded_length,
        members: members_of_both(alloc, facts.members, column_type)?,
    })
}

// What the log states of a column, and else what the file has of it, if it has its type.
fn with_declared<'a>(
    alloc: Global,
    facts: ColumnFacts<'a>,
    declared: &'a DeclaredColumn,
) -> Result<ColumnFacts<'a>, AllocError>
    ensures { IfOk result (λ both. facts_of both ≡ facts_of_both (facts_of facts.entry) (described declared.now) (described declared.now).type) }
{
    match &declared.column_type {
        Some(column_type) => facts_of_both(alloc, facts, declared, column_type),
        None => Ok(facts),
    }
}

// The first column that contradicts the file.
fn contradiction(
    is_maria_log: bool,
    states_signs: bool,
    columns: &[Column],
    facts: &[ColumnFacts<'_>],
    declared: &[DeclaredColumn],
) -> Option<usize>
    ensures { IsContradiction is_maria_log states_signs (map typed_of columns.now) (all_facts facts.now) (map described declared.now) result }
{
    let count = columns.len().max(declared.len());
    for index in 0..count {
        if !fits_at(is_maria_log, states_signs, columns, facts, declared, index) {
            return Some(index);
        }
    }
    None
}

/// Adds to the facts of columns, which a log states of them, what a file declares of them besides, unless the file is contradicted. The
/// result has the index of the first column that contradicts the file, counted from 0, if there is one: a column that can't be of the
/// declared type, whose stated sign or character set is another one, or that is missing in the log or in the file. In MariaDB's logs
/// the last columns may be missing in the file if they can be those that MariaDB adds to a table: BIGINT UNSIGNED, or TIMESTAMP(6).
/// `states_signs` says whether the log states which columns are UNSIGNED. Declared members aren't added where one has a `?`, which may
/// stand for another character.
///
/// # Errors
///
/// [`AllocError`] if an allocation fails.
pub fn complete<'a>(
    alloc: Global,
    is_maria_log: bool,
    states_signs: bool,
    columns: &[Column],
    facts: Vec<ColumnFacts<'a>>,
    declared: &'a [DeclaredColumn],
) -> Result<(Vec<ColumnFacts<'a>>, Option<usize>), AllocError>
    ensures { IfOk result (λ both. AreOfBoth is_maria_log states_signs (map typed_of columns.now) (map described declared.now) facts.entry.items both.0.items both.1) }
{
    if let Some(first) = contradiction(is_maria_log, states_signs, columns, &facts, declared) {
        return Ok((facts, Some(first)));
    }
    Ok((all_of_both(alloc, facts, declared)?, None))
}

// What the log states of columns, and else what is declared.
fn all_of_both<'a>(
    alloc: Global,
    facts: Vec<ColumnFacts<'a>>,
    declared: &'a [DeclaredColumn],
) -> Result<Vec<ColumnFacts<'a>>, AllocError>
    ensures { IfOk result (λ both. all_facts both.items ≡ all_with (all_facts facts.entry.items) (map described declared.now)) }
{
    let mut both = Vec::with_capacity(alloc, facts.len())?;
    let mut rest = declared;
    for stated in facts {
        match rest.split_first() {
            Some((column, behind)) => {
                both.push(with_declared(alloc, stated, column)?)
                    .map_err(AllocError::from)?;
                rest = behind;
            }
            None => both.push(stated).map_err(AllocError::from)?,
        }
    }
    Ok(both)
}
