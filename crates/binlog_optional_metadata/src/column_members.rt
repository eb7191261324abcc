//! The members of ENUM and SET columns.
ghost use Rattle.std.specs.Prelude.{◌≡◌, Some, None, drop, option_map, slice_get, IfOk, if◌then◌else◌};
ghost use Rattle.binlog_optional_metadata.specs.Classes.{is_in_class};
ghost use Rattle.binlog_optional_metadata.specs.Names.{names_of};
ghost use Rattle.binlog_optional_metadata.specs.declared.column_class.ColumnClass.TheVariants.{Enum, Set};
ghost use Rattle.binlog_optional_metadata.specs.Facts.{texts_of};
ghost use Rattle.binlog_optional_metadata.specs.Stated.{members_in};
ghost use Rattle.binlog_optional_metadata.specs.StatedFields.{lists_left};

use crate::column_class::ColumnClass;
use crate::member_lists::MemberLists;
use crate::names::Names;
use binlog_columns::ColumnType;
use std::alloc::{AllocError, Global};

/// The members of the next column, which has this real type, if they are stated.
pub(crate) fn next_members<'a>(
    alloc: Global,
    enums: &mut Option<MemberLists<'a>>,
    sets: &mut Option<MemberLists<'a>>,
    real_type: ColumnType,
) -> Result<Option<Vec<&'a [u8]>>, AllocError>
    ensures members { IfOk result (λ members. option_map (λ texts. texts_of texts.items) members ≡ members_in real_type (slice_get (lists_left enums.old) 0) (slice_get (lists_left sets.old) 0)) }
    ensures enums { lists_left enums.new ≡ drop (if is_in_class Enum real_type then 1 else 0) (lists_left enums.old) }
    ensures sets { lists_left sets.new ≡ drop (if is_in_class Set real_type then 1 else 0) (lists_left sets.old) }
{
    match next_list_of(enums, sets, real_type) {
        Some(members) => Ok(Some(collect(alloc, members)?)),
        None => Ok(None),
    }
}

/// The list of the next column, which has this real type.
fn next_list_of<'a>(
    enums: &mut Option<MemberLists<'a>>,
    sets: &mut Option<MemberLists<'a>>,
    real_type: ColumnType,
) -> Option<Names<'a>>
    ensures list { option_map names_of result ≡ members_in real_type (slice_get (lists_left enums.old) 0) (slice_get (lists_left sets.old) 0) }
    ensures enums { lists_left enums.new ≡ drop (if is_in_class Enum real_type then 1 else 0) (lists_left enums.old) }
    ensures sets { lists_left sets.new ≡ drop (if is_in_class Set real_type then 1 else 0) (lists_left sets.old) }
{
    match real_type {
        ColumnType::MYSQL_TYPE_ENUM => next_list(enums),
        ColumnType::MYSQL_TYPE_SET => next_list(sets),
        _ => None,
    }
}

/// The list of the next column of a class.
#[tactic(auto, using(crate::proofs::MembersLeft::first_list, crate::proofs::MembersLeft::other_lists))]
fn next_list<'a>(lists: &mut Option<MemberLists<'a>>) -> Option<Names<'a>>
    ensures list { option_map names_of result ≡ slice_get (lists_left lists.old) 0 }
    ensures rest { lists_left lists.new ≡ drop 1 (lists_left lists.old) }
{
    match lists {
        Some(lists) => lists.next(),
        None => None,
    }
}

/// The members in a list of their own.
fn collect<'a>(alloc: Global, members: Names<'a>) -> Result<Vec<&'a [u8]>, AllocError>
    ensures { IfOk result (λ texts. texts_of texts.items ≡ names_of members.entry) }
{
    let mut texts = Vec::with_capacity(alloc, members.num_left() as usize)?;
    'members: for text in members {
        texts.push(text).map_err(AllocError::from)?;
    }
    Ok(texts)
}
