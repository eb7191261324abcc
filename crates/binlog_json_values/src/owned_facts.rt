//! What is known of a column, in memory of its own.
ghost use Rattle.std.specs.Prelude.{◌≡◌, map, option_map, IfOk};
ghost use Rattle.std.specs.String.{string_bytes};
ghost use Rattle.binlog_optional_metadata.specs.Facts.{facts_of, texts_of};
ghost use Rattle.binlog_json_values.specs.Kept.{facts_in};

use binlog_optional_metadata::ColumnFacts;
use character_sets::CharacterSet;
use std::alloc::{AllocError, Global};

/// What is known of a column, as [`ColumnFacts`] has it, in memory of its own.
#[derive(Drop)]
pub(crate) struct OwnedFacts {
    name: Option<String>,
    is_unsigned: bool,
    character_set: Option<CharacterSet>,
    padded_length: u32,
    members: Option<Vec<Vec<u8>>>,
}

/// A copy of a name.
fn copied_name(alloc: Global, name: Option<&str>) -> Result<Option<String>, AllocError>
    ensures { IfOk result (λ copy. option_map (λ text. string_bytes text) copy ≡ option_map (λ text. text.now) name.entry) }
{
    match name {
        Some(name) => Ok(Some(String::from_str(alloc, name)?)),
        None => Ok(None),
    }
}

/// Copies of the members of an ENUM or a SET.
fn copied_texts(alloc: Global, members: &[&[u8]]) -> Result<Vec<Vec<u8>>, AllocError>
    ensures { IfOk result (λ copies. map (λ copy. copy.items) copies.items ≡ texts_of members.now) }
{
    let mut copies = Vec::with_capacity(alloc, members.len())?;
    'members: for member in members {
        copies.push(member.to_vec(alloc)?)?;
    }
    Ok(copies)
}

/// The same, if they are stated.
fn copied_members(
    alloc: Global,
    members: &Option<Vec<&[u8]>>,
) -> Result<Option<Vec<Vec<u8>>>, AllocError>
    ensures { IfOk result (λ copies. option_map (λ copies. map (λ copy. copy.items) copies.items) copies ≡ option_map (λ members. texts_of members.items) members.now) }
{
    match members {
        Some(members) => Ok(Some(copied_texts(alloc, members)?)),
        None => Ok(None),
    }
}

/// The members, borrowed.
fn borrowed_texts(alloc: Global, members: &[Vec<u8>]) -> Result<Vec<&[u8]>, AllocError>
    ensures { IfOk result (λ borrowed. texts_of borrowed.items ≡ map (λ member. member.items) members.now) }
{
    let mut borrowed = Vec::with_capacity(alloc, members.len())?;
    'members: for member in members {
        borrowed.push(member.as_slice())?;
    }
    Ok(borrowed)
}

/// The same, if they are stated.
fn borrowed_members(
    alloc: Global,
    members: &Option<Vec<Vec<u8>>>,
) -> Result<Option<Vec<&[u8]>>, AllocError>
    ensures { IfOk result (λ borrowed. option_map (λ borrowed. texts_of borrowed.items) borrowed ≡ option_map (λ members. map (λ member. member.items) members.items) members.now) }
{
    match members {
        Some(members) => Ok(Some(borrowed_texts(alloc, members)?)),
        None => Ok(None),
    }
}

impl OwnedFacts {
    /// A copy of these facts.
    pub(crate) fn new(alloc: Global, facts: &ColumnFacts<'_>) -> Result<Self, AllocError>
        ensures { IfOk result (λ owned. facts_in owned ≡ facts_of facts.now) }
    {
        Ok(OwnedFacts {
            name: copied_name(alloc, facts.name)?,
            is_unsigned: facts.is_unsigned,
            character_set: facts.character_set,
            padded_length: facts.padded_length,
            members: copied_members(alloc, &facts.members)?,
        })
    }

    /// The name, borrowed.
    fn name(&self) -> Option<&str>
        ensures { option_map (λ text. text.now) result ≡ option_map (λ name. string_bytes name) self.now.name }
    {
        match &self.name {
            Some(name) => Some(name.as_str()),
            None => None,
        }
    }

    /// The facts, borrowed. What is allocated is a list of the members.
    pub(crate) fn lend(&self, alloc: Global) -> Result<ColumnFacts<'_>, AllocError>
        ensures { IfOk result (λ facts. facts_of facts ≡ facts_in self.now) }
    {
        Ok(ColumnFacts {
            name: self.name(),
            is_unsigned: self.is_unsigned,
            character_set: self.character_set,
            padded_length: self.padded_length,
            members: borrowed_members(alloc, &self.members)?,
        })
    }
}
