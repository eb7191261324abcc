//! The type of a column.
ghost use Rattle.std.specs.Prelude.{◌≡◌, ◌≤◌, length, option_map, IfOk};
ghost use Rattle.std.specs.List.{prefix_len};
ghost use Rattle.column_files.specs.SimpleTypes.{simple_type};
ghost use Rattle.column_files.specs.TypeMembers.{texts_of};
ghost use Rattle.column_files.specs.TypeWords.{word_named};
ghost use Rattle.column_files.specs.Types.{is_in_word, type_of, members_behind, simple_behind, word_at, typed, type_in};

use crate::simple_type::{SimpleType, simple_type};
use crate::type_ending::Ending;
use crate::type_members::members_in;
use crate::type_numbers::numbers_at;
use crate::type_word::Word;
use std::alloc::{AllocError, Global};

/// The type of a column, as a server declares it.
#[derive(Debug, PartialEq, Eq, Drop)]
pub enum DeclaredType {
    /// A type without members.
    Simple(SimpleType),
    /// ENUM, with the texts of its members in order.
    Enum(Vec<Vec<u8>>),
    /// SET, with the texts of its members in order.
    Set(Vec<Vec<u8>>),
}

// The number of bytes of the word at the start.
fn word_len(text: &[u8]) -> usize
    ensures count { result ≡ prefix_len is_in_word text.now }
    ensures within { result ≤ length text.now }
{
    text.iter()
        .take_while(|byte| **byte != b'(' && **byte != b' ')
        .count()
}

// The word at the start, and what is behind it.
fn word_at(text: &[u8]) -> Option<(Word, &[u8])>
    ensures { option_map (λ x. (x.0, x.1.now)) result ≡ word_at text.now }
{
    let count = word_len(text);
    let word = Word::from_name(&text[..count])?;
    Some((word, &text[count..]))
}

// The members whose list this is, in parentheses.
fn members_behind(alloc: Global, rest: &[u8]) -> Result<Option<Vec<Vec<u8>>>, AllocError>
    ensures { IfOk result (λ members. option_map (λ found. texts_of found.items) members ≡ members_behind rest.now) }
{
    match rest.split_first() {
        Some((b'(', inside)) => members_in(alloc, inside),
        _ => Ok(None),
    }
}

// The type with this word and with this behind it, if it is one without members.
fn simple_behind(word: Word, rest: &[u8]) -> Option<SimpleType>
    ensures { result ≡ simple_behind word rest.now }
{
    let (numbers, behind) = numbers_at(rest)?;
    let ending = Ending::from_text(behind)?;
    simple_type(word, numbers, ending)
}

// The type with this word and with this behind it.
fn typed(alloc: Global, word: Word, rest: &[u8]) -> Result<Option<DeclaredType>, AllocError>
    ensures { IfOk result (λ found. option_map type_of found ≡ typed word rest.now) }
{
    match word {
        Word::Enum => Ok(members_behind(alloc, rest)?.map(|members| DeclaredType::Enum(members))),
        Word::Set => Ok(members_behind(alloc, rest)?.map(|members| DeclaredType::Set(members))),
        _ => Ok(simple_behind(word, rest).map(|found| DeclaredType::Simple(found))),
    }
}

impl DeclaredType {
    /// The type that this text is, as a server spells it in COLUMN_TYPE: a word; behind it nothing, one or two decimal numbers in
    /// parentheses, or the list of the members of an ENUM or a SET; and behind that what states a number without sign, compressed
    /// values or an old format. None if it is the text of no type that is known here.
    ///
    /// In a list each member stands in single quotes, with commas between. In a member a quote is doubled; a backslash, a NUL, a
    /// line feed and a carriage return are `\\`, `\0`, `\n` and `\r`; all other bytes are themselves.
    ///
    /// # Errors
    ///
    /// [`AllocError`] if an allocation fails.
    pub fn parse(alloc: Global, text: &[u8]) -> Result<Option<Self>, AllocError>
        ensures { IfOk result (λ found. option_map type_of found ≡ type_in text.now) }
    {
        match word_at(text) {
            Some((word, rest)) => typed(alloc, word, rest),
            None => Ok(None),
        }
    }
}
