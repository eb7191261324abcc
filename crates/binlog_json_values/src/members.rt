//! ENUM and SET values as JSON.

ghost use Rattle.std.specs.Prelude.{◌≡◌, ◌++◌, ◌^◌, length, nat_le, option_map, OnOk, if◌then◌else◌};
ghost use Rattle.json_line.specs.Tokens.{Adds};
ghost use Rattle.binlog_optional_metadata.specs.Facts.{texts_of};
ghost use Rattle.binlog_json_values.specs.Texts.{comma_in};
ghost use Rattle.binlog_json_values.specs.Members.{text_or_number, enum_text, enum_value, chosen, joined, set_text, set_value};

use crate::texts::comma_in;
use character_sets::CharacterSet;
use json_line::Line;
use std::alloc::AllocError;

/// Writes an ENUM: the text of the member with this index, or the index if no members are stated or it is beyond them.
#[inline(always)]
pub(crate) fn write_enum(
    line: &mut Line,
    character_set: Option<CharacterSet>,
    members: &Option<Vec<&[u8]>>,
    index: u64,
) -> Result<(), AllocError>
    ensures { Adds result line.old line.new (enum_value character_set (option_map (λ texts. texts_of texts.items) members.now) index) }
{
    match members {
        Some(members) => write_stated_enum(line, character_set, members, index),
        None => line.number(index),
    }
}

/// The same, where these members are stated.
#[inline(always)]
fn write_stated_enum(
    line: &mut Line,
    character_set: Option<CharacterSet>,
    members: &[&[u8]],
    index: u64,
) -> Result<(), AllocError>
    ensures { Adds result line.old line.new (text_or_number character_set (enum_text index (texts_of members.now)) index) }
{
    match enum_text(members, index) {
        Some(text) => line.text_in_stated(character_set, text),
        None => line.number(index),
    }
}

/// The text with this index, counted from 1; that of 0, the value of an error, is empty.
#[inline(always)]
fn enum_text<'a>(members: &[&'a [u8]], index: u64) -> Option<&'a [u8]>
    ensures { option_map (λ text. text.now) result ≡ enum_text index (texts_of members.now) }
{
    if index == 0 {
        return Some(b"");
    }
    members.get(index as usize - 1).copied()
}

/// Writes a SET: the texts of the members whose bits are set, with commas between them, or the mask if no members are stated or a
/// bit beyond them is set.
pub(crate) fn write_set(
    line: &mut Line,
    memory: &mut Vec<u8>,
    character_set: Option<CharacterSet>,
    members: &Option<Vec<&[u8]>>,
    mask: u64,
) -> Result<(), AllocError>
    ensures { Adds result line.old line.new (set_value character_set (option_map (λ texts. texts_of texts.items) members.now) mask) }
{
    match members {
        Some(members) => write_stated_set(line, memory, character_set, members, mask),
        None => line.number(mask),
    }
}

/// The same, where these members are stated.
fn write_stated_set(
    line: &mut Line,
    memory: &mut Vec<u8>,
    character_set: Option<CharacterSet>,
    members: &[&[u8]],
    mask: u64,
) -> Result<(), AllocError>
    ensures { Adds result line.old line.new (text_or_number character_set (set_text (comma_in character_set) mask (texts_of members.now)) mask) }
{
    if is_beyond(mask, members.len()) {
        return line.number(mask);
    }
    memory.clear();
    push_members(memory, comma_in(character_set), members, mask)?;
    line.text_in_stated(character_set, memory)
}

/// Whether a bit beyond the first bits, this many, is set.
#[tactic(auto, using(crate::proofs::SetTexts::never_beyond))]
fn is_beyond(mask: u64, count: usize) -> bool
    ensures { result ≡ nat_le (2 ^ count) mask }
{
    count < 64 && mask >= 1 << count
}

/// Appends the texts of the members whose bits are set, with commas between them.
#[tactic(auto, using(crate::proofs::SetTexts::member_pushed, crate::proofs::SetTexts::no_members))]
fn push_members(
    text: &mut Vec<u8>,
    comma: &[u8],
    members: &[&[u8]],
    mask: u64,
) -> Result<(), AllocError>
    ensures { OnOk result (text.new.items ≡ text.old.items ++ joined comma.now (chosen (texts_of members.now) mask)) }
{
    let mut is_first = true;
    let mut bits = mask;
    'members: for member in members {
        if bits == 0 {
            break;
        }
        let bit = bits % 2;
        bits /= 2;
        if bit == 0 {
            continue;
        }
        push_member(text, comma, is_first, member)?;
        is_first = false;
    }
    Ok(())
}

/// Appends a text, behind a comma unless it is the first.
fn push_member(
    text: &mut Vec<u8>,
    comma: &[u8],
    is_first: bool,
    member: &[u8],
) -> Result<(), AllocError>
    ensures { OnOk result (text.new.items ≡ text.old.items ++ (if is_first then member.now else comma.now ++ member.now)) }
{
    if !is_first {
        text.extend_from_slice(comma)?;
    }
    text.extend_from_slice(member)
}
