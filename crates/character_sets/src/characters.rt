//! The characters of a text.
ghost use Rattle.std.specs.Prelude.{◌≡◌, [], ◌∷◌, true, false, List, ℕ, is_some, unwrap_or, encode_utf8_all, chars, MatchOption, IfSome, IfNone, IsAscii, IsUtf8};
ghost use Rattle.std.specs.Bool.{OnTrue};
ghost use Rattle.std.specs.List.{list_all};
ghost use Rattle.character_sets.specs.Coding.{coding_of};
ghost use Rattle.character_sets.specs.Spellings.{IsText};
ghost use Rattle.character_sets.specs.Decoding.{Gives, decoded, IsNotUtf8};
ghost use Rattle.character_sets.specs.Utf8Texts.{is_basic, are_in_utf8, IsUtf8Coding};
ghost use Rattle.character_sets.specs.Texts.{HasCharacters};
ghost use Rattle.character_sets.specs.Characters.{characters_of, utf8_of};

use crate::character_set::CharacterSet;
use crate::coding::{Coding, coding_of, has_ascii_bytes, is_utf8};
use crate::first::first_character;
use std::alloc::AllocError;
use std::fmt::Write;
use std::iter::FusedIterator;
use std::marker::Model;
use std::{fmt, str};

/// Where the characters are read from.
#[derive(Clone, Copy)]
pub(crate) enum Form<'a> {
    /// UTF-8.
    Utf8(&'a str),
    /// A text of a set that isn't UTF-8.
    Coded(CharacterSet, &'a [u8]),
}

/// The characters of a text, in order, as `char`s. [`CharacterSet::decode`] has tested the bytes: each of them is part of a
/// character. Nothing is allocated. Contracts see it as the list of the characters that are left.
#[derive(Drop)]
pub struct Characters<'a> {
    form: Form<'a>,
}

impl<'a> Model for Characters<'a> {
    ghost use Rattle.std.specs.Prelude.{List, ℕ};
    ghost use Rattle.character_sets.specs.Texts.{text_of, IsSound};

    ghost Value = { List ℕ };

    ghost view = { λ characters. text_of characters.form };

    ghost invariant = { λ characters. IsSound characters.form };
}

impl CharacterSet {
    /// The characters of a text in this character set. `None` where the bytes aren't a text in it: where some byte is no part of a
    /// character, where a character is cut short, where the set isn't decoded, or is [`CharacterSet::Binary`]. The bytes are
    /// tested once, and nothing is allocated.
    ///
    /// Characters are Unicode scalar values. So surrogates are none, although MariaDB takes them in `utf8mb3`, `utf8mb4`, `ucs2` and
    /// `utf32`. A byte order mark is a character. Nothing is replaced or normalized.
    pub fn decode(self, bytes: &[u8]) -> Option<Characters<'_>>
        ensures text { IfSome result (λ characters. IsText self bytes.now characters) }
        ensures none { IfNone result ((characters : List ℕ) → ¬ (IsText self bytes.now characters)) }
        ensures given { Gives (λ characters. characters) result (characters_of self bytes.now) }
    {
        let form = form_of(self, bytes)?;
        Some(Characters { form })
    }

    /// Whether a text of bytes below 0x80 is in ASCII in this set, whose other texts may have other bytes: in `utf8mb3`, `utf8mb4`
    /// and the single-byte sets but `swe7`. It is false for the sets that aren't decoded.
    pub fn keeps_ascii(self) -> bool
        ensures { OnTrue result ((bytes : List ℕ) → IsAscii bytes → utf8_of self bytes ≡ Some bytes) }
    {
        has_ascii_bytes(self) || is_utf8(coding_of(self))
    }
}

// The form of the characters, if the bytes are a text of this set.
fn form_of(set: CharacterSet, bytes: &[u8]) -> Option<Form<'_>>
    ensures text { IfSome result (λ form. HasCharacters set bytes.now form) }
    ensures none { IfNone result ((characters : List ℕ) → ¬ (IsText set bytes.now characters)) }
{
    match coding_of(set) {
        Coding::Utf8 | Coding::BasicUtf8 => utf8_form(set, bytes),
        _ => coded_form(set, bytes),
    }
}

fn utf8_form(set: CharacterSet, bytes: &[u8]) -> Option<Form<'_>>
    requires { IsUtf8Coding (coding_of set) }
    ensures text { IfSome result (λ form. HasCharacters set bytes.now form) }
    ensures none { IfNone result ((characters : List ℕ) → ¬ (IsText set bytes.now characters)) }
{
    let text = utf8_text(coding_of(set), bytes)?;
    Some(Form::Utf8(text))
}

fn coded_form(set: CharacterSet, bytes: &[u8]) -> Option<Form<'_>>
    requires { IsNotUtf8 (coding_of set) }
    ensures text { IfSome result (λ form. HasCharacters set bytes.now form) }
    ensures none { IfNone result ((characters : List ℕ) → ¬ (IsText set bytes.now characters)) }
{
    if is_text(set, bytes) {
        Some(Form::Coded(set, bytes))
    } else {
        None
    }
}

// The bytes as UTF-8, if they are a text of a set of this coding.
fn utf8_text(coding: Coding, bytes: &[u8]) -> Option<&str>
    requires { IsUtf8Coding coding }
    ensures some { IfSome result (λ text. (text.now ≡ bytes.now) × IsUtf8 bytes.now × (are_in_utf8 coding (chars bytes.now) ≡ true)) }
    ensures none { IfNone result (IsUtf8 bytes.now → are_in_utf8 coding (chars bytes.now) ≡ false) }
{
    let text = str::from_utf8(bytes).ok()?;
    match coding {
        Coding::BasicUtf8 if !is_basic(text) => None,
        _ => Some(text),
    }
}

// Whether all characters are below U+10000.
fn is_basic(text: &str) -> bool
    ensures { result ≡ list_all is_basic (chars text.now) }
{
    text.chars().all(|character| character < '\u{10000}')
}

// Whether the bytes are a text of a set that isn't UTF-8.
#[tactic(auto, using(crate::proofs::Decoded::left_is_text, crate::proofs::Decoded::first_shorter))]
fn is_text(set: CharacterSet, bytes: &[u8]) -> bool
    ensures { result ≡ is_some (decoded set bytes.now) }
{
    let mut rest = bytes;
    while !rest.is_empty() {
        let Some((_, behind)) = first_character(set, rest) else {
            return false;
        };
        rest = behind;
    }
    true
}

// The first character of a text in UTF-8, and the text behind it.
fn first_of_utf8(text: &str) -> Option<(char, &str)>
    ensures { MatchOption result (chars text.now ≡ []) (λ x. chars text.now ≡ x.0 ∷ chars x.1.now) }
{
    let mut characters = text.chars();
    let first = characters.next()?;
    Some((first, characters.as_str()))
}

impl<'a> Iterator for Characters<'a> {
    type Item = char;

    ghost use Rattle.std.specs.Iterator.{YieldsFirst, item_count};

    ghost next_gives = { YieldsFirst (λ left. left) };

    ghost remaining = { item_count (λ left. left) };

    fn next(&mut self) -> Option<char> {
        match self.form {
            Form::Utf8(text) => {
                let (first, rest) = first_of_utf8(text)?;
                self.form = Form::Utf8(rest);
                Some(first)
            }
            Form::Coded(set, bytes) => {
                let (first, rest) = first_character(set, bytes)?;
                self.form = Form::Coded(set, rest);
                Some(first)
            }
        }
    }
}

impl<'a> FusedIterator for Characters<'a> {}

impl<'a> Clone for Characters<'a> {
    ghost use Rattle.std.specs.Prelude.{⊤};

    ghost is_clone = { λ characters copy. copy ≡ characters };

    ghost is_infallible = { λ _. ⊤ };

    fn clone(&self) -> Result<Self, AllocError> {
        Ok(self.copy())
    }
}

impl<'a> Characters<'a> {
    /// The characters that are left as UTF-8, where the bytes are that already: in `utf8mb3` and `utf8mb4`, and for a text in ASCII in
    /// the single-byte sets but `swe7`. `None` says no more than that they have to be taken one by one.
    pub fn as_str(&self) -> Option<&'a str>
        ensures { IfSome result (λ text. text.now ≡ encode_utf8_all self.now) }
    {
        match self.form {
            Form::Utf8(text) => Some(utf8_itself(text)),
            Form::Coded(set, bytes) => ascii_text(set, bytes),
        }
    }

    fn copy(&self) -> Characters<'a>
        ensures { result ≡ self.now }
    {
        Characters { form: self.form }
    }
}

/// Writes the characters that are left, as UTF-8. Nothing is allocated but by the writer.
impl<'a> fmt::Display for Characters<'a> {
    ghost use Rattle.std.specs.Prelude.{Some, encode_utf8_all};

    ghost output = { λ characters. Some (encode_utf8_all characters) };

    fn fmt<W: fmt::Write>(&self, f: &mut fmt::Formatter<W>) -> fmt::Result {
        let mut rest = self.copy();
        while let Some(character) = rest.next() {
            f.write_char(character)?;
        }
        Ok(())
    }
}

// A text in UTF-8, as the UTF-8 of its characters.
#[tactic(auto, using(crate::proofs::AsciiTexts::encoded_chars))]
fn utf8_itself(text: &str) -> &str
    ensures { result.now ≡ encode_utf8_all (chars text.now) }
{
    text
}

// A text in ASCII as UTF-8.
#[tactic(auto, using(crate::proofs::AsciiTexts::ascii_text))]
fn ascii_text(set: CharacterSet, bytes: &[u8]) -> Option<&str>
    ensures { IfSome result (λ text. text.now ≡ encode_utf8_all (unwrap_or (decoded set bytes.now) [])) }
{
    if !has_ascii_bytes(set) || !bytes.is_ascii() {
        return None;
    }
    str::from_utf8(bytes).ok()
}
