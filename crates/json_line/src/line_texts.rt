//! Texts in a line of JSON.
ghost use Rattle.std.specs.Prelude.{◌≡◌, ◌∷◌, [], ℕ, List, Some, IsAscii, encode_utf8_all, IfOk, OnErr};
ghost use Rattle.character_sets.specs.Characters.{utf8_of};
ghost use Rattle.json.specs.Token as tokens;
ghost use Rattle.json_line.specs.Tokens.{Adds, AddsIfUtf8, text_value, text_value_in, text_value_in_stated, hex_value};

use crate::line::Line;
use crate::plain::is_plain;
use character_sets::{CharacterSet, Characters};
use std::alloc::AllocError;
use std::fmt::Write;
use std::{mem, str};

/// The calls for texts. After a failure the line is unchanged, except in calls that write several tokens one after another.
impl Line {
    /// Writes a string if the bytes are UTF-8, else an object with their hexadecimal digits: `{"hex":"ff"}`.
    #[inline(always)]
    pub fn text(&mut self, text: &[u8]) -> Result<(), AllocError>
        ensures { Adds result self.old self.new (text_value text.now) }
    {
        if self.string_if_plain(text)? {
            return Ok(());
        }
        self.other_text(text)
    }

    // A text that isn't ASCII, or needs an escape.
    #[inline(never)]
    fn other_text(&mut self, text: &[u8]) -> Result<(), AllocError>
        ensures { Adds result self.old self.new (text_value text.now) }
    {
        match str::from_utf8(text) {
            Ok(text) => self.escaped_string(text),
            Err(_) => self.bytes_in_object(text),
        }
    }

    #[cold]
    fn bytes_in_object(&mut self, bytes: &[u8]) -> Result<(), AllocError>
        ensures { Adds result self.old self.new (hex_value bytes.now) }
    {
        self.begin_object()?;
        self.key("hex")?;
        self.bytes(bytes)?;
        self.end_object()
    }

    /// Writes a string, escaped where needed, if the bytes are UTF-8, else nothing. Answers whether they are.
    #[inline(always)]
    pub fn string_if_utf8(&mut self, text: &[u8]) -> Result<bool, AllocError>
        ensures added { IfOk result (λ is_utf8. AddsIfUtf8 is_utf8 text.now (tokens.string text.now) self.old self.new) }
        ensures unchanged { OnErr result (self.new ≡ self.old) }
    {
        if self.string_if_plain(text)? {
            return Ok(true);
        }
        self.other_string_if_utf8(text)
    }

    // A text that isn't ASCII, or needs an escape.
    #[inline(never)]
    fn other_string_if_utf8(&mut self, text: &[u8]) -> Result<bool, AllocError>
        ensures added { IfOk result (λ is_utf8. AddsIfUtf8 is_utf8 text.now (tokens.string text.now) self.old self.new) }
        ensures unchanged { OnErr result (self.new ≡ self.old) }
    {
        match str::from_utf8(text) {
            Ok(text) => {
                self.escaped_string(text)?;
                Ok(true)
            }
            Err(_) => Ok(false),
        }
    }

    /// Writes the name of a member and a colon, escaped where needed, if the bytes are UTF-8, else nothing. Answers whether
    /// they are.
    #[inline(always)]
    pub fn key_if_utf8(&mut self, name: &[u8]) -> Result<bool, AllocError>
        ensures added { IfOk result (λ is_utf8. AddsIfUtf8 is_utf8 name.now (tokens.key name.now) self.old self.new) }
        ensures unchanged { OnErr result (self.new ≡ self.old) }
    {
        if is_plain(name) {
            self.key_as_it_is(name)?;
            return Ok(true);
        }
        self.other_key_if_utf8(name)
    }

    // A name that isn't ASCII, or needs an escape.
    #[inline(never)]
    fn other_key_if_utf8(&mut self, name: &[u8]) -> Result<bool, AllocError>
        ensures added { IfOk result (λ is_utf8. AddsIfUtf8 is_utf8 name.now (tokens.key name.now) self.old self.new) }
        ensures unchanged { OnErr result (self.new ≡ self.old) }
    {
        match str::from_utf8(name) {
            Ok(name) => {
                self.key_with_escapes(name)?;
                Ok(true)
            }
            Err(_) => Ok(false),
        }
    }

    /// Writes a text in a character set: a string of its characters; an object with the hexadecimal digits of all bytes, as
    /// [`Line::text`] writes it, if they are no text in the set, or the set isn't decoded ([`CharacterSet::decode`]).
    #[inline]
    pub fn text_in(&mut self, set: CharacterSet, text: &[u8]) -> Result<(), AllocError>
        ensures { Adds result self.old self.new (text_value_in set text.now) }
    {
        if set.keeps_ascii() {
            return self.text_that_keeps_ascii(set, text);
        }
        self.other_text_in(set, text)
    }

    // A text in a character set in which ASCII is ASCII.
    #[inline(always)]
    fn text_that_keeps_ascii(&mut self, set: CharacterSet, text: &[u8]) -> Result<(), AllocError>
        requires { (bytes : List ℕ) → IsAscii bytes → utf8_of set bytes ≡ Some bytes }
        ensures { Adds result self.old self.new (text_value_in set text.now) }
    {
        if self.string_if_plain(text)? {
            return Ok(());
        }
        self.other_text_in(set, text)
    }

    // A text that isn't ASCII, or needs an escape.
    #[inline(never)]
    fn other_text_in(&mut self, set: CharacterSet, text: &[u8]) -> Result<(), AllocError>
        ensures { Adds result self.old self.new (text_value_in set text.now) }
    {
        match set.decode(text) {
            Some(characters) => self.characters(&characters),
            None => self.bytes_in_object(text),
        }
    }

    /// Writes a text in the character set that is stated, as [`Line::text_in`] does. Where none is stated, or it is
    /// [`CharacterSet::Binary`], the text is written as by [`Line::text`].
    #[inline]
    #[tactic(auto, using(crate::proofs::StatedTexts::other_text))]
    pub fn text_in_stated(
        &mut self,
        set: Option<CharacterSet>,
        text: &[u8],
    ) -> Result<(), AllocError>
        ensures { Adds result self.old self.new (text_value_in_stated set text.now) }
    {
        match set {
            None | Some(CharacterSet::Binary) => self.text(text),
            Some(set) => self.text_in(set, text),
        }
    }

    /// Writes a string of these characters, escaped where needed.
    pub fn characters(&mut self, characters: &Characters<'_>) -> Result<(), AllocError>
        ensures added { Adds result self.old self.new (tokens.string (encode_utf8_all characters.now) ∷ []) }
        ensures unchanged { OnErr result (self.new ≡ self.old) }
    {
        match characters.as_str() {
            Some(text) => self.escaped_string(text),
            None => self.encoded_characters(characters),
        }
    }

    // Through reused memory for the characters as UTF-8.
    fn encoded_characters(&mut self, characters: &Characters<'_>) -> Result<(), AllocError>
        ensures added { Adds result self.old self.new (tokens.string (encode_utf8_all characters.now) ∷ []) }
        ensures unchanged { OnErr result (self.new ≡ self.old) }
    {
        let mut text = mem::replace(&mut self.characters, String::new(self.alloc));
        text.clear();
        write!(text, "{characters}")?;
        let written = self.string(text.as_str());
        self.characters = text;
        written
    }
}
