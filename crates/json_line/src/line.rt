//! A line of JSON: tokens, and values made of them.
ghost use Rattle.std.specs.Prelude.{◌≡◌, List, ◌∷◌, ◌++◌, [], codes, encode_utf8_all, IsUtf8, IfOk, OnErr};
ghost use Rattle.std.specs.Fmt.{signed_decimal};
ghost use Rattle.json.specs.Lex.{tokens as read_tokens};
ghost use Rattle.json.specs.Print.{escape, print, token_text, IsNumber};
ghost use Rattle.json.specs.Token.{Token};
ghost use Rattle.json.specs.Token as tokens;
ghost use Rattle.json_line.specs.Decimals.{decimal_text};
ghost use Rattle.json_line.specs.Keys.{IsKey};
ghost use Rattle.json_line.specs.Lines.{IsPlainText};
ghost use Rattle.json_line.specs.Moments.{date_text, time_text, date_time_text};
ghost use Rattle.json_line.specs.Tokens.{Adds, AddsIfPlain, number_value, bytes_value, text_value, text_value_in, text_value_in_stated, hex_value, uuid_value, or_null, member, bytes_member_if_any};

use crate::buffer::Buffer;
use crate::decimal_parts::DecimalParts;
use crate::moment::{DateParts, TimeParts};
use crate::plain::is_plain;
use character_sets::{CharacterSet, Characters};
use json::Writer;
use std::alloc::{AllocError, Global};
use std::fmt::Write;
use std::marker::Model;
use std::{mem, str};
use uuid::Uuid;

/// A line of JSON, in memory that is reused for the next line. Contracts see it as the list of its tokens.
#[derive(Drop)]
pub struct Line {
    pub(crate) alloc: Global,
    pub(crate) text: Buffer,
    pub(crate) after_value: bool,
    token: Vec<u8>,
    pub(crate) characters: String,
}

/// A place in a line: behind the tokens that were written when it was marked.
#[derive(Clone, Copy, Debug)]
pub struct Mark {
    len: usize,
    after_value: bool,
}

impl Model for Line {
    ghost use Rattle.std.specs.Prelude.{List};
    ghost use Rattle.json.specs.Token.{Token, tokens_code};
    ghost use Rattle.json.specs.Lex.{tokens};
    ghost use Rattle.json_line.specs.Lines.{IsLine};

    ghost Value = { List Token };

    ghost coded = { tokens_code };

    ghost view = { λ line. tokens line.text.text };

    ghost invariant = { λ line. IsLine line.text.text line.after_value };
}

fn boolean_text(value: bool) -> &'static [u8]
    ensures { result.now ≡ token_text (tokens.boolean value) }
{
    if value { b"true" } else { b"false" }
}

// A writer of one token, in its reused memory.
fn token_writer(token: &mut Vec<u8>, alloc: Global) -> Writer<Global>
    ensures before { result.before ≡ [] }
    ensures tokens { result.tokens ≡ [] }
{
    let mut memory = mem::replace(token, Vec::new(alloc));
    memory.clear();
    Writer::new(memory)
}

/// Each writing call appends its tokens, or fails with [`AllocError`] if an allocation fails. After a failure the line
/// is unchanged, except in calls that write several tokens one after another: [`Line::text`] with bytes that aren't
/// UTF-8, [`Line::text_in`] with bytes that are no text, [`Line::text_in_stated`] with either, and the members with a text or with bytes. There
/// the first tokens may have been written.
///
/// The calls don't check that the tokens form a JSON value: a caller has to end what it begins.
impl Line {
    ghost use Rattle.json_line.specs.Marks.{StandsBehind, IsMarked};

    /// An empty line. No memory is allocated.
    pub fn new(alloc: Global) -> Self
        ensures { result ≡ [] }
    {
        Line {
            alloc,
            text: Buffer::new(alloc),
            after_value: false,
            token: Vec::new(alloc),
            characters: String::new(alloc),
        }
    }

    /// Clears the line and keeps its memory.
    #[inline]
    pub fn clear(&mut self)
        ensures { self.new ≡ [] }
    {
        self.text.clear();
        self.after_value = false;
    }

    /// Takes the line with its memory, and leaves an empty one without memory.
    #[inline]
    pub fn take(&mut self) -> Self
        ensures taken { result ≡ self.old }
        ensures left { self.new ≡ [] }
    {
        let empty = Line::new(self.alloc);
        mem::replace(self, empty)
    }

    /// The place behind the tokens that are written.
    #[inline]
    pub fn mark(&self) -> Mark
        ensures { StandsBehind result self.now }
    {
        Mark {
            len: self.text.len(),
            after_value: self.after_value,
        }
    }

    /// Takes back the tokens that were written since the line was marked, and keeps the memory. The line must still begin
    /// with the tokens of then: it wasn't cleared, nor cut at an earlier mark.
    #[inline]
    pub fn cut(&mut self, mark: Mark)
        requires { IsMarked mark self.old }
        ensures { (before after : List Token) → StandsBehind mark before → self.old ≡ before ++ after → self.new ≡ before }
    {
        self.text.cut(mark.len);
        self.after_value = mark.after_value;
    }

    /// The bytes of the line, with a line feed at the end.
    ///
    /// # Errors
    ///
    /// [`AllocError`] if the allocation fails.
    #[inline]
    pub fn end(&mut self) -> Result<&[u8], AllocError>
        ensures ok { IfOk result (λ text. text.now ≡ print self.old ++ codes "\n") }
        ensures reads_back { read_tokens (print self.old) ≡ self.old }
        ensures utf8 { IsUtf8 (print self.old) }
    {
        self.text.put_behind(b'\n')?;
        Ok(self.text.with_next())
    }

    /// Begins an object: `{`.
    #[inline]
    pub fn begin_object(&mut self) -> Result<(), AllocError>
        ensures added { Adds result self.old self.new (tokens.begin_object ∷ []) }
        ensures unchanged { OnErr result (self.new ≡ self.old) }
    {
        self.text.add(self.after_value, b"{")?;
        self.after_value = false;
        Ok(())
    }

    /// Ends an object: `}`.
    #[inline]
    pub fn end_object(&mut self) -> Result<(), AllocError>
        ensures added { Adds result self.old self.new (tokens.end_object ∷ []) }
        ensures unchanged { OnErr result (self.new ≡ self.old) }
    {
        self.text.add(false, b"}")?;
        self.after_value = true;
        Ok(())
    }

    /// Begins an array: `[`.
    #[inline]
    pub fn begin_array(&mut self) -> Result<(), AllocError>
        ensures added { Adds result self.old self.new (tokens.begin_array ∷ []) }
        ensures unchanged { OnErr result (self.new ≡ self.old) }
    {
        self.text.add(self.after_value, b"[")?;
        self.after_value = false;
        Ok(())
    }

    /// Ends an array: `]`.
    #[inline]
    pub fn end_array(&mut self) -> Result<(), AllocError>
        ensures added { Adds result self.old self.new (tokens.end_array ∷ []) }
        ensures unchanged { OnErr result (self.new ≡ self.old) }
    {
        self.text.add(false, b"]")?;
        self.after_value = true;
        Ok(())
    }

    /// Writes the name of a member and a colon. The name must need no escape: it has no quotation mark, backslash or
    /// control character.
    #[inline(always)]
    pub fn key(&mut self, name: &str) -> Result<(), AllocError>
        requires { IsPlainText name.now }
        ensures added { Adds result self.old self.new (tokens.key name.now ∷ []) }
        ensures unchanged { OnErr result (self.new ≡ self.old) }
    {
        self.text.add_name(self.after_value, name.as_bytes())?;
        self.after_value = false;
        Ok(())
    }

    /// Writes the name of a member and a colon, escaped where needed.
    #[inline]
    pub fn escaped_key(&mut self, name: &str) -> Result<(), AllocError>
        ensures added { Adds result self.old self.new (tokens.key name.now ∷ []) }
        ensures unchanged { OnErr result (self.new ≡ self.old) }
    {
        if is_plain(name.as_bytes()) {
            return self.key_as_it_is(name.as_bytes());
        }
        self.key_with_escapes(name)
    }

    #[inline(always)]
    pub(crate) fn key_as_it_is(&mut self, name: &[u8]) -> Result<(), AllocError>
        requires { (escape name.now ≡ name.now) × IsUtf8 name.now }
        ensures added { Adds result self.old self.new (tokens.key name.now ∷ []) }
        ensures unchanged { OnErr result (self.new ≡ self.old) }
    {
        self.text.add_name(self.after_value, name)?;
        self.after_value = false;
        Ok(())
    }

    // Through the general token writer.
    #[inline(never)]
    pub(crate) fn key_with_escapes(&mut self, name: &str) -> Result<(), AllocError>
        ensures added { Adds result self.old self.new (tokens.key name.now ∷ []) }
        ensures unchanged { OnErr result (self.new ≡ self.old) }
    {
        let mut writer = token_writer(&mut self.token, self.alloc);
        writer.key(name)?;
        self.token = writer.into_inner();
        self.text.add(self.after_value, &self.token)?;
        self.after_value = false;
        Ok(())
    }

    /// Writes the name of a member and a colon, which another line holds and nothing else. They are copied as they are.
    #[inline(always)]
    pub fn copied_key(&mut self, printed: &Line) -> Result<(), AllocError>
        requires { IsKey printed.now }
        ensures added { Adds result self.old self.new printed.now }
        ensures unchanged { OnErr result (self.new ≡ self.old) }
    {
        self.text.add_written(self.after_value, &printed.text)?;
        self.after_value = false;
        Ok(())
    }

    /// Writes `null`.
    #[inline]
    pub fn null(&mut self) -> Result<(), AllocError>
        ensures added { Adds result self.old self.new (tokens.null ∷ []) }
        ensures unchanged { OnErr result (self.new ≡ self.old) }
    {
        self.text.add(self.after_value, b"null")?;
        self.after_value = true;
        Ok(())
    }

    /// Writes `true` or `false`.
    #[inline]
    pub fn boolean(&mut self, value: bool) -> Result<(), AllocError>
        ensures added { Adds result self.old self.new (tokens.boolean value ∷ []) }
        ensures unchanged { OnErr result (self.new ≡ self.old) }
    {
        self.text.add(self.after_value, boolean_text(value))?;
        self.after_value = true;
        Ok(())
    }

    /// Writes a string that needs no escape, as a name for [`Line::key`].
    #[inline]
    pub fn plain_string(&mut self, text: &str) -> Result<(), AllocError>
        requires { IsPlainText text.now }
        ensures added { Adds result self.old self.new (tokens.string text.now ∷ []) }
        ensures unchanged { OnErr result (self.new ≡ self.old) }
    {
        self.string_as_it_is(text.as_bytes())
    }

    // Writes a string if the text is ASCII and needs no escape, else nothing. Answers whether it is. It is checked while it is copied.
    #[inline(always)]
    pub(crate) fn string_if_plain(&mut self, text: &[u8]) -> Result<bool, AllocError>
        ensures added { IfOk result (λ is_plain. AddsIfPlain is_plain text.now self.old self.new) }
        ensures unchanged { OnErr result (self.new ≡ self.old) }
    {
        if !self.text.add_plain(self.after_value, text)? {
            return Ok(false);
        }
        self.after_value = true;
        Ok(true)
    }

    /// Writes a string, escaped where needed.
    #[inline]
    pub fn string(&mut self, text: &str) -> Result<(), AllocError>
        ensures added { Adds result self.old self.new (tokens.string text.now ∷ []) }
        ensures unchanged { OnErr result (self.new ≡ self.old) }
    {
        if self.string_if_plain(text.as_bytes())? {
            return Ok(());
        }
        self.escaped_string(text)
    }

    #[inline(always)]
    pub(crate) fn string_as_it_is(&mut self, text: &[u8]) -> Result<(), AllocError>
        requires { (escape text.now ≡ text.now) × IsUtf8 text.now }
        ensures added { Adds result self.old self.new (tokens.string text.now ∷ []) }
        ensures unchanged { OnErr result (self.new ≡ self.old) }
    {
        self.text.add_quoted(self.after_value, text)?;
        self.after_value = true;
        Ok(())
    }

    // Through the general token writer.
    #[inline(never)]
    pub(crate) fn escaped_string(&mut self, text: &str) -> Result<(), AllocError>
        ensures added { Adds result self.old self.new (tokens.string text.now ∷ []) }
        ensures unchanged { OnErr result (self.new ≡ self.old) }
    {
        let mut writer = token_writer(&mut self.token, self.alloc);
        writer.string(text)?;
        self.token = writer.into_inner();
        self.text.add(self.after_value, &self.token)?;
        self.after_value = true;
        Ok(())
    }

    /// Writes an unsigned number with all its digits.
    #[inline(always)]
    pub fn number(&mut self, number: u64) -> Result<(), AllocError>
        ensures added { Adds result self.old self.new (number_value number) }
        ensures unchanged { OnErr result (self.new ≡ self.old) }
    {
        self.text.add_number(self.after_value, number)?;
        self.after_value = true;
        Ok(())
    }

    /// Writes a signed number with all its digits, and a minus sign if it is negative.
    #[inline(always)]
    pub fn signed_number(&mut self, number: i64) -> Result<(), AllocError>
        ensures added { Adds result self.old self.new (tokens.number (signed_decimal number) ∷ []) }
        ensures unchanged { OnErr result (self.new ≡ self.old) }
    {
        self.text.add_signed(self.after_value, number)?;
        self.after_value = true;
        Ok(())
    }

    /// Writes a decimal number as a string, by groups of its digits: `-12.50`. At least one digit is before the point, and without
    /// digits behind it there is none.
    #[inline(always)]
    pub fn decimal(&mut self, parts: &DecimalParts<'_>) -> Result<(), AllocError>
        ensures added { Adds result self.old self.new (tokens.string (decimal_text parts.now.is_negative parts.now.first parts.now.whole.now parts.now.scale parts.now.part.now parts.now.last) ∷ []) }
        ensures unchanged { OnErr result (self.new ≡ self.old) }
    {
        // The first number is read, so that its range is known.
        let _first = parts.first;
        self.text.add_decimal(self.after_value, parts)?;
        self.after_value = true;
        Ok(())
    }

    /// Writes a date as a string: `2026-11-25`. The year has four digits or more, the other parts two or more.
    #[inline(always)]
    pub fn date(&mut self, date: &DateParts) -> Result<(), AllocError>
        ensures added { Adds result self.old self.new (tokens.string (date_text date.now.year date.now.month date.now.day) ∷ []) }
        ensures unchanged { OnErr result (self.new ≡ self.old) }
    {
        // The parts are read, so that their ranges are known.
        let _year = date.year;
        let _month = date.month;
        let _day = date.day;
        self.text.add_date(self.after_value, date)?;
        self.after_value = true;
        Ok(())
    }

    /// Writes a time as a string, with a minus sign if it is negative: `-06:30:00.000250`. The parts have two digits or more,
    /// the fraction as many as [`TimeParts::digits`] says.
    #[inline(always)]
    pub fn time(&mut self, is_negative: bool, time: &TimeParts) -> Result<(), AllocError>
        ensures added { Adds result self.old self.new (tokens.string (time_text is_negative time.now.hour time.now.minute time.now.second time.now.digits time.now.microseconds) ∷ []) }
        ensures unchanged { OnErr result (self.new ≡ self.old) }
    {
        // The parts are read, so that their ranges are known.
        let _hour = time.hour;
        let _minute = time.minute;
        let _second = time.second;
        self.text.add_time(self.after_value, is_negative, time)?;
        self.after_value = true;
        Ok(())
    }

    /// Writes a date and a time as a string: `2026-11-25 06:30:00.000250`, their parts as [`Line::date`] and [`Line::time`] write
    /// them.
    #[inline(always)]
    pub fn date_time(&mut self, date: &DateParts, time: &TimeParts) -> Result<(), AllocError>
        ensures added { Adds result self.old self.new (tokens.string (date_time_text date.now.year date.now.month date.now.day time.now.hour time.now.minute time.now.second time.now.digits time.now.microseconds) ∷ []) }
        ensures unchanged { OnErr result (self.new ≡ self.old) }
    {
        // The parts are read, so that their ranges are known.
        let _year = date.year;
        let _month = date.month;
        let _day = date.day;
        let _hour = time.hour;
        let _minute = time.minute;
        let _second = time.second;
        self.text.add_date_time(self.after_value, date, time)?;
        self.after_value = true;
        Ok(())
    }

    /// Writes a number that is given by its text, which has to be a number of JSON.
    #[inline]
    pub fn number_text(&mut self, text: &str) -> Result<(), AllocError>
        requires { IsNumber text.now }
        ensures added { Adds result self.old self.new (tokens.number text.now ∷ []) }
        ensures unchanged { OnErr result (self.new ≡ self.old) }
    {
        self.text.add(self.after_value, text.as_bytes())?;
        self.after_value = true;
        Ok(())
    }

    /// Writes bytes as a string of lower-case hexadecimal digits.
    #[inline]
    pub fn bytes(&mut self, bytes: &[u8]) -> Result<(), AllocError>
        ensures added { Adds result self.old self.new (bytes_value bytes.now) }
        ensures unchanged { OnErr result (self.new ≡ self.old) }
    {
        self.text.add_hexadecimal(self.after_value, bytes)?;
        self.after_value = true;
        Ok(())
    }
}
