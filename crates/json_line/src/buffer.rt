//! A growing byte buffer.
ghost use Rattle.std.specs.Prelude.{◌≡◌, ◌≤◌, ◌+◌, ◌*◌, [], ◌∷◌, ◌++◌, length, take, IsAscii, IfOk, OnOk, OnErr};
ghost use Rattle.std.specs.Bool.{OnTrue};
ghost use Rattle.std.specs.Fmt.{decimal, signed_decimal};
ghost use Rattle.hex.specs.Hex.{encode_lower};
ghost use Rattle.json.specs.Print.{escape};
ghost use Rattle.json_line.specs.Buffers.{Puts, PutsIf, comma};
ghost use Rattle.json_line.specs.Decimals.{decimal_text};
ghost use Rattle.json_line.specs.Moments.{date_text, time_text, date_time_text};

use crate::decimal_parts::DecimalParts;
use crate::moment::{DateParts, TimeParts};
use crate::place::{place_byte, place_comma, place_hexadecimal, place_minus};
use crate::place_moment::{place_date, place_time};
use crate::place_next::{
    place_next_between, place_next_bytes, place_next_decimal, place_next_name,
    place_next_named_number, place_next_number, place_next_quoted, place_next_short,
    place_next_signed,
};
use crate::place_plain::place_plain;
use std::alloc::{AllocError, Global};
use std::marker::Model;

// The size of the first allocation, in bytes. Small, since some lines hold no more than a name.
const LEAST_ROOM: usize = 64;

// The longest 64-bit number has 20 digits.
const MAX_DIGITS: usize = 20;

// The longest decimal number has a sign, a number of 20 digits, seven groups of nine, a point, one more group, quotation marks and
// a comma.
const MAX_DECIMAL: usize = 97;

// The longest dates and times, each part of which has at most 20 digits, with their quotation marks and a comma.
const MAX_MOMENT: usize = 140;

/// Bytes, with room for more. Contracts see it as [`Buffered`](../specs/Buffers.antt): the written bytes, the room
/// left, and the byte after the written ones.
#[derive(Drop)]
pub(crate) struct Buffer {
    bytes: Vec<u8>,
    len: usize,
}

impl Model for Buffer {
    ghost use Rattle.std.specs.Prelude.{◌-◌, ◌≤◌, length, take, drop};
    ghost use Rattle.json_line.specs.Buffers.{Buffered, buffered_code};

    ghost Value = { Buffered };

    ghost coded = { buffered_code };

    ghost view = { λ buffer. record { text = take buffer.len buffer.bytes.items; room = length buffer.bytes.items - buffer.len; next = take 1 (drop buffer.len buffer.bytes.items) } };

    ghost invariant = { λ buffer. buffer.len ≤ length buffer.bytes.items };
}

impl Buffer {
    /// An empty buffer. No memory is allocated.
    pub(crate) fn new(alloc: Global) -> Self
        ensures { result.text ≡ [] }
    {
        Buffer {
            bytes: Vec::new(alloc),
            len: 0,
        }
    }

    /// Drops the written bytes and keeps the memory.
    #[inline]
    pub(crate) fn clear(&mut self)
        ensures { self.new.text ≡ [] }
    {
        self.len = 0;
    }

    /// How many bytes are written.
    #[inline(always)]
    pub(crate) fn len(&self) -> usize
        ensures { result ≡ length self.now.text }
    {
        self.len
    }

    /// Keeps the first written bytes, this many, and drops those behind them. The memory is kept.
    #[inline(always)]
    pub(crate) fn cut(&mut self, len: usize)
        requires { len ≤ length self.old.text }
        ensures { self.new.text ≡ take len self.old.text }
    {
        self.len = len;
    }

    /// Stores a byte after the written ones, without making it one of them.
    #[inline]
    pub(crate) fn put_behind(&mut self, byte: u8) -> Result<(), AllocError>
        ensures text { self.new.text ≡ self.old.text }
        ensures next { OnOk result (self.new.next ≡ byte ∷ []) }
    {
        self.reserve(1)?;
        self.bytes[self.len] = byte;
        Ok(())
    }

    /// The written bytes, and the byte after them.
    #[inline]
    pub(crate) fn with_next(&self) -> &[u8]
        requires { length self.now.next ≡ 1 }
        ensures { result.now ≡ self.now.text ++ self.now.next }
    {
        &self.bytes[..self.len + 1]
    }

    /// The written bytes.
    #[inline(always)]
    pub(crate) fn written(&self) -> &[u8]
        ensures { result.now ≡ self.now.text }
    {
        &self.bytes[..self.len]
    }

    // Makes room for this many bytes.
    #[inline(always)]
    fn reserve(&mut self, room: usize) -> Result<(), AllocError>
        ensures text { self.new.text ≡ self.old.text }
        ensures room { OnOk result (room ≤ self.new.room) }
    {
        if room <= self.bytes.len() - self.len {
            return Ok(());
        }
        self.grow(room)
    }

    // At least doubles, so that a long line grows few times.
    #[cold]
    #[inline(never)]
    fn grow(&mut self, room: usize) -> Result<(), AllocError>
        ensures text { self.new.text ≡ self.old.text }
        ensures room { OnOk result (room ≤ self.new.room) }
    {
        let Some(needed) = self.len.checked_add(room) else {
            return Err(AllocError);
        };
        let len = needed
            .max(self.bytes.len().saturating_mul(2))
            .max(LEAST_ROOM);
        self.bytes.resize(len, 0)
    }

    #[inline(always)]
    fn put(&mut self, after_value: bool, text: &[u8])
        requires { length text.now + 1 ≤ self.old.room }
        ensures { self.new.text ≡ self.old.text ++ (comma after_value ++ text.now) }
    {
        let start = self.len;
        let end = start + (text.len() + 1);
        let memory = self.bytes.as_mut_slice();
        let count = place_next_bytes(&mut memory[start..end], after_value, text);
        self.len = start + count;
    }

    /// Writes a comma if wanted, and the bytes. The only error is a failed allocation, which leaves the written bytes
    /// unchanged.
    #[inline(always)]
    pub(crate) fn add(&mut self, after_value: bool, text: &[u8]) -> Result<(), AllocError>
        ensures { Puts result self.old self.new (comma after_value ++ text.now) }
    {
        self.reserve(text.len() + 1)?;
        self.put(after_value, text);
        Ok(())
    }

    #[inline(always)]
    fn put_short(&mut self, after_value: bool, bytes: &[u8], len: usize)
        requires { (len ≤ 32) × (32 ≤ length bytes.now) × (33 ≤ self.old.room) }
        ensures { self.new.text ≡ self.old.text ++ (comma after_value ++ take len bytes.now) }
    {
        let start = self.len;
        let end = start + 33;
        let memory = self.bytes.as_mut_slice();
        let count = place_next_short(&mut memory[start..end], after_value, bytes, len);
        self.len = start + count;
    }

    /// Writes a comma if wanted, and the bytes that are written in another buffer.
    // Most are short, and then are copied with some behind them.
    #[inline(always)]
    pub(crate) fn add_written(
        &mut self,
        after_value: bool,
        other: &Buffer,
    ) -> Result<(), AllocError>
        ensures { Puts result self.old self.new (comma after_value ++ other.now.text) }
    {
        if other.len > 32 || other.bytes.len() < 32 {
            return self.add(after_value, other.written());
        }
        self.reserve(33)?;
        self.put_short(after_value, &other.bytes, other.len);
        Ok(())
    }

    #[inline(always)]
    fn put_quoted(&mut self, after_value: bool, text: &[u8])
        requires { length text.now + 3 ≤ self.old.room }
        ensures { self.new.text ≡ self.old.text ++ (comma after_value ++ 34 ∷ (text.now ++ 34 ∷ [])) }
    {
        let start = self.len;
        let end = start + (text.len() + 3);
        let memory = self.bytes.as_mut_slice();
        let count = place_next_quoted(&mut memory[start..end], after_value, text);
        self.len = start + count;
    }

    /// Writes a comma if wanted, and the bytes in quotation marks.
    #[inline(always)]
    pub(crate) fn add_quoted(&mut self, after_value: bool, text: &[u8]) -> Result<(), AllocError>
        ensures { Puts result self.old self.new (comma after_value ++ 34 ∷ (text.now ++ 34 ∷ [])) }
    {
        self.reserve(text.len() + 3)?;
        self.put_quoted(after_value, text);
        Ok(())
    }

    #[inline(always)]
    fn put_plain(&mut self, after_value: bool, text: &[u8]) -> bool
        requires { length text.now + 3 ≤ self.old.room }
        ensures put { PutsIf result self.old self.new (comma after_value ++ 34 ∷ (text.now ++ 34 ∷ [])) }
        ensures as_it_is { OnTrue result (escape text.now ≡ text.now) }
        ensures ascii { OnTrue result (IsAscii text.now) }
    {
        let memory = self.bytes.as_mut_slice();
        let start = place_comma(memory, self.len, after_value);
        let start = place_byte(memory, start, b'"');
        if !place_plain(memory, start, text) {
            return false;
        }
        self.len = place_byte(memory, start + text.len(), b'"');
        true
    }

    /// Writes a comma if wanted, and the bytes in quotation marks, if all are ASCII and none needs an escape; else nothing. Answers
    /// whether they are.
    #[inline(always)]
    pub(crate) fn add_plain(&mut self, after_value: bool, text: &[u8]) -> Result<bool, AllocError>
        ensures put { IfOk result (λ is_plain. PutsIf is_plain self.old self.new (comma after_value ++ 34 ∷ (text.now ++ 34 ∷ []))) }
        ensures as_it_is { IfOk result (λ is_plain. OnTrue is_plain (escape text.now ≡ text.now)) }
        ensures ascii { IfOk result (λ is_plain. OnTrue is_plain (IsAscii text.now)) }
        ensures unchanged { OnErr result (self.new.text ≡ self.old.text) }
    {
        self.reserve(text.len() + 3)?;
        Ok(self.put_plain(after_value, text))
    }

    #[inline(always)]
    fn put_name(&mut self, after_value: bool, name: &[u8])
        requires { length name.now + 4 ≤ self.old.room }
        ensures { self.new.text ≡ self.old.text ++ (comma after_value ++ 34 ∷ (name.now ++ 34 ∷ 58 ∷ [])) }
    {
        let start = self.len;
        let end = start + (name.len() + 4);
        let memory = self.bytes.as_mut_slice();
        let count = place_next_name(&mut memory[start..end], after_value, name);
        self.len = start + count;
    }

    /// Writes a comma if wanted, the bytes in quotation marks, and a colon.
    #[inline(always)]
    pub(crate) fn add_name(&mut self, after_value: bool, name: &[u8]) -> Result<(), AllocError>
        ensures { Puts result self.old self.new (comma after_value ++ 34 ∷ (name.now ++ 34 ∷ 58 ∷ [])) }
    {
        self.reserve(name.len() + 4)?;
        self.put_name(after_value, name);
        Ok(())
    }

    #[inline(always)]
    fn put_between(&mut self, after_value: bool, before: &[u8], text: &[u8], after: &[u8])
        requires { length before.now + length text.now + length after.now + 1 ≤ self.old.room }
        ensures { self.new.text ≡ self.old.text ++ (comma after_value ++ (before.now ++ (text.now ++ after.now))) }
    {
        let start = self.len;
        let end = start + (before.len() + text.len() + after.len() + 1);
        let memory = self.bytes.as_mut_slice();
        let count = place_next_between(&mut memory[start..end], after_value, before, text, after);
        self.len = start + count;
    }

    /// Writes a comma if wanted, and three texts, the first and the last of which are short.
    #[inline(always)]
    pub(crate) fn add_between(
        &mut self,
        after_value: bool,
        before: &[u8],
        text: &[u8],
        after: &[u8],
    ) -> Result<(), AllocError>
        requires { (length before.now ≤ 16) × (length after.now ≤ 16) }
        ensures { Puts result self.old self.new (comma after_value ++ (before.now ++ (text.now ++ after.now))) }
    {
        self.reserve(before.len() + text.len() + after.len() + 1)?;
        self.put_between(after_value, before, text, after);
        Ok(())
    }

    #[inline(always)]
    fn put_number(&mut self, after_value: bool, number: u64)
        requires { 21 ≤ self.old.room }
        ensures { self.new.text ≡ self.old.text ++ (comma after_value ++ decimal number) }
    {
        let start = self.len;
        let end = start + (MAX_DIGITS + 1);
        let memory = self.bytes.as_mut_slice();
        let count = place_next_number(&mut memory[start..end], after_value, number);
        self.len = start + count;
    }

    /// Writes a comma if wanted, and a decimal number.
    #[inline(always)]
    pub(crate) fn add_number(&mut self, after_value: bool, number: u64) -> Result<(), AllocError>
        ensures { Puts result self.old self.new (comma after_value ++ decimal number) }
    {
        self.reserve(MAX_DIGITS + 1)?;
        self.put_number(after_value, number);
        Ok(())
    }

    #[inline(always)]
    fn put_named_number(&mut self, after_value: bool, name: &[u8], number: u64)
        requires { length name.now + 24 ≤ self.old.room }
        ensures { self.new.text ≡ self.old.text ++ (comma after_value ++ (34 ∷ (name.now ++ 34 ∷ 58 ∷ [])) ++ decimal number) }
    {
        let start = self.len;
        let end = start + (name.len() + MAX_DIGITS + 4);
        let memory = self.bytes.as_mut_slice();
        let count = place_next_named_number(&mut memory[start..end], after_value, name, number);
        self.len = start + count;
    }

    /// Writes a comma if wanted, the bytes in quotation marks, a colon, and a decimal number.
    #[inline(always)]
    pub(crate) fn add_named_number(
        &mut self,
        after_value: bool,
        name: &[u8],
        number: u64,
    ) -> Result<(), AllocError>
        ensures { Puts result self.old self.new (comma after_value ++ (34 ∷ (name.now ++ 34 ∷ 58 ∷ [])) ++ decimal number) }
    {
        self.reserve(name.len() + MAX_DIGITS + 4)?;
        self.put_named_number(after_value, name, number);
        Ok(())
    }

    #[inline(always)]
    fn put_signed(&mut self, after_value: bool, number: i64)
        requires { 22 ≤ self.old.room }
        ensures { self.new.text ≡ self.old.text ++ (comma after_value ++ signed_decimal number) }
    {
        let start = self.len;
        let end = start + (MAX_DIGITS + 2);
        let memory = self.bytes.as_mut_slice();
        let count = place_next_signed(&mut memory[start..end], after_value, number);
        self.len = start + count;
    }

    /// Writes a comma if wanted, and a signed decimal number.
    #[inline(always)]
    pub(crate) fn add_signed(&mut self, after_value: bool, number: i64) -> Result<(), AllocError>
        ensures { Puts result self.old self.new (comma after_value ++ signed_decimal number) }
    {
        self.reserve(MAX_DIGITS + 2)?;
        self.put_signed(after_value, number);
        Ok(())
    }

    #[inline(always)]
    fn put_decimal(&mut self, after_value: bool, parts: &DecimalParts<'_>)
        requires { 97 ≤ self.old.room }
        ensures { self.new.text ≡ self.old.text ++ (comma after_value ++ 34 ∷ (decimal_text parts.now.is_negative parts.now.first parts.now.whole.now parts.now.scale parts.now.part.now parts.now.last ++ 34 ∷ [])) }
    {
        let start = self.len;
        let end = start + MAX_DECIMAL;
        let memory = self.bytes.as_mut_slice();
        let count = place_next_decimal(&mut memory[start..end], after_value, parts);
        self.len = start + count;
    }

    /// Writes a comma if wanted, and a decimal number in quotation marks.
    #[inline(always)]
    pub(crate) fn add_decimal(
        &mut self,
        after_value: bool,
        parts: &DecimalParts<'_>,
    ) -> Result<(), AllocError>
        ensures { Puts result self.old self.new (comma after_value ++ 34 ∷ (decimal_text parts.now.is_negative parts.now.first parts.now.whole.now parts.now.scale parts.now.part.now parts.now.last ++ 34 ∷ [])) }
    {
        self.reserve(MAX_DECIMAL)?;
        self.put_decimal(after_value, parts);
        Ok(())
    }

    #[inline(always)]
    fn put_date(&mut self, after_value: bool, date: &DateParts)
        requires { 70 ≤ self.old.room }
        ensures { self.new.text ≡ self.old.text ++ (comma after_value ++ 34 ∷ (date_text date.now.year date.now.month date.now.day ++ 34 ∷ [])) }
    {
        let memory = self.bytes.as_mut_slice();
        let at = place_comma(memory, self.len, after_value);
        let at = place_byte(memory, at, b'"');
        let at = place_date(memory, at, date);
        self.len = place_byte(memory, at, b'"');
    }

    /// Writes a comma if wanted, and a date in quotation marks.
    #[inline(always)]
    pub(crate) fn add_date(&mut self, after_value: bool, date: &DateParts) -> Result<(), AllocError>
        ensures { Puts result self.old self.new (comma after_value ++ 34 ∷ (date_text date.now.year date.now.month date.now.day ++ 34 ∷ [])) }
    {
        self.reserve(MAX_MOMENT)?;
        self.put_date(after_value, date);
        Ok(())
    }

    #[inline(always)]
    #[tactic(auto, unfolding(crate::specs::Moments::time_text))]
    fn put_time(&mut self, after_value: bool, is_negative: bool, time: &TimeParts)
        requires { 80 ≤ self.old.room }
        ensures { self.new.text ≡ self.old.text ++ (comma after_value ++ 34 ∷ (time_text is_negative time.now.hour time.now.minute time.now.second time.now.digits time.now.microseconds ++ 34 ∷ [])) }
    {
        let memory = self.bytes.as_mut_slice();
        let at = place_comma(memory, self.len, after_value);
        let at = place_byte(memory, at, b'"');
        let at = place_minus(memory, at, is_negative);
        let at = place_time(memory, at, time);
        self.len = place_byte(memory, at, b'"');
    }

    /// Writes a comma if wanted, and a time in quotation marks.
    #[inline(always)]
    pub(crate) fn add_time(
        &mut self,
        after_value: bool,
        is_negative: bool,
        time: &TimeParts,
    ) -> Result<(), AllocError>
        ensures { Puts result self.old self.new (comma after_value ++ 34 ∷ (time_text is_negative time.now.hour time.now.minute time.now.second time.now.digits time.now.microseconds ++ 34 ∷ [])) }
    {
        self.reserve(MAX_MOMENT)?;
        self.put_time(after_value, is_negative, time);
        Ok(())
    }

    #[inline(always)]
    #[tactic(auto, unfolding(crate::specs::Moments::date_time_text))]
    fn put_date_time(&mut self, after_value: bool, date: &DateParts, time: &TimeParts)
        requires { 140 ≤ self.old.room }
        ensures { self.new.text ≡ self.old.text ++ (comma after_value ++ 34 ∷ (date_time_text date.now.year date.now.month date.now.day time.now.hour time.now.minute time.now.second time.now.digits time.now.microseconds ++ 34 ∷ [])) }
    {
        let memory = self.bytes.as_mut_slice();
        let at = place_comma(memory, self.len, after_value);
        let at = place_byte(memory, at, b'"');
        let at = place_date(memory, at, date);
        let at = place_byte(memory, at, b' ');
        let at = place_time(memory, at, time);
        self.len = place_byte(memory, at, b'"');
    }

    /// Writes a comma if wanted, and a date and a time in quotation marks.
    #[inline(always)]
    pub(crate) fn add_date_time(
        &mut self,
        after_value: bool,
        date: &DateParts,
        time: &TimeParts,
    ) -> Result<(), AllocError>
        ensures { Puts result self.old self.new (comma after_value ++ 34 ∷ (date_time_text date.now.year date.now.month date.now.day time.now.hour time.now.minute time.now.second time.now.digits time.now.microseconds ++ 34 ∷ [])) }
    {
        self.reserve(MAX_MOMENT)?;
        self.put_date_time(after_value, date, time);
        Ok(())
    }

    #[inline(always)]
    fn put_hexadecimal(&mut self, after_value: bool, bytes: &[u8])
        requires { 2 * length bytes.now + 3 ≤ self.old.room }
        ensures { self.new.text ≡ self.old.text ++ (comma after_value ++ 34 ∷ (encode_lower bytes.now ++ 34 ∷ [])) }
    {
        let memory = self.bytes.as_mut_slice();
        let at = place_comma(memory, self.len, after_value);
        let at = place_byte(memory, at, b'"');
        let at = place_hexadecimal(memory, at, bytes);
        self.len = place_byte(memory, at, b'"');
    }

    /// Writes a comma if wanted, and the bytes as hexadecimal digits in quotation marks.
    #[inline(always)]
    pub(crate) fn add_hexadecimal(
        &mut self,
        after_value: bool,
        bytes: &[u8],
    ) -> Result<(), AllocError>
        ensures { Puts result self.old self.new (comma after_value ++ 34 ∷ (encode_lower bytes.now ++ 34 ∷ [])) }
    {
        let Some(room) = (2 * bytes.len()).checked_add(3) else {
            return Err(AllocError);
        };
        self.reserve(room)?;
        self.put_hexadecimal(after_value, bytes);
        Ok(())
    }
}
