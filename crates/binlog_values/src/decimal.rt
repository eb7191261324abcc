//! Decimal numbers.
ghost use Rattle.std.specs.Prelude.{◌≡◌, ◌<◌, ◌≤◌, ◌/◌, ◌+◌, ◌%◌, ◌^◌, ◌++◌, All, OnOk, OnErr, MatchOption, IsSome, is_ok, true, length, take, drop, if◌then◌else◌};
ghost use Rattle.std.specs.String.{string_bytes};
ghost use Rattle.binlog_values.specs.Contents.{decimal_len, is_decimal_bytes};
ghost use Rattle.binlog_values.specs.Texts.{StartsWith};
ghost use Rattle.binlog_values.specs.DecimalGroups.{grouped_text, parts_text};
ghost use Rattle.binlog_values.specs.Decimals.{is_negative_decimal, decimal_number, unscaled, decimal_text};

use crate::decimal_groups::{DecimalGroups, front_of, read_nines};
use crate::decimal_number::decimal_number;
use crate::decimal_text::{push_scale, push_whole};
use crate::digits::{digits_len, group_number};
use crate::text::push_sign;
use std::alloc::AllocError;

/// The value of a DECIMAL column.
#[derive(Clone, Copy, Debug, PartialEq, Eq, Hash)]
pub struct Decimal<'a> {
    pub(crate) bytes: &'a [u8],
    pub(crate) precision: u8,
    pub(crate) scale: u8,
    ghost some: { 1 ≤ precision },
    ghost most: { precision ≤ 65 },
    ghost within: { scale ≤ precision },
    ghost whole: { length bytes.now ≡ decimal_len precision scale },
    ghost fits: { is_decimal_bytes precision scale bytes.now ≡ true },
}

impl<'a> Decimal<'a> {
    /// The bytes of the number, as they are encoded.
    pub fn as_bytes(&self) -> &'a [u8]
        ensures { result.now ≡ self.now.bytes.now }
    {
        self.bytes
    }

    /// The number of decimal digits, 1 to 65.
    pub fn precision(&self) -> u8
        ensures { result ≡ self.now.precision }
    {
        self.precision
    }

    /// The number of decimal digits after the point, at most 38 and not above the precision.
    pub fn scale(&self) -> u8
        ensures { result ≡ self.now.scale }
    {
        self.scale
    }

    /// Whether the number has a minus sign. Minus zero has one; servers don't write it.
    #[tactic(auto, using(crate::specs::DecimalLaws::some_bytes))]
    pub fn is_negative(&self) -> bool
        ensures { result ≡ is_negative_decimal self.now.bytes.now }
    {
        self.bytes[0] < 128
    }

    /// The exact integer that the digits are without the point, with its sign: the number is this integer divided by 10 to the
    /// power of [`scale`](Self::scale). `-12.50` is -1250 at the scale 2.
    ///
    /// None if its digits are 2^127 or more, which those of a precision of at most 38 never are.
    #[tactic(auto, using(crate::specs::DecimalLaws::few_digits))]
    pub fn unscaled(&self) -> Option<i128>
        ensures number { MatchOption result (2 ^ 127 ≤ decimal_number self.now.precision self.now.scale self.now.bytes.now) (λ number. (decimal_number self.now.precision self.now.scale self.now.bytes.now < 2 ^ 127) × (number ≡ unscaled self.now.precision self.now.scale self.now.bytes.now)) }
        ensures some { self.now.precision ≤ 38 → IsSome result }
    {
        let number = decimal_number(self.bytes, self.precision, self.scale)?;
        if number >= 1 << 127 {
            return None;
        }
        let number = number as i128;
        Some(if self.is_negative() { -number } else { number })
    }

    /// The digits by groups of nine, as they are stored, without the groups in front whose digits are all zero.
    ///
    /// Written one after another they are the text of the number: its sign, the first number in decimal, nine digits of each group
    /// before the point, and, if the scale isn't 0, the point, nine digits of each group behind it, and of the last number as many
    /// as are left. Each number has at most nine digits, and the last one as many as are left: it is 0 if none are.
    #[tactic(auto, using(crate::specs::DecimalLaws::decimal_count))]
    #[inline]
    pub fn groups(&self) -> DecimalGroups
        ensures part { result.part ≡ self.now.scale / 9 }
        ensures first { result.first < 10 ^ 9 }
        ensures nines { All (λ group. group < 10 ^ 9) (take (result.whole + result.part) result.nines) }
        ensures last { result.last < 10 ^ (self.now.scale % 9) }
        ensures text { parts_text (is_negative_decimal self.now.bytes.now) result.first (take result.whole result.nines) self.now.scale (take result.part (drop result.whole result.nines)) result.last ≡ decimal_text self.now.precision self.now.scale self.now.bytes.now }
    {
        let whole = self.precision - self.scale;
        let number = group_number(self.bytes, 0, whole % 9);
        let start = digits_len(whole % 9);
        let many = usize::from(whole / 9);
        let front = front_of(self.bytes, number, start, many);
        let part = usize::from(self.scale / 9);
        let count = front.left + part;
        let nines = read_nines(self.bytes, front.place, count);
        let last = group_number(self.bytes, front.place + 4 * count, self.scale % 9);
        DecimalGroups {
            first: front.first,
            nines,
            whole: front.left,
            part,
            last,
        }
    }

    /// Appends the number in decimal, with all digits after the point: `-12.50`. Of the digits before the point, zeros in
    /// front are left out, and at least one digit is written.
    ///
    /// # Errors
    ///
    /// `AllocError` if memory is refused. The text is then as it was.
    #[tactic(auto, using(crate::proofs::ShownDigits::decimal_shown))]
    pub fn push_to(&self, text: &mut String) -> Result<(), AllocError>
        ensures { string_bytes text.new ≡ (if is_ok result then string_bytes text.old ++ decimal_text self.now.precision self.now.scale self.now.bytes.now else string_bytes text.old) }
    {
        let len = text.len();
        match self.push_parts(text) {
            Ok(()) => Ok(()),
            Err(error) => {
                text.truncate(len);
                Err(error)
            }
        }
    }

    // Appends the number in decimal, or a part of it if memory is refused.
    #[tactic(auto, using(std::proofs::Common::append_assoc, crate::specs::DecimalLaws::decimal_count, crate::proofs::TextFronts::starts_on, crate::proofs::TextFronts::starts_before), unfolding(crate::specs::DecimalGroups::grouped_text))]
    fn push_parts(&self, text: &mut String) -> Result<(), AllocError>
        ensures ok { OnOk result (string_bytes text.new ≡ string_bytes text.old ++ grouped_text self.now.precision self.now.scale self.now.bytes.now) }
        ensures err { OnErr result (StartsWith (string_bytes text.old) (string_bytes text.new)) }
    {
        let whole = self.precision - self.scale;
        let start = digits_len(whole % 9) + 4 * usize::from(whole / 9);
        push_sign(text, self.is_negative())?;
        push_whole(text, self.bytes, whole)?;
        push_scale(text, self.bytes, start, self.scale)
    }
}
