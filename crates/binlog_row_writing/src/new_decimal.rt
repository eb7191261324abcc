//! Decimal numbers to write.
ghost use Rattle.std.specs.Prelude.{◌≡◌, ◌≤◌, ◌<◌, ◌+◌, ◌*◌, ◌/◌, ◌%◌, ◌-◌, ◌^◌, ◌==◌, ◌++◌, ◌∷◌, [], ◌↔◌, length, replicate, true, IsTrue, IfOk, IsOkUnless, Err, vec_len, vec_capacity};
ghost use Rattle.binlog_wire.specs.Putting.{Puts};
ghost use Rattle.binlog_values.specs.Contents.{digits_len, decimal_len, is_decimal_bytes};
ghost use Rattle.binlog_row_writing.specs.Decimals.{AreDigits, IsDecimal, digit_at, group_number, stored_number, group_bytes, groups_bytes, decimal_bytes};
ghost use Rattle.binlog_row_writing.specs.declared.row_write_error.RowWriteErrorKind.TheVariants.{OutOfRange, Memory};

use crate::put::put_big;
use crate::row_write_error::RowWriteErrorKind;
use binlog_wire::reserve;
use std::alloc::Global;

/// A decimal number, as a NEWDECIMAL column of its precision and scale stores it.
#[derive(Debug, PartialEq, Eq, Hash, Drop)]
pub struct NewDecimal {
    bytes: Vec<u8>,
    precision: u8,
    scale: u8,
    ghost whole: { length bytes.items ≡ decimal_len precision scale },
    ghost fits: { is_decimal_bytes precision scale bytes.items ≡ true },
}

/// The digits of a number of this precision, the most significant first; those that are left out in front are 0.
#[derive(Clone, Copy, Debug)]
struct Digits<'a> {
    precision: u8,
    is_negative: bool,
    digits: &'a [u8],
    ghost most: { precision ≤ 65 },
    ghost enough: { length digits.now ≤ precision },
    ghost are_digits: { AreDigits digits.now },
}

/// The number of bytes of a group of this many decimal digits, at most nine.
fn digits_len(count: u8) -> usize
    requires { count ≤ 9 }
    ensures len { result ≡ digits_len count }
    ensures some { 1 ≤ count → 1 ≤ result }
    ensures small { result ≤ 4 }
{
    if count == 9 {
        4
    } else {
        (usize::from(count) + 1) / 2
    }
}

/// The number of bytes of a decimal number of this precision and scale.
#[tactic(auto, using(binlog_values::specs::DecimalLaws::decimal_count))]
fn decimal_len(precision: u8, scale: u8) -> usize
    requires high { precision ≤ 65 }
    requires scale { scale ≤ precision }
    ensures { result ≡ decimal_len precision scale }
{
    let whole = precision - scale;
    let nines = whole / 9 + scale / 9;
    digits_len(whole % 9) + 4 * usize::from(nines) + digits_len(scale % 9)
}

/// 256 to the power of `len`, 1 to 4.
fn pow_256(len: usize) -> u64
    requires low { 1 ≤ len }
    requires high { len ≤ 4 }
    ensures power { result ≡ 256 ^ len }
    ensures most { result ≤ 2 ^ 32 }
{
    match len {
        1 => 1 << 8,
        2 => 1 << 16,
        3 => 1 << 24,
        _ => 1 << 32,
    }
}

/// The stored number of a group, by its number: in the first group the top bit says that the number isn't negative, and in
/// a negative number all other bits are complemented.
fn stored_number(is_first: bool, is_negative: bool, all: u64, number: u64) -> u64
    requires small { number < all / 2 }
    requires most { all ≤ 2 ^ 32 }
    ensures { result ≡ stored_number is_first is_negative all number }
{
    match (is_first, is_negative) {
        (true, false) => all / 2 + number,
        (true, true) => all / 2 - 1 - number,
        (false, false) => number,
        (false, true) => all - 1 - number,
    }
}

impl Digits<'_> {
    /// The digit at this index.
    #[tactic(auto, using(crate::specs::DecimalFits::digit_small, crate::specs::DecimalFits::digit_left_out, crate::specs::DecimalFits::digit_given))]
    fn digit(&self, index: u8) -> u64
        requires { index < self.now.precision }
        ensures digit { result ≡ digit_at self.now.precision self.now.digits.now index }
        ensures small { result ≤ 9 }
    {
        let missing = usize::from(self.precision) - self.digits.len();
        let index = usize::from(index);
        if index < missing {
            0
        } else {
            u64::from(self.digits[index - missing])
        }
    }

    /// The number of `count` digits, at most nine, from this index on.
    #[tactic(auto, using(crate::specs::DecimalFits::group_start, crate::specs::DecimalFits::group_step, crate::specs::DecimalFits::number_bound))]
    fn group(&self, count: u8, at: u8) -> u64
        requires count { count ≤ 9 }
        requires room { at + count ≤ self.now.precision }
        ensures { result ≡ group_number self.now.precision self.now.digits.now count at }
    {
        let mut number = 0;
        for index in at..at + count {
            number = number * 10 + self.digit(index);
        }
        number
    }

    /// Appends the group of `count` digits, at most nine, from this index on, to `out`, which has the capacity.
    #[tactic(auto, using(crate::specs::DecimalFits::group_half, crate::specs::DecimalFits::stored_small, crate::specs::DecimalFits::none_at, crate::specs::DecimalFits::group_len, crate::specs::PutLaws::big_len), unfolding(crate::specs::Decimals::group_bytes))]
    fn put_group(&self, count: u8, at: u8, out: &mut Vec<u8>)
        requires count { count ≤ 9 }
        requires digits { at + count ≤ self.now.precision }
        requires room { vec_len out.old + digits_len count ≤ vec_capacity out.old }
        ensures { Puts out.old out.new (group_bytes self.now.precision self.now.is_negative self.now.digits.now count at (vec_len out.old == 0)) }
    {
        if count == 0 {
            return;
        }
        let len = digits_len(count);
        let number = self.group(count, at);
        let stored = stored_number(out.len() == 0, self.is_negative, pow_256(len), number);
        put_big(len, stored, out);
    }
}

impl Digits<'_> {
    /// Appends so many groups of nine digits, from this index on, and one of `tail` digits, at most nine, to `out`, which
    /// has the capacity.
    #[tactic(auto, using(crate::specs::DecimalGroups::rest_step, crate::specs::DecimalGroups::rest_end, crate::specs::DecimalGroups::rest_len))]
    fn put_rest(&self, nines: u8, at: u8, tail: u8, out: &mut Vec<u8>)
        requires tail { tail ≤ 9 }
        requires digits { at + 9 * nines + tail ≤ self.now.precision }
        requires room { vec_len out.old + (4 * nines + digits_len tail) ≤ vec_capacity out.old }
        ensures { Puts out.old out.new (groups_bytes self.now.precision self.now.is_negative self.now.digits.now (replicate nines 9 ++ tail ∷ []) at (vec_len out.old)) }
    {
        let mut place = at;
        for _index in 0..nines {
            self.put_group(9, place, out);
            place += 9;
        }
        self.put_group(tail, place, out);
    }

    /// Appends the number, of which `scale` digits are after the point, to `out`, which is empty and has the capacity.
    #[tactic(auto, using(crate::specs::DecimalGroups::whole_split, crate::specs::DecimalGroups::whole_len, crate::specs::DecimalGroups::lead_len, binlog_values::specs::DecimalLaws::decimal_count))]
    fn put(&self, scale: u8, out: &mut Vec<u8>)
        requires scale { scale ≤ self.now.precision }
        requires empty { vec_len out.old ≡ 0 }
        requires room { decimal_len self.now.precision scale ≤ vec_capacity out.old }
        ensures { Puts out.old out.new (decimal_bytes self.now.precision scale self.now.is_negative self.now.digits.now) }
    {
        let whole = self.precision - scale;
        self.put_group(whole % 9, 0, out);
        self.put_rest(whole / 9 + scale / 9, whole % 9, scale % 9, out);
    }
}

/// Whether all are decimal digits.
fn are_digits(digits: &[u8]) -> bool
    ensures { IsTrue result ↔ AreDigits digits.now }
{
    digits.iter().all(|digit| *digit <= 9)
}

/// Whether the precision and the scale are a column's, and these are at most as many digits.
fn is_decimal(precision: u8, scale: u8, digits: &[u8]) -> bool
    ensures { IsTrue result ↔ IsDecimal precision scale digits.now }
{
    1 <= precision
        && precision <= 65
        && scale <= precision
        && scale <= 38
        && digits.len() <= usize::from(precision)
        && are_digits(digits)
}

impl NewDecimal {
    /// The number with these digits, each from 0 to 9 and the most significant first, of which the last `scale` are after
    /// the point: `-12.50` has the digits `1250` and the scale 2. It is for a column of this precision and scale; digits
    /// that are left out in front are 0. Minus zero is a number.
    ///
    /// # Errors
    ///
    /// - [`RowWriteErrorKind::OutOfRange`] if the precision isn't 1 to 65, the scale is above the precision or above 38,
    ///   there are more digits than the precision, or one isn't a decimal digit.
    /// - [`RowWriteErrorKind::Memory`] if memory is refused.
    #[tactic(auto, using(crate::specs::DecimalFits::decimal_fits, crate::specs::DecimalFits::decimal_size))]
    pub fn new(
        alloc: Global,
        precision: u8,
        scale: u8,
        is_negative: bool,
        digits: &[u8],
    ) -> Result<Self, RowWriteErrorKind>
        ensures bytes { IfOk result (λ d. d.bytes.items ≡ decimal_bytes precision scale is_negative digits.now) }
        ensures precision { IfOk result (λ d. d.precision ≡ precision) }
        ensures scale { IfOk result (λ d. d.scale ≡ scale) }
        ensures refused { ¬ IsDecimal precision scale digits.now → result ≡ Err OutOfRange }
        ensures granted { IsDecimal precision scale digits.now → IsOkUnless result Memory }
    {
        if !is_decimal(precision, scale, digits) {
            return Err(RowWriteErrorKind::OutOfRange);
        }
        let number = Digits {
            precision,
            is_negative,
            digits,
        };
        let mut bytes = Vec::new(alloc);
        match reserve(&mut bytes, decimal_len(precision, scale)) {
            Ok(()) => {}
            Err(_) => return Err(RowWriteErrorKind::Memory),
        }
        number.put(scale, &mut bytes);
        Ok(NewDecimal {
            bytes,
            precision,
            scale,
        })
    }

    /// The bytes, as they are encoded.
    pub fn as_bytes(&self) -> &[u8]
        ensures { result.now ≡ self.now.bytes.items }
    {
        self.bytes.as_slice()
    }

    /// The number of decimal digits.
    pub fn precision(&self) -> u8
        ensures { result ≡ self.now.precision }
    {
        self.precision
    }

    /// The number of decimal digits after the point.
    pub fn scale(&self) -> u8
        ensures { result ≡ self.now.scale }
    {
        self.scale
    }
}
