//! Decimal numbers, and the bytes of their digits.
ghost use Rattle.std.specs.Prelude.{◌≡◌, ◌+◌, ◌-◌, ◌*◌, ◌/◌, ◌%◌, ◌^◌, ◌<◌, ◌≤◌, ◌∷◌, ◌++◌, [], true, option_map, length, take, drop, nat_lt, replicate, slice_index};
ghost use Rattle.binary_json.specs.Opaques.{digits_len, groups, groups_len, magnitude, number_behind, groups_fit, is_decimal, is_negative_decimal, is_decimal_data, decimal_parts};

/// The most digits of a decimal number: nine groups of nine.
const MOST_DIGITS: u8 = 81;

/// The most digits behind the point.
const MOST_SCALE: u8 = 38;

/// A decimal number of an opaque value. Its digits stand in groups, each a number: before the point a group of fewer than nine
/// digits, possibly of none, and groups of nine; after the point groups of nine, and one of fewer.
#[derive(Clone, Copy, Debug)]
pub struct Decimal<'a> {
    pub(crate) precision: u8,
    pub(crate) scale: u8,
    pub(crate) digits: &'a [u8],
    ghost fits: { is_decimal precision scale digits.now ≡ true },
}

impl<'a> Decimal<'a> {
    /// The number of decimal digits, 1 to 81: a cast to DECIMAL may have more than a column.
    #[tactic(auto, using(crate::proofs::DecimalParts::decimal_parts))]
    pub fn precision(&self) -> u8
        ensures is { result ≡ self.now.precision }
        ensures most { result ≤ 81 }
    {
        self.precision
    }

    /// The number of decimal digits after the point, at most 38 and not above the precision.
    #[tactic(auto, using(crate::proofs::DecimalParts::decimal_parts))]
    pub fn scale(&self) -> u8
        ensures is { result ≡ self.now.scale }
        ensures most { result ≤ 38 }
        ensures within { result ≤ self.now.precision }
    {
        self.scale
    }

    /// Whether the number has a minus sign. Minus zero may have one.
    pub fn is_negative(&self) -> bool
        ensures { result ≡ is_negative_decimal self.now.digits.now }
    {
        match self.digits.first() {
            Some(first) => *first < 128,
            None => false,
        }
    }

    /// The number of a group of this many digits, whose bytes begin at the index `at`.
    #[tactic(auto, using(crate::proofs::DecimalParts::decimal_parts))]
    pub fn group(&self, at: usize, digits: u8) -> u64
        requires digits { digits ≤ 9 }
        requires room { at + digits_len digits ≤ groups_len (groups self.now.precision self.now.scale) }
        ensures { result ≡ number_behind 0 (take (digits_len digits) (drop at (magnitude self.now.digits.now))) }
    {
        group(self.digits, at, digits_len(digits))
    }
}

/// The decimal number of the bytes of an opaque value: its precision, its scale, and its digits.
#[tactic(auto, using(crate::proofs::DecimalParts::parts_fit))]
pub(crate) fn decimal_in(bytes: &[u8]) -> Option<Decimal<'_>>
    requires { is_decimal_data bytes.now ≡ true }
    ensures { option_map (λ d. (d.precision, d.scale, d.digits.now)) result ≡ decimal_parts bytes.now }
{
    match bytes {
        [precision, scale, digits @ ..] => Some(Decimal {
            precision: *precision,
            scale: *scale,
            digits,
        }),
        _ => None,
    }
}

/// Whether the bytes are the digits of a decimal number of this precision and scale.
#[tactic(auto, unfolding(crate::specs::Opaques::is_decimal))]
pub(crate) fn is_decimal(precision: u8, scale: u8, digits: &[u8]) -> bool
    ensures { result ≡ is_decimal precision scale digits.now }
{
    precision >= 1
        && precision <= MOST_DIGITS
        && scale <= precision
        && scale <= MOST_SCALE
        && digits.len() == decimal_len(precision, scale)
        && all_fit(precision, scale, digits)
}

/// The number of bytes of a group of this many digits, at most nine.
pub fn digits_len(digits: u8) -> usize
    requires { digits ≤ 9 }
    ensures len { result ≡ digits_len digits }
    ensures small { result ≤ 4 }
{
    if digits == 9 {
        4
    } else {
        (usize::from(digits) + 1) / 2
    }
}

// The number of bytes of all groups.
#[tactic(auto, using(crate::proofs::Decimals::groups_count))]
fn decimal_len(precision: u8, scale: u8) -> usize
    requires { scale ≤ precision }
    ensures { result ≡ groups_len (groups precision scale) }
{
    let whole = precision - scale;
    digits_len(whole % 9)
        + 4 * (usize::from(whole / 9) + usize::from(scale / 9))
        + digits_len(scale % 9)
}

// Whether each group is a number with as many digits.
#[tactic(auto, using(crate::proofs::Decimals::groups_count))]
fn all_fit(precision: u8, scale: u8, digits: &[u8]) -> bool
    requires most { precision ≤ 81 }
    requires scale { scale ≤ precision }
    requires len { length digits.now ≡ groups_len (groups precision scale) }
    ensures { result ≡ groups_fit (groups precision scale) (magnitude digits.now) }
{
    let whole = precision - scale;
    let lead = whole % 9;
    group_fits(digits, 0, lead)
        && groups_fit(digits, digits_len(lead), whole / 9 + scale / 9, scale % 9)
}

// Whether each of `count` groups of nine digits from the index `at`, and one of `tail` digits behind them, is a number with as
// many digits.
#[tactic(auto, using(crate::proofs::Decimals::fit_end))]
fn groups_fit(digits: &[u8], at: usize, count: u8, tail: u8) -> bool
    requires digits { tail ≤ 9 }
    requires room { at + 4 * count + digits_len tail ≤ length digits.now }
    ensures { result ≡ groups_fit (replicate count 9 ++ tail ∷ []) (drop at (magnitude digits.now)) }
{
    let mut place = at;
    'groups: for index in 0..count {
        if !group_fits(digits, place, 9) {
            return false;
        }
        place += 4;
    }
    group_fits(digits, place, tail)
}

// Whether the group of this many digits from the index `at` is a number with as many digits.
fn group_fits(digits: &[u8], at: usize, count: u8) -> bool
    requires digits { count ≤ 9 }
    requires room { at + digits_len count ≤ length digits.now }
    ensures { result ≡ nat_lt (number_behind 0 (take (digits_len count) (drop at (magnitude digits.now)))) (10 ^ count) }
{
    group(digits, at, digits_len(count)) < pow_10(count)
}

// The number of the group of this many bytes from the index `at`.
fn group(digits: &[u8], at: usize, len: usize) -> u64
    requires room { at + len ≤ length digits.now }
    requires short { len ≤ 4 }
    ensures { result ≡ number_behind 0 (take len (drop at (magnitude digits.now))) }
{
    let mut number = 0;
    'bytes: for index in at..at + len {
        number = 256 * number + u64::from(magnitude_at(digits, index));
    }
    number
}

// A byte without the sign. The bytes of a negative number are complemented.
#[tactic(auto, using(crate::proofs::Decimals::magnitude_at))]
fn magnitude_at(digits: &[u8], index: usize) -> u8
    requires { index < length digits.now }
    ensures { result ≡ slice_index (magnitude digits.now) index }
{
    match (index, digits[0] >= 128) {
        (0, true) => digits[0] - 128,
        (0, false) => 127 - digits[0],
        (_, true) => digits[index],
        (_, false) => 255 - digits[index],
    }
}

/// 10 to the power of `exponent`, at most nine.
pub fn pow_10(exponent: u8) -> u64
    requires { exponent ≤ 9 }
    ensures { result ≡ 10 ^ exponent }
{
    match exponent {
        0 => 1,
        1 => 10,
        2 => 100,
        3 => 1_000,
        4 => 10_000,
        5 => 100_000,
        6 => 1_000_000,
        7 => 10_000_000,
        8 => 100_000_000,
        _ => 1_000_000_000,
    }
}
