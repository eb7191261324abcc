//! The exact integers of decimal numbers.
ghost use Rattle.std.specs.Prelude.{◌≡◌, ◌≤◌, ◌<◌, ◌+◌, ◌-◌, ◌*◌, ◌/◌, ◌%◌, ◌^◌, ◌∷◌, ◌++◌, [], MatchOption, length, drop, replicate};
ghost use Rattle.binlog_values.specs.Contents.{digits_len, decimal_len, magnitude};
ghost use Rattle.binlog_values.specs.Decimals.{digits_count, groups_number, decimal_number};

use crate::digits::{digits_len, group_number};
use crate::text::pow_10;

/// The number of the digits of `number` and this many more, at most nine, whose number is `group`; None if it isn't below 2^128.
fn with_group(number: u128, digits: u8, group: u64) -> Option<u128>
    requires { digits ≤ 9 }
    ensures { MatchOption result (2 ^ 128 ≤ number * 10 ^ digits + group) (λ all. all ≡ number * 10 ^ digits + group) }
{
    number
        .checked_mul(u128::from(pow_10(digits)))?
        .checked_add(u128::from(group))
}

/// The number of the digits of `first`, of `count` groups of nine digits from the index `at`, and of one of `tail` digits after
/// them; None if it isn't below 2^128.
fn with_groups(first: u64, bytes: &[u8], at: usize, count: u8, tail: u8) -> Option<u128>
    requires tail { tail ≤ 9 }
    requires room { at + 4 * count + digits_len tail ≤ length bytes.now }
    ensures { MatchOption result (2 ^ 128 ≤ first * 10 ^ digits_count (replicate count 9 ++ tail ∷ []) + groups_number (replicate count 9 ++ tail ∷ []) (drop at (magnitude bytes.now))) (λ all. all ≡ first * 10 ^ digits_count (replicate count 9 ++ tail ∷ []) + groups_number (replicate count 9 ++ tail ∷ []) (drop at (magnitude bytes.now))) }
{
    let mut number = u128::from(first);
    let mut place = at;
    for _index in 0..count {
        number = with_group(number, 9, group_number(bytes, place, 9))?;
        place += 4;
    }
    with_group(number, tail, group_number(bytes, place, tail))
}

/// The number of all digits of a decimal number of this precision and scale; None if it isn't below 2^128.
#[tactic(auto, using(crate::specs::DecimalLaws::decimal_count))]
pub(crate) fn decimal_number(bytes: &[u8], precision: u8, scale: u8) -> Option<u128>
    requires most { precision ≤ 65 }
    requires within { scale ≤ precision }
    requires whole { length bytes.now ≡ decimal_len precision scale }
    ensures { MatchOption result (2 ^ 128 ≤ decimal_number precision scale bytes.now) (λ number. number ≡ decimal_number precision scale bytes.now) }
{
    let whole = precision - scale;
    let lead = whole % 9;
    let first = group_number(bytes, 0, lead);
    with_groups(
        first,
        bytes,
        digits_len(lead),
        whole / 9 + scale / 9,
        scale % 9,
    )
}
