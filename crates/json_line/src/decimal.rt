//! The number of digits of a number.
ghost use Rattle.std.specs.Prelude.{◌≡◌, ◌<◌, length};
ghost use Rattle.std.specs.Fmt.{decimal};

// For a number of at most five digits.
#[inline(always)]
fn short_len(number: u64) -> usize
    requires { number < 100000 }
    ensures { result ≡ length (decimal number) }
{
    if number < 100 {
        1 + usize::from(number >= 10)
    } else {
        3 + usize::from(number >= 1_000) + usize::from(number >= 10_000)
    }
}

/// The number of decimal digits.
#[inline(always)]
pub(crate) fn decimal_len(number: u64) -> usize
    ensures { result ≡ length (decimal number) }
{
    if number < 100_000 {
        short_len(number)
    } else if number < 10_000_000_000 {
        5 + short_len(number / 100_000)
    } else if number < 1_000_000_000_000_000 {
        10 + short_len(number / 10_000_000_000)
    } else {
        15 + short_len(number / 1_000_000_000_000_000)
    }
}
