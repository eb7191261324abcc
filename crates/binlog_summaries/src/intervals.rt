//! The lengths of intervals of time, as `--by time=60s` states them.
ghost use Rattle.std.specs.Prelude.{ℕ, MatchOption};
ghost use Rattle.binlog_summaries.specs.Intervals.{IsCount, IsCountOf, IsLength, IsInterval};

/// The seconds of the intervals that a name states, as `time=60s`, `time=5m` or `time=1h`.
pub(crate) fn interval_named(name: &str) -> Option<u32>
    ensures { MatchOption result ((seconds : ℕ) → ¬ (IsInterval name.now seconds)) (λ seconds. IsInterval name.now seconds) }
{
    match name.strip_prefix("time=") {
        Some(length) => seconds_in(length),
        None => None,
    }
}

/// The seconds of a length of time: a whole number and the letter of its unit, as 60s, 5m or 1h; None if it isn't one, or has no seconds, or
/// 2^32 or more.
pub fn seconds_in(length: &str) -> Option<u32>
    ensures { MatchOption result ((seconds : ℕ) → ¬ (IsLength length.now seconds)) (λ seconds. IsLength length.now seconds) }
{
    seconds_with(length, "s", 1)
        .or(seconds_with(length, "m", 60))
        .or(seconds_with(length, "h", 3600))
}

// The seconds of a length in this unit.
fn seconds_with(length: &str, letter: &str, unit: u32) -> Option<u32>
    ensures { MatchOption result ((seconds : ℕ) → ¬ (IsCountOf letter.now unit length.now seconds)) (λ seconds. IsCountOf letter.now unit length.now seconds) }
{
    match length.strip_suffix(letter) {
        Some(count) => seconds_of(count, unit),
        None => None,
    }
}

// The seconds of so many units; None if there is no number, there are no seconds, or 2^32 or more.
fn seconds_of(count: &str, unit: u32) -> Option<u32>
    ensures { MatchOption result ((seconds : ℕ) → ¬ (IsCount count.now unit seconds)) (λ seconds. IsCount count.now unit seconds) }
{
    let Ok(count) = count.parse::<u32>() else {
        return None;
    };
    let seconds = count.checked_mul(unit)?;
    if seconds == 0 { None } else { Some(seconds) }
}
