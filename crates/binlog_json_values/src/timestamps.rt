//! Timestamps as JSON.

ghost use Rattle.std.specs.Prelude.{◌≡◌, ◌≤◌, ◌∷◌, [], pos};
ghost use Rattle.jiff_core.specs.Date.{epoch_day};
ghost use Rattle.json.specs.Token.{string};
ghost use Rattle.json_line.specs.Tokens.{Adds};
ghost use Rattle.binlog_json_values.specs.Parts.{Writes, utc};
ghost use Rattle.binlog_json_values.specs.Values.{zero_text, is_zero, timestamp_parts};

use jiff_core::civil::Date;
use json_line::{DateParts, Line, TimeParts};
use std::alloc::AllocError;

/// The number of days from the first date of the calendar, -9999-01-01, to 1970-01-01.
const DAYS_BEFORE_1970: u32 = 4_371_587;

/// The date with this day number: 0 is 1970-01-01.
fn date_of(day: u32) -> Date
    requires { day ≤ 2000000 }
    ensures { epoch_day result ≡ pos day }
{
    Date::from_days_since_min(DAYS_BEFORE_1970 + day)
}

/// Writes the zero timestamp, with this many digits of a fraction, at most six.
fn write_zero(line: &mut Line, digits: u8) -> Result<(), AllocError>
    requires { digits ≤ 6 }
    ensures { Adds result line.old line.new (string (zero_text digits) ∷ []) }
{
    let date_parts = DateParts {
        year: 0,
        month: 0,
        day: 0,
    };
    let time_parts = TimeParts {
        hour: 0,
        minute: 0,
        second: 0,
        digits,
        microseconds: 0,
    };
    line.date_time(&date_parts, &time_parts)
}

/// Writes the date and the time in UTC of seconds since 1970, with a fraction in this many digits, at most six.
fn write_utc(line: &mut Line, seconds: u32, digits: u8, microseconds: u64) -> Result<(), AllocError>
    requires { digits ≤ 6 }
    ensures { Writes result line.old line.new (utc seconds digits microseconds ∷ []) }
{
    let date = date_of(seconds / 86_400);
    let date_parts = DateParts {
        year: u64::from(date.year.unsigned_abs()),
        month: date.month,
        day: date.day,
    };
    let time_parts = TimeParts {
        hour: u64::from(seconds / 3_600 % 24),
        minute: (seconds / 60 % 60) as u8,
        second: (seconds % 60) as u8,
        digits,
        microseconds,
    };
    line.date_time(&date_parts, &time_parts)
}

/// Whether this is the zero timestamp.
fn is_zero(seconds: u64, microseconds: u64) -> bool
    ensures { result ≡ is_zero seconds microseconds }
{
    seconds == 0 && microseconds == 0
}

/// Writes a timestamp with this many digits of a fraction, at most six.
pub(crate) fn write_timestamp(
    line: &mut Line,
    digits: u8,
    seconds: u64,
    microseconds: u64,
) -> Result<(), AllocError>
    requires { digits ≤ 6 }
    ensures { Writes result line.old line.new (timestamp_parts digits seconds microseconds) }
{
    if is_zero(seconds, microseconds) {
        return write_zero(line, digits);
    }
    write_utc(line, (seconds % (1 << 32)) as u32, digits, microseconds)
}
