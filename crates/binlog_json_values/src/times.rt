//! Dates and times as JSON.

ghost use Rattle.std.specs.Prelude.{◌≡◌, ◌∷◌, []};
ghost use Rattle.json.specs.Token.{string};
ghost use Rattle.json_line.specs.Tokens.{Adds};
ghost use Rattle.binlog_json_values.specs.Values.{date_of, time_of, datetime_of, datetime2_of, time2_of};

use binlog_values::{Date, DateTime, DateTime2, Time, Time2};
use json_line::{DateParts, Line, TimeParts};
use std::alloc::AllocError;

/// Writes a date.
#[inline(always)]
pub(crate) fn write_date(line: &mut Line, date: &Date) -> Result<(), AllocError>
    ensures { Adds result line.old line.new (string (date_of date.now.bits) ∷ []) }
{
    let parts = DateParts {
        year: date.year(),
        month: date.month(),
        day: date.day(),
    };
    line.date(&parts)
}

/// Writes a time without a fraction.
#[inline(always)]
pub(crate) fn write_time(line: &mut Line, time: &Time) -> Result<(), AllocError>
    ensures { Adds result line.old line.new (string (time_of time.now.bits) ∷ []) }
{
    let parts = TimeParts {
        hour: time.hour(),
        minute: time.minute(),
        second: time.second(),
        digits: 0,
        microseconds: 0,
    };
    line.time(time.is_negative(), &parts)
}

/// Writes a date and a time without a fraction.
#[inline(always)]
pub(crate) fn write_datetime(line: &mut Line, time: &DateTime) -> Result<(), AllocError>
    ensures { Adds result line.old line.new (string (datetime_of time.now.digits) ∷ []) }
{
    let date_parts = DateParts {
        year: time.year(),
        month: time.month(),
        day: time.day(),
    };
    let time_parts = TimeParts {
        hour: u64::from(time.hour()),
        minute: time.minute(),
        second: time.second(),
        digits: 0,
        microseconds: 0,
    };
    line.date_time(&date_parts, &time_parts)
}

/// Writes a date and a time with a fraction.
#[inline(always)]
pub(crate) fn write_datetime2(line: &mut Line, time: &DateTime2) -> Result<(), AllocError>
    ensures { Adds result line.old line.new (string (datetime2_of time.now.digits time.now.number) ∷ []) }
{
    let date_parts = DateParts {
        year: time.year(),
        month: time.month(),
        day: time.day(),
    };
    let time_parts = TimeParts {
        hour: u64::from(time.hour()),
        minute: time.minute(),
        second: time.second(),
        digits: time.digits(),
        microseconds: time.microseconds(),
    };
    line.date_time(&date_parts, &time_parts)
}

/// Writes a time with a fraction.
#[inline(always)]
pub(crate) fn write_time2(line: &mut Line, time: &Time2) -> Result<(), AllocError>
    ensures { Adds result line.old line.new (string (time2_of time.now.digits time.now.number) ∷ []) }
{
    let parts = TimeParts {
        hour: time.hour(),
        minute: time.minute(),
        second: time.second(),
        digits: time.digits(),
        microseconds: time.microseconds(),
    };
    line.time(time.is_negative(), &parts)
}
