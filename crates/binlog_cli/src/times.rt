//! The times that the words of `binlog`'s command line state.
ghost use Rattle.std.specs.Prelude.{◌≡◌, IfErr, IfOk, MatchOption};
ghost use Rattle.clap.specs.Matches.{found_of, first_value};
ghost use Rattle.jiff.specs.Words.{civil_nanos, IsTimestampNanos};
ghost use Rattle.binlog_cli.specs.declared.exit_status.Status.TheVariants.{Usage};
ghost use Rattle.binlog_cli.specs.Times.{IsCivilInstant, IsInstant, IsNoCivilInstant, IsNoInstant, IsNoSeconds, IsSeconds, StatesNoTime, StatesTime, has_zone, seconds_of};

use crate::exit_status::Status;
use clap::ArgMatches;
use jiff::civil::DateTime;
use jiff::tz::Offset;
use jiff::{Error, Timestamp};

/// The time of an option in seconds since 1970, if it is given; 0 for an earlier one. A text that is no time has a message.
pub fn time<R: Eprint>(
    rt: &R,
    matches: &ArgMatches<'_>,
    option: &str,
) -> Result<Option<u64>, Status>
    ensures ok { IfOk result (λ time. StatesTime (first_value (found_of matches.now) option.now) time) }
    ensures err { IfErr result (λ status. (status ≡ Usage) × StatesNoTime (first_value (found_of matches.now) option.now)) }
{
    let Some(text) = matches.get_str(option) else {
        return Ok(None);
    };
    match seconds(text) {
        Some(seconds) => Ok(Some(seconds)),
        None => {
            report_time(rt, option, text);
            Err(Status::Usage)
        }
    }
}

// Writes the message of a text that is no time, or has a zone.
fn report_time<R: Eprint>(rt: &R, option: &str, text: &str) {
    let _ = if has_zone(text) {
        eprintln!(rt;
            "binlog: --{option}: {text:?} has a zone in brackets; an offset is read, as +02:00"
        )
    } else {
        eprintln!(rt;
            "binlog: --{option}: {text:?} is no time, as 2026-11-26T12:00:00 or 2026-11-26T14:00:00+02:00"
        )
    };
}

// Whether a text has a zone in brackets. A civil time would be read over it.
fn has_zone(text: &str) -> bool
    ensures { result ≡ has_zone text.now }
{
    text.as_bytes().contains(&b'[')
}

// The seconds since 1970 of a time, in UTC if it has no offset; 0 for an earlier one.
fn seconds(text: &str) -> Option<u64>
    ensures { MatchOption result (IsNoSeconds text.now) (λ seconds. IsSeconds text.now seconds) }
{
    if has_zone(text) {
        return None;
    }
    match instant(text) {
        Some(instant) => Some(whole_seconds(instant)),
        None => None,
    }
}

// The whole seconds of an instant since 1970; 0 for an earlier one.
fn whole_seconds(instant: Timestamp) -> u64
    ensures { result ≡ seconds_of instant.nanosecond }
{
    u64::try_from(instant.as_second()).unwrap_or(0)
}

// The instant of a time.
fn instant(text: &str) -> Option<Timestamp>
    ensures { MatchOption result (IsNoInstant text.now) (λ instant. IsInstant text.now instant.nanosecond) }
{
    match text.parse::<Timestamp>() {
        Ok(instant) => Some(instant),
        Err(Error::Missing(_)) => instant_in_utc(text),
        Err(_) => None,
    }
}

// The instant of a time without an offset.
fn instant_in_utc(text: &str) -> Option<Timestamp>
    ensures { MatchOption result (IsNoCivilInstant text.now) (λ instant. IsCivilInstant text.now instant.nanosecond) }
{
    match text.parse::<DateTime>() {
        Ok(time) => civil_instant(time),
        Err(_) => None,
    }
}

fn civil_instant(time: DateTime) -> Option<Timestamp>
    ensures { MatchOption result (IsTimestampNanos (civil_nanos time) → ⊥) (λ instant. (instant.nanosecond ≡ civil_nanos time) × IsTimestampNanos instant.nanosecond) }
{
    match Offset::UTC.to_timestamp(time) {
        Ok(instant) => Some(instant),
        Err(_) => None,
    }
}
