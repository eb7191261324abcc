//! The parts of dates and times.
ghost use Rattle.std.specs.Prelude.{◌≤◌};

/// The parts of a date, by their numbers. No calendar is checked.
#[derive(Clone, Copy, Debug)]
pub struct DateParts {
    /// The year.
    pub year: u64,
    /// The month.
    pub month: u8,
    /// The day of the month.
    pub day: u8,
}

/// The parts of a time, by their numbers. No clock is checked.
#[derive(Clone, Copy, Debug)]
pub struct TimeParts {
    /// The hours.
    pub hour: u64,
    /// The minutes.
    pub minute: u8,
    /// The seconds.
    pub second: u8,
    /// How many digits of the fraction of a second are written, at most six.
    pub digits: u8,
    /// The fraction of a second in microseconds. Of a greater number the last six digits count.
    pub microseconds: u64,
    ghost few: { digits ≤ 6 },
}
