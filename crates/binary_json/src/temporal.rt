//! Dates and times of opaque values.
ghost use Rattle.std.specs.Prelude.{◌≡◌, ◌%◌, ◌/◌, ◌^◌, int_lt, pos, unsigned_abs};
ghost use Rattle.binary_json.specs.Temporals.{date_of, hour_of};

/// The column type of TIME.
const TIME: u8 = 11;

/// A DATE, a TIME, a DATETIME or a TIMESTAMP, packed into a number. A TIMESTAMP is the civil time that the session saw. Source: MySQL's
/// documentation of its source code, `my_time.h`.
#[derive(Clone, Copy, Debug, PartialEq, Eq, Hash)]
pub struct Temporal {
    pub(crate) column: u8,
    pub(crate) packed: i64,
}

impl Temporal {
    /// Whether the packed number is negative; of servers only that of a TIME.
    pub fn is_negative(&self) -> bool
        ensures { result ≡ int_lt self.now.packed (pos 0) }
    {
        self.packed < 0
    }

    /// The year, at most 10,082; servers write 0 to 9,999. 0 of a TIME.
    pub fn year(&self) -> u64
        ensures { result ≡ date_of self.now.column (unsigned_abs self.now.packed) / 2 ^ 5 / 13 }
    {
        self.date() / 32 / 13
    }

    /// The month, 0 to 12. 0 of a TIME.
    pub fn month(&self) -> u8
        ensures { result ≡ date_of self.now.column (unsigned_abs self.now.packed) / 2 ^ 5 % 13 }
    {
        (self.date() / 32 % 13) as u8
    }

    /// The day, 0 to 31. 0 of a TIME.
    pub fn day(&self) -> u8
        ensures { result ≡ date_of self.now.column (unsigned_abs self.now.packed) % 2 ^ 5 }
    {
        (self.date() % 32) as u8
    }

    /// The hour: 0 to 1,023 of a TIME, of which servers write at most 838, and else 0 to 31, of which they write at most 23.
    pub fn hour(&self) -> u64
        ensures { result ≡ hour_of self.now.column (unsigned_abs self.now.packed) }
    {
        let hours = self.packed.unsigned_abs() / 68_719_476_736;
        if self.column == TIME {
            hours % 1_024
        } else {
            hours % 32
        }
    }

    /// The minute, 0 to 63; servers write at most 59.
    pub fn minute(&self) -> u8
        ensures { result ≡ unsigned_abs self.now.packed / 2 ^ 30 % 2 ^ 6 }
    {
        (self.packed.unsigned_abs() / 1_073_741_824 % 64) as u8
    }

    /// The second, 0 to 63; servers write at most 59.
    pub fn second(&self) -> u8
        ensures { result ≡ unsigned_abs self.now.packed / 2 ^ 24 % 2 ^ 6 }
    {
        (self.packed.unsigned_abs() / 16_777_216 % 64) as u8
    }

    /// The microsecond, 0 to 16,777,215; servers write at most 999,999.
    pub fn microseconds(&self) -> u64
        ensures { result ≡ unsigned_abs self.now.packed % 2 ^ 24 }
    {
        self.packed.unsigned_abs() % 16_777_216
    }

    // The year and the month, counted through years of 13, and five bits for the day.
    fn date(&self) -> u64
        ensures { result ≡ date_of self.now.column (unsigned_abs self.now.packed) }
    {
        if self.column == TIME {
            return 0;
        }
        self.packed.unsigned_abs() / 2_199_023_255_552
    }
}
