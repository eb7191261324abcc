//! Sums over values.
use binlog_images::{ColumnValue, ColumnVisitor, ImageKind};
use binlog_values::{Decimal, Value};

/// Sums over the values of rows, modulo 2^64.
#[derive(Clone, Copy, Default)]
pub(crate) struct ValueSums {
    /// The number of NULLs.
    nulls: u64,
    /// Integers as those of UNSIGNED columns, bits, and the members of ENUMs and SETs.
    integers: u64,
    /// The number of bytes of strings.
    bytes: u64,
    /// The digits before the point of decimal numbers, without signs.
    decimals: u64,
    /// The bits of floating-point numbers.
    floats: u64,
    /// The years of dates, and the hours of times.
    years: u64,
    /// The seconds of timestamps.
    seconds: u64,
    /// Microseconds.
    microseconds: u64,
}

/// Counts a column of an image; nothing for one that is absent.
impl ColumnVisitor for ValueSums {
    ghost use Rattle.std.specs.Prelude.{⊤};

    ghost visits = { λ old image index cell new. ⊤ };

    #[inline(always)]
    fn visit_column(&mut self, _image: ImageKind, _index: u64, value: ColumnValue<'_>) {
        match value {
            ColumnValue::Absent => {}
            ColumnValue::Null => self.nulls = self.nulls.wrapping_add(1),
            ColumnValue::Value(value) => self.count_value(&value),
            ColumnValue::Diffs(bytes) => self.add_bytes(bytes),
        }
    }
}

impl ValueSums {
    /// All sums, in order.
    pub(crate) fn numbers(&self) -> [u64; 8] {
        [
            self.nulls,
            self.integers,
            self.bytes,
            self.decimals,
            self.floats,
            self.years,
            self.seconds,
            self.microseconds,
        ]
    }

    #[inline(always)]
    fn count_value(&mut self, value: &Value<'_>) {
        match value {
            Value::Null => self.nulls = self.nulls.wrapping_add(1),
            Value::Integer(integer) => self.add_integer(integer.unsigned()),
            Value::Bit(bits) => self.add_integer(bits.bits()),
            Value::Enum(number) | Value::Set(number) => self.add_integer(*number),
            Value::Float(float) => {
                self.floats = self.floats.wrapping_add(u64::from(float.to_bits()));
            }
            Value::Double(double) => {
                self.floats = self.floats.wrapping_add(double.to_bits());
            }
            Value::Decimal(decimal) => {
                self.decimals = self.decimals.wrapping_add(whole_part(decimal));
            }
            Value::Date(date) => self.add_years(date.year()),
            Value::Year(year) => self.add_years(u64::from(year.year())),
            Value::DateTime(time) => self.add_years(time.year()),
            Value::Time(time) => self.add_years(time.hour()),
            Value::DateTime2(time) => {
                self.add_years(time.year());
                self.add_microseconds(time.microseconds());
            }
            Value::Time2(time) => {
                self.add_years(time.hour());
                self.add_microseconds(time.microseconds());
            }
            Value::Timestamp(seconds) => self.seconds = self.seconds.wrapping_add(*seconds),
            Value::Timestamp2(time) => {
                self.seconds = self.seconds.wrapping_add(time.seconds());
                self.add_microseconds(time.microseconds());
            }
            Value::Bytes(bytes)
            | Value::Json(bytes)
            | Value::Geometry(bytes)
            | Value::Vector(bytes)
            | Value::Compressed(bytes) => self.add_bytes(bytes),
        }
    }

    fn add_integer(&mut self, integer: u64) {
        self.integers = self.integers.wrapping_add(integer);
    }

    fn add_bytes(&mut self, bytes: &[u8]) {
        self.bytes = self.bytes.wrapping_add(bytes.len() as u64);
    }

    fn add_years(&mut self, years: u64) {
        self.years = self.years.wrapping_add(years);
    }

    fn add_microseconds(&mut self, microseconds: u64) {
        self.microseconds = self.microseconds.wrapping_add(microseconds);
    }
}

/// The digits before the point as a number, modulo 2^64, without the sign.
fn whole_part(decimal: &Decimal<'_>) -> u64 {
    let digits = decimal.precision().saturating_sub(decimal.scale());
    let bytes = decimal.as_bytes();
    // All bits of a negative number are complemented.
    let mask = match bytes.first() {
        Some(first) if *first < 128 => 0xff,
        _ => 0,
    };
    let Some((lead, nines)) = bytes.split_at_checked(lead_len(digits)) else {
        return 0;
    };
    add_nines(lead_number(lead, mask), nines, digits / 9, mask)
}

/// The number of bytes of the digits before the first group of nine.
fn lead_len(digits: u8) -> usize {
    usize::from(digits % 9).div_ceil(2)
}

/// The digits before the first group of nine as a number, without the sign, which is the top bit.
fn lead_number(lead: &[u8], mask: u8) -> u64 {
    let mut number = 0u64;
    for (place, byte) in lead.iter().enumerate() {
        let digits = if place == 0 {
            byte & 0x7f ^ mask & 0x7f
        } else {
            byte ^ mask
        };
        number = number << 8 | u64::from(digits);
    }
    number
}

/// The number with this many groups of nine digits behind it, modulo 2^64.
fn add_nines(lead: u64, nines: &[u8], count: u8, mask: u8) -> u64 {
    let mut number = lead;
    let mut rest = nines;
    for _index in 0..count {
        let Some((nine, left)) = rest.split_first_chunk::<4>() else {
            return number;
        };
        // Nine digits are below 2^30; the bits above hold the sign of a number that begins with them.
        let group = u32::from_be_bytes(*nine) ^ u32::from_be_bytes([mask; 4]);
        number = number
            .wrapping_mul(1_000_000_000)
            .wrapping_add(u64::from(group & 0x3fff_ffff));
        rest = left;
    }
    number
}
