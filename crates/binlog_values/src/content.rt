//! The contents of values, by the layouts of columns.
ghost use Rattle.std.specs.Prelude.{◌≡◌, ◌≤◌, ◌<◌, ◌+◌, ◌*◌, ◌/◌, ◌%◌, ◌^◌, ◌==◌, IfOk, true, length, nat_le};
ghost use Rattle.byteorder.specs.Endian.{little_number, big_number};
ghost use Rattle.binlog_wire.specs.Fields.{number_at, block_at};
ghost use Rattle.binlog_values.specs.BigNumbers.{big_at};
ghost use Rattle.binlog_values.specs.Faults.{Decodes, bytes_now};
ghost use Rattle.binlog_values.specs.Contents.{counted, fraction_len, before_fraction, is_below_second, is_datetime2, is_time2, time2_zero, time2_distance, bits, timestamp2, datetime2, time2, decimal, decimal_len, is_decimal_bytes};

use crate::digits::{decimal_len, is_decimal};
use crate::fault::ValueFault;
use binlog_wire::ParseBuf;
use byteorder::{BigEndian, ByteOrder, LittleEndian};

/// Takes a little-endian number of `len` bytes, 1 to 8, from the start of `buf`.
#[inline(always)]
pub(crate) fn read_number(len: usize, buf: &mut ParseBuf<'_>) -> Result<u64, ValueFault>
    requires low { 1 ≤ len }
    requires high { len ≤ 8 }
    ensures number { Decodes buf.new result (number_at len buf.old) }
    ensures small { IfOk result (λ number. number < 256 ^ len) }
{
    if buf.0.len() < len {
        return Err(ValueFault::EndOfBody);
    }
    let number = little_number(buf.0, len);
    buf.0 = &buf.0[len..];
    Ok(number)
}

/// Takes a little-endian number, as [`read_number`] does.
// A function of its own, so that the reading of any value stays small enough to be inlined.
#[inline(never)]
pub(crate) fn read_number_outlined(len: usize, buf: &mut ParseBuf<'_>) -> Result<u64, ValueFault>
    requires low { 1 ≤ len }
    requires high { len ≤ 8 }
    ensures number { Decodes buf.new result (number_at len buf.old) }
    ensures small { IfOk result (λ number. number < 256 ^ len) }
{
    read_number(len, buf)
}

/// The little-endian number of the first `len` bytes, 1 to 8.
#[tactic(auto, using(crate::proofs::Loads::little_loaded, crate::proofs::Loads::little_small))]
#[inline(always)]
fn little_number(bytes: &[u8], len: usize) -> u64
    requires low { 1 ≤ len }
    requires high { len ≤ 8 }
    requires there { len ≤ length bytes.now }
    ensures number { result ≡ little_number len bytes.now }
    ensures small { result < 256 ^ len }
{
    if bytes.len() < 8 {
        return LittleEndian::read_uint(bytes, len);
    }
    // One load, from which the bytes behind the number are shifted out.
    let others = 8 * (8 - len);
    LittleEndian::read_u64(bytes) << others >> others
}

/// The number of the first `len` bytes, 1 to 8, most significant byte first.
#[tactic(auto, using(crate::proofs::Loads::big_loaded))]
#[inline(always)]
fn big_number(bytes: &[u8], len: usize) -> u64
    requires low { 1 ≤ len }
    requires high { len ≤ 8 }
    requires there { len ≤ length bytes.now }
    ensures { result ≡ big_number len bytes.now }
{
    if bytes.len() < 8 {
        return BigEndian::read_uint(bytes, len);
    }
    // One load, from which the bytes behind the number are shifted out.
    BigEndian::read_u64(bytes) >> (8 * (8 - len))
}

/// Takes a number of `len` bytes, 1 to 8, most significant byte first, from the start of `buf`.
#[inline(always)]
fn read_big(len: usize, buf: &mut ParseBuf<'_>) -> Result<u64, ValueFault>
    requires low { 1 ≤ len }
    requires high { len ≤ 8 }
    ensures { Decodes buf.new result (big_at len buf.old) }
{
    if buf.0.len() < len {
        return Err(ValueFault::EndOfBody);
    }
    let number = big_number(buf.0, len);
    buf.0 = &buf.0[len..];
    Ok(number)
}

/// The number of bytes of a fraction of this many decimal digits, 0 to 6.
#[inline(always)]
pub(crate) fn fraction_len(digits: u8) -> usize
    requires { digits ≤ 6 }
    ensures { result ≡ fraction_len digits }
{
    (usize::from(digits) + 1) / 2
}

/// 256 to the power of `len`, at most 3.
#[inline(always)]
fn pow_256(len: usize) -> u64
    requires { len ≤ 3 }
    ensures power { result ≡ 256 ^ len }
    ensures low { 0 < result }
    ensures high { result ≤ 2 ^ 24 }
{
    match len {
        0 => 1,
        1 => 256,
        2 => 65_536,
        _ => 16_777_216,
    }
}

/// 100 to the power of `len`, at most 3.
#[inline(always)]
fn pow_100(len: usize) -> u64
    requires { len ≤ 3 }
    ensures { result ≡ 100 ^ len }
{
    match len {
        0 => 1,
        1 => 100,
        2 => 10_000,
        _ => 1_000_000,
    }
}

/// The number before the fraction in its last `len` bytes, at most 3.
// Each quotient by a constant is a shift.
#[inline(always)]
fn number_before(len: usize, number: u64) -> u64
    requires { len ≤ 3 }
    ensures { result ≡ number / 256 ^ len }
{
    match len {
        0 => number,
        1 => number / 256,
        2 => number / 65_536,
        _ => number / 16_777_216,
    }
}

/// The fraction in the last `len` bytes of a number, at most 3.
#[inline(always)]
fn fraction_in(len: usize, number: u64) -> u64
    requires { len ≤ 3 }
    ensures { result ≡ number % 256 ^ len }
{
    match len {
        0 => 0,
        1 => number % 256,
        2 => number % 65_536,
        _ => number % 16_777_216,
    }
}

/// The number before the fraction of this many decimal digits, at most 6, at its end.
#[inline(always)]
pub(crate) fn before_fraction(digits: u8, number: u64) -> u64
    requires { digits ≤ 6 }
    ensures { result ≡ before_fraction digits number }
{
    number_before(fraction_len(digits), number)
}

/// Whether the fraction at the end of a number is below one second.
#[inline(always)]
fn is_below_second(digits: u8, number: u64) -> bool
    requires { digits ≤ 6 }
    ensures { result ≡ is_below_second digits number }
{
    let len = fraction_len(digits);
    fraction_in(len, number) < pow_100(len)
}

/// Whether the number is one of a DATETIME2.
#[inline(always)]
fn is_datetime2(digits: u8, number: u64) -> bool
    requires { digits ≤ 6 }
    ensures { result ≡ is_datetime2 digits number }
{
    1 << 39 <= before_fraction(digits, number) && is_below_second(digits, number)
}

/// The number that encodes zero in a TIME2.
#[inline(always)]
pub(crate) fn time2_zero(digits: u8) -> u64
    requires { digits ≤ 6 }
    ensures zero { result ≡ time2_zero digits }
    ensures small { result ≤ 2 ^ 47 }
{
    (1 << 23) * pow_256(fraction_len(digits))
}

/// The distance of the number of a TIME2 from zero.
#[inline(always)]
pub(crate) fn time2_distance(digits: u8, number: u64) -> u64
    requires { digits ≤ 6 }
    ensures { result ≡ time2_distance digits number }
{
    let zero = time2_zero(digits);
    if number < zero {
        zero - number
    } else {
        number - zero
    }
}

/// Whether the number is one of a TIME2.
#[inline(always)]
fn is_time2(digits: u8, number: u64) -> bool
    requires { digits ≤ 6 }
    ensures { result ≡ is_time2 digits number }
{
    let distance = time2_distance(digits, number);
    is_below_second(digits, distance) && before_fraction(digits, distance) < 1 << 22
}

/// Takes this many bits, 1 to 64, from the start of `buf`.
#[inline(never)]
pub(crate) fn read_bits(count: u8, buf: &mut ParseBuf<'_>) -> Result<u64, ValueFault>
    requires low { 1 ≤ count }
    requires high { count ≤ 64 }
    ensures { Decodes buf.new result ((bits count).reads buf.old) }
{
    let number = read_big(usize::from(count).div_ceil(8), buf)?;
    if count == 64 || number < 1 << count {
        Ok(number)
    } else {
        Err(ValueFault::OutOfRange)
    }
}

/// Takes the number of a TIMESTAMP2 from the start of `buf`.
#[inline(always)]
pub(crate) fn read_timestamp2(digits: u8, buf: &mut ParseBuf<'_>) -> Result<u64, ValueFault>
    requires { digits ≤ 6 }
    ensures { Decodes buf.new result ((timestamp2 digits).reads buf.old) }
{
    let number = read_big(4 + fraction_len(digits), buf)?;
    if is_below_second(digits, number) {
        Ok(number)
    } else {
        Err(ValueFault::OutOfRange)
    }
}

/// Takes the number of a DATETIME2 from the start of `buf`.
#[inline(always)]
pub(crate) fn read_datetime2(digits: u8, buf: &mut ParseBuf<'_>) -> Result<u64, ValueFault>
    requires { digits ≤ 6 }
    ensures { Decodes buf.new result ((datetime2 digits).reads buf.old) }
{
    let number = read_big(5 + fraction_len(digits), buf)?;
    if is_datetime2(digits, number) {
        Ok(number)
    } else {
        Err(ValueFault::OutOfRange)
    }
}

/// Takes the number of a TIME2 from the start of `buf`.
#[inline(never)]
pub(crate) fn read_time2(digits: u8, buf: &mut ParseBuf<'_>) -> Result<u64, ValueFault>
    requires { digits ≤ 6 }
    ensures { Decodes buf.new result ((time2 digits).reads buf.old) }
{
    let number = read_big(3 + fraction_len(digits), buf)?;
    if is_time2(digits, number) {
        Ok(number)
    } else {
        Err(ValueFault::OutOfRange)
    }
}

/// Takes this many bytes from the start of `buf`.
#[inline(always)]
fn take<'a>(count: usize, buf: &mut ParseBuf<'a>) -> Result<&'a [u8], ValueFault>
    ensures { Decodes buf.new (bytes_now result) (block_at count buf.old) }
{
    buf.checked_eat(count).ok_or(ValueFault::EndOfBody)
}

/// Takes bytes, at most `max`, after their length in `prefix` bytes, from the start of `buf`.
#[inline(always)]
pub(crate) fn read_counted<'a>(
    prefix: usize,
    max: u64,
    buf: &mut ParseBuf<'a>,
) -> Result<&'a [u8], ValueFault>
    requires low { 1 ≤ prefix }
    requires high { prefix ≤ 4 }
    ensures { Decodes buf.new (bytes_now result) ((counted prefix (λ n. nat_le n max)).reads buf.old) }
{
    let len = read_number(prefix, buf)?;
    if len > max {
        return Err(ValueFault::OutOfRange);
    }
    take(len as usize, buf)
}

/// Takes bytes after their length, as [`read_counted`] does.
#[inline(never)]
pub(crate) fn read_counted_outlined<'a>(
    prefix: usize,
    max: u64,
    buf: &mut ParseBuf<'a>,
) -> Result<&'a [u8], ValueFault>
    requires low { 1 ≤ prefix }
    requires high { prefix ≤ 4 }
    ensures { Decodes buf.new (bytes_now result) ((counted prefix (λ n. nat_le n max)).reads buf.old) }
{
    read_counted(prefix, max, buf)
}

/// Takes bytes, a multiple of four, after their length in `prefix` bytes, from the start of `buf`.
#[inline(never)]
pub(crate) fn read_vector<'a>(prefix: usize, buf: &mut ParseBuf<'a>) -> Result<&'a [u8], ValueFault>
    requires low { 1 ≤ prefix }
    requires high { prefix ≤ 4 }
    ensures { Decodes buf.new (bytes_now result) ((counted prefix (λ n. n % 4 == 0)).reads buf.old) }
{
    let len = read_number(prefix, buf)?;
    if len % 4 != 0 {
        return Err(ValueFault::OutOfRange);
    }
    take(len as usize, buf)
}

/// Takes the bytes of a decimal number from the start of `buf`.
#[inline(always)]
pub(crate) fn read_decimal<'a>(
    precision: u8,
    scale: u8,
    buf: &mut ParseBuf<'a>,
) -> Result<&'a [u8], ValueFault>
    requires low { 1 ≤ precision }
    requires high { precision ≤ 65 }
    requires scale { scale ≤ precision }
    ensures decimal { Decodes buf.new (bytes_now result) ((decimal precision scale).reads buf.old) }
    ensures whole { IfOk result (λ bytes. length bytes.now ≡ decimal_len precision scale) }
    ensures fits { IfOk result (λ bytes. is_decimal_bytes precision scale bytes.now ≡ true) }
{
    let bytes = take(decimal_len(precision, scale), buf)?;
    if is_decimal(precision, scale, bytes) {
        Ok(bytes)
    } else {
        Err(ValueFault::OutOfRange)
    }
}
