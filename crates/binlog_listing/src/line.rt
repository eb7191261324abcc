//! The texts of a line. A line is built from its end: each text is written before those that are already there.
//!
//! Each function writes its text so that it ends at the index `end`, and returns the index where it starts.
ghost use Rattle.std.specs.Prelude.{◌≡◌, ◌+◌, ◌≤◌, ◌∷◌, [], ◌++◌, length, drop, decimal};
ghost use Rattle.hex.specs.Hex.{encode_lower};
ghost use Rattle.binlog_listing.specs.Listing.{four_digits, checksum_text};

use itoa::write_digits;

/// The two lower-case hexadecimal digits of each byte, in order.
static HEX_DIGITS: [u8; 512] = *b"\
    000102030405060708090a0b0c0d0e0f\
    101112131415161718191a1b1c1d1e1f\
    202122232425262728292a2b2c2d2e2f\
    303132333435363738393a3b3c3d3e3f\
    404142434445464748494a4b4c4d4e4f\
    505152535455565758595a5b5c5d5e5f\
    606162636465666768696a6b6c6d6e6f\
    707172737475767778797a7b7c7d7e7f\
    808182838485868788898a8b8c8d8e8f\
    909192939495969798999a9b9c9d9e9f\
    a0a1a2a3a4a5a6a7a8a9aaabacadaeaf\
    b0b1b2b3b4b5b6b7b8b9babbbcbdbebf\
    c0c1c2c3c4c5c6c7c8c9cacbcccdcecf\
    d0d1d2d3d4d5d6d7d8d9dadbdcdddedf\
    e0e1e2e3e4e5e6e7e8e9eaebecedeeef\
    f0f1f2f3f4f5f6f7f8f9fafbfcfdfeff\
";

/// Writes one byte.
#[inline(always)]
pub(crate) fn write_byte(byte: u8, bytes: &mut [u8], end: usize) -> usize
    requires { (1 ≤ end) × (end ≤ length bytes.old) }
    ensures start { result + 1 ≡ end }
    ensures written { drop result bytes.new ≡ byte ∷ drop end bytes.old }
{
    bytes[end - 1] = byte;
    end - 1
}

/// Writes the bytes of a text.
#[inline(always)]
pub(crate) fn write_text(text: &str, bytes: &mut [u8], end: usize) -> usize
    requires { (length text.now ≤ end) × (end ≤ length bytes.old) }
    ensures start { result + length text.now ≡ end }
    ensures written { drop result bytes.new ≡ text.now ++ drop end bytes.old }
{
    let start = end - text.len();
    bytes[start..end].copy_from_slice(text.as_bytes());
    start
}

/// Writes a number as decimal digits.
#[inline(always)]
pub(crate) fn write_number(number: u64, bytes: &mut [u8], end: usize) -> usize
    requires { (20 ≤ end) × (end ≤ length bytes.old) }
    ensures start { result ≤ end }
    ensures room { end ≤ result + 20 }
    ensures written { drop result bytes.new ≡ decimal number ++ drop end bytes.old }
{
    write_digits(number, bytes, end)
}

// Writes a byte as two lower-case hexadecimal digits.
#[inline(always)]
fn write_two_digits(byte: u8, bytes: &mut [u8], end: usize) -> usize
    requires { (2 ≤ end) × (end ≤ length bytes.old) }
    ensures start { result + 2 ≡ end }
    ensures written { drop result bytes.new ≡ encode_lower (byte ∷ []) ++ drop end bytes.old }
{
    let first = byte as usize * 2;
    let middle = write_byte(HEX_DIGITS[first + 1], bytes, end);
    write_byte(HEX_DIGITS[first], bytes, middle)
}

/// Writes a number as four lower-case hexadecimal digits.
#[inline(always)]
pub(crate) fn write_four_digits(number: u16, bytes: &mut [u8], end: usize) -> usize
    requires { (4 ≤ end) × (end ≤ length bytes.old) }
    ensures start { result + 4 ≡ end }
    ensures written { drop result bytes.new ≡ four_digits number ++ drop end bytes.old }
{
    let [high, low] = number.to_be_bytes();
    let middle = write_two_digits(low, bytes, end);
    write_two_digits(high, bytes, middle)
}

/// Writes the four bytes of a checksum as eight lower-case hexadecimal digits, or `-` if there is none.
#[inline(always)]
pub(crate) fn write_checksum(checksum: Option<[u8; 4]>, bytes: &mut [u8], end: usize) -> usize
    requires { (8 ≤ end) × (end ≤ length bytes.old) }
    ensures start { result ≤ end }
    ensures room { end ≤ result + 8 }
    ensures written { drop result bytes.new ≡ checksum_text checksum ++ drop end bytes.old }
{
    match checksum {
        None => write_byte(b'-', bytes, end),
        Some(checksum) => {
            let fourth_start = write_two_digits(checksum[3], bytes, end);
            let third_start = write_two_digits(checksum[2], bytes, fourth_start);
            let second_start = write_two_digits(checksum[1], bytes, third_start);
            write_two_digits(checksum[0], bytes, second_start)
        }
    }
}
