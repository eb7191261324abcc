//! Appending what is stored for values.
ghost use Rattle.std.specs.Prelude.{◌≡◌, ◌≤◌, ◌<◌, ◌+◌, ◌*◌, ◌^◌, ◌++◌, length, vec_len, vec_capacity};
ghost use Rattle.byteorder.specs.Endian.{little_bytes, big_bytes};
ghost use Rattle.binlog_wire.specs.Putting.{Puts};
ghost use Rattle.binlog_wire.specs.Bits.{bytes_of_bits};
ghost use Rattle.binlog_columns.specs.Layouts.{IsLayout};
ghost use Rattle.binlog_values.specs.Contents.{content_in, number_in, bytes_in, fraction_len};
ghost use Rattle.binlog_row_writing.specs.Stored.{stored_content};

use crate::content::Stored;
use binlog_columns::Layout;
use byteorder::{BigEndian, ByteOrder, LittleEndian};

impl Stored<'_> {
    /// The number; 0 if bytes are stored.
    fn number(&self) -> u64
        ensures { result ≡ number_in (stored_content self.now) }
    {
        match self {
            Stored::Number(number) => *number,
            Stored::Bytes(_) => 0,
        }
    }

    /// The bytes; none if a number is stored.
    fn bytes(&self) -> &[u8]
        ensures { result.now ≡ bytes_in (stored_content self.now) }
    {
        match self {
            Stored::Number(_) => &[],
            Stored::Bytes(bytes) => bytes,
        }
    }

    /// The number of bytes of the encoding in this layout.
    #[tactic(auto, using(crate::specs::PutLaws::little_len, crate::specs::PutLaws::big_len, crate::specs::PutLaws::counted_len))]
    pub(crate) fn written_len(&self, layout: Layout) -> usize
        requires { IsLayout layout }
        ensures { result ≡ length ((content_in layout).written (stored_content self.now)) }
    {
        match layout {
            Layout::Nothing => 0,
            Layout::Number(len) => usize::from(len),
            Layout::Bits(count) => usize::from(count).div_ceil(8),
            Layout::Timestamp2(digits) => 4 + (usize::from(digits) + 1) / 2,
            Layout::DateTime2(digits) => 5 + (usize::from(digits) + 1) / 2,
            Layout::Time2(digits) => 3 + (usize::from(digits) + 1) / 2,
            Layout::Decimal { .. } => self.bytes().len(),
            Layout::Counted { prefix, .. } | Layout::Vector(prefix) => {
                usize::from(prefix) + self.bytes().len()
            }
        }
    }

    /// Appends the encoding in this layout, which it fits; `out` has the capacity.
    #[tactic(auto, using(crate::specs::PutLaws::little_len, crate::specs::PutLaws::big_len, crate::specs::PutLaws::counted_len))]
    pub(crate) fn put(&self, layout: Layout, out: &mut Vec<u8>)
        requires ranges { IsLayout layout }
        requires fits { (content_in layout).Fits (stored_content self.now) }
        requires room { vec_len out.old + length ((content_in layout).written (stored_content self.now)) ≤ vec_capacity out.old }
        ensures { Puts out.old out.new ((content_in layout).written (stored_content self.now)) }
    {
        match layout {
            Layout::Nothing => {}
            Layout::Number(len) => put_number(usize::from(len), self.number(), out),
            Layout::Bits(count) => put_big(usize::from(count).div_ceil(8), self.number(), out),
            Layout::Timestamp2(digits) => {
                put_big(4 + (usize::from(digits) + 1) / 2, self.number(), out)
            }
            Layout::DateTime2(digits) => {
                put_big(5 + (usize::from(digits) + 1) / 2, self.number(), out)
            }
            Layout::Time2(digits) => {
                put_big(3 + (usize::from(digits) + 1) / 2, self.number(), out)
            }
            Layout::Decimal { .. } => put_bytes(self.bytes(), out),
            Layout::Counted { prefix, .. } | Layout::Vector(prefix) => {
                put_counted(usize::from(prefix), self.bytes(), out)
            }
        }
    }
}

/// Appends bytes; `out` has the capacity.
pub(crate) fn put_bytes(bytes: &[u8], out: &mut Vec<u8>)
    requires { vec_len out.old + length bytes.now ≤ vec_capacity out.old }
    ensures { Puts out.old out.new bytes.now }
{
    out.extend_from_slice(bytes).unwrap();
}

/// Appends a little-endian number of `len` bytes, 1 to 8; `out` has the capacity.
#[tactic(auto, using(crate::specs::PutLaws::little_front, crate::specs::PutLaws::little_len))]
fn put_number(len: usize, number: u64, out: &mut Vec<u8>)
    requires low { 1 ≤ len }
    requires high { len ≤ 8 }
    requires fits { number < 256 ^ len }
    requires room { vec_len out.old + len ≤ vec_capacity out.old }
    ensures { Puts out.old out.new (little_bytes len number) }
{
    let mut bytes = [0; 8];
    LittleEndian::write_uint(&mut bytes, number, len);
    put_bytes(&bytes[..len], out);
}

/// Appends a number of `len` bytes, 1 to 8, most significant byte first; `out` has the capacity.
#[tactic(auto, using(crate::specs::PutLaws::big_front, crate::specs::PutLaws::big_len))]
pub(crate) fn put_big(len: usize, number: u64, out: &mut Vec<u8>)
    requires low { 1 ≤ len }
    requires high { len ≤ 8 }
    requires fits { number < 256 ^ len }
    requires room { vec_len out.old + len ≤ vec_capacity out.old }
    ensures { Puts out.old out.new (big_bytes len number) }
{
    let mut bytes = [0; 8];
    BigEndian::write_uint(&mut bytes, number, len);
    put_bytes(&bytes[..len], out);
}

/// Appends bytes after their length in `prefix` bytes, 1 to 4; `out` has the capacity.
#[tactic(auto, using(std::proofs::Common::append_assoc, crate::specs::PutLaws::little_len))]
fn put_counted(prefix: usize, bytes: &[u8], out: &mut Vec<u8>)
    requires low { 1 ≤ prefix }
    requires high { prefix ≤ 4 }
    requires fits { length bytes.now < 256 ^ prefix }
    requires room { vec_len out.old + (prefix + length bytes.now) ≤ vec_capacity out.old }
    ensures { Puts out.old out.new (little_bytes prefix (length bytes.now) ++ bytes.now) }
{
    put_number(prefix, bytes.len() as u64, out);
    put_bytes(bytes, out);
}
