//! The null bits of an image as one number.
ghost use Rattle.std.specs.Prelude.{◌≡◌, ◌≤◌, length};
ghost use Rattle.byteorder.specs.Endian.{little_number};
ghost use Rattle.binlog_rows.specs.Images.{bitmap_of};
ghost use Rattle.binlog_undo.specs.NullWords.{HoldsNulls};

use crate::bytes::are_bytes;
use binlog_wire::BitView;
use byteorder::{ByteOrder, LittleEndian};

/// The little-endian number of these bytes, at most eight.
// Most are one or two, and then are one load.
#[inline(always)]
fn number_of(bytes: &[u8]) -> u64
    requires { length bytes.now ≤ 8 }
    ensures { result ≡ little_number (length bytes.now) bytes.now }
{
    match bytes.len() {
        0 => 0,
        1 => LittleEndian::read_uint(bytes, 1),
        2 => LittleEndian::read_uint(bytes, 2),
        len => LittleEndian::read_uint(bytes, len),
    }
}

/// The null bits of at most 64 columns as one number, the first column's the least significant. Bits behind the last column's may be
/// set.
#[inline(always)]
pub(crate) fn null_word(nulls: BitView<'_>) -> u64
    requires { nulls.len ≤ 64 }
    ensures { HoldsNulls (bitmap_of nulls.entry) 0 result }
{
    let bytes = nulls.as_bytes();
    are_bytes(bytes);
    number_of(bytes)
}
