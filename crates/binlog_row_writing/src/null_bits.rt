//! The null bitmaps of images.
ghost use Rattle.std.specs.Prelude.{◌≡◌, ◌≤◌, ◌+◌, length, drop, vec_len, vec_capacity};
ghost use Rattle.binlog_wire.specs.Putting.{Puts};
ghost use Rattle.binlog_row_writing.specs.NullBits.{is_null_at, first_flags, new_nulls};

use crate::new_value::NewValue;
use crate::put::put_bytes;
use crate::walk::value_of;
use binlog_images::null_byte;

/// Whether the value at this place is NULL; true beyond the last one.
fn is_null_at(values: &[NewValue<'_>], place: usize) -> bool
    ensures { result ≡ is_null_at values.now place }
{
    value_of(values, place).is_null()
}

/// Of each of the eight values from this place on, whether it is NULL; true beyond the last one.
fn flags_from(values: &[NewValue<'_>], place: usize) -> [bool; 8]
    requires { place ≤ length values.now }
    ensures { result ≡ first_flags (drop place values.now) }
{
    let others = &values[place..];
    [
        is_null_at(others, 0),
        is_null_at(others, 1),
        is_null_at(others, 2),
        is_null_at(others, 3),
        is_null_at(others, 4),
        is_null_at(others, 5),
        is_null_at(others, 6),
        is_null_at(others, 7),
    ]
}

/// Appends the null bitmap of these values to `out`, which has the capacity.
#[tactic(auto, using(binlog_images::proofs::NullBits::nulls_end, crate::specs::NullLaws::nulls_start, crate::specs::NullLaws::nulls_len))]
pub(crate) fn put_nulls(values: &[NewValue<'_>], out: &mut Vec<u8>)
    requires { vec_len out.old + length (new_nulls values.now) ≤ vec_capacity out.old }
    ensures { Puts out.old out.new (new_nulls values.now) }
{
    for index in 0..values.len().div_ceil(8) {
        let byte = null_byte(&flags_from(values, 8 * index));
        put_bytes(&[byte], out);
    }
}
