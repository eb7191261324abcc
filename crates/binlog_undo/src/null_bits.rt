//! The null bitmaps of images.
ghost use Rattle.std.specs.Prelude.{◌≡◌, ◌≤◌, length, drop, IfOk};
ghost use Rattle.binlog_images.specs.NullBits.{nulls_of};

use binlog_images::null_byte;
use std::alloc::{AllocError, Global};

/// The flags from this place on.
fn from_place(flags: &[bool], place: usize) -> &[bool]
    requires { place ≤ length flags.now }
    ensures { result.now ≡ drop place flags.entry.now }
{
    &flags[place..]
}

/// The null bitmap of columns of which each is NULL or isn't.
#[tactic(auto, using(binlog_images::proofs::NullBits::nulls_step, binlog_images::proofs::NullBits::nulls_end))]
pub(crate) fn null_bitmap(alloc: Global, flags: &[bool]) -> Result<Vec<u8>, AllocError>
    ensures { IfOk result (λ bytes. bytes.items ≡ nulls_of flags.now) }
{
    let mut bytes = Vec::new(alloc);
    for index in 0..flags.len().div_ceil(8) {
        let byte = null_byte(from_place(flags, 8 * index));
        bytes.push(byte)?;
    }
    Ok(bytes)
}
