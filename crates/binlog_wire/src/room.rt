//! Reserves capacity in a buffer; a failed allocation is [`Error::Memory`].
ghost use Rattle.std.specs.Prelude.{◌≡◌, ◌+◌, ◌*◌, ◌≤◌, max, IsOk, OnOk, OnErr, IsOkUnless, vec_len, vec_capacity};
ghost use Rattle.binlog_wire.specs.declared.error.Error.TheVariants.{Memory};

use crate::error::Error;

/// Reserves capacity for `count` more bytes, so that `count` bytes can be appended to `buf` without another
/// allocation. A growth doubles the capacity, or makes it exactly `buf.len() + count` where that is more.
///
/// The only error is [`Error::Memory`], and only where the capacity was too small. The contents of `buf` never change.
pub fn reserve(buf: &mut Vec<u8>, count: usize) -> Result<(), Error>
    ensures items { buf.new.items ≡ buf.old.items }
    ensures len { vec_len buf.new ≡ vec_len buf.old }
    ensures room { OnOk result (vec_len buf.new + count ≤ vec_capacity buf.new) }
    ensures growth { vec_capacity buf.new ≤ max (2 * vec_capacity buf.old) (vec_len buf.old + count) }
    ensures enough { vec_len buf.old + count ≤ vec_capacity buf.old → IsOk result }
    ensures err { OnErr result (vec_capacity buf.new ≡ vec_capacity buf.old) }
    ensures memory { IsOkUnless result Memory }
{
    if count <= buf.capacity() - buf.len() {
        return Ok(());
    }
    let doubled = buf.capacity().saturating_mul(2) - buf.len();
    Ok(buf.reserve_exact(count.max(doubled))?)
}
