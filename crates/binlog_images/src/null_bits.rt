//! The bytes of null bitmaps that are written.
ghost use Rattle.std.specs.Prelude.{◌≡◌, ◌≤◌};
ghost use Rattle.binlog_images.specs.NullBits.{null_bit, null_byte};

/// The null bit of a column, as a number; 1 beyond the last column, as servers write it.
fn null_bit(flags: &[bool], place: usize) -> u8
    ensures bit { result ≡ null_bit flags.now place }
    ensures small { result ≤ 1 }
{
    match flags.get(place) {
        Some(false) => 0,
        _ => 1,
    }
}

/// The byte of a null bitmap for eight columns, of each of which `flags` says whether it is NULL: their null bits, the least
/// significant bit first. Where the flags are fewer, the other bits are set, as servers write them; those beyond the eighth aren't looked at.
pub fn null_byte(flags: &[bool]) -> u8
    ensures { result ≡ null_byte flags.now }
{
    let low = null_bit(flags, 0)
        + 2 * null_bit(flags, 1)
        + 4 * null_bit(flags, 2)
        + 8 * null_bit(flags, 3);
    let high = null_bit(flags, 4)
        + 2 * null_bit(flags, 5)
        + 4 * null_bit(flags, 6)
        + 8 * null_bit(flags, 7);
    low + 16 * high
}
