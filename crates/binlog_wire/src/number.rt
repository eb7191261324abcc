//! Little-endian numbers at an offset in bytes.
ghost use Rattle.std.specs.Prelude.{◌≡◌, ◌+◌, ◌≤◌, length};
ghost use Rattle.binlog_wire.specs.Numbers.{u16_at, u32_at};

use byteorder::{ByteOrder, LittleEndian};

/// The little-endian u16 at offset `place`.
pub fn read_u16_at(bytes: &[u8], place: usize) -> u16
    requires { place + 2 ≤ length bytes.now }
    ensures { result ≡ u16_at place bytes.now }
{
    LittleEndian::read_u16(&bytes[place..])
}

/// The little-endian u32 at offset `place`.
pub fn read_u32_at(bytes: &[u8], place: usize) -> u32
    requires { place + 4 ≤ length bytes.now }
    ensures { result ≡ u32_at place bytes.now }
{
    LittleEndian::read_u32(&bytes[place..])
}
