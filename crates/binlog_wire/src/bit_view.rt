//! A bitmap over bytes, one bit for each column.
ghost use Rattle.std.specs.Prelude.{◌≡◌, ◌==◌, ◌↔◌, length, IsSome, IfSome};
ghost use Rattle.binlog_wire.specs.Bits.{bytes_of_bits, bit_in};

/// A bitmap over borrowed bytes, one bit for each column of a table: the first column's bit is the least significant
/// bit of the first byte.
///
/// It has exactly as many bytes as its bits need. Bits of the last byte after the last column's are kept in the bytes
/// and never shown. In `mysql_common` this is a `BitSlice<u8>`.
#[derive(Clone, Copy, Debug)]
pub struct BitView<'a> {
    bytes: &'a [u8],
    len: u64,
    ghost enough: { length bytes.now ≡ bytes_of_bits len },
}

impl<'a> BitView<'a> {
    /// The first `len` bits of `bytes`; None unless there are exactly `len.div_ceil(8)` bytes.
    #[inline]
    pub fn new(bytes: &'a [u8], len: u64) -> Option<Self>
        ensures enough { IsSome result ↔ (length bytes.now ≡ bytes_of_bits len) }
        ensures bytes { IfSome result (λ view. view.bytes.now ≡ bytes.now) }
        ensures len { IfSome result (λ view. view.len ≡ len) }
    {
        if bytes.len() as u64 != len.div_ceil(8) {
            return None;
        }
        Some(BitView { bytes, len })
    }

    /// The number of bits.
    #[inline]
    pub fn len(&self) -> u64
        ensures { result ≡ self.now.len }
    {
        self.len
    }

    /// Whether there are no bits.
    #[inline]
    pub fn is_empty(&self) -> bool
        ensures { result ≡ (self.now.len == 0) }
    {
        self.len == 0
    }

    /// The bytes, with the bits of the last byte that belong to no column.
    #[inline]
    pub fn as_bytes(&self) -> &'a [u8]
        ensures { result.now ≡ self.now.bytes.now }
    {
        self.bytes
    }

    /// Whether the bit at `index`, counted from 0, is set; None where `index` is [`BitView::len`] or more.
    pub fn bit(&self, index: u64) -> Option<bool>
        ensures { result ≡ bit_in self.now.len self.now.bytes.now index }
    {
        if index >= self.len {
            return None;
        }
        let byte = self.bytes[(index / 8) as usize];
        Some((byte >> (index % 8)) & 1 == 1)
    }
}
