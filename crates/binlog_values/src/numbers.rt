//! Numbers and bits.
ghost use Rattle.std.specs.Prelude.{◌≡◌, ◌≤◌, ◌<◌, ◌^◌};
ghost use Rattle.byteorder.specs.Endian.{twos_complement};

/// The value of an integer column of 1, 2, 3, 4 or 8 bytes.
///
/// Neither the column's type nor its metadata states whether the column is UNSIGNED; the optional metadata of a table
/// map may. The value of a signed column is the two's complement of the same bits.
#[derive(Clone, Copy, Debug, PartialEq, Eq, Hash)]
pub struct Integer {
    pub(crate) bits: u64,
    pub(crate) size: u8,
    ghost some: { 1 ≤ size },
    ghost most: { size ≤ 8 },
    ghost fits: { bits < 256 ^ size },
}

impl Integer {
    /// The value of an UNSIGNED column.
    pub fn unsigned(&self) -> u64
        ensures { result ≡ self.now.bits }
    {
        self.bits
    }

    /// The value of a signed column.
    #[tactic(auto, using(crate::proofs::SignedNumbers::signed_halves))]
    pub fn signed(&self) -> i64
        ensures { result ≡ twos_complement self.now.size self.now.bits }
    {
        let least = 1 << (8 * self.size - 1);
        if self.bits < least {
            self.bits as i64
        } else {
            -1 - (least - 1 - (self.bits - least)) as i64
        }
    }

    /// The number of bytes: 1, 2, 3, 4 or 8.
    pub fn size(&self) -> u8
        ensures { result ≡ self.now.size }
    {
        self.size
    }
}

/// The value of a BIT column: 1 to 64 bits.
#[derive(Clone, Copy, Debug, PartialEq, Eq, Hash)]
pub struct Bit {
    pub(crate) bits: u64,
    pub(crate) count: u8,
}

impl Bit {
    /// The bits, as a number; the last bit is the least significant.
    pub fn bits(&self) -> u64
        ensures { result ≡ self.now.bits }
    {
        self.bits
    }

    /// The number of bits of the column.
    pub fn count(&self) -> u8
        ensures { result ≡ self.now.count }
    {
        self.count
    }
}
