//! CRC-32 as IEEE 802.3, zlib and MySQL compute it: the checksum of binary log events.
//!
//! It gives the values of the Rust crate `crc32fast`. [`Crc32::checksum`] processes eight bytes at a time
//! ("slicing-by-8"), and four behind the last eight. It is proved to give the bit-by-bit CRC-32 of `specs/Crc32.antt`.
#![tactic(auto)]

ghost use Rattle.std.specs.Prelude.{◌≡◌, ◌+◌, ◌*◌, ◌<◌, flat_map};
ghost use Rattle.std.specs.Int.RustNames.{bit_xor};
ghost use Rattle.crc32_ieee.specs.Crc32.{after_bits, register, crc32};

mod tables;

use tables::{BYTES, all_tables};

/// The number of bytes processed at a time.
const WORD: usize = 8;

/// The number of bytes processed at once behind the last word.
const HALF_WORD: usize = 4;

/// Computes CRC-32 checksums, by lookup tables that are constants: nothing is computed beforehand.
#[derive(Clone, Copy, Debug, Drop)]
pub struct Crc32;

impl Crc32 {
    /// What computes checksums.
    pub fn new() -> Crc32 {
        Crc32
    }

    /// The CRC-32 of the bytes, 0 for no bytes. They are read once, and nothing is allocated.
    pub fn checksum(&self, bytes: &[u8]) -> u32
        ensures { result ≡ crc32 bytes.now }
    {
        !self.after(u32::MAX, bytes)
    }

    /// The CRC-32 of these parts as if they were one after another in one slice, 0 for no bytes. They are read once, and
    /// nothing is allocated or copied.
    pub fn checksum_of_parts(&self, parts: &[&[u8]]) -> u32
        ensures { result ≡ crc32 (flat_map (λ part. part.now) parts.now) }
    {
        let mut crc = u32::MAX;
        for part in parts {
            crc = self.after(crc, part);
        }
        !crc
    }

    // The register after these bytes.
    fn after(&self, before: u32, bytes: &[u8]) -> u32
        ensures { result ≡ register before bytes.now }
    {
        let mut crc = before;
        let mut rest = bytes;
        'words: while let Some((word, behind)) = rest.split_first_chunk::<WORD>() {
            crc = self.after_word(u64::from_le_bytes(*word) ^ u64::from(crc));
            rest = behind;
        }
        if let Some((half, behind)) = rest.split_first_chunk::<HALF_WORD>() {
            crc = self.after_half(u32::from_le_bytes(*half) ^ crc);
            rest = behind;
        }
        'bytes: while let Some((byte, behind)) = rest.split_first() {
            crc = self.after_byte(crc, *byte);
            rest = behind;
        }
        crc
    }

    // The register after a byte and `zeros_behind` zero bytes, from an empty register.
    #[inline(always)]
    fn entry(&self, zeros_behind: usize, byte: u64) -> u32
        requires place { zeros_behind < 8 }
        requires byte { byte < 256 }
        ensures { result ≡ after_bits (8 * (zeros_behind + 1)) byte }
    {
        all_tables()[zeros_behind * BYTES + byte as usize]
    }

    // The result of shifting out all 64 bits of a register.
    #[inline(always)]
    fn after_word(&self, word: u64) -> u32
        ensures { result ≡ after_bits 64 word }
    {
        self.entry(0, word >> 56)
            ^ self.entry(1, (word >> 48) % 256)
            ^ self.entry(2, (word >> 40) % 256)
            ^ self.entry(3, (word >> 32) % 256)
            ^ self.entry(4, (word >> 24) % 256)
            ^ self.entry(5, (word >> 16) % 256)
            ^ self.entry(6, (word >> 8) % 256)
            ^ self.entry(7, word % 256)
    }

    // The result of shifting out all 32 bits of half a register.
    #[inline(always)]
    fn after_half(&self, half: u32) -> u32
        ensures { result ≡ after_bits 32 half }
    {
        let half = u64::from(half);
        self.entry(0, half >> 24)
            ^ self.entry(1, (half >> 16) % 256)
            ^ self.entry(2, (half >> 8) % 256)
            ^ self.entry(3, half % 256)
    }

    fn after_byte(&self, crc: u32, byte: u8) -> u32
        ensures { result ≡ after_bits 8 (bit_xor crc byte) }
    {
        self.entry(0, u64::from(crc % 256 ^ u32::from(byte))) ^ (crc >> 8)
    }
}
