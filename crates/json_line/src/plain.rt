//! Whether a text is ASCII and needs no escape.
ghost use Rattle.std.specs.Prelude.{◌≡◌, ◌+◌, ◌≤◌, length, IsAscii, IsUtf8};
ghost use Rattle.std.specs.Bool.{OnTrue};
ghost use Rattle.json.specs.Print.{escape};
ghost use Rattle.json_line.specs.Passed.{PassedBetween};

use std::simd::Simd;
use std::simd::prelude::*;

/// Whether the N bytes from this index on are ASCII and need no escape.
#[inline(always)]
pub(crate) fn is_plain_block<const N: usize>(text: &[u8], at: usize) -> bool
    requires { (N ≤ 64) × (at + N ≤ length text.now) }
    ensures { OnTrue result (PassedBetween text.now at (at + N)) }
{
    let block = Simd::<u8, N>::from_slice(&text[at..]);
    (block.simd_eq(Simd::splat(b'"'))
        | block.simd_eq(Simd::splat(b'\\'))
        | block.simd_lt(Simd::splat(0x20))
        | block.simd_ge(Simd::splat(0x80))).to_bitmask()
        == 0
}

// For texts shorter than the smallest block.
#[inline(always)]
fn is_plain_by_bytes(text: &[u8]) -> bool
    ensures { OnTrue result (PassedBetween text.now 0 (length text.now)) }
{
    'bytes: for &byte in text {
        if byte == b'"' || byte == b'\\' || byte < 0x20 || byte >= 0x80 {
            return false;
        }
    }
    true
}

// The last block may overlap the one before it.
#[inline(always)]
fn is_plain_by_blocks<const N: usize>(text: &[u8]) -> bool
    requires { (1 ≤ N) × (N ≤ 64) × (N ≤ length text.now) }
    ensures { OnTrue result (PassedBetween text.now 0 (length text.now)) }
{
    let mut at = 0;
    'blocks: while text.len() - at > N {
        if !is_plain_block::<N>(text, at) {
            return false;
        }
        at += N;
    }
    is_plain_block::<N>(text, text.len() - N)
}

/// Whether all bytes are ASCII, and none is a quotation mark, a backslash or a control character. False also for some
/// texts that need no escape: those that aren't ASCII.
#[inline(always)]
pub(crate) fn is_plain(text: &[u8]) -> bool
    ensures as_it_is { OnTrue result (escape text.now ≡ text.now) }
    ensures utf8 { OnTrue result (IsUtf8 text.now) }
    ensures ascii { OnTrue result (IsAscii text.now) }
{
    if text.len() >= 16 {
        is_plain_by_blocks::<16>(text)
    } else if text.len() >= 8 {
        is_plain_by_blocks::<8>(text)
    } else if text.len() >= 4 {
        is_plain_by_blocks::<4>(text)
    } else {
        is_plain_by_bytes(text)
    }
}
