//! Copying a text that is ASCII and needs no escape, where it is checked while it is copied.
ghost use Rattle.std.specs.Prelude.{◌≡◌, ◌+◌, ◌≤◌, length, take, IsAscii, IsUtf8};
ghost use Rattle.std.specs.Bool.{OnTrue};
ghost use Rattle.json.specs.Filled.{Placed};
ghost use Rattle.json.specs.Print.{escape};
ghost use Rattle.json_line.specs.Passed.{PassedBetween};

use crate::place::{place_bytes, place_ends, place_front};
use crate::plain::{is_plain, is_plain_block};

/// Whether the bytes from this index on, N to 2N, are ASCII and need no escape.
// The last N bytes may overlap the first.
#[inline(always)]
fn is_plain_from<const N: usize>(text: &[u8], at: usize) -> bool
    requires few { N ≤ 64 }
    requires covers { (at + N ≤ length text.now) × (length text.now ≤ at + (N + N)) }
    ensures { OnTrue result (PassedBetween text.now at (length text.now)) }
{
    if is_plain_block::<N>(text, at) {
        is_plain_block::<N>(text, text.len() - N)
    } else {
        false
    }
}

/// Copies a text of N bytes or more to this index, block by block, as long as its bytes are ASCII and need no escape. The result is
/// whether all are.
#[inline(always)]
fn place_plain_blocks<const N: usize>(memory: &mut [u8], at: usize, text: &[u8]) -> bool
    requires some { (1 ≤ N) × (N ≤ 64) × (N ≤ length text.now) }
    requires fits { at + length text.now ≤ length memory.old }
    ensures len { length memory.new ≡ length memory.old }
    ensures kept { take at memory.new ≡ take at memory.old }
    ensures placed { OnTrue result (Placed memory.old memory.new at text.now (at + length text.now)) }
    ensures plain { OnTrue result (PassedBetween text.now 0 (length text.now)) }
{
    let mut done = 0;
    while text.len() - done > N + N {
        place_front::<N>(memory, at + done, &text[done..]);
        if !is_plain_block::<N>(text, done) {
            return false;
        }
        done += N;
    }
    place_ends::<N>(memory, at + done, &text[done..]);
    is_plain_from::<N>(text, done)
}

/// Copies a text that is shorter than a block.
#[inline(always)]
fn place_plain_short(memory: &mut [u8], at: usize, text: &[u8]) -> bool
    requires { at + length text.now ≤ length memory.old }
    ensures len { length memory.new ≡ length memory.old }
    ensures kept { take at memory.new ≡ take at memory.old }
    ensures placed { OnTrue result (Placed memory.old memory.new at text.now (at + length text.now)) }
    ensures as_it_is { OnTrue result (escape text.now ≡ text.now) }
    ensures ascii { OnTrue result (IsAscii text.now) }
{
    place_bytes(memory, at, text);
    is_plain(text)
}

/// Copies a text to this index if all its bytes are ASCII and need no escape. The result is whether they are; if not, the bytes from
/// the index on may be others than before.
#[inline(always)]
pub(crate) fn place_plain(memory: &mut [u8], at: usize, text: &[u8]) -> bool
    requires { at + length text.now ≤ length memory.old }
    ensures len { length memory.new ≡ length memory.old }
    ensures kept { take at memory.new ≡ take at memory.old }
    ensures placed { OnTrue result (Placed memory.old memory.new at text.now (at + length text.now)) }
    ensures as_it_is { OnTrue result (escape text.now ≡ text.now) }
    ensures ascii { OnTrue result (IsAscii text.now) }
{
    if text.len() >= 16 {
        place_plain_blocks::<16>(memory, at, text)
    } else {
        place_plain_short(memory, at, text)
    }
}
