//! The fields after the clock code of a GTID without a tag.
ghost use Rattle.std.specs.Prelude.{◌≡◌, ◌++◌, ◌+◌, ◌≤◌, ◌<◌, length, vec_len, vec_capacity};
ghost use Rattle.binlog_wire.specs.Putting.{Puts};
ghost use Rattle.binlog_wire.specs.Reading.{Gives};
ghost use Rattle.binlog_variable_fields.specs.Announced.{announced_written};
ghost use Rattle.binlog_gtids.specs.Untagged.{logical_times, times_if_left, length_if_left, versions_if_left};

use binlog_variable_fields::LenEnc;
use binlog_wire::{Error, IntRepr, LeU32, LeU56, LeU64, ParseBuf};

/// The bit of an immediate commit timestamp that says that an original one follows.
const TIME_FOLLOWS: u64 = 1 << 55;

/// The bit of an immediate server version that says that an original one follows.
const VERSION_FOLLOWS: u32 = 1 << 31;

/// The version of a server that doesn't state one.
pub(crate) const UNDEFINED_VERSION: u32 = 999_999;

/// Reads `last_committed` and `sequence_number`, which are one unit.
pub(crate) fn read_logical_times(buf: &mut ParseBuf<'_>) -> Result<(u64, u64), Error>
    ensures { Gives ⊥ buf.new result (logical_times.reads buf.old) }
{
    if buf.len() < 16 {
        return Err(Error::EndOfBody);
    }
    let last_committed = LeU64::read(buf)?;
    let sequence_number = LeU64::read(buf)?;
    Ok((last_committed, sequence_number))
}

/// Reads the immediate and the original commit timestamp; both are 0 if fewer than 7 bytes are left.
pub(crate) fn read_times(buf: &mut ParseBuf<'_>) -> Result<(u64, u64), Error>
    ensures { Gives ⊥ buf.new result (times_if_left.reads buf.old) }
{
    if buf.len() < 7 {
        return Ok((0, 0));
    }
    let immediate = LeU56::read(buf)?;
    if immediate < TIME_FOLLOWS {
        return Ok((immediate, immediate));
    }
    let original = LeU56::read(buf)?;
    Ok((immediate - TIME_FOLLOWS, original))
}

/// Reads the transaction length; 0 if no byte is left.
pub(crate) fn read_length(buf: &mut ParseBuf<'_>) -> Result<u64, Error>
    ensures { Gives ⊥ buf.new result (length_if_left.reads buf.old) }
{
    if buf.is_empty() {
        return Ok(0);
    }
    LenEnc::read(buf)
}

/// Reads the immediate and the original server version; both are [`UNDEFINED_VERSION`] if fewer than 4 bytes are left.
pub(crate) fn read_versions(buf: &mut ParseBuf<'_>) -> Result<(u32, u32), Error>
    ensures { Gives ⊥ buf.new result (versions_if_left.reads buf.old) }
{
    if buf.len() < 4 {
        return Ok((UNDEFINED_VERSION, UNDEFINED_VERSION));
    }
    let immediate = LeU32::read(buf)?;
    if immediate < VERSION_FOLLOWS {
        return Ok((immediate, immediate));
    }
    let original = LeU32::read(buf)?;
    Ok((immediate - VERSION_FOLLOWS, original))
}

/// Appends `last_committed` and `sequence_number`. `buf` has room for them.
pub(crate) fn put_logical_times(last_committed: u64, sequence_number: u64, buf: &mut Vec<u8>)
    requires { vec_len buf.old + 16 ≤ vec_capacity buf.old }
    ensures { Puts buf.old buf.new (logical_times.written (last_committed, sequence_number)) }
{
    LeU64::put(last_committed, buf);
    LeU64::put(sequence_number, buf);
}

/// The number of bytes written for the commit timestamps.
pub(crate) fn times_len(immediate: u64, original: u64) -> usize
    ensures count { result ≡ length (announced_written 7 36028797018963968 (immediate, original)) }
    ensures small { result ≤ 14 }
{
    if immediate == original { 7 } else { 14 }
}

/// Appends the commit timestamps, of which the immediate one is below 2^55. `buf` has room for them.
pub(crate) fn put_times(immediate: u64, original: u64, buf: &mut Vec<u8>)
    requires time { immediate < 36028797018963968 }
    requires room { vec_len buf.old + length (announced_written 7 36028797018963968 (immediate, original)) ≤ vec_capacity buf.old }
    ensures { Puts buf.old buf.new (announced_written 7 36028797018963968 (immediate, original)) }
{
    if immediate == original {
        LeU56::put(immediate, buf);
    } else {
        LeU56::put(immediate + TIME_FOLLOWS, buf);
        LeU56::put(original, buf);
    }
}

/// The number of bytes written for the server versions.
pub(crate) fn versions_len(immediate: u32, original: u32) -> usize
    ensures count { result ≡ length (announced_written 4 2147483648 (immediate, original)) }
    ensures small { result ≤ 8 }
{
    if immediate == original { 4 } else { 8 }
}

/// Appends the server versions, of which the immediate one is below 2^31. `buf` has room for them.
pub(crate) fn put_versions(immediate: u32, original: u32, buf: &mut Vec<u8>)
    requires version { immediate < 2147483648 }
    requires room { vec_len buf.old + length (announced_written 4 2147483648 (immediate, original)) ≤ vec_capacity buf.old }
    ensures { Puts buf.old buf.new (announced_written 4 2147483648 (immediate, original)) }
{
    if immediate == original {
        LeU32::put(immediate, buf);
    } else {
        LeU32::put(immediate + VERSION_FOLLOWS, buf);
        LeU32::put(original, buf);
    }
}
