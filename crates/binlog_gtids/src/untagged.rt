//! Reading and writing a GTID without a tag.
ghost use Rattle.std.specs.Prelude.{◌≡◌, ◌++◌, ◌+◌, ◌<◌, ◌≤◌, None, length, MatchOption, IsOk, Err, vec_len, vec_capacity};
ghost use Rattle.binlog_wire.specs.Putting.{Puts};
ghost use Rattle.binlog_wire.specs.Reading.{Gives, read_as};
ghost use Rattle.binlog_gtids.specs.Formats.{untagged};
ghost use Rattle.binlog_gtids.specs.Untagged.{head, head_of, clock, clock_of, with_clock, without_clock};
ghost use Rattle.binlog_gtids.specs.Writable.{unwritable_untagged};

use crate::clock::{
    UNDEFINED_VERSION, put_logical_times, put_times, put_versions, read_length, read_logical_times,
    read_times, read_versions, times_len, versions_len,
};
use crate::gtid_event::GtidEvent;
use crate::sid::read_sid;
use binlog_variable_fields::LenEnc;
use binlog_wire::{Error, Field, IntRepr, LeU64, ParseBuf};

/// The number of bytes before the clock code.
const HEAD_LEN: usize = 25;

/// Reads a GTID up to its clock code.
fn read_head(buf: &mut ParseBuf<'_>) -> Result<GtidEvent, Error>
    ensures { Gives ⊥ buf.new result (read_as without_clock (head.reads buf.old)) }
{
    if buf.len() < HEAD_LEN {
        return Err(Error::EndOfBody);
    }
    let flags = u8::read(buf)?;
    let sid = read_sid(buf)?;
    let gno = LeU64::read(buf)?;
    Ok(GtidEvent {
        flags,
        sid,
        gno,
        tag: None,
        has_clock: false,
        last_committed: 0,
        sequence_number: 0,
        immediate_commit_timestamp: 0,
        original_commit_timestamp: 0,
        tx_length: 0,
        immediate_server_version: UNDEFINED_VERSION,
        original_server_version: UNDEFINED_VERSION,
        commit_group_ticket: 0,
    })
}

/// Reads the fields after the clock code of this GTID.
fn read_clock(event: GtidEvent, buf: &mut ParseBuf<'_>) -> Result<GtidEvent, Error>
    ensures { Gives ⊥ buf.new result (read_as (with_clock event) (clock.reads buf.old)) }
{
    let (last_committed, sequence_number) = read_logical_times(buf)?;
    let (immediate_commit_timestamp, original_commit_timestamp) = read_times(buf)?;
    let tx_length = read_length(buf)?;
    let (immediate_server_version, original_server_version) = read_versions(buf)?;
    let sid = event.sid;
    Ok(GtidEvent {
        flags: event.flags,
        sid,
        gno: event.gno,
        tag: None,
        has_clock: true,
        last_committed,
        sequence_number,
        immediate_commit_timestamp,
        original_commit_timestamp,
        tx_length,
        immediate_server_version,
        original_server_version,
        commit_group_ticket: 0,
    })
}

impl GtidEvent {
    /// Reads a GTID without a tag from the start of `buf`, as `deserialize` does under the raw types 33 and 34. Needs no
    /// allocator.
    ///
    /// # Errors
    ///
    /// - [`Error::EndOfBody`] if the bytes end within a field.
    /// - [`Invalid::LenEnc`](binlog_wire::Invalid::LenEnc) if the transaction length begins with `fb` or `ff`.
    pub fn read_untagged(buf: &mut ParseBuf<'_>) -> Result<Self, Error>
        ensures { Gives ⊥ buf.new result (untagged.reads buf.old) }
    {
        let event = read_head(buf)?;
        match buf.0.split_first() {
            Some((2, rest)) => {
                buf.0 = rest;
                read_clock(event, buf)
            }
            _ => Ok(event),
        }
    }

    /// Appends flags, source UUID and GNO. `buf` has room for them.
    fn put_head(&self, buf: &mut Vec<u8>)
        requires { vec_len buf.old + 25 ≤ vec_capacity buf.old }
        ensures { Puts buf.old buf.new (head.written (head_of self.now)) }
    {
        u8::put(self.flags, buf);
        buf.extend_from_slice(&self.sid).unwrap();
        LeU64::put(self.gno, buf);
    }

    /// The number of bytes written for the clock code and the fields after it.
    fn clock_len(&self) -> usize
        ensures count { result ≡ length (clock.written (clock_of self.now)) }
        ensures small { result ≤ 47 }
    {
        16 + times_len(
            self.immediate_commit_timestamp,
            self.original_commit_timestamp,
        ) + LenEnc::written_len(self.tx_length)
            + versions_len(self.immediate_server_version, self.original_server_version)
    }

    /// Appends the clock code and the fields after it, which can be written. `buf` has room for them.
    fn put_clock(&self, buf: &mut Vec<u8>)
        requires time { self.now.immediate_commit_timestamp < 36028797018963968 }
        requires version { self.now.immediate_server_version < 2147483648 }
        requires room { vec_len buf.old + length (clock.written (clock_of self.now)) ≤ vec_capacity buf.old }
        ensures { Puts buf.old buf.new (clock.written (clock_of self.now)) }
    {
        put_logical_times(self.last_committed, self.sequence_number, buf);
        put_times(
            self.immediate_commit_timestamp,
            self.original_commit_timestamp,
            buf,
        );
        LenEnc::put(self.tx_length, buf);
        put_versions(
            self.immediate_server_version,
            self.original_server_version,
            buf,
        );
    }

    /// [`Error::Unwritable`], only with a clock code, for the first of these in this order: an immediate timestamp of
    /// 2^55 or more, an original timestamp of 2^56 or more that differs from it, an immediate version of 2^31 or more.
    pub(crate) fn check_untagged(&self) -> Result<(), Error>
        ensures { MatchOption (unwritable_untagged self.now) (IsOk result) (λ why. result ≡ Err why) }
    {
        if !self.has_clock {
            return Ok(());
        }
        if self.immediate_commit_timestamp >= 1 << 55 {
            return Err(Error::Unwritable(Field::ImmediateCommitTimestamp));
        }
        if self.original_commit_timestamp != self.immediate_commit_timestamp
            && self.original_commit_timestamp >= 1 << 56
        {
            return Err(Error::Unwritable(Field::OriginalCommitTimestamp));
        }
        if self.immediate_server_version >= 1 << 31 {
            return Err(Error::Unwritable(Field::ImmediateServerVersion));
        }
        Ok(())
    }

    /// The length of the body without a tag.
    pub(crate) fn untagged_len(&self) -> usize
        ensures { result ≡ length (untagged.written self.now) }
    {
        if self.has_clock {
            HEAD_LEN + 1 + self.clock_len()
        } else {
            HEAD_LEN
        }
    }

    /// Appends the body without a tag. `buf` has room for it.
    pub(crate) fn put_untagged(&self, buf: &mut Vec<u8>)
        requires writable { unwritable_untagged self.now ≡ None }
        requires room { vec_len buf.old + length (untagged.written self.now) ≤ vec_capacity buf.old }
        ensures { Puts buf.old buf.new (untagged.written self.now) }
    {
        self.put_head(buf);
        if self.has_clock {
            u8::put(Self::LOGICAL_TIMESTAMP_TYPECODE, buf);
            self.put_clock(buf);
        }
    }
}
