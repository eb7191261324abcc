//! Writing a GTID with a tag.
ghost use Rattle.std.specs.Prelude.{◌≡◌, ◌++◌, ◌+◌, ◌*◌, ◌<◌, ◌≤◌, Some, length, MatchOption, IsOk, Err, vec_len, vec_capacity};
ghost use Rattle.binlog_wire.specs.Putting.{Puts};
ghost use Rattle.binlog_variable_fields.specs.Repeated.{each_written};
ghost use Rattle.binlog_variable_fields.specs.Sized.{least_size};
ghost use Rattle.binlog_variable_fields.specs.Varlen.{varlen_written};
ghost use Rattle.binlog_gtids.specs.Formats.{tagged};
ghost use Rattle.binlog_gtids.specs.Tagged.{written_size, entries_written};
ghost use Rattle.binlog_gtids.specs.Writable.{unwritable_tagged};
ghost use Rattle.binlog_gtids.specs.TaggedWriting.{number_field, changed_field, sid_field, tag_field, first_fields, last_fields};

use crate::field_id;
use crate::gtid_event::GtidEvent;
use binlog_variable_fields::{Tag, Varlen, varlen_uint_size};
use binlog_wire::{Error, Field, IntRepr};

/// The last non-ignorable field id that is written.
const LAST_ID: u64 = 0;

/// The least payload size that counts these bytes, the version, the last non-ignorable field id, and its own bytes.
fn payload_size(fields_len: usize) -> u64
    requires { fields_len ≤ 900 }
    ensures size { result ≡ least_size (2 + fields_len) }
    ensures small { result ≤ 1000 }
{
    let others = 2 + fields_len as u64;
    if others + 1 < 128 {
        others + 1
    } else {
        others + 2
    }
}

/// The number of bytes written for a field with a number.
fn number_len(id: u64, number: u64) -> usize
    ensures count { result ≡ length (number_field id number) }
    ensures small { result ≤ 18 }
{
    varlen_uint_size(id) + varlen_uint_size(number)
}

/// The number of bytes written for a field with a signed number.
fn signed_len(id: u64, number: u64) -> usize
    ensures count { result ≡ length (number_field id (2 * number)) }
    ensures small { result ≤ 18 }
{
    if number < 1 << 63 {
        number_len(id, 2 * number)
    } else {
        varlen_uint_size(id) + 9
    }
}

/// The number of bytes written for a field that is left out if it has the default number.
fn changed_len(id: u64, usual: u64, number: u64) -> usize
    ensures count { result ≡ length (changed_field id usual number) }
    ensures small { result ≤ 18 }
{
    if usual == number {
        0
    } else {
        number_len(id, number)
    }
}

/// The number of bytes written for a source's UUID, one number for each byte.
fn sid_len(sid: &[u8]) -> usize
    requires { length sid.now ≡ 16 }
    ensures count { result ≡ length (sid_field sid.now) }
    ensures small { result ≤ 153 }
{
    let mut len = varlen_uint_size(field_id::SID);
    for byte in sid {
        len += varlen_uint_size(u64::from(*byte));
    }
    len
}

/// The number of bytes written for a tag.
fn tag_len(tag: &Tag<'_>) -> usize
    ensures count { result ≡ length (tag_field tag.now) }
    ensures small { result ≤ 50 }
{
    let len = tag.as_str().len();
    number_len(field_id::TAG, len as u64) + len
}

/// Appends a field with a number. `buf` has room for it.
fn put_number(id: u64, number: u64, buf: &mut Vec<u8>)
    requires { vec_len buf.old + length (number_field id number) ≤ vec_capacity buf.old }
    ensures { Puts buf.old buf.new (number_field id number) }
{
    Varlen::put(id, buf);
    Varlen::put(number, buf);
}

/// Appends a field unless it has the default number. `buf` has room for it.
fn put_changed(id: u64, usual: u64, number: u64, buf: &mut Vec<u8>)
    requires { vec_len buf.old + length (changed_field id usual number) ≤ vec_capacity buf.old }
    ensures { Puts buf.old buf.new (changed_field id usual number) }
{
    if usual != number {
        put_number(id, number, buf);
    }
}

/// Appends each byte as a number. `buf` has room for them.
fn put_bytes(bytes: &[u8], buf: &mut Vec<u8>)
    requires { vec_len buf.old + length (each_written varlen_written bytes.now) ≤ vec_capacity buf.old }
    ensures { Puts buf.old buf.new (each_written varlen_written bytes.now) }
{
    for byte in bytes {
        Varlen::put(u64::from(*byte), buf);
    }
}

/// Appends a source's UUID. `buf` has room for it.
fn put_sid(sid: &[u8], buf: &mut Vec<u8>)
    requires { vec_len buf.old + length (sid_field sid.now) ≤ vec_capacity buf.old }
    ensures { Puts buf.old buf.new (sid_field sid.now) }
{
    Varlen::put(field_id::SID, buf);
    put_bytes(sid, buf);
}

/// Appends a tag. `buf` has room for it.
fn put_tag(tag: &Tag<'_>, buf: &mut Vec<u8>)
    requires { vec_len buf.old + length (tag_field tag.now) ≤ vec_capacity buf.old }
    ensures { Puts buf.old buf.new (tag_field tag.now) }
{
    let text = tag.as_str().as_bytes();
    put_number(field_id::TAG, text.len() as u64, buf);
    buf.extend_from_slice(text).unwrap();
}

impl GtidEvent {
    /// [`Error::Unwritable`] for the first, in this order, of a GNO, a `last_committed` and a `sequence_number` of
    /// 2^63 or more.
    pub(crate) fn check_tagged(&self) -> Result<(), Error>
        ensures { MatchOption (unwritable_tagged self.now) (IsOk result) (λ why. result ≡ Err why) }
    {
        if self.gno >= 1 << 63 {
            return Err(Error::Unwritable(Field::Gno));
        }
        if self.last_committed >= 1 << 63 {
            return Err(Error::Unwritable(Field::LastCommitted));
        }
        if self.sequence_number >= 1 << 63 {
            return Err(Error::Unwritable(Field::SequenceNumber));
        }
        Ok(())
    }

    /// The number of bytes written for the fields up to the logical timestamps.
    fn first_len(&self, tag: &Tag<'_>) -> usize
        ensures count { result ≡ length (first_fields self.now tag.now) }
        ensures small { result ≤ 275 }
    {
        number_len(field_id::GTID_FLAGS, u64::from(self.flags))
            + sid_len(&self.sid)
            + signed_len(field_id::GNO, self.gno)
            + tag_len(tag)
            + signed_len(field_id::LAST_COMMITTED, self.last_committed)
            + signed_len(field_id::SEQUENCE_NUMBER, self.sequence_number)
    }

    /// The number of bytes written for the fields from the commit timestamps on.
    fn last_len(&self) -> usize
        ensures count { result ≡ length (last_fields self.now) }
        ensures small { result ≤ 108 }
    {
        let (time, version) = (
            self.immediate_commit_timestamp,
            u64::from(self.immediate_server_version),
        );
        number_len(field_id::IMMEDIATE_COMMIT_TIMESTAMP, time)
            + changed_len(
                field_id::ORIGINAL_COMMIT_TIMESTAMP,
                time,
                self.original_commit_timestamp,
            )
            + number_len(field_id::TRANSACTION_LENGTH, self.tx_length)
            + number_len(field_id::IMMEDIATE_SERVER_VERSION, version)
            + changed_len(
                field_id::ORIGINAL_SERVER_VERSION,
                version,
                u64::from(self.original_server_version),
            )
            + changed_len(
                field_id::COMMIT_GROUP_TICKET,
                Self::COMMIT_GROUP_TICKET_UNSET,
                self.commit_group_ticket,
            )
    }

    /// Appends the fields up to the logical timestamps. `buf` has room for them.
    fn put_first(&self, tag: &Tag<'_>, buf: &mut Vec<u8>)
        requires gno { self.now.gno < 9223372036854775808 }
        requires last_committed { self.now.last_committed < 9223372036854775808 }
        requires sequence_number { self.now.sequence_number < 9223372036854775808 }
        requires room { vec_len buf.old + length (first_fields self.now tag.now) ≤ vec_capacity buf.old }
        ensures { Puts buf.old buf.new (first_fields self.now tag.now) }
    {
        put_number(field_id::GTID_FLAGS, u64::from(self.flags), buf);
        put_sid(&self.sid, buf);
        put_number(field_id::GNO, 2 * self.gno, buf);
        put_tag(tag, buf);
        put_number(field_id::LAST_COMMITTED, 2 * self.last_committed, buf);
        put_number(field_id::SEQUENCE_NUMBER, 2 * self.sequence_number, buf);
    }

    /// Appends the fields from the commit timestamps on. `buf` has room for them.
    fn put_last(&self, buf: &mut Vec<u8>)
        requires room { vec_len buf.old + length (last_fields self.now) ≤ vec_capacity buf.old }
        ensures { Puts buf.old buf.new (last_fields self.now) }
    {
        let (time, version) = (
            self.immediate_commit_timestamp,
            u64::from(self.immediate_server_version),
        );
        put_number(field_id::IMMEDIATE_COMMIT_TIMESTAMP, time, buf);
        put_changed(
            field_id::ORIGINAL_COMMIT_TIMESTAMP,
            time,
            self.original_commit_timestamp,
            buf,
        );
        put_number(field_id::TRANSACTION_LENGTH, self.tx_length, buf);
        put_number(field_id::IMMEDIATE_SERVER_VERSION, version, buf);
        put_changed(
            field_id::ORIGINAL_SERVER_VERSION,
            version,
            u64::from(self.original_server_version),
            buf,
        );
        put_changed(
            field_id::COMMIT_GROUP_TICKET,
            Self::COMMIT_GROUP_TICKET_UNSET,
            self.commit_group_ticket,
            buf,
        );
    }

    /// The length of the body with this tag, which is the payload size that it states.
    pub(crate) fn tagged_len(&self, tag: &Tag<'_>) -> u64
        requires { self.now.tag ≡ Some tag.now }
        ensures size { result ≡ written_size self.now }
        ensures count { result ≡ length (tagged.written self.now) }
        ensures small { result ≤ 1000 }
    {
        payload_size(self.first_len(tag) + self.last_len())
    }

    /// Appends the body with this tag. `buf` has room for it.
    pub(crate) fn put_tagged(&self, tag: &Tag<'_>, buf: &mut Vec<u8>)
        requires tag { self.now.tag ≡ Some tag.now }
        requires gno { self.now.gno < 9223372036854775808 }
        requires last_committed { self.now.last_committed < 9223372036854775808 }
        requires sequence_number { self.now.sequence_number < 9223372036854775808 }
        requires room { vec_len buf.old + length (tagged.written self.now) ≤ vec_capacity buf.old }
        ensures { Puts buf.old buf.new (tagged.written self.now) }
    {
        let size = self.tagged_len(tag);
        u8::put(Self::TAGGED_SERIALIZATION_VERSION_V2, buf);
        Varlen::put(size, buf);
        Varlen::put(LAST_ID, buf);
        self.put_first(tag, buf);
        self.put_last(buf);
    }
}
