//! The data that are written for an event.
ghost use Rattle.std.specs.Prelude.{◌≡◌, ◌+◌, ◌≤◌, length, vec_len, vec_capacity};
ghost use Rattle.binlog_wire.specs.Putting.{Puts};
ghost use Rattle.binlog_payloads.specs.Events.{payload_of};
ghost use Rattle.binlog_payloads.specs.Writing.{field_written, fields_written, size_written};

use crate::event::TransactionPayloadEvent;
use crate::fields::{COMPRESSION_TYPE, END, PAYLOAD_SIZE, UNCOMPRESSED_SIZE};
use binlog_variable_fields::LenEnc;
use binlog_wire::{Error, IntRepr, Put};

/// Writes the fields as servers do: compression type, content's size, if it is stated, and payload's size, in the shortest form;
/// then their end, and the payload.
impl<'a> Put for TransactionPayloadEvent<'a> {
    ghost use Rattle.binlog_payloads.specs.Events.{payload_of};
    ghost use Rattle.binlog_payloads.specs.Writing.{written};

    ghost bytes = { λ event. written (payload_of event) };

    fn check(&self) -> Result<(), Error> {
        Ok(())
    }

    #[tactic(auto, unfolding(crate::specs::Writing::written))]
    fn written_len(&self) -> usize {
        self.fields_len() + self.payload.len()
    }

    #[tactic(auto, unfolding(crate::specs::Writing::written))]
    fn put(&self, buf: &mut Vec<u8>) {
        self.put_fields(buf);
        buf.extend_from_slice(self.payload).unwrap();
    }
}

impl<'a> TransactionPayloadEvent<'a> {
    // The number of bytes of the fields and their end.
    fn fields_len(&self) -> usize
        ensures is { result ≡ length (fields_written (payload_of self.now)) }
        ensures small { result ≤ 90 }
    {
        field_len(COMPRESSION_TYPE, self.algorithm.number())
            + size_len(self.uncompressed_size)
            + field_len(PAYLOAD_SIZE, self.payload_size())
            + LenEnc::written_len(END)
    }

    // Appends the fields and their end. `buf` has room for them.
    fn put_fields(&self, buf: &mut Vec<u8>)
        requires { vec_len buf.old + length (fields_written (payload_of self.now)) ≤ vec_capacity buf.old }
        ensures { Puts buf.old buf.new (fields_written (payload_of self.now)) }
    {
        put_field(COMPRESSION_TYPE, self.algorithm.number(), buf);
        put_size(self.uncompressed_size, buf);
        put_field(PAYLOAD_SIZE, self.payload_size(), buf);
        LenEnc::put(END, buf);
    }
}

// The number of bytes of a field with a number.
fn field_len(kind: u64, number: u64) -> usize
    ensures is { result ≡ length (field_written kind number) }
    ensures small { result ≤ 27 }
{
    let len = LenEnc::written_len(number);
    LenEnc::written_len(kind) + LenEnc::written_len(len as u64) + len
}

// Appends a field with a number. `buf` has room for it.
fn put_field(kind: u64, number: u64, buf: &mut Vec<u8>)
    requires { vec_len buf.old + length (field_written kind number) ≤ vec_capacity buf.old }
    ensures { Puts buf.old buf.new (field_written kind number) }
{
    LenEnc::put(kind, buf);
    LenEnc::put(LenEnc::written_len(number) as u64, buf);
    LenEnc::put(number, buf);
}

// The number of bytes of the field of the content's size.
fn size_len(size: Option<u64>) -> usize
    ensures is { result ≡ length (size_written size) }
    ensures small { result ≤ 27 }
{
    match size {
        Some(size) => field_len(UNCOMPRESSED_SIZE, size),
        None => 0,
    }
}

// Appends the field of the content's size. `buf` has room for it.
fn put_size(size: Option<u64>, buf: &mut Vec<u8>)
    requires { vec_len buf.old + length (size_written size) ≤ vec_capacity buf.old }
    ensures { Puts buf.old buf.new (size_written size) }
{
    if let Some(size) = size {
        put_field(UNCOMPRESSED_SIZE, size, buf);
    }
}
