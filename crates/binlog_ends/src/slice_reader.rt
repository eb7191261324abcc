//! A reader of bytes in memory.
ghost use Rattle.std.specs.Prelude.{◌≡◌, ℕ, List, [], Option, Some, Ok, length, take, drop, ◌++◌, ◌<◌, ◌≤◌, min, IfOk, OnErr, MatchResult};
ghost use Rattle.std.specs.Io.KnownBytes.{Consumes, IsAtEnd, Keeps};
ghost use Rattle.binlog_ends.specs.Counts.{count_of, CountsErr};

use crate::failed::Failed;
use crate::traits::{CountsFailures, ReadCounted};
use std::marker::Model;

/// A reader of bytes in memory, which never fails.
///
/// Contracts see it as the list of the bytes that are left.
#[derive(Debug, Drop)]
pub struct SliceReader<'a> {
    rest: &'a [u8],
}

impl<'a> Model for SliceReader<'a> {
    ghost use Rattle.std.specs.Prelude.{ℕ, List};

    ghost Value = { List ℕ };

    ghost view = { λ reader. reader.rest.now };
}

impl<'a> SliceReader<'a> {
    /// A reader of these bytes.
    pub fn new(bytes: &'a [u8]) -> Self
        ensures { result ≡ bytes.now }
    {
        SliceReader { rest: bytes }
    }

    /// The bytes that are left.
    pub fn rest(&self) -> &'a [u8]
        ensures { result.now ≡ self.now }
    {
        self.rest
    }
}

impl CountsFailures for SliceReader<'_> {
    ghost count = { λ _. count_of 0 };

    fn failures(&self) -> u64 {
        0
    }
}

impl ReadCounted for SliceReader<'_> {
    ghost remaining = { λ reader. Some reader };

    fn read_some(&mut self, buf: &mut [u8]) -> Result<usize, Failed>
        ensures within { IfOk result (λ count. count ≤ length buf.new) }
        ensures took { IfOk result (λ count. Consumes (Some self.old) (Some self.new) (take count buf.new)) }
        ensures end { IfOk result (λ count. count ≡ 0 → 0 < length buf.old → IsAtEnd (Some self.old)) }
        ensures keeps { OnErr result (Keeps (Some self.old) (Some self.new)) }
        ensures empty { length buf.old ≡ 0 → result ≡ Ok 0 }
        ensures counts { CountsErr result (count_of 0) (count_of 0) }
        ensures count { result ≡ Ok (min (length self.old) (length buf.old)) }
        ensures copied { IfOk result (λ count. take count buf.new ≡ take count self.old) }
        ensures left { IfOk result (λ count. self.new ≡ drop count self.old) }
    {
        let count = self.rest.len().min(buf.len());
        let (front, rest) = self.rest.split_at(count);
        buf[..count].copy_from_slice(front);
        self.rest = rest;
        Ok(count)
    }
}
