//! A reader or a writer of the standard library whose failures are counted.
ghost use Rattle.std.specs.Prelude.{◌≡◌, ◌<◌, ◌≤◌, ◌↔◌, ℕ, List, Option, Some, None, IsNone, IsSome, Ok, IsOk, IfOk, OnOk, OnErr, MatchResult, length, take};
ghost use Rattle.std.specs.Io.KnownBytes.{Appends, Consumes, IsAtEnd, Keeps};
ghost use Rattle.binlog_ends.specs.Counts.{one_more, count_of, AppendsFront, CountsErr};

use crate::failed::Failed;
use crate::traits::{CountsFailures, ReadCounted, WriteCounted};
use crate::writing::{Interrupted, write_each};
use std::io::{ErrorKind, Read, Write};
use std::marker::Model;

/// A reader or a writer, with the number of its failures and the kind of the last one.
///
/// No contract of the standard library states when a reader or a writer fails, or whether a flush called it. So the
/// contracts state that each [`Failed`] is counted, and that nothing else is. That a failure comes only from the reader
/// or the writer is tested.
///
/// Contracts see it as a record of these three fields.
#[derive(Debug, Drop)]
pub struct Counted<T> {
    inner: T,
    failures: u64,
    last_failure: Option<ErrorKind>,
}

impl<T> Model for Counted<T> {
    ghost use Rattle.std.specs.Prelude.{◌≡◌, ◌↔◌, IsNone};
    ghost use Rattle.binlog_ends.specs.Views.{CountedView};

    ghost Value = { CountedView T };

    ghost view = { λ counted. record { inner = counted.inner; failures = counted.failures; last_failure = counted.last_failure } };

    ghost invariant = { λ counted. IsNone counted.last_failure ↔ (counted.failures ≡ 0) };
}

impl<T> Counted<T> {
    /// Wraps a reader or a writer, with no failures so far.
    pub fn new(inner: T) -> Self
        ensures { result ≡ record { inner = inner; failures = 0; last_failure = None } }
    {
        Counted {
            inner,
            failures: 0,
            last_failure: None,
        }
    }

    /// The wrapped reader or writer.
    pub fn get_ref(&self) -> &T
        ensures { result.now ≡ self.now.inner }
    {
        &self.inner
    }

    /// The wrapped reader or writer. The count is dropped.
    pub fn into_inner(self) -> T
        ensures { result ≡ self.inner }
    {
        self.inner
    }

    /// The kind of the last failure, or None if there was none.
    pub fn last_failure(&self) -> Option<ErrorKind>
        ensures kind { result ≡ self.now.last_failure }
        ensures none { IsNone result ↔ (self.now.failures ≡ 0) }
    {
        self.last_failure
    }

    // Counts a failure.
    fn fail(&mut self, kind: ErrorKind) -> Failed
        ensures { self.new ≡ record self.old { failures = one_more self.old.failures; last_failure = Some kind } }
    {
        self.failures = self.failures.saturating_add(1);
        self.last_failure = Some(kind);
        Failed
    }
}

impl<T> CountsFailures for Counted<T> {
    ghost count = { λ counted. count_of counted.failures };

    fn failures(&self) -> u64 {
        self.failures
    }
}

impl<R: Read> ReadCounted for Counted<R> {
    ghost remaining = { λ counted. R.remaining counted.inner };

    /// Reads by one call of `Read::read`, with all of `buf`; if that returns 0, the input is at its end.
    fn read_some(&mut self, buf: &mut [u8]) -> Result<usize, Failed>
        ensures within { IfOk result (λ count. count ≤ length buf.new) }
        ensures took { IfOk result (λ count. Consumes (R.remaining self.old.inner) (R.remaining self.new.inner) (take count buf.new)) }
        ensures end { IfOk result (λ count. count ≡ 0 → 0 < length buf.old → IsAtEnd (R.remaining self.old.inner)) }
        ensures keeps { OnErr result (Keeps (R.remaining self.old.inner) (R.remaining self.new.inner)) }
        ensures empty { length buf.old ≡ 0 → result ≡ Ok 0 }
        ensures counts { CountsErr result (count_of self.old.failures) (count_of self.new.failures) }
        ensures unasked { length buf.old ≡ 0 → self.new ≡ self.old }
        ensures last { MatchResult result (λ _. self.new.last_failure ≡ self.old.last_failure) (λ _. IsSome self.new.last_failure) }
    {
        if buf.is_empty() {
            return Ok(0);
        }
        match self.inner.read(buf) {
            Ok(count) => Ok(count),
            Err(error) => Err(self.fail(error.kind())),
        }
    }
}

impl<W: Write> WriteCounted for Counted<W> {
    ghost contents = { λ counted. W.contents counted.inner };

    /// Writes until all bytes are written. A write of 0 bytes is a failure, and so is an interruption.
    fn write_whole(&mut self, bytes: &[u8]) -> Result<(), Failed>
        ensures written { OnOk result (Appends (W.contents self.old.inner) (W.contents self.new.inner) bytes.now) }
        ensures front { OnErr result (AppendsFront (W.contents self.old.inner) (W.contents self.new.inner) bytes.now) }
        ensures empty { length bytes.now ≡ 0 → IsOk result }
        ensures counts { CountsErr result (count_of self.old.failures) (count_of self.new.failures) }
        ensures last { MatchResult result (λ _. self.new.last_failure ≡ self.old.last_failure) (λ _. IsSome self.new.last_failure) }
    {
        match write_each(&mut self.inner, bytes, Interrupted::Fails) {
            Ok(()) => Ok(()),
            Err(kind) => Err(self.fail(kind)),
        }
    }

    fn flush_counted(&mut self) -> Result<(), Failed>
        ensures bytes { Keeps (W.contents self.old.inner) (W.contents self.new.inner) }
        ensures counts { CountsErr result (count_of self.old.failures) (count_of self.new.failures) }
        ensures last { MatchResult result (λ _. self.new.last_failure ≡ self.old.last_failure) (λ _. IsSome self.new.last_failure) }
    {
        match self.inner.flush() {
            Ok(()) => Ok(()),
            Err(error) => Err(self.fail(error.kind())),
        }
    }
}
