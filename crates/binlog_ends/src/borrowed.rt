//! A borrowed reader or writer of the standard library whose failures are counted.
ghost use Rattle.std.specs.Prelude.{◌≡◌};
ghost use Rattle.binlog_ends.specs.Counts.{borrowed_count, count_of, one_more};

use crate::failed::Failed;
use crate::traits::{CountsFailures, ReadCounted, WriteCounted};
use crate::writing::{Interrupted, write_each};
use std::io::{Read, Write};

/// A borrowed reader or writer, with the number of its failures since it was borrowed.
///
/// It is how the calls over a borrowed `BufRead` or `Write` go through the counted ones. Its contract states that it
/// keeps its borrow, so the reader or writer is known afterwards. Of a `Counted<&mut T>` that isn't known.
///
/// A read that is interrupted is a failure. An interrupted write is retried, as `Write::write_all` does.
#[derive(Debug, Drop)]
pub struct CountedRef<'a, T> {
    inner: &'a mut T,
    failures: u64,
}

impl<'a, T> CountedRef<'a, T> {
    /// Borrows a reader or a writer, with no failures so far.
    pub fn new(inner: &'a mut T) -> Self
        ensures same_reference { result.inner.ghost_name ≡ inner.entry.ghost_name }
        ensures value { result.inner.now ≡ inner.old }
        ensures none { result.failures ≡ 0 }
    {
        CountedRef { inner, failures: 0 }
    }

    // Counts a failure.
    fn fail(&mut self) -> Failed
        ensures same_reference { self.new.inner.ghost_name ≡ self.old.inner.ghost_name }
        ensures value { self.new.inner.now ≡ self.old.inner.now }
        ensures counts { self.new.failures ≡ one_more self.old.failures }
    {
        self.failures = self.failures.saturating_add(1);
        Failed
    }
}

impl<T> CountsFailures for CountedRef<'_, T> {
    ghost count = { λ counted. borrowed_count counted.inner.ghost_name (count_of counted.failures) };

    fn failures(&self) -> u64 {
        self.failures
    }
}

impl<R: Read> ReadCounted for CountedRef<'_, R> {
    ghost remaining = { λ counted. R.remaining counted.inner.now };

    fn read_some(&mut self, buf: &mut [u8]) -> Result<usize, Failed> {
        if buf.is_empty() {
            return Ok(0);
        }
        match self.inner.read(buf) {
            Ok(count) => Ok(count),
            Err(_) => Err(self.fail()),
        }
    }
}

impl<W: Write> WriteCounted for CountedRef<'_, W> {
    ghost contents = { λ counted. W.contents counted.inner.now };

    fn write_whole(&mut self, bytes: &[u8]) -> Result<(), Failed> {
        match write_each(&mut *self.inner, bytes, Interrupted::Retries) {
            Ok(()) => Ok(()),
            Err(_) => Err(self.fail()),
        }
    }

    fn flush_counted(&mut self) -> Result<(), Failed> {
        match self.inner.flush() {
            Ok(()) => Ok(()),
            Err(_) => Err(self.fail()),
        }
    }
}
