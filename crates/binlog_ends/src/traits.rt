//! Readers and writers that count their failures.
ghost use Rattle.std.specs.Prelude.{◌≡◌, ℕ, List, Option, None, Ok, length, take, ◌<◌, ◌≤◌, IfOk, OnOk, OnErr, IsOk};
ghost use Rattle.std.specs.Io.KnownBytes.{Appends, Consumes, IsAtEnd, Keeps};
ghost use Rattle.binlog_ends.specs.Counts.{FailureCount, CountsErr, AppendsFront};

use crate::failed::Failed;

/// Counts its own failures.
pub trait CountsFailures {
    /// The number of failures, at most `u64::MAX`, and the names of the borrows that are held. No call changes these, so
    /// what a reader or a writer borrowed is known when the borrow ends.
    ghost count: { Self → FailureCount };

    /// The number of failures. It rises by one at each failure, and isn't above `u64::MAX`.
    fn failures(&self) -> u64
        ensures { result ≡ (count self.now).failures };
}

/// A reader that counts its failures.
pub trait ReadCounted: CountsFailures {
    /// The bytes that later reads will return, if known.
    ghost remaining: { Self → Option (List ℕ) } = { λ _. None };

    /// Reads the next bytes into the start of `buf`, as many as are available, and returns how many: 0 only at the end
    /// of the input, or if `buf` is empty. What the rest of `buf` holds afterwards isn't specified.
    ///
    /// If `buf` is empty, the reader isn't called. [`Failed`] is returned exactly if a failure was counted; then
    /// nothing was read.
    fn read_some(&mut self, buf: &mut [u8]) -> Result<usize, Failed>
        ensures within { IfOk result (λ count. count ≤ length buf.new) }
        ensures took { IfOk result (λ count. Consumes (remaining self.old) (remaining self.new) (take count buf.new)) }
        ensures end { IfOk result (λ count. count ≡ 0 → 0 < length buf.old → IsAtEnd (remaining self.old)) }
        ensures keeps { OnErr result (Keeps (remaining self.old) (remaining self.new)) }
        ensures empty { length buf.old ≡ 0 → result ≡ Ok 0 }
        ensures counts { CountsErr result (Self.count self.old) (Self.count self.new) };
}

/// A writer that counts its failures.
pub trait WriteCounted: CountsFailures {
    /// The bytes that were written, if known.
    ghost contents: { Self → Option (List ℕ) } = { λ _. None };

    /// Writes all of the bytes, in order. If there are none, the writer isn't called.
    ///
    /// [`Failed`] is returned exactly if a failure was counted. Then a prefix of the bytes was written; its length
    /// isn't known.
    fn write_whole(&mut self, bytes: &[u8]) -> Result<(), Failed>
        ensures written { OnOk result (Appends (contents self.old) (contents self.new) bytes.now) }
        ensures front { OnErr result (AppendsFront (contents self.old) (contents self.new) bytes.now) }
        ensures empty { length bytes.now ≡ 0 → IsOk result }
        ensures counts { CountsErr result (Self.count self.old) (Self.count self.new) };

    /// Writes out what the writer has buffered.
    ///
    /// [`Failed`] is returned exactly if a failure was counted.
    fn flush_counted(&mut self) -> Result<(), Failed>
        ensures bytes { Keeps (contents self.old) (contents self.new) }
        ensures counts { CountsErr result (Self.count self.old) (Self.count self.new) };
}
