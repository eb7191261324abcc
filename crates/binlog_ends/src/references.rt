//! The traits for `&mut T`: a borrowed reader or writer counts its failures in the same count.
ghost use Rattle.binlog_ends.specs.Counts.{borrowed_count};

use crate::failed::Failed;
use crate::traits::{CountsFailures, ReadCounted, WriteCounted};

impl<C: CountsFailures> CountsFailures for &mut C {
    ghost count = { λ counted. borrowed_count counted.ghost_name (C.count counted.now) };

    fn failures(&self) -> u64 {
        CountsFailures::failures(&**self)
    }
}

impl<R: ReadCounted> ReadCounted for &mut R {
    ghost remaining = { λ reader. R.remaining reader.now };

    fn read_some(&mut self, buf: &mut [u8]) -> Result<usize, Failed> {
        ReadCounted::read_some(&mut **self, buf)
    }
}

impl<W: WriteCounted> WriteCounted for &mut W {
    ghost contents = { λ writer. W.contents writer.now };

    fn write_whole(&mut self, bytes: &[u8]) -> Result<(), Failed> {
        WriteCounted::write_whole(&mut **self, bytes)
    }

    fn flush_counted(&mut self) -> Result<(), Failed> {
        WriteCounted::flush_counted(&mut **self)
    }
}
