//! A reader that waits at the end of a file.
ghost use Rattle.std.specs.Prelude.{◌≡◌};
ghost use Rattle.binlog_inputs.specs.Reading.{unless_followed};

use std::io::Read;
use std::time::{Clock, Duration};
use std::{io, thread};

// The time between two reads at the end, in milliseconds.
const WAIT: u64 = 200;

/// A reader that waits at the end for more, if the file is followed; nothing is known then of what it reads.
#[derive(Drop)]
pub(crate) struct Following<'a, C, I> {
    clock: &'a C,
    inner: I,
    is_followed: bool,
}

impl<'a, C, I> Following<'a, C, I> {
    /// Reads from this reader.
    pub(crate) fn new(clock: &'a C, inner: I, is_followed: bool) -> Self
        ensures inner { result.inner ≡ inner }
        ensures followed { result.is_followed ≡ is_followed }
    {
        Following {
            clock,
            inner,
            is_followed,
        }
    }
}

impl<'a, C: Clock, I: Read> Read for Following<'a, C, I> {
    ghost remaining = { λ following. unless_followed following.is_followed (I.remaining following.inner) };

    fn read(&mut self, buf: &mut [u8]) -> io::Result<usize> {
        if !self.is_followed {
            return self.inner.read(buf);
        }
        // Bounded, so that the loop is proved to end; no run comes to the bound.
        'tries: for _ in 0..u64::MAX {
            match self.inner.read(buf) {
                Ok(0) => thread::sleep(self.clock, Duration::from_millis(WAIT)),
                answer => return answer,
            }
        }
        Ok(0)
    }
}
