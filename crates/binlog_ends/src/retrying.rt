//! A reader or a writer that retries after an interruption.
use std::io;
use std::io::{BufRead, ErrorKind, Read, Write};

/// The number of attempts at one read, write or flush if each of them is interrupted.
pub const ATTEMPTS: usize = 64;

/// A reader or a writer that retries an interrupted call, up to [`ATTEMPTS`] attempts. After that it returns the
/// interruption.
///
/// No contract of the standard library states when a call is interrupted, so the number of attempts is tested and not
/// proved. That no byte is lost is proved.
#[derive(Debug, Drop)]
pub struct Retrying<T> {
    inner: T,
}

impl<T> Retrying<T> {
    ghost use Rattle.std.specs.Prelude.{◌≡◌};

    /// Wraps a reader or a writer.
    pub fn new(inner: T) -> Self
        ensures { result.inner ≡ inner }
    {
        Retrying { inner }
    }

    /// The wrapped reader or writer.
    pub fn get_ref(&self) -> &T
        ensures { result.now ≡ self.now.inner }
    {
        &self.inner
    }

    /// The wrapped reader or writer.
    pub fn into_inner(self) -> T
        ensures { result ≡ self.inner }
    {
        self.inner
    }
}

// Whether a call was interrupted, so that it can be retried.
fn is_interrupted(error: &io::Error) -> bool {
    error.kind() == ErrorKind::Interrupted
}

impl<R: Read> Read for Retrying<R> {
    ghost remaining = { λ reader. R.remaining reader.inner };

    fn read(&mut self, buf: &mut [u8]) -> io::Result<usize> {
        'attempts: for _ in 1..ATTEMPTS {
            match self.inner.read(buf) {
                Err(error) if is_interrupted(&error) => {}
                answer => return answer,
            }
        }
        self.inner.read(buf)
    }
}

impl<R: BufRead> BufRead for Retrying<R> {
    ghost consumable_len = { λ reader. R.consumable_len reader.inner };

    // If the reader's buffer has bytes, the reader is called a second time, since the bytes of the first call can't be
    // returned from within the loop. They are in its buffer by then, so nothing more is read.
    fn fill_buf(&mut self) -> io::Result<&[u8]> {
        'attempts: for _ in 1..ATTEMPTS {
            match self.inner.fill_buf() {
                Err(error) if is_interrupted(&error) => {}
                Err(error) => return Err(error),
                Ok(shown) if shown.is_empty() => return Ok(&[]),
                Ok(_) => break 'attempts,
            }
        }
        self.inner.fill_buf()
    }

    fn consume(&mut self, amount: usize) {
        self.inner.consume(amount);
    }
}

impl<W: Write> Write for Retrying<W> {
    ghost contents = { λ writer. W.contents writer.inner };

    fn write(&mut self, buf: &[u8]) -> io::Result<usize> {
        'attempts: for _ in 1..ATTEMPTS {
            match self.inner.write(buf) {
                Err(error) if is_interrupted(&error) => {}
                answer => return answer,
            }
        }
        self.inner.write(buf)
    }

    fn flush(&mut self) -> io::Result<()> {
        'attempts: for _ in 1..ATTEMPTS {
            match self.inner.flush() {
                Err(error) if is_interrupted(&error) => {}
                answer => return answer,
            }
        }
        self.inner.flush()
    }
}
