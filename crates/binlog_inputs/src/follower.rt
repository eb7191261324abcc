//! What is done while a log is followed, beside showing its items.
ghost use Rattle.std.specs.Prelude.{◌≡◌, IfErr};
ghost use Rattle.binlog_wire.specs.declared.error.Error.TheVariants.{Writer};

use binlog_file::Error;
use std::alloc::AllocError;

/// What is done with a visitor while a log is followed, beside showing it the items.
pub trait Follower<T> {
    /// What is made of the follower and of a visitor where more is waited for.
    ghost rests: { Self → T → Self → T → Type 0 };

    /// A file of this path begins, whose items are shown from this byte on.
    ///
    /// # Errors
    ///
    /// [`AllocError`] if an allocation fails.
    fn begin_file(&mut self, visitor: &mut T, path: &str, start: u64) -> Result<(), AllocError>
        ensures { self.new ≡ self.old };

    /// All whole transactions that were found were shown, at the first time all that were there as a file was opened. This comes again and
    /// again.
    ///
    /// # Errors
    ///
    /// [`Error::Writer`] if the output failed.
    fn rest(&mut self, visitor: &mut T) -> Result<(), Error>
        ensures rests { rests self.old visitor.old self.new visitor.new }
        ensures err { IfErr result (λ error. error ≡ Writer) };
}

/// A follower that does nothing.
#[derive(Clone, Copy, Debug)]
pub struct NoFollower;

impl<T> Follower<T> for NoFollower {
    ghost rests = { λ old shown new after. (new ≡ old) × (after ≡ shown) };

    fn begin_file(&mut self, _visitor: &mut T, _path: &str, _start: u64) -> Result<(), AllocError> {
        Ok(())
    }

    fn rest(&mut self, _visitor: &mut T) -> Result<(), Error> {
        Ok(())
    }
}
