//! The traits of reading and writing.
ghost use Rattle.std.specs.Prelude.{◌≡◌, ◌++◌, ◌+◌, ◌≤◌, ℕ, List, length, vec_len, vec_capacity, OnOk, OnErr, IsOk, IsOkUnless, MatchOption, Option, None, Err};
ghost use Rattle.binlog_wire.specs.declared.error.Error.{Error};
ghost use Rattle.binlog_wire.specs.declared.error.Error.TheVariants.{Memory};
ghost use Rattle.binlog_wire.specs.Reading.{Read, Gives};
ghost use Rattle.binlog_wire.specs.Putting.{Puts};

use crate::error::Error;
use crate::parse_buf::ParseBuf;
use crate::room::reserve;
use std::alloc::Global;

/// A type that can be read from the start of a [`ParseBuf`]; as in `mysql_common::proto`.
///
/// Its contract is `reads`: what reading a list of bytes under a context gives, the value and the bytes after it, or
/// the refusal. `grows` says under which contexts reading may allocate; by default under none. `size` is `SIZE` as
/// contracts see it; by default None.
pub trait MyDeserialize<'de>: Sized {
    /// The size in bytes of every value of this type, where it is fixed.
    const SIZE: Option<usize>;
    /// The context that has to be known to read a value.
    type Ctx;

    ghost reads: { Self.Ctx → List ℕ → Read Self };

    ghost size: { Option ℕ } = { None };

    ghost grows: { Self.Ctx → Type 0 } = { λ _. ⊥ };

    /// Reads a value from the start of `buf`, and leaves the bytes after it.
    ///
    /// After an error nothing is stated of the position in `buf`.
    ///
    /// # Errors
    ///
    /// - [`Error::EndOfBody`] where the bytes end within the value;
    /// - [`Error::InvalidData`] where a field of it is complete and not allowed;
    /// - [`Error::WrongEventType`] where this type doesn't belong to the raw event type in `ctx`;
    /// - [`Error::Memory`] only under a context for which the type allocates.
    fn deserialize(alloc: Global, ctx: Self::Ctx, buf: &mut ParseBuf<'de>) -> Result<Self, Error>
        ensures { Gives (grows ctx) buf.new result (reads ctx buf.old) };
}

/// A type that can be written as bytes; as in `mysql_common::proto`.
///
/// Its contract is `written`, the bytes of a value, and `refusal`, why a value can't be written; by default each can.
pub trait MySerialize {
    ghost written: { Self → List ℕ };

    ghost refusal: { Self → Option Error } = { λ _. None };

    /// Appends the encoding of the value to `buf`.
    ///
    /// An error leaves the contents of `buf` unchanged.
    ///
    /// # Errors
    ///
    /// - the type's own refusal: [`Error::Unwritable`] for a value that doesn't fit its encoding;
    /// - else [`Error::Memory`] alone.
    fn serialize(&self, alloc: Global, buf: &mut Vec<u8>) -> Result<(), Error>
        ensures ok { OnOk result (buf.new.items ≡ buf.old.items ++ written self.now) }
        ensures err { OnErr result (buf.new.items ≡ buf.old.items) }
        ensures refused { MatchOption (refusal self.now) (IsOkUnless result Memory) (λ why. result ≡ Err why) };
}

/// A type whose encoded length is computed before the first byte is appended: so a write allocates at most once, and
/// no error comes after that.
///
/// `bytes` is the encoding of a value, and `refusal` says why a value can't be written; by default each can.
pub trait Put {
    ghost bytes: { Self → List ℕ };

    ghost refusal: { Self → Option Error } = { λ _. None };

    /// Checks that the value can be written; [`Error::Unwritable`] where it doesn't fit its encoding.
    fn check(&self) -> Result<(), Error>
        ensures { MatchOption (refusal self.now) (IsOk result) (λ why. result ≡ Err why) };

    /// The length of the encoded value in bytes.
    fn written_len(&self) -> usize
        ensures { result ≡ length (bytes self.now) };

    /// Appends the encoding of the value. The value has passed `check`, and `buf` has the capacity.
    fn put(&self, buf: &mut Vec<u8>)
        requires writable { refusal self.now ≡ None }
        requires room { vec_len buf.old + length (bytes self.now) ≤ vec_capacity buf.old }
        ensures { Puts buf.old buf.new (bytes self.now) };
}

impl<T: Put> MySerialize for T {
    ghost written = { T.bytes };

    ghost refusal = { T.refusal };

    fn serialize(&self, _alloc: Global, buf: &mut Vec<u8>) -> Result<(), Error> {
        self.check()?;
        reserve(buf, self.written_len())?;
        self.put(buf);
        Ok(())
    }
}
