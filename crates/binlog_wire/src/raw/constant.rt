//! Integer codes, known ones and any, and reserved bytes.
ghost use Rattle.std.specs.Prelude.{◌≡◌, Result, List, ℕ};
ghost use Rattle.binlog_wire.specs.declared.error.Invalid.{Invalid};
ghost use Rattle.binlog_wire.specs.Reading.{read_as};
ghost use Rattle.binlog_wire.specs.Fields.{block_at, read_decoded};

use crate::error::{Error, Invalid};
use crate::parse_buf::ParseBuf;
use crate::raw::int::IntRepr;
use crate::traits::{MyDeserialize, Put};
use std::alloc::Global;
use std::marker::PhantomData;

/// A value that is encoded as an integer code; any other integer is invalid in its place.
pub trait Constant<P>: Copy {
    ghost decoded: { P → Result Self Invalid };

    ghost code: { Self → P };

    /// The value whose code this is, or why there is none.
    fn from_number(number: P) -> Result<Self, Invalid>
        ensures { result ≡ decoded number };

    /// The code of the value.
    fn number(self) -> P
        ensures { result ≡ code self };
}

/// A value that is encoded as an integer code of kind `K`. Reading any other integer is [`Error::InvalidData`].
#[derive(Drop)]
#[derive_where(Clone, Debug, PartialEq, Eq, Hash; E)]
pub struct Const<E: Copy, K>(pub E, #[derive_where(skip)] PhantomData<K>);

impl<E: Copy, K> Const<E, K> {
    /// Wraps the value.
    pub fn new(value: E) -> Self
        ensures { result.0 ≡ value }
    {
        Const(value, PhantomData)
    }
}

impl<'de, K: IntRepr, E: Constant<K::Primitive>> MyDeserialize<'de> for Const<E, K> {
    const SIZE: Option<usize> = K::SIZE;

    type Ctx = ();

    ghost reads = { λ _ s. read_as (λ value. record { 0 = value; 1 = record {} }) (read_decoded E.decoded (K.reads s)) };

    ghost size = { K.SIZE };

    #[inline]
    fn deserialize(_alloc: Global, _ctx: (), buf: &mut ParseBuf<'de>) -> Result<Self, Error> {
        let number = K::read(buf)?;
        let value = E::from_number(number).map_err(Error::InvalidData)?;
        Ok(Const::new(value))
    }
}

impl<K: IntRepr, E: Constant<K::Primitive>> Put for Const<E, K> {
    ghost bytes = { λ constant. K.written (E.code constant.0) };

    #[inline]
    fn check(&self) -> Result<(), Error> {
        Ok(())
    }

    #[inline]
    fn written_len(&self) -> usize {
        K::written_len(self.0.number())
    }

    #[inline]
    fn put(&self, buf: &mut Vec<u8>) {
        K::put(self.0.number(), buf);
    }
}

/// An integer code of kind `K`, which may be that of a value `E` or unknown. Reading accepts any integer.
#[derive(Drop)]
#[derive_where(Clone, Debug, PartialEq, Eq, Hash; K::Primitive)]
pub struct RawConst<K: IntRepr, E>(pub K::Primitive, #[derive_where(skip)] PhantomData<E>);

impl<K: IntRepr, E> RawConst<K, E> {
    /// Wraps the code, whether known or not.
    pub fn new(number: K::Primitive) -> Self
        ensures { result.0 ≡ number }
    {
        RawConst(number, PhantomData)
    }
}

impl<K: IntRepr, E: TryFrom<K::Primitive>> RawConst<K, E> {
    /// The value whose code this is, or the error of `E::try_from` for an unknown code.
    pub fn get(&self) -> Result<E, E::Error>
        ensures { E.try_from_gives self.now.0 result }
    {
        E::try_from(self.0)
    }
}

impl<'de, K: IntRepr, E> MyDeserialize<'de> for RawConst<K, E> {
    const SIZE: Option<usize> = K::SIZE;

    type Ctx = ();

    ghost reads = { λ _ s. read_as (λ number. record { 0 = number; 1 = record {} }) (K.reads s) };

    ghost size = { K.SIZE };

    #[inline]
    fn deserialize(_alloc: Global, _ctx: (), buf: &mut ParseBuf<'de>) -> Result<Self, Error> {
        Ok(RawConst::new(K::read(buf)?))
    }
}

impl<K: IntRepr, E> Put for RawConst<K, E> {
    ghost bytes = { λ raw. K.written raw.0 };

    #[inline]
    fn check(&self) -> Result<(), Error> {
        Ok(())
    }

    #[inline]
    fn written_len(&self) -> usize {
        K::written_len(self.0)
    }

    #[inline]
    fn put(&self, buf: &mut Vec<u8>) {
        K::put(self.0, buf);
    }
}

/// `N` reserved bytes: they may hold anything when they are read, and are written as zeros.
#[derive(Clone, Copy, Debug, PartialEq, Eq, Hash, Default)]
pub struct Skip<const N: usize>;

impl<'de, const N: usize> MyDeserialize<'de> for Skip<N> {
    ghost use Rattle.std.specs.Prelude.{Some};

    const SIZE: Option<usize> = Some(N);

    type Ctx = ();

    ghost reads = { λ _ s. read_as (λ _. record {}) (block_at N s) };

    ghost size = { Some N };

    #[inline]
    fn deserialize(_alloc: Global, _ctx: (), buf: &mut ParseBuf<'de>) -> Result<Self, Error> {
        if buf.checked_skip(N) {
            Ok(Skip)
        } else {
            Err(Error::EndOfBody)
        }
    }
}

impl<const N: usize> Put for Skip<N> {
    ghost use Rattle.std.specs.Prelude.{replicate};

    ghost bytes = { λ _. replicate N 0 };

    #[inline]
    fn check(&self) -> Result<(), Error> {
        Ok(())
    }

    #[inline]
    fn written_len(&self) -> usize {
        N
    }

    #[inline]
    fn put(&self, buf: &mut Vec<u8>) {
        let len = buf.len() + N;
        buf.resize(len, 0).unwrap();
    }
}
