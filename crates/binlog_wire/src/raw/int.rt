//! Integer encodings, and integers as fields.
ghost use Rattle.std.specs.Prelude.{◌≡◌, ◌++◌, ◌+◌, ◌^◌, ◌<◌, ◌≤◌, ℕ, List, Option, Some, OnOk, OnErr, IfOk, IsOkUnless, length, vec_len, vec_capacity};
ghost use Rattle.std.specs.Int.{w8, cast_signed, cast_unsigned};
ghost use Rattle.byteorder.specs.Endian.{little_bytes};
ghost use Rattle.binlog_wire.specs.declared.error.Error.TheVariants.{Memory};
ghost use Rattle.binlog_wire.specs.Putting.{Puts};
ghost use Rattle.binlog_wire.specs.Reading.{Read, Gives, read_as};
ghost use Rattle.binlog_wire.specs.Fields.{number_at};

use crate::error::Error;
use crate::parse_buf::ParseBuf;
use crate::traits::{MyDeserialize, Put};
use byteorder::{ByteOrder, LittleEndian};
use std::alloc::Global;
use std::marker::PhantomData;

/// An encoding of an integer.
///
/// `reads` is what reading one from the start of bytes gives, and `written` is its encoding.
pub trait IntRepr {
    /// The integer type.
    type Primitive: Copy;
    /// The size of the encoding in bytes, where it is fixed.
    const SIZE: Option<usize>;

    ghost SIZE: { Option ℕ };

    ghost reads: { List ℕ → Read Self.Primitive };

    ghost written: { Self.Primitive → List ℕ };

    /// Takes an integer from the start of `buf`; [`Error::EndOfBody`] where the bytes end within it,
    /// [`Error::InvalidData`] where its first byte isn't allowed. No memory is allocated.
    fn read(buf: &mut ParseBuf<'_>) -> Result<Self::Primitive, Error>
        ensures { Gives ⊥ buf.new result (reads buf.old) };

    /// The length of the encoding in bytes, 1 to 9.
    fn written_len(number: Self::Primitive) -> usize
        ensures count { result ≡ length (written number) }
        ensures small { result ≤ 9 };

    /// Appends the encoding of the integer; `buf` has the capacity.
    fn put(number: Self::Primitive, buf: &mut Vec<u8>)
        requires { vec_len buf.old + length (written number) ≤ vec_capacity buf.old }
        ensures { Puts buf.old buf.new (written number) };
}

/// An unsigned integer in one byte.
impl IntRepr for u8 {
    type Primitive = u8;

    const SIZE: Option<usize> = Some(1);

    ghost SIZE = { Some 1 };

    ghost reads = { number_at 1 };

    ghost written = { little_bytes 1 };

    #[inline]
    fn read(buf: &mut ParseBuf<'_>) -> Result<u8, Error> {
        let (byte, rest) = buf.0.split_first().ok_or(Error::EndOfBody)?;
        buf.0 = rest;
        Ok(*byte)
    }

    #[inline]
    fn written_len(_number: u8) -> usize {
        1
    }

    #[inline]
    fn put(number: u8, buf: &mut Vec<u8>) {
        buf.push(number).unwrap();
    }
}

/// A signed integer in one byte, in two's complement.
impl IntRepr for i8 {
    type Primitive = i8;

    const SIZE: Option<usize> = Some(1);

    ghost SIZE = { Some 1 };

    ghost reads = { λ s. read_as (cast_signed w8) (number_at 1 s) };

    ghost written = { λ number. little_bytes 1 (cast_unsigned w8 number) };

    #[inline]
    fn read(buf: &mut ParseBuf<'_>) -> Result<i8, Error> {
        let byte = <u8 as IntRepr>::read(buf)?;
        Ok(byte.cast_signed())
    }

    #[inline]
    fn written_len(_number: i8) -> usize {
        1
    }

    #[inline]
    fn put(number: i8, buf: &mut Vec<u8>) {
        <u8 as IntRepr>::put(number.cast_unsigned(), buf);
    }
}

/// A little-endian integer in two bytes.
#[derive(Drop)]
pub struct LeU16;

impl IntRepr for LeU16 {
    type Primitive = u16;

    const SIZE: Option<usize> = Some(2);

    ghost SIZE = { Some 2 };

    ghost reads = { number_at 2 };

    ghost written = { little_bytes 2 };

    #[inline]
    fn read(buf: &mut ParseBuf<'_>) -> Result<u16, Error> {
        if buf.0.len() < 2 {
            return Err(Error::EndOfBody);
        }
        let number = LittleEndian::read_u16(buf.0);
        buf.0 = &buf.0[2..];
        Ok(number)
    }

    #[inline]
    fn written_len(_number: u16) -> usize {
        2
    }

    #[inline]
    fn put(number: u16, buf: &mut Vec<u8>) {
        buf.extend_from_slice(&number.to_le_bytes()).unwrap();
    }
}

/// A little-endian integer in four bytes.
#[derive(Drop)]
pub struct LeU32;

impl IntRepr for LeU32 {
    type Primitive = u32;

    const SIZE: Option<usize> = Some(4);

    ghost SIZE = { Some 4 };

    ghost reads = { number_at 4 };

    ghost written = { little_bytes 4 };

    #[inline]
    fn read(buf: &mut ParseBuf<'_>) -> Result<u32, Error> {
        if buf.0.len() < 4 {
            return Err(Error::EndOfBody);
        }
        let number = LittleEndian::read_u32(buf.0);
        buf.0 = &buf.0[4..];
        Ok(number)
    }

    #[inline]
    fn written_len(_number: u32) -> usize {
        4
    }

    #[inline]
    fn put(number: u32, buf: &mut Vec<u8>) {
        buf.extend_from_slice(&number.to_le_bytes()).unwrap();
    }
}

/// A little-endian integer in six bytes. Of an integer of 2^48 or more, the low six bytes are written.
#[derive(Drop)]
pub struct LeU48;

impl IntRepr for LeU48 {
    type Primitive = u64;

    const SIZE: Option<usize> = Some(6);

    ghost SIZE = { Some 6 };

    ghost reads = { number_at 6 };

    ghost written = { little_bytes 6 };

    #[inline]
    fn read(buf: &mut ParseBuf<'_>) -> Result<u64, Error>
        ensures number { Gives ⊥ buf.new result (number_at 6 buf.old) }
        ensures small { IfOk result (λ number. number < 2 ^ 48) }
    {
        if buf.0.len() < 6 {
            return Err(Error::EndOfBody);
        }
        // In two parts: the bound 2^48 follows from their types.
        let low = LittleEndian::read_u32(buf.0);
        let high = LittleEndian::read_u16(&buf.0[4..]);
        buf.0 = &buf.0[6..];
        Ok(u64::from(high) << 32 | u64::from(low))
    }

    #[inline]
    fn written_len(_number: u64) -> usize {
        6
    }

    #[inline]
    fn put(number: u64, buf: &mut Vec<u8>) {
        buf.extend_from_slice(&number.to_le_bytes()[..6]).unwrap();
    }
}

/// A little-endian integer in seven bytes. Of an integer of 2^56 or more, the low seven bytes are written.
#[derive(Drop)]
pub struct LeU56;

impl IntRepr for LeU56 {
    type Primitive = u64;

    const SIZE: Option<usize> = Some(7);

    ghost SIZE = { Some 7 };

    ghost reads = { number_at 7 };

    ghost written = { little_bytes 7 };

    #[inline]
    fn read(buf: &mut ParseBuf<'_>) -> Result<u64, Error> {
        if buf.0.len() < 7 {
            return Err(Error::EndOfBody);
        }
        let number = LittleEndian::read_uint(buf.0, 7);
        buf.0 = &buf.0[7..];
        Ok(number)
    }

    #[inline]
    fn written_len(_number: u64) -> usize {
        7
    }

    #[inline]
    fn put(number: u64, buf: &mut Vec<u8>) {
        buf.extend_from_slice(&number.to_le_bytes()[..7]).unwrap();
    }
}

/// A little-endian integer in eight bytes.
#[derive(Drop)]
pub struct LeU64;

impl IntRepr for LeU64 {
    type Primitive = u64;

    const SIZE: Option<usize> = Some(8);

    ghost SIZE = { Some 8 };

    ghost reads = { number_at 8 };

    ghost written = { little_bytes 8 };

    #[inline]
    fn read(buf: &mut ParseBuf<'_>) -> Result<u64, Error> {
        if buf.0.len() < 8 {
            return Err(Error::EndOfBody);
        }
        let number = LittleEndian::read_u64(buf.0);
        buf.0 = &buf.0[8..];
        Ok(number)
    }

    #[inline]
    fn written_len(_number: u64) -> usize {
        8
    }

    #[inline]
    fn put(number: u64, buf: &mut Vec<u8>) {
        buf.extend_from_slice(&number.to_le_bytes()).unwrap();
    }
}

/// An integer in the encoding of its kind `K`: `u8`, `i8`, [`LeU16`], [`LeU32`], [`LeU48`], [`LeU56`] or [`LeU64`].
#[derive(Drop)]
#[derive_where(Clone, Debug, PartialEq, Eq, Hash; K::Primitive)]
pub struct RawInt<K: IntRepr>(pub K::Primitive, #[derive_where(skip)] PhantomData<K>);

impl<K: IntRepr> RawInt<K> {
    /// Wraps the integer.
    pub fn new(number: K::Primitive) -> Self
        ensures { result.0 ≡ number }
    {
        RawInt(number, PhantomData)
    }
}

/// The integer 0.
impl<K: IntRepr> Default for RawInt<K>
where
    K::Primitive: Default,
{
    ghost is_default = { λ raw. K.Primitive.is_default raw.0 };

    fn default() -> Self {
        RawInt::new(K::Primitive::default())
    }
}

impl<'de, K: IntRepr> MyDeserialize<'de> for RawInt<K> {
    const SIZE: Option<usize> = K::SIZE;

    type Ctx = ();

    ghost reads = { λ _ s. read_as (λ number. record { 0 = number; 1 = record {} }) (K.reads s) };

    ghost size = { K.SIZE };

    #[inline]
    fn deserialize(_alloc: Global, _ctx: (), buf: &mut ParseBuf<'de>) -> Result<Self, Error> {
        Ok(RawInt::new(K::read(buf)?))
    }
}

impl<K: IntRepr> Put for RawInt<K> {
    ghost bytes = { λ raw. K.written raw.0 };

    #[inline]
    fn check(&self) -> Result<(), Error> {
        Ok(())
    }

    #[inline]
    fn written_len(&self) -> usize {
        K::written_len(self.0)
    }

    #[inline]
    fn put(&self, buf: &mut Vec<u8>) {
        K::put(self.0, buf);
    }
}
