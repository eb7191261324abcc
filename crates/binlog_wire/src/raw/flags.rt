//! Flag sets.
ghost use Rattle.std.specs.Prelude.{◌≡◌};
ghost use Rattle.std.specs.Int.RustNames.{bit_and};
ghost use Rattle.bitflags.specs.Sets.{known_bits};
ghost use Rattle.binlog_wire.specs.Reading.{read_as};

use crate::error::Error;
use crate::parse_buf::ParseBuf;
use crate::raw::int::IntRepr;
use crate::traits::{MyDeserialize, Put};
use bitflags::Flags;
use std::alloc::Global;
use std::marker::PhantomData;

/// A set of flags `F`, kept as the integer of kind `K` that encodes it. Bits that `F` doesn't define are kept.
#[derive(Drop)]
#[derive_where(Clone, Debug, PartialEq, Eq, Hash; K::Primitive)]
pub struct RawFlags<F, K: IntRepr>(pub K::Primitive, #[derive_where(skip)] PhantomData<F>);

impl<F, K: IntRepr> RawFlags<F, K> {
    /// The set whose bits are `number`.
    pub fn new(number: K::Primitive) -> Self
        ensures { result.0 ≡ number }
    {
        RawFlags(number, PhantomData)
    }
}

impl<F: Flags, K: IntRepr<Primitive = F::Bits>> RawFlags<F, K> {
    /// The flags that `F` defines; other bits are left out.
    pub fn get(&self) -> F
        ensures { F.exact → F.set_of result ≡ bit_and (F.Bits.pattern self.now.0) (known_bits F.table) }
    {
        F::from_bits_truncate(self.0)
    }
}

/// The empty set.
impl<F, K: IntRepr> Default for RawFlags<F, K>
where
    K::Primitive: Default,
{
    ghost is_default = { λ raw. K.Primitive.is_default raw.0 };

    fn default() -> Self {
        RawFlags::new(K::Primitive::default())
    }
}

impl<'de, F, K: IntRepr> MyDeserialize<'de> for RawFlags<F, K> {
    const SIZE: Option<usize> = K::SIZE;

    type Ctx = ();

    ghost reads = { λ _ s. read_as (λ number. record { 0 = number; 1 = record {} }) (K.reads s) };

    ghost size = { K.SIZE };

    #[inline]
    fn deserialize(_alloc: Global, _ctx: (), buf: &mut ParseBuf<'de>) -> Result<Self, Error> {
        Ok(RawFlags::new(K::read(buf)?))
    }
}

impl<F, K: IntRepr> Put for RawFlags<F, K> {
    ghost bytes = { λ raw. K.written raw.0 };

    #[inline]
    fn check(&self) -> Result<(), Error> {
        Ok(())
    }

    #[inline]
    fn written_len(&self) -> usize {
        K::written_len(self.0)
    }

    #[inline]
    fn put(&self, buf: &mut Vec<u8>) {
        K::put(self.0, buf);
    }
}
