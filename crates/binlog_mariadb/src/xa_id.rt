//! The id of an XA transaction.
ghost use Rattle.std.specs.Prelude.{◌≡◌, ◌+◌, ◌≤◌, length, take, IfOk, IsOkUnless};
ghost use Rattle.std.specs.Cow.{cow_slice_items};
ghost use Rattle.binlog_wire.specs.declared.error.Error.TheVariants.{Memory};
ghost use Rattle.binlog_mariadb.specs.Gtids.{xa, no_xa};

use binlog_wire::{
    BareU8Bytes, Error, IntRepr, IntoOwned, LeU32, MyDeserialize, ParseBuf, Put, RawBytes, RawInt,
    TryClone,
};
use std::alloc::Global;
use std::borrow::CowSlice;

/// The size in bytes of an id with empty parts.
const PLAIN_LEN: usize = 6;

/// The id of an XA transaction: the number of its format, the global transaction id and the branch qualifier. Servers
/// write at most 64 bytes for each of the two.
///
/// It is encoded as the number, 4 bytes, little-endian; the length of each part, 1 byte; and the parts. A part of more
/// than 255 bytes is cut to 255 when it is returned or written.
#[derive(Debug, PartialEq, Eq, Hash, Drop)]
pub struct XaId<'a> {
    format_id: u32,
    global: RawBytes<'a, BareU8Bytes>,
    branch: RawBytes<'a, BareU8Bytes>,
}

impl<'a> XaId<'a> {
    /// The id with this format number, global transaction id and branch qualifier.
    pub fn new(format_id: u32, global: CowSlice<'a, u8>, branch: CowSlice<'a, u8>) -> Self
        ensures { result ≡ record { format_id = format_id; global = cow_slice_items global.entry; branch = cow_slice_items branch.entry } }
    {
        XaId {
            format_id,
            global: RawBytes::new(global),
            branch: RawBytes::new(branch),
        }
    }

    /// The id if there is no XA transaction: format 0, and empty parts.
    pub(crate) fn empty() -> Self
        ensures { result ≡ no_xa }
    {
        XaId {
            format_id: 0,
            global: RawBytes::default(),
            branch: RawBytes::default(),
        }
    }

    /// The number of the id's format; MySQL and MariaDB use 1 if a statement states none.
    pub fn format_id(&self) -> u32
        ensures { result ≡ self.now.format_id }
    {
        self.format_id
    }

    /// The global transaction id (`gtrid`), at most 255 bytes.
    pub fn gtrid(&self) -> &[u8]
        ensures { result.now ≡ take 255 self.now.global }
    {
        self.global.as_bytes()
    }

    /// The branch qualifier (`bqual`), at most 255 bytes.
    pub fn bqual(&self) -> &[u8]
        ensures { result.now ≡ take 255 self.now.branch }
    {
        self.branch.as_bytes()
    }
}

impl<'a> IntoOwned for XaId<'a> {
    type Owned = XaId<'static>;

    ghost is_owned = { λ value owned. owned ≡ value };

    fn into_owned(self, alloc: Global) -> Result<XaId<'static>, Error> {
        let global = self.global.into_owned(alloc)?;
        let branch = self.branch.into_owned(alloc)?;
        Ok(XaId {
            format_id: self.format_id,
            global,
            branch,
        })
    }
}

impl<'a> TryClone for XaId<'a> {
    fn clone(&self, alloc: Global) -> Result<Self, Error> {
        let global = self.global.clone(alloc)?;
        let branch = self.branch.clone(alloc)?;
        Ok(XaId {
            format_id: self.format_id,
            global,
            branch,
        })
    }
}

/// The only error is [`Error::EndOfBody`], if the bytes end within the id.
impl<'de> MyDeserialize<'de> for XaId<'de> {
    const SIZE: Option<usize> = None;

    type Ctx = ();

    ghost reads = { λ _. xa.reads };

    fn deserialize(alloc: Global, _ctx: (), buf: &mut ParseBuf<'de>) -> Result<Self, Error> {
        let format_id = buf.parse::<RawInt<LeU32>>(alloc, ())?.0;
        let global_len = buf.parse::<RawInt<u8>>(alloc, ())?.0;
        let branch_len = buf.parse::<RawInt<u8>>(alloc, ())?.0;
        let global = buf.parse(alloc, usize::from(global_len))?;
        let branch = buf.parse(alloc, usize::from(branch_len))?;
        Ok(XaId {
            format_id,
            global,
            branch,
        })
    }
}

impl Put for XaId<'_> {
    ghost bytes = { xa.written };

    fn check(&self) -> Result<(), Error> {
        Ok(())
    }

    fn written_len(&self) -> usize
        ensures count { result ≡ length (xa.written self.now) }
        ensures small { result ≤ 516 }
    {
        PLAIN_LEN + self.global.written_len() + self.branch.written_len()
    }

    #[tactic(auto, using(std::proofs::Common::append_assoc))]
    fn put(&self, buf: &mut Vec<u8>) {
        LeU32::put(self.format_id, buf);
        u8::put(self.global.written_len() as u8, buf);
        u8::put(self.branch.written_len() as u8, buf);
        self.global.put(buf);
        self.branch.put(buf);
    }
}
