//! The table of a table map.
ghost use Rattle.std.specs.Prelude.{◌≡◌, ◌^◌, ◌≤◌, length, IfOk, IsOkUnless};
ghost use Rattle.binlog_wire.specs.declared.error.Error.TheVariants.{Memory};
ghost use Rattle.binlog_wire.specs.Fields.{block_at};
ghost use Rattle.binlog_wire.specs.Reading.{Gives, read_as};
ghost use Rattle.binlog_rows.specs.TableMaps.{table};

use crate::table_id::TableId;
use binlog_wire::{
    BytesRepr, Error, IntRepr, IntoOwned, LeU16, MyDeserialize, ParseBuf, Put, RawBytes, Skip,
    TryClone, U8Bytes,
};
use std::alloc::Global;
use std::borrow::CowSlice;

/// A table: its id, its flags, the database name and the table name.
#[derive(Debug, PartialEq, Eq, Hash, Drop)]
pub struct MappedTable<'a> {
    /// The table id.
    pub id: TableId,
    /// All bits of the flags.
    pub flags: u16,
    /// The database name.
    pub database_name: RawBytes<'a, U8Bytes>,
    /// The table name.
    pub table_name: RawBytes<'a, U8Bytes>,
}

impl<'a> MappedTable<'a> {
    /// Reads a table from the start of `buf`, as `deserialize` does.
    #[inline(always)]
    pub fn read(post_header: u8, buf: &mut ParseBuf<'a>) -> Result<Self, Error>
        ensures { Gives ⊥ buf.new result ((table post_header).reads buf.old) }
    {
        let id = TableId::read(post_header, buf)?;
        let flags = LeU16::read(buf)?;
        let database_name = U8Bytes::read((), buf)?;
        skip_byte(buf)?;
        let table_name = U8Bytes::read((), buf)?;
        Ok(MappedTable {
            id,
            flags,
            database_name: RawBytes::new(CowSlice::Borrowed(database_name)),
            table_name: RawBytes::new(CowSlice::Borrowed(table_name)),
        })
    }
}

impl<'a> IntoOwned for MappedTable<'a> {
    type Owned = MappedTable<'static>;

    ghost is_owned = { λ value owned. owned ≡ value };

    fn into_owned(self, alloc: Global) -> Result<MappedTable<'static>, Error> {
        let database_name = self.database_name.into_owned(alloc)?;
        let table_name = self.table_name.into_owned(alloc)?;
        Ok(MappedTable {
            id: self.id,
            flags: self.flags,
            database_name,
            table_name,
        })
    }
}

impl<'a> TryClone for MappedTable<'a> {
    fn clone(&self, alloc: Global) -> Result<Self, Error> {
        let database_name = self.database_name.clone(alloc)?;
        let table_name = self.table_name.clone(alloc)?;
        Ok(MappedTable {
            id: self.id,
            flags: self.flags,
            database_name,
            table_name,
        })
    }
}

/// The context is the length of the post-header. The only error is [`Error::EndOfBody`], if the bytes end within the
/// table.
impl<'de> MyDeserialize<'de> for MappedTable<'de> {
    const SIZE: Option<usize> = None;

    type Ctx = u8;

    ghost reads = { λ post_header. (table post_header).reads };

    fn deserialize(
        _alloc: Global,
        post_header: u8,
        buf: &mut ParseBuf<'de>,
    ) -> Result<Self, Error> {
        MappedTable::read(post_header, buf)
    }
}

impl Put for MappedTable<'_> {
    ghost bytes = { (table 8).written };

    fn check(&self) -> Result<(), Error> {
        Ok(())
    }

    fn written_len(&self) -> usize
        ensures count { result ≡ length ((table 8).written self.now) }
        ensures small { result ≤ 2 ^ 10 }
    {
        TableId::LEN + 2 + self.database_name.written_len() + 1 + self.table_name.written_len()
    }

    #[tactic(auto, using(std::proofs::Common::append_assoc))]
    fn put(&self, buf: &mut Vec<u8>) {
        self.id.put(buf);
        LeU16::put(self.flags, buf);
        self.database_name.put(buf);
        Skip::<1>.put(buf);
        self.table_name.put(buf);
    }
}

/// Skips the reserved byte after a name at the start of `buf`.
#[inline(always)]
pub(crate) fn skip_byte(buf: &mut ParseBuf<'_>) -> Result<(), Error>
    ensures { Gives ⊥ buf.new result (read_as (λ _. tt) (block_at 1 buf.old)) }
{
    if buf.checked_skip(1) {
        Ok(())
    } else {
        Err(Error::EndOfBody)
    }
}
