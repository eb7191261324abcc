//! Table ids.
ghost use Rattle.std.specs.Prelude.{◌≡◌, ◌^◌, ◌<◌};
ghost use Rattle.binlog_wire.specs.Fields.{little_bytes};
ghost use Rattle.binlog_wire.specs.Reading.{Gives};
ghost use Rattle.binlog_rows.specs.Columns.{table_id};

use binlog_wire::{Error, IntRepr, LeU32, LeU48, MyDeserialize, ParseBuf, Put};
use std::alloc::Global;
use std::marker::Model;

/// The id by which events refer to a table: a number below 2^48.
///
/// Contracts see the number.
#[derive(Clone, Copy, Debug, PartialEq, Eq, Hash)]
pub struct TableId {
    number: u64,
}

impl Model for TableId {
    ghost use Rattle.std.specs.Prelude.{ℕ, ◌^◌, ◌<◌};

    ghost Value = { ℕ };

    ghost view = { λ id. id.number };

    ghost invariant = { λ id. id.number < 256 ^ 6 };

    ghost inverse = { λ number. record { number = number } };
}

impl TableId {
    /// The number of bytes written for an id.
    pub const LEN: usize = 6;

    /// Reads an id from the start of `buf`, as `deserialize` does.
    pub fn read(post_header: u8, buf: &mut ParseBuf<'_>) -> Result<Self, Error>
        ensures { Gives ⊥ buf.new result ((table_id post_header).reads buf.old) }
    {
        let number = if post_header == 6 {
            u64::from(LeU32::read(buf)?)
        } else {
            LeU48::read(buf)?
        };
        Ok(TableId { number })
    }

    /// The number.
    pub fn get(self) -> u64
        ensures number { result ≡ self }
        ensures small { result < 2 ^ 48 }
    {
        self.number
    }
}

/// The context is the length of the event's post-header: the id has 4 bytes if that is 6, else 6 bytes. The only error
/// is [`Error::EndOfBody`], if fewer are left.
impl<'de> MyDeserialize<'de> for TableId {
    const SIZE: Option<usize> = None;

    type Ctx = u8;

    ghost reads = { λ post_header. (table_id post_header).reads };

    fn deserialize(
        _alloc: Global,
        post_header: u8,
        buf: &mut ParseBuf<'de>,
    ) -> Result<Self, Error> {
        TableId::read(post_header, buf)
    }
}

/// Always writes 6 bytes.
impl Put for TableId {
    ghost bytes = { little_bytes 6 };

    fn check(&self) -> Result<(), Error> {
        Ok(())
    }

    fn written_len(&self) -> usize {
        Self::LEN
    }

    fn put(&self, buf: &mut Vec<u8>) {
        LeU48::put(self.number, buf);
    }
}
