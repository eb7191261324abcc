//! A GTID of MariaDB, as an entry of a list.
ghost use Rattle.std.specs.Prelude.{◌≡◌, Some};
ghost use Rattle.binlog_mariadb.specs.GtidLists.{gtid_entry};

use binlog_wire::{Error, IntRepr, LeU32, LeU64, MyDeserialize, ParseBuf, Put};
use std::alloc::Global;

/// The size of an entry in bytes.
pub(crate) const ENTRY_LEN: usize = 16;

/// A GTID of MariaDB: a replication domain, the id of the server that ran the event group, and the group's sequence
/// number within the domain. Its text is `domain-server_id-sequence`.
///
/// It is encoded as the three numbers in this order, 4, 4 and 8 bytes, little-endian.
#[derive(Clone, Copy, Debug, PartialEq, Eq, Hash)]
pub struct MariaGtid {
    domain: u32,
    server_id: u32,
    sequence: u64,
}

impl MariaGtid {
    /// The GTID with these numbers.
    pub fn new(domain: u32, server_id: u32, sequence: u64) -> Self
        ensures { result ≡ record { domain = domain; server_id = server_id; sequence = sequence } }
    {
        MariaGtid {
            domain,
            server_id,
            sequence,
        }
    }

    /// The replication domain.
    pub fn domain(&self) -> u32
        ensures { result ≡ self.now.domain }
    {
        self.domain
    }

    /// The id of the server that ran the event group.
    pub fn server_id(&self) -> u32
        ensures { result ≡ self.now.server_id }
    {
        self.server_id
    }

    /// The sequence number.
    pub fn sequence(&self) -> u64
        ensures { result ≡ self.now.sequence }
    {
        self.sequence
    }
}

/// The only error is [`Error::EndOfBody`], if there are fewer than 16 bytes.
impl<'de> MyDeserialize<'de> for MariaGtid {
    const SIZE: Option<usize> = Some(ENTRY_LEN);

    type Ctx = ();

    ghost reads = { λ _. gtid_entry.reads };

    ghost size = { Some 16 };

    fn deserialize(_alloc: Global, _ctx: (), buf: &mut ParseBuf<'de>) -> Result<Self, Error> {
        if buf.len() < ENTRY_LEN {
            return Err(Error::EndOfBody);
        }
        let domain = LeU32::read(buf)?;
        let server_id = LeU32::read(buf)?;
        let sequence = LeU64::read(buf)?;
        Ok(MariaGtid {
            domain,
            server_id,
            sequence,
        })
    }
}

impl Put for MariaGtid {
    ghost bytes = { gtid_entry.written };

    fn check(&self) -> Result<(), Error> {
        Ok(())
    }

    fn written_len(&self) -> usize {
        ENTRY_LEN
    }

    fn put(&self, buf: &mut Vec<u8>) {
        LeU32::put(self.domain, buf);
        LeU32::put(self.server_id, buf);
        LeU64::put(self.sequence, buf);
    }
}
