//! GTID_LIST: the last GTIDs of all earlier logs.
ghost use Rattle.std.specs.Prelude.{◌≡◌, ◌++◌, ◌+◌, ◌*◌, ◌<◌, ◌≤◌, ⊤, [], min, length, refl, IfOk, IsOkUnless, MatchOption, Ok, Err, vec_len, vec_capacity};
ghost use Rattle.binlog_wire.specs.declared.error.Error.TheVariants.{Memory};
ghost use Rattle.binlog_wire.specs.Reading.{Gives};
ghost use Rattle.binlog_variable_fields.specs.Repeated.{each_written};
ghost use Rattle.binlog_mariadb.specs.GtidLists.{gtid_entry, gtid_list, entries_of, entries_written, first_number, list_written, unwritable_list};

use crate::event_type::MariaEventType;
use crate::maria_gtid::{ENTRY_LEN, MariaGtid};
use crate::traits::MariaEvent;
use binlog_consts::BinlogVersion;
use binlog_event_format::{BinlogCtx, BinlogStruct, MAX_BODY_LEN};
use binlog_variable_fields::ValueList;
use binlog_wire::{
    Error, Field, IntRepr, IntoOwned, LeU32, MyDeserialize, MySerialize, ParseBuf, Put, Skip,
    TryClone, reserve,
};
use std::alloc::Global;

/// The bound on the number of entries: a list has fewer than 2^28.
const MOST_ENTRIES: u32 = 1 << 28;

/// The GTID_LIST event (type 163): for each domain and server the last GTID in earlier logs.
///
/// Its body is a number of 4 bytes, little-endian, whose low 28 bits are the number of entries and whose high 4 bits
/// are flags; and the entries, 16 bytes each ([`MariaGtid`]). After an empty list two reserved bytes follow, which are
/// written as 0.
///
/// Source: "GTID_LIST_EVENT" in MariaDB's documentation.
#[derive(Debug, PartialEq, Eq, Hash, Drop)]
pub struct GtidListEvent {
    flags: u8,
    entries: ValueList<MariaGtid>,
}

impl GtidListEvent {
    /// The flag of a list that ends a START REPLICA UNTIL: the replica stops at it.
    pub const FLAG_UNTIL_REACHED: u8 = 1;
    /// The flag of a list whose event groups a replica ignores.
    pub const FLAG_IGN_GTIDS: u8 = 2;

    /// The list of these entries, without flags.
    pub fn new(entries: Vec<MariaGtid>) -> Self
        ensures { result ≡ record { flags = 0; entries = entries.items } }
    {
        GtidListEvent {
            flags: 0,
            entries: ValueList::new(entries),
        }
    }

    /// Sets the flags. Only the low four bits are written.
    pub fn with_flags(mut self, flags: u8) -> Self
        ensures { result ≡ record self { flags = flags } }
    {
        self.flags = flags;
        self
    }

    /// The flags; below 16 in a list that was read.
    pub fn flags(&self) -> u8
        ensures { result ≡ self.now.flags }
    {
        self.flags
    }

    /// The entries, in the order of the body.
    pub fn entries(&self) -> &[MariaGtid]
        ensures { result.now ≡ self.now.entries }
    {
        self.entries.as_slice()
    }

    /// The first number of the body. The only error is [`Error::Unwritable`], if there are 2^28 entries or more.
    fn first_number(&self) -> Result<u32, Error>
        ensures { MatchOption (unwritable_list self.now) (result ≡ Ok (first_number self.now)) (λ why. result ≡ Err why) }
    {
        let count = self.entries.as_slice().len();
        if count >= MOST_ENTRIES as usize {
            return Err(Error::Unwritable(Field::Sids));
        }
        Ok(u32::from(self.flags % 16) * MOST_ENTRIES + count as u32)
    }

    /// The length of the written body in bytes, at most `usize::MAX`.
    fn written_len(&self) -> usize
        ensures { result ≡ min (length (list_written self.now)) 18446744073709551615 }
    {
        let count = self.entries.as_slice().len();
        if count == 0 {
            return 6;
        }
        count.saturating_mul(ENTRY_LEN).saturating_add(4)
    }
}

impl TryClone for GtidListEvent {
    fn clone(&self, alloc: Global) -> Result<Self, Error> {
        let entries = Vec::from_slice(alloc, self.entries.as_slice())?;
        Ok(GtidListEvent {
            flags: self.flags,
            entries: ValueList::new(entries),
        })
    }
}

/// The list borrows nothing, so no memory is allocated and the result is always Ok.
impl IntoOwned for GtidListEvent {
    type Owned = GtidListEvent;

    ghost is_owned = { λ value owned. owned ≡ value };

    fn into_owned(self, _alloc: Global) -> Result<GtidListEvent, Error>
        ensures { result ≡ Ok self }
    {
        Ok(self)
    }
}

/// Reads this number of entries; for none, the two reserved bytes.
fn read_entries(
    alloc: Global,
    count: u32,
    buf: &mut ParseBuf<'_>,
) -> Result<ValueList<MariaGtid>, Error>
    ensures { Gives ⊤ buf.new result ((entries_of count).reads buf.old) }
{
    if count == 0 {
        buf.parse::<Skip<2>>(alloc, ())?;
        return Ok(ValueList::new(Vec::new(alloc)));
    }
    ValueList::deserialize(alloc, (u64::from(count), ()), buf)
}

/// Memory grows with the entries that are read, and not with the number that is stated.
///
/// # Errors
///
/// - [`Error::EndOfBody`] if the bytes end within the number, an entry, or the two reserved bytes.
/// - [`Error::Memory`] if an allocation fails.
impl<'de> MyDeserialize<'de> for GtidListEvent {
    const SIZE: Option<usize> = None;

    type Ctx = BinlogCtx<'de>;

    ghost reads = { λ _. gtid_list.reads };

    ghost grows = { λ _. ⊤ };

    fn deserialize(alloc: Global, _ctx: Self::Ctx, buf: &mut ParseBuf<'de>) -> Result<Self, Error> {
        let number = LeU32::read(buf)?;
        let entries = read_entries(alloc, number % MOST_ENTRIES, buf)?;
        Ok(GtidListEvent {
            flags: (number / MOST_ENTRIES) as u8,
            entries,
        })
    }
}

/// Appends the entries; for none, two zeros. `buf` has room for them.
fn put_entries(entries: &[MariaGtid], buf: &mut Vec<u8>)
    requires { vec_len buf.old + length (each_written gtid_entry.written entries.now) ≤ vec_capacity buf.old }
    ensures items { buf.new.items ≡ buf.old.items ++ each_written gtid_entry.written entries.now }
    ensures len { vec_len buf.new ≡ vec_len buf.old + length (each_written gtid_entry.written entries.now) }
    ensures capacity { vec_capacity buf.old ≤ vec_capacity buf.new }
{
    for entry in entries {
        entry.put(buf);
    }
}

impl MySerialize for GtidListEvent {
    ghost written = { list_written };

    ghost refusal = { unwritable_list };

    fn serialize(&self, _alloc: Global, buf: &mut Vec<u8>) -> Result<(), Error> {
        let number = self.first_number()?;
        reserve(buf, self.written_len())?;
        LeU32::put(number, buf);
        if self.entries.as_slice().is_empty() {
            Skip::<2>.put(buf);
        } else {
            put_entries(self.entries.as_slice(), buf);
        }
        Ok(())
    }
}

impl<'a> BinlogStruct<'a> for GtidListEvent {
    fn len(&self, _version: BinlogVersion) -> usize {
        MAX_BODY_LEN.min(self.written_len())
    }
}

impl<'a> MariaEvent<'a> for GtidListEvent {
    ghost use Rattle.binlog_mariadb.specs.GtidLists.{list_written_is};

    const EVENT_TYPE: MariaEventType = MariaEventType::GTID_LIST_EVENT;

    ghost format = { λ _ _. gtid_list };

    ghost raw_type = { λ _. 163 };

    ghost reading = { λ _. refl };

    ghost writing = { λ _ event writable. list_written_is event writable };
}
