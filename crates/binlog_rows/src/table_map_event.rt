//! TABLE_MAP_EVENT: a table and its columns.
ghost use Rattle.std.specs.Prelude.{◌≡◌, ◌^◌, ◌<◌, length, take, IfOk, IsOkUnless};
ghost use Rattle.std.specs.Cow.{cow_str_bytes};
ghost use Rattle.std.specs.Str.Lossy.{utf8_lossy};
ghost use Rattle.binlog_wire.specs.declared.error.Error.TheVariants.{Memory};

use crate::mapped_columns::MappedColumns;
use crate::mapped_table::{MappedTable, skip_byte};
use binlog_consts::EventType;
use binlog_event_format::{BinlogCtx, BinlogEvent, DescriptionRef};
use binlog_wire::{BitView, Error, IntoOwned, MyDeserialize, ParseBuf, Put, Skip, TryClone};
use std::alloc::Global;
use std::borrow::CowStr;

/// A TABLE_MAP event, type 19: assigns an id to a table and describes its columns. The row events after it refer to
/// the table by this id.
///
/// The body, with little-endian numbers:
///
/// - table id: 6 bytes, or 4 if the format description states a post-header of 6 bytes for the type;
/// - flags: 2 bytes;
/// - database name after its length (1 byte), and one reserved byte;
/// - table name after its length (1 byte), and one reserved byte;
/// - number of columns: length-encoded;
/// - column types: 1 byte each;
/// - column metadata after its length (length-encoded);
/// - null bitmap: one bit for each column, least significant bit first;
/// - optional metadata: to the end.
///
/// Source: MySQL's internals documentation, "TABLE_MAP_EVENT", and the documentation of its source code,
/// `mysql::binlog::event::Table_map_event`.
#[derive(Debug, PartialEq, Eq, Hash, Drop)]
pub struct TableMapEvent<'a> {
    table: MappedTable<'a>,
    columns: MappedColumns<'a>,
}

impl<'a> TableMapEvent<'a> {
    ghost use Rattle.binlog_wire.specs.Reading.{Gives};
    ghost use Rattle.binlog_consts.specs.declared.event_type.EventType.TheVariants.{TABLE_MAP_EVENT};
    ghost use Rattle.binlog_event_format.specs.DescriptionRefs.{description_of};
    ghost use Rattle.binlog_event_format.specs.PostHeaders.{post_header};
    ghost use Rattle.binlog_rows.specs.TableMaps.{table_map};

    /// Reads a table map from the start of `buf` under a format description, as `deserialize` does. Needs no
    /// allocator.
    ///
    /// # Errors
    ///
    /// - [`Error::EndOfBody`] if the bytes end before the optional metadata.
    /// - [`Invalid::LenEnc`](binlog_wire::Invalid::LenEnc) if the column count or the metadata length begins with `fb`
    ///   or `ff`.
    #[inline(always)]
    pub fn read(fde: DescriptionRef<'_>, buf: &mut ParseBuf<'a>) -> Result<Self, Error>
        ensures { Gives ⊥ buf.new result ((table_map (post_header (description_of fde.entry) TABLE_MAP_EVENT)).reads buf.old) }
    {
        let post_header = fde.get_event_type_header_length(EventType::TABLE_MAP_EVENT);
        let table = MappedTable::read(post_header, buf)?;
        skip_byte(buf)?;
        let columns = MappedColumns::read(buf)?;
        Ok(TableMapEvent { table, columns })
    }

    /// The table id, below 2^48.
    pub fn table_id(&self) -> u64
        ensures id { result ≡ self.now.table.id }
        ensures small { result < 2 ^ 48 }
    {
        self.table.id.get()
    }

    /// All bits of the flags. Bit 0 (`TM_BIT_LEN_EXACT_F`) says that the lengths of BIT columns are exact. See
    /// `Table_map_event::enum_flag` in MySQL's source documentation.
    pub fn flags_raw(&self) -> u16
        ensures { result ≡ self.now.table.flags }
    {
        self.table.flags
    }

    /// The number of the table's columns.
    pub fn columns_count(&self) -> u64
        ensures { result ≡ length self.now.columns.types }
    {
        self.columns.count()
    }

    /// The database name: at most 255 bytes.
    pub fn database_name_raw(&self) -> &[u8]
        ensures { result.now ≡ take 255 self.now.table.database_name }
    {
        self.table.database_name.as_bytes()
    }

    /// [`TableMapEvent::database_name_raw`] as UTF-8, with U+FFFD for invalid sequences. The only error is
    /// [`Error::Memory`].
    pub fn database_name(&self, alloc: Global) -> Result<CowStr<'_, Global>, Error>
        ensures ok { IfOk result (λ text. cow_str_bytes text ≡ utf8_lossy (take 255 self.now.table.database_name)) }
        ensures memory { IsOkUnless result Memory }
    {
        self.table.database_name.as_str(alloc)
    }

    /// The table name: at most 255 bytes.
    pub fn table_name_raw(&self) -> &[u8]
        ensures { result.now ≡ take 255 self.now.table.table_name }
    {
        self.table.table_name.as_bytes()
    }

    /// [`TableMapEvent::table_name_raw`] as UTF-8, with U+FFFD for invalid sequences. The only error is
    /// [`Error::Memory`].
    pub fn table_name(&self, alloc: Global) -> Result<CowStr<'_, Global>, Error>
        ensures ok { IfOk result (λ text. cow_str_bytes text ≡ utf8_lossy (take 255 self.now.table.table_name)) }
        ensures memory { IsOkUnless result Memory }
    {
        self.table.table_name.as_str(alloc)
    }

    /// The column types, one byte each.
    pub fn columns_type_raw(&self) -> &[u8]
        ensures { result.now ≡ self.now.columns.types }
    {
        self.columns.types()
    }

    /// The column metadata, such as lengths and precisions: for each column as many bytes as its type has.
    pub fn columns_metadata_raw(&self) -> &[u8]
        ensures { result.now ≡ self.now.columns.metadata }
    {
        self.columns.metadata()
    }

    /// The null bitmap: which columns can be NULL, in the order of the columns.
    pub fn null_bitmask(&self) -> BitView<'_>
        ensures len { result.len ≡ length self.now.columns.types }
        ensures columns { self.now.columns.null_bits.0 ≡ length self.now.columns.types }
        ensures bytes { result.bytes.now ≡ self.now.columns.null_bits.1 }
    {
        self.columns.null_bits()
    }

    /// The optional metadata, such as signedness, character sets and column names; encoded.
    pub fn optional_metadata_raw(&self) -> &[u8]
        ensures { result.now ≡ self.now.columns.optional_metadata }
    {
        self.columns.optional_metadata()
    }
}

impl<'a> IntoOwned for TableMapEvent<'a> {
    type Owned = TableMapEvent<'static>;

    ghost is_owned = { λ value owned. owned ≡ value };

    fn into_owned(self, alloc: Global) -> Result<TableMapEvent<'static>, Error> {
        let table = self.table.into_owned(alloc)?;
        let columns = self.columns.into_owned(alloc)?;
        Ok(TableMapEvent { table, columns })
    }
}

impl<'a> TryClone for TableMapEvent<'a> {
    fn clone(&self, alloc: Global) -> Result<Self, Error> {
        let table = self.table.clone(alloc)?;
        let columns = self.columns.clone(alloc)?;
        Ok(TableMapEvent { table, columns })
    }
}

/// No memory is allocated.
///
/// # Errors
///
/// - [`Error::EndOfBody`] if the bytes end before the optional metadata.
/// - [`Invalid::LenEnc`](binlog_wire::Invalid::LenEnc) if the column count or the metadata length begins with `fb` or
///   `ff`.
impl<'de> MyDeserialize<'de> for TableMapEvent<'de> {
    ghost use Rattle.binlog_consts.specs.declared.event_type.EventType.TheVariants.{TABLE_MAP_EVENT};
    ghost use Rattle.binlog_event_format.specs.DescriptionRefs.{description_of};
    ghost use Rattle.binlog_event_format.specs.PostHeaders.{post_header};
    ghost use Rattle.binlog_rows.specs.TableMaps.{table_map};

    const SIZE: Option<usize> = None;

    type Ctx = BinlogCtx<'de>;

    ghost reads = { λ ctx. (table_map (post_header (description_of ctx.fde) TABLE_MAP_EVENT)).reads };

    fn deserialize(
        _alloc: Global,
        ctx: BinlogCtx<'de>,
        buf: &mut ParseBuf<'de>,
    ) -> Result<Self, Error> {
        TableMapEvent::read(ctx.fde, buf)
    }
}

impl Put for TableMapEvent<'_> {
    ghost use Rattle.binlog_rows.specs.TableMaps.{table_map};

    ghost bytes = { (table_map 8).written };

    fn check(&self) -> Result<(), Error> {
        Ok(())
    }

    fn written_len(&self) -> usize {
        self.table.written_len() + 1 + self.columns.written_len()
    }

    #[tactic(auto, using(std::proofs::Common::append_assoc))]
    fn put(&self, buf: &mut Vec<u8>) {
        self.table.put(buf);
        Skip::<1>.put(buf);
        self.columns.put(buf);
    }
}

impl<'a> BinlogEvent<'a> for TableMapEvent<'a> {
    ghost use Rattle.std.specs.Prelude.{refl};
    ghost use Rattle.binlog_consts.specs.declared.event_type.EventType.TheVariants.{TABLE_MAP_EVENT};
    ghost use Rattle.binlog_event_format.specs.PostHeaders.{post_header};
    ghost use Rattle.binlog_rows.specs.TableMaps.{table_map};

    const EVENT_TYPE: EventType = EventType::TABLE_MAP_EVENT;

    ghost format = { λ d _. table_map (post_header d TABLE_MAP_EVENT) };

    ghost raw_type = { λ _. 19 };

    ghost reading = { λ _. refl };

    ghost writing = { λ _ _ _. refl };
}
