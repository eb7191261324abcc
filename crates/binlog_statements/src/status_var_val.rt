//! Parsed values of status variables.
ghost use Rattle.std.specs.Prelude.{◌≡◌, ◌∷◌, ◌++◌, [], length, IfOk, IfErr, IsOkUnless, MatchOption, OnOk, OnErr};
ghost use Rattle.binlog_consts.specs.declared.status_var_key.StatusVarKey.TheVariants.{UpdatedDbNames};
ghost use Rattle.binlog_wire.specs.declared.error.Error.TheVariants.{Memory};
ghost use Rattle.binlog_statements.specs.Layouts.{IsCounted, Both, counted, AreNames, IsWholeLen};
ghost use Rattle.binlog_statements.specs.declared.layout.Layout.TheVariants.{Names};

use crate::layout::TOO_MANY_NAMES;
use crate::status_vars::StatusVar;
use binlog_consts::StatusVarKey;
use binlog_wire::{BytesRepr, Error, NullBytes, ParseBuf, RawBytes, TryClone, U8Bytes};
use byteorder::{ByteOrder, LittleEndian};
use std::alloc::Global;
use std::borrow::CowSlice;

/// A parsed value of a status variable. Texts and bytes are borrowed from the encoded status variables.
///
/// Source: MySQL's internals documentation, "QUERY_EVENT", and the documentation of its source code,
/// `mysql::binlog::event::Query_event`.
#[derive(Debug, PartialEq, Eq, Hash, Drop)]
pub enum StatusVarVal<'a> {
    /// Session options (`OPTION_AUTO_IS_NULL` and others), a bit set.
    Flags2(u32),
    /// `sql_mode`, a bit set.
    SqlMode(u64),
    /// The catalog with a terminator: all bytes of the value, including the length byte and the byte after the text.
    Catalog(&'a [u8]),
    /// How AUTO_INCREMENT values are generated.
    AutoIncrement {
        /// `auto_increment_increment`: the step from one value to the next.
        increment: u16,
        /// `auto_increment_offset`: the first value.
        offset: u16,
    },
    /// The ids of a character set and of collations.
    Charset {
        /// `character_set_client`: the character set of statements.
        charset_client: u16,
        /// `collation_connection`: the collation that statements are converted to.
        collation_connection: u16,
        /// `collation_server`: the server's collation.
        collation_server: u16,
    },
    /// `time_zone`, a text.
    TimeZone(RawBytes<'a, U8Bytes>),
    /// The catalog without a terminator, a text.
    CatalogNz(RawBytes<'a, U8Bytes>),
    /// `lc_time_names`: the number of the locale for names of days and months.
    LcTimeNames(u16),
    /// `collation_database`: the id of the schema's collation.
    CharsetDatabase(u16),
    /// The tables that a multi-table update changes, a bit set.
    TableMapForUpdate(u64),
    /// The length of the event in bytes in the original source's log, little-endian.
    MasterDataWritten([u8; 4]),
    /// The account that invoked the statement.
    Invoker {
        /// The user name.
        username: RawBytes<'a, U8Bytes>,
        /// The host name.
        hostname: RawBytes<'a, U8Bytes>,
    },
    /// The names of the databases that the statement changes; empty if there were too many.
    UpdatedDbNames(Vec<RawBytes<'a, NullBytes>>),
    /// The microseconds of the statement's start time, 0 to 16,777,215.
    Microseconds(u32),
    /// A value of no bytes.
    CommitTs(&'a [u8]),
    /// A value of no bytes.
    CommitTs2(&'a [u8]),
    /// `explicit_defaults_for_timestamp`: whether TIMESTAMP columns get no implicit defaults.
    ExplicitDefaultsForTimestamp(bool),
    /// The XID of an atomic DDL statement.
    DdlLoggedWithXid(u64),
    /// `default_collation_for_utf8mb4`: the collation's id.
    DefaultCollationForUtf8mb4(u16),
    /// `sql_require_primary_key`: 0 or 1.
    SqlRequirePrimaryKey(u8),
    /// `default_table_encryption`: 0 or 1.
    DefaultTableEncryption(u8),
}

impl<'a> TryClone for StatusVarVal<'a> {
    ghost use Rattle.binlog_statements.specs.StatusVarValues.{IsCopyOf};

    ghost is_copy = { IsCopyOf };

    fn clone(&self, alloc: Global) -> Result<Self, Error> {
        Ok(match self {
            StatusVarVal::TimeZone(text) => StatusVarVal::TimeZone(text.clone(alloc)?),
            StatusVarVal::CatalogNz(text) => StatusVarVal::CatalogNz(text.clone(alloc)?),
            StatusVarVal::Invoker { username, hostname } => StatusVarVal::Invoker {
                username: username.clone(alloc)?,
                hostname: hostname.clone(alloc)?,
            },
            StatusVarVal::UpdatedDbNames(names) => {
                StatusVarVal::UpdatedDbNames(copied(alloc, names.as_slice())?)
            }
            StatusVarVal::Flags2(bits) => StatusVarVal::Flags2(*bits),
            StatusVarVal::SqlMode(bits) => StatusVarVal::SqlMode(*bits),
            StatusVarVal::Catalog(bytes) => StatusVarVal::Catalog(bytes),
            StatusVarVal::AutoIncrement { increment, offset } => StatusVarVal::AutoIncrement {
                increment: *increment,
                offset: *offset,
            },
            StatusVarVal::Charset {
                charset_client,
                collation_connection,
                collation_server,
            } => StatusVarVal::Charset {
                charset_client: *charset_client,
                collation_connection: *collation_connection,
                collation_server: *collation_server,
            },
            StatusVarVal::LcTimeNames(number) => StatusVarVal::LcTimeNames(*number),
            StatusVarVal::CharsetDatabase(number) => StatusVarVal::CharsetDatabase(*number),
            StatusVarVal::TableMapForUpdate(bits) => StatusVarVal::TableMapForUpdate(*bits),
            StatusVarVal::MasterDataWritten(bytes) => StatusVarVal::MasterDataWritten(*bytes),
            StatusVarVal::Microseconds(number) => StatusVarVal::Microseconds(*number),
            StatusVarVal::CommitTs(bytes) => StatusVarVal::CommitTs(bytes),
            StatusVarVal::CommitTs2(bytes) => StatusVarVal::CommitTs2(bytes),
            StatusVarVal::ExplicitDefaultsForTimestamp(is_set) => {
                StatusVarVal::ExplicitDefaultsForTimestamp(*is_set)
            }
            StatusVarVal::DdlLoggedWithXid(number) => StatusVarVal::DdlLoggedWithXid(*number),
            StatusVarVal::DefaultCollationForUtf8mb4(number) => {
                StatusVarVal::DefaultCollationForUtf8mb4(*number)
            }
            StatusVarVal::SqlRequirePrimaryKey(number) => {
                StatusVarVal::SqlRequirePrimaryKey(*number)
            }
            StatusVarVal::DefaultTableEncryption(number) => {
                StatusVarVal::DefaultTableEncryption(*number)
            }
        })
    }
}

/// A copy of the names. The only error is [`Error::Memory`].
fn copied<'a>(
    alloc: Global,
    names: &[RawBytes<'a, NullBytes>],
) -> Result<Vec<RawBytes<'a, NullBytes>>, Error>
    ensures ok { IfOk result (λ copies. copies.items ≡ names.now) }
    ensures memory { IsOkUnless result Memory }
{
    let mut copies = Vec::new(alloc);
    for name in names {
        let copy = name.clone(alloc)?;
        push_name(&mut copies, copy)?;
    }
    Ok(copies)
}

impl<'a> StatusVar<'a> {
    ghost use Rattle.binlog_statements.specs.StatusVarValues.{Has};
    ghost use Rattle.binlog_statements.specs.StatusVars.{variable_of};

    /// Parses the value. Its texts and bytes are slices of the encoded status variables. Only the list of database
    /// names needs an allocation; if it fails, the result is `Err` with the value's bytes.
    pub fn get_value(&self, alloc: Global) -> Result<StatusVarVal<'a>, &'a [u8]>
        ensures value { IfOk result (Has (variable_of self.now)) }
        ensures raw { IfErr result (λ raw. raw.now ≡ self.now.value.now) }
        ensures names_alone { OnErr result (self.now.key ≡ UpdatedDbNames) }
    {
        match self.value_in_place() {
            Some(value) => Ok(value),
            None => match names(alloc, self.value) {
                Ok(names) => Ok(StatusVarVal::UpdatedDbNames(names)),
                Err(_) => Err(self.value),
            },
        }
    }

    // The value of every key except UpdatedDbNames. It has no allocator, so it allocates nothing.
    #[inline(always)]
    fn value_in_place(&self) -> Option<StatusVarVal<'a>>
        ensures { MatchOption result (self.now.key ≡ UpdatedDbNames) (Has (variable_of self.now)) }
    {
        let raw = self.value;
        Some(match self.key {
            StatusVarKey::Flags2 => StatusVarVal::Flags2(LittleEndian::read_u32(raw)),
            StatusVarKey::SqlMode => StatusVarVal::SqlMode(LittleEndian::read_u64(raw)),
            StatusVarKey::Catalog => StatusVarVal::Catalog(raw),
            StatusVarKey::AutoIncrement => StatusVarVal::AutoIncrement {
                increment: LittleEndian::read_u16(raw),
                offset: LittleEndian::read_u16(&raw[2..]),
            },
            StatusVarKey::Charset => StatusVarVal::Charset {
                charset_client: LittleEndian::read_u16(raw),
                collation_connection: LittleEndian::read_u16(&raw[2..]),
                collation_server: LittleEndian::read_u16(&raw[4..]),
            },
            StatusVarKey::TimeZone => StatusVarVal::TimeZone(text(raw)),
            StatusVarKey::CatalogNz => StatusVarVal::CatalogNz(text(raw)),
            StatusVarKey::LcTimeNames => StatusVarVal::LcTimeNames(LittleEndian::read_u16(raw)),
            StatusVarKey::CharsetDatabase => {
                StatusVarVal::CharsetDatabase(LittleEndian::read_u16(raw))
            }
            StatusVarKey::TableMapForUpdate => {
                StatusVarVal::TableMapForUpdate(LittleEndian::read_u64(raw))
            }
            StatusVarKey::MasterDataWritten => StatusVarVal::MasterDataWritten(four(raw)),
            StatusVarKey::Invoker => {
                let (username, hostname) = two_texts(raw);
                StatusVarVal::Invoker { username, hostname }
            }
            StatusVarKey::UpdatedDbNames => return None,
            StatusVarKey::Microseconds => StatusVarVal::Microseconds(LittleEndian::read_u24(raw)),
            StatusVarKey::CommitTs => StatusVarVal::CommitTs(raw),
            StatusVarKey::CommitTs2 => StatusVarVal::CommitTs2(raw),
            StatusVarKey::ExplicitDefaultsForTimestamp => {
                StatusVarVal::ExplicitDefaultsForTimestamp(byte(raw) != 0)
            }
            StatusVarKey::DdlLoggedWithXid => {
                StatusVarVal::DdlLoggedWithXid(LittleEndian::read_u64(raw))
            }
            StatusVarKey::DefaultCollationForUtf8mb4 => {
                StatusVarVal::DefaultCollationForUtf8mb4(LittleEndian::read_u16(raw))
            }
            StatusVarKey::SqlRequirePrimaryKey => StatusVarVal::SqlRequirePrimaryKey(byte(raw)),
            StatusVarKey::DefaultTableEncryption => StatusVarVal::DefaultTableEncryption(byte(raw)),
        })
    }
}

/// The only byte of the value.
fn byte(raw: &[u8]) -> u8
    requires { length raw.now ≡ 1 }
    ensures { raw.now ≡ result ∷ [] }
{
    raw[0]
}

/// The four bytes of the value.
fn four(raw: &[u8]) -> [u8; 4]
    requires { length raw.now ≡ 4 }
    ensures { result ≡ raw.now }
{
    [raw[0], raw[1], raw[2], raw[3]]
}

/// The text after its length byte.
fn text<'a>(raw: &'a [u8]) -> RawBytes<'a, U8Bytes>
    requires { IsCounted raw.now }
    ensures { raw.now ≡ counted result }
{
    RawBytes::new(CowSlice::Borrowed(&raw[1..]))
}

/// The two texts, each after its length byte.
/// Not inlined: inlining costs the other values registers.
#[inline(never)]
fn two_texts<'a>(raw: &'a [u8]) -> (RawBytes<'a, U8Bytes>, RawBytes<'a, U8Bytes>)
    requires { Both IsCounted IsCounted raw.now }
    ensures { raw.now ≡ counted result.0 ++ counted result.1 }
{
    let (first, second) = raw.split_at(1 + usize::from(raw[0]));
    (text(first), text(second))
}

/// The null-terminated names. Only their list is allocated. The only error is [`Error::Memory`].
/// Not inlined: inlining costs the other values registers.
#[inline(never)]
fn names<'a>(alloc: Global, raw: &'a [u8]) -> Result<Vec<RawBytes<'a, NullBytes>>, Error>
    requires { IsWholeLen Names raw.now }
    ensures ok { IfOk result (λ names. AreNames raw.now names.items) }
    ensures memory { IsOkUnless result Memory }
{
    let mut names = Vec::new(alloc);
    if raw[0] == TOO_MANY_NAMES {
        return Ok(names);
    }
    let mut unread = ParseBuf(&raw[1..]);
    let mut left = raw[0];
    while left > 0 {
        let name = NullBytes::read((), &mut unread)?;
        push_name(&mut names, RawBytes::new(CowSlice::Borrowed(name)))?;
        left -= 1;
    }
    Ok(names)
}

// Appends a name to the list. The only error is [`Error::Memory`].
fn push_name<'a>(
    names: &mut Vec<RawBytes<'a, NullBytes>>,
    name: RawBytes<'a, NullBytes>,
) -> Result<(), Error>
    ensures ok { OnOk result (names.new.items ≡ names.old.items ++ name.entry ∷ []) }
    ensures memory { IsOkUnless result Memory }
{
    match names.push(name) {
        Ok(()) => Ok(()),
        Err(_) => Err(Error::Memory),
    }
}
