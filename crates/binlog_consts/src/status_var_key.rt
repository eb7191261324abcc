//! The keys of status variables.
use thiserror::Error;

/// The key of a status variable, the byte before its value in a QUERY or EXECUTE_LOAD_QUERY event.
///
/// Source: MySQL's internals documentation, "QUERY_EVENT", and the documentation of its source code,
/// `mysql::binlog::event::Query_event`.
#[derive(Clone, Copy, Debug, PartialEq, Eq, Hash)]
pub enum StatusVarKey {
    /// Session options such as `AUTO_IS_NULL`, as bits.
    Flags2 = 0,
    /// The session's `sql_mode`, as bits.
    SqlMode = 1,
    /// The catalog, as MySQL 5.0.0 to 5.0.3 write it.
    Catalog = 2,
    /// The session's `auto_increment_increment` and `auto_increment_offset`.
    AutoIncrement = 3,
    /// The session's `character_set_client`, `collation_connection` and `collation_server`.
    Charset = 4,
    /// The session's `time_zone`.
    TimeZone = 5,
    /// The catalog, as MySQL 5.0.4 and later write it.
    CatalogNz = 6,
    /// The session's `lc_time_names`.
    LcTimeNames = 7,
    /// The session's `collation_database`.
    CharsetDatabase = 8,
    /// The tables that a multi-table `UPDATE` changes, as bits.
    TableMapForUpdate = 9,
    /// The length in bytes of the original event, where the source is older than MySQL 5.0; in relay logs alone.
    MasterDataWritten = 10,
    /// The user and host that invoked the statement.
    Invoker = 11,
    /// The names of the databases that the statement changes.
    UpdatedDbNames = 12,
    /// The microseconds of the statement's start time.
    Microseconds = 13,
    /// No longer written.
    CommitTs = 14,
    /// No longer written.
    CommitTs2 = 15,
    /// The session's `explicit_defaults_for_timestamp`.
    ExplicitDefaultsForTimestamp = 16,
    /// The XID of a DDL statement.
    DdlLoggedWithXid = 17,
    /// The session's `default_collation_for_utf8mb4`.
    DefaultCollationForUtf8mb4 = 18,
    /// The session's `sql_require_primary_key`.
    SqlRequirePrimaryKey = 19,
    /// The session's `default_table_encryption`.
    DefaultTableEncryption = 20,
}

/// The code of an unknown status variable, 21 or more.
#[derive(Clone, Copy, Debug, PartialEq, Eq, Hash, Error)]
#[error("the status variable {0} is not known")]
pub struct UnknownStatusVarKey(pub u8);

/// The key with this code; any other number is [`UnknownStatusVarKey`] with that number.
impl TryFrom<u8> for StatusVarKey {
    ghost use Rattle.std.specs.Prelude.{◌≡◌};
    ghost use Rattle.binlog_consts.specs.StatusVarKeys.{status_var_key_of};

    type Error = UnknownStatusVarKey;

    ghost try_from_gives = { λ number answer. answer ≡ status_var_key_of number };

    fn try_from(number: u8) -> Result<StatusVarKey, UnknownStatusVarKey> {
        match number {
            0 => Ok(StatusVarKey::Flags2),
            1 => Ok(StatusVarKey::SqlMode),
            2 => Ok(StatusVarKey::Catalog),
            3 => Ok(StatusVarKey::AutoIncrement),
            4 => Ok(StatusVarKey::Charset),
            5 => Ok(StatusVarKey::TimeZone),
            6 => Ok(StatusVarKey::CatalogNz),
            7 => Ok(StatusVarKey::LcTimeNames),
            8 => Ok(StatusVarKey::CharsetDatabase),
            9 => Ok(StatusVarKey::TableMapForUpdate),
            10 => Ok(StatusVarKey::MasterDataWritten),
            11 => Ok(StatusVarKey::Invoker),
            12 => Ok(StatusVarKey::UpdatedDbNames),
            13 => Ok(StatusVarKey::Microseconds),
            14 => Ok(StatusVarKey::CommitTs),
            15 => Ok(StatusVarKey::CommitTs2),
            16 => Ok(StatusVarKey::ExplicitDefaultsForTimestamp),
            17 => Ok(StatusVarKey::DdlLoggedWithXid),
            18 => Ok(StatusVarKey::DefaultCollationForUtf8mb4),
            19 => Ok(StatusVarKey::SqlRequirePrimaryKey),
            20 => Ok(StatusVarKey::DefaultTableEncryption),
            21.. => Err(UnknownStatusVarKey(number)),
        }
    }
}

/// The code of the key.
impl From<StatusVarKey> for u8 {
    ghost use Rattle.std.specs.Prelude.{◌≡◌};
    ghost use Rattle.binlog_consts.specs.StatusVarKeys.{status_var_key_number};

    ghost from_gives = { λ key number. number ≡ status_var_key_number key };

    fn from(key: StatusVarKey) -> u8 {
        key as u8
    }
}
