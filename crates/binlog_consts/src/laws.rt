//! Laws of the definitions. Each is a function that does nothing and whose contract states the law.
ghost use Rattle.std.specs.Prelude.{◌≡◌, [], ◌∷◌, map, pos};
ghost use Rattle.binlog_wire.specs.Laws.Numbers.{IsCode};
ghost use Rattle.binlog_consts.specs.Codes.{subtype_number, subtype_of, checksum_alg_number, checksum_alg_of, incident_type_number, incident_type_of};
ghost use Rattle.binlog_consts.specs.EventTypes.{event_number, event_type_of, event_types};
ghost use Rattle.binlog_consts.specs.StatementCodes.{dup_handling_number, dup_handling_of, item_result_number, item_result_of};
ghost use Rattle.binlog_consts.specs.StatusVarKeys.{status_var_key_number, status_var_key_of};
ghost use Rattle.binlog_consts.specs.Versions.{version_number, version_of};

use crate::codes::{BinlogChecksumAlg, IncidentType, IntvarEventType};
use crate::event_flags::EventFlags;
use crate::event_type::EventType;
use crate::rows_event_flags::RowsEventFlags;
use crate::statement_codes::{ItemResult, LoadDuplicateHandling, UserVarFlags};
use crate::status_var_key::StatusVarKey;
use crate::version::BinlogVersion;
use bitflags::Flags;

/// Each table is one to one: a value has one code, which fits in the bytes of its field, and no other number is its
/// code.
pub fn numbers_are_codes()
    ensures event_types { IsCode 1 event_number event_type_of }
    ensures versions { IsCode 2 version_number version_of }
    ensures subtypes { IsCode 1 subtype_number subtype_of }
    ensures checksums { IsCode 1 checksum_alg_number checksum_alg_of }
    ensures incidents { IsCode 2 incident_type_number incident_type_of }
    ensures dup_handlings { IsCode 1 dup_handling_number dup_handling_of }
    ensures item_results { IsCode 1 item_result_number (λ n. item_result_of (pos n)) }
    ensures status_vars { IsCode 1 status_var_key_number status_var_key_of }
{}

/// The event types in the order of their numbers: 0 to 40, 42 and 43.
pub fn event_types_in_order()
    ensures { map event_number event_types
        ≡ 0 ∷ 1 ∷ 2 ∷ 3 ∷ 4 ∷ 5 ∷ 6 ∷ 7 ∷ 8 ∷ 9
        ∷ 10 ∷ 11 ∷ 12 ∷ 13 ∷ 14 ∷ 15 ∷ 16 ∷ 17 ∷ 18 ∷ 19
        ∷ 20 ∷ 21 ∷ 22 ∷ 23 ∷ 24 ∷ 25 ∷ 26 ∷ 27 ∷ 28 ∷ 29
        ∷ 30 ∷ 31 ∷ 32 ∷ 33 ∷ 34 ∷ 35 ∷ 36 ∷ 37 ∷ 38 ∷ 39
        ∷ 40 ∷ 42 ∷ 43 ∷ [] }
{}

/// The number of each event type.
pub fn event_type_numbers() {
    prove!(EventType::UNKNOWN_EVENT as u8 == 0);
    prove!(EventType::START_EVENT_V3 as u8 == 1);
    prove!(EventType::QUERY_EVENT as u8 == 2);
    prove!(EventType::STOP_EVENT as u8 == 3);
    prove!(EventType::ROTATE_EVENT as u8 == 4);
    prove!(EventType::INTVAR_EVENT as u8 == 5);
    prove!(EventType::LOAD_EVENT as u8 == 6);
    prove!(EventType::SLAVE_EVENT as u8 == 7);
    prove!(EventType::CREATE_FILE_EVENT as u8 == 8);
    prove!(EventType::APPEND_BLOCK_EVENT as u8 == 9);
    prove!(EventType::EXEC_LOAD_EVENT as u8 == 10);
    prove!(EventType::DELETE_FILE_EVENT as u8 == 11);
    prove!(EventType::NEW_LOAD_EVENT as u8 == 12);
    prove!(EventType::RAND_EVENT as u8 == 13);
    prove!(EventType::USER_VAR_EVENT as u8 == 14);
    prove!(EventType::FORMAT_DESCRIPTION_EVENT as u8 == 15);
    prove!(EventType::XID_EVENT as u8 == 16);
    prove!(EventType::BEGIN_LOAD_QUERY_EVENT as u8 == 17);
    prove!(EventType::EXECUTE_LOAD_QUERY_EVENT as u8 == 18);
    prove!(EventType::TABLE_MAP_EVENT as u8 == 19);
    prove!(EventType::PRE_GA_WRITE_ROWS_EVENT as u8 == 20);
    prove!(EventType::PRE_GA_UPDATE_ROWS_EVENT as u8 == 21);
    prove!(EventType::PRE_GA_DELETE_ROWS_EVENT as u8 == 22);
    prove!(EventType::WRITE_ROWS_EVENT_V1 as u8 == 23);
    prove!(EventType::UPDATE_ROWS_EVENT_V1 as u8 == 24);
    prove!(EventType::DELETE_ROWS_EVENT_V1 as u8 == 25);
    prove!(EventType::INCIDENT_EVENT as u8 == 26);
    prove!(EventType::HEARTBEAT_EVENT as u8 == 27);
    prove!(EventType::IGNORABLE_EVENT as u8 == 28);
    prove!(EventType::ROWS_QUERY_EVENT as u8 == 29);
    prove!(EventType::WRITE_ROWS_EVENT as u8 == 30);
    prove!(EventType::UPDATE_ROWS_EVENT as u8 == 31);
    prove!(EventType::DELETE_ROWS_EVENT as u8 == 32);
    prove!(EventType::GTID_EVENT as u8 == 33);
    prove!(EventType::ANONYMOUS_GTID_EVENT as u8 == 34);
    prove!(EventType::PREVIOUS_GTIDS_EVENT as u8 == 35);
    prove!(EventType::TRANSACTION_CONTEXT_EVENT as u8 == 36);
    prove!(EventType::VIEW_CHANGE_EVENT as u8 == 37);
    prove!(EventType::XA_PREPARE_LOG_EVENT as u8 == 38);
    prove!(EventType::PARTIAL_UPDATE_ROWS_EVENT as u8 == 39);
    prove!(EventType::TRANSACTION_PAYLOAD_EVENT as u8 == 40);
    prove!(EventType::GTID_TAGGED_LOG_EVENT as u8 == 42);
    prove!(EventType::ENUM_END_EVENT as u8 == 43);
}

/// The codes of binlog versions, INTVAR subtypes, checksum algorithms and incident types.
pub fn code_numbers() {
    prove!(BinlogVersion::Version1 as u16 == 1);
    prove!(BinlogVersion::Version2 as u16 == 2);
    prove!(BinlogVersion::Version3 as u16 == 3);
    prove!(BinlogVersion::Version4 as u16 == 4);
    prove!(IntvarEventType::INVALID_INT_EVENT as u8 == 0);
    prove!(IntvarEventType::LAST_INSERT_ID_EVENT as u8 == 1);
    prove!(IntvarEventType::INSERT_ID_EVENT as u8 == 2);
    prove!(BinlogChecksumAlg::BINLOG_CHECKSUM_ALG_OFF as u8 == 0);
    prove!(BinlogChecksumAlg::BINLOG_CHECKSUM_ALG_CRC32 as u8 == 1);
    prove!(IncidentType::NONE as u16 == 0);
    prove!(IncidentType::LOST_EVENTS as u16 == 1);
}

/// The codes of duplicate-key handling and of user variable types.
pub fn statement_code_numbers() {
    prove!(LoadDuplicateHandling::LOAD_DUP_ERROR as u8 == 0);
    prove!(LoadDuplicateHandling::LOAD_DUP_IGNORE as u8 == 1);
    prove!(LoadDuplicateHandling::LOAD_DUP_REPLACE as u8 == 2);
    prove!(ItemResult::STRING_RESULT as i8 == 0);
    prove!(ItemResult::REAL_RESULT as i8 == 1);
    prove!(ItemResult::INT_RESULT as i8 == 2);
    prove!(ItemResult::ROW_RESULT as i8 == 3);
    prove!(ItemResult::DECIMAL_RESULT as i8 == 4);
}

/// The code of each status variable key.
pub fn status_var_key_numbers() {
    prove!(StatusVarKey::Flags2 as u8 == 0);
    prove!(StatusVarKey::SqlMode as u8 == 1);
    prove!(StatusVarKey::Catalog as u8 == 2);
    prove!(StatusVarKey::AutoIncrement as u8 == 3);
    prove!(StatusVarKey::Charset as u8 == 4);
    prove!(StatusVarKey::TimeZone as u8 == 5);
    prove!(StatusVarKey::CatalogNz as u8 == 6);
    prove!(StatusVarKey::LcTimeNames as u8 == 7);
    prove!(StatusVarKey::CharsetDatabase as u8 == 8);
    prove!(StatusVarKey::TableMapForUpdate as u8 == 9);
    prove!(StatusVarKey::MasterDataWritten as u8 == 10);
    prove!(StatusVarKey::Invoker as u8 == 11);
    prove!(StatusVarKey::UpdatedDbNames as u8 == 12);
    prove!(StatusVarKey::Microseconds as u8 == 13);
    prove!(StatusVarKey::CommitTs as u8 == 14);
    prove!(StatusVarKey::CommitTs2 as u8 == 15);
    prove!(StatusVarKey::ExplicitDefaultsForTimestamp as u8 == 16);
    prove!(StatusVarKey::DdlLoggedWithXid as u8 == 17);
    prove!(StatusVarKey::DefaultCollationForUtf8mb4 as u8 == 18);
    prove!(StatusVarKey::SqlRequirePrimaryKey as u8 == 19);
    prove!(StatusVarKey::DefaultTableEncryption as u8 == 20);
}

/// The bits of the event flags.
pub fn event_flag_bits() {
    prove!(EventFlags::LOG_EVENT_BINLOG_IN_USE_F.bits() == 0x1);
    prove!(EventFlags::LOG_EVENT_FORCED_ROTATE_F.bits() == 0x2);
    prove!(EventFlags::LOG_EVENT_THREAD_SPECIFIC_F.bits() == 0x4);
    prove!(EventFlags::LOG_EVENT_SUPPRESS_USE_F.bits() == 0x8);
    prove!(EventFlags::LOG_EVENT_UPDATE_TABLE_MAP_VERSION_F.bits() == 0x10);
    prove!(EventFlags::LOG_EVENT_ARTIFICIAL_F.bits() == 0x20);
    prove!(EventFlags::LOG_EVENT_RELAY_LOG_F.bits() == 0x40);
    prove!(EventFlags::LOG_EVENT_IGNORABLE_F.bits() == 0x80);
    prove!(EventFlags::LOG_EVENT_NO_FILTER_F.bits() == 0x100);
    prove!(EventFlags::LOG_EVENT_MTS_ISOLATE_F.bits() == 0x200);
}

/// The bits of the flags of a row event and of a user variable.
pub fn body_flag_bits() {
    prove!(RowsEventFlags::STMT_END.bits() == 0x1);
    prove!(RowsEventFlags::NO_FOREIGN_KEY_CHECKS.bits() == 0x2);
    prove!(RowsEventFlags::RELAXED_UNIQUE_CHECKS.bits() == 0x4);
    prove!(RowsEventFlags::COMPLETE_ROWS.bits() == 0x8);
    prove!(UserVarFlags::UNSIGNED.bits() == 0x1);
}
