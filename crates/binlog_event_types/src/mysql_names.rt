//! The names of MySQL's event types.
ghost use Rattle.std.specs.Prelude.{◌≡◌};
ghost use Rattle.binlog_event_types.specs.MysqlNames.{type_name};

use binlog_consts::EventType;

/// The name of an event type, as in MySQL's `Log_event_type`.
pub fn name_of(event_type: EventType) -> &'static str
    ensures name { result.now ≡ type_name event_type }
{
    match event_type {
        EventType::UNKNOWN_EVENT => "UNKNOWN_EVENT",
        EventType::START_EVENT_V3 => "START_EVENT_V3",
        EventType::QUERY_EVENT => "QUERY_EVENT",
        EventType::STOP_EVENT => "STOP_EVENT",
        EventType::ROTATE_EVENT => "ROTATE_EVENT",
        EventType::INTVAR_EVENT => "INTVAR_EVENT",
        EventType::LOAD_EVENT => "LOAD_EVENT",
        EventType::SLAVE_EVENT => "SLAVE_EVENT",
        EventType::CREATE_FILE_EVENT => "CREATE_FILE_EVENT",
        EventType::APPEND_BLOCK_EVENT => "APPEND_BLOCK_EVENT",
        EventType::EXEC_LOAD_EVENT => "EXEC_LOAD_EVENT",
        EventType::DELETE_FILE_EVENT => "DELETE_FILE_EVENT",
        EventType::NEW_LOAD_EVENT => "NEW_LOAD_EVENT",
        EventType::RAND_EVENT => "RAND_EVENT",
        EventType::USER_VAR_EVENT => "USER_VAR_EVENT",
        EventType::FORMAT_DESCRIPTION_EVENT => "FORMAT_DESCRIPTION_EVENT",
        EventType::XID_EVENT => "XID_EVENT",
        EventType::BEGIN_LOAD_QUERY_EVENT => "BEGIN_LOAD_QUERY_EVENT",
        EventType::EXECUTE_LOAD_QUERY_EVENT => "EXECUTE_LOAD_QUERY_EVENT",
        EventType::TABLE_MAP_EVENT => "TABLE_MAP_EVENT",
        EventType::PRE_GA_WRITE_ROWS_EVENT => "PRE_GA_WRITE_ROWS_EVENT",
        EventType::PRE_GA_UPDATE_ROWS_EVENT => "PRE_GA_UPDATE_ROWS_EVENT",
        EventType::PRE_GA_DELETE_ROWS_EVENT => "PRE_GA_DELETE_ROWS_EVENT",
        EventType::WRITE_ROWS_EVENT_V1 => "WRITE_ROWS_EVENT_V1",
        EventType::UPDATE_ROWS_EVENT_V1 => "UPDATE_ROWS_EVENT_V1",
        EventType::DELETE_ROWS_EVENT_V1 => "DELETE_ROWS_EVENT_V1",
        EventType::INCIDENT_EVENT => "INCIDENT_EVENT",
        EventType::HEARTBEAT_EVENT => "HEARTBEAT_EVENT",
        EventType::IGNORABLE_EVENT => "IGNORABLE_EVENT",
        EventType::ROWS_QUERY_EVENT => "ROWS_QUERY_EVENT",
        EventType::WRITE_ROWS_EVENT => "WRITE_ROWS_EVENT",
        EventType::UPDATE_ROWS_EVENT => "UPDATE_ROWS_EVENT",
        EventType::DELETE_ROWS_EVENT => "DELETE_ROWS_EVENT",
        EventType::GTID_EVENT => "GTID_EVENT",
        EventType::ANONYMOUS_GTID_EVENT => "ANONYMOUS_GTID_EVENT",
        EventType::PREVIOUS_GTIDS_EVENT => "PREVIOUS_GTIDS_EVENT",
        EventType::TRANSACTION_CONTEXT_EVENT => "TRANSACTION_CONTEXT_EVENT",
        EventType::VIEW_CHANGE_EVENT => "VIEW_CHANGE_EVENT",
        EventType::XA_PREPARE_LOG_EVENT => "XA_PREPARE_LOG_EVENT",
        EventType::PARTIAL_UPDATE_ROWS_EVENT => "PARTIAL_UPDATE_ROWS_EVENT",
        EventType::TRANSACTION_PAYLOAD_EVENT => "TRANSACTION_PAYLOAD_EVENT",
        EventType::GTID_TAGGED_LOG_EVENT => "GTID_TAGGED_LOG_EVENT",
        EventType::ENUM_END_EVENT => "ENUM_END_EVENT",
    }
}
