//! The names of MariaDB's own event types.
ghost use Rattle.std.specs.Prelude.{◌≡◌};
ghost use Rattle.binlog_event_types.specs.MariaNames.{maria_name};

use binlog_mariadb::MariaEventType;

/// The name of one of MariaDB's own event types, as in MariaDB's documentation.
pub fn maria_name_of(event_type: MariaEventType) -> &'static str
    ensures name { result.now ≡ maria_name event_type }
{
    match event_type {
        MariaEventType::ANNOTATE_ROWS_EVENT => "ANNOTATE_ROWS_EVENT",
        MariaEventType::BINLOG_CHECKPOINT_EVENT => "BINLOG_CHECKPOINT_EVENT",
        MariaEventType::GTID_EVENT => "GTID_EVENT",
        MariaEventType::GTID_LIST_EVENT => "GTID_LIST_EVENT",
        MariaEventType::START_ENCRYPTION_EVENT => "START_ENCRYPTION_EVENT",
        MariaEventType::QUERY_COMPRESSED_EVENT => "QUERY_COMPRESSED_EVENT",
        MariaEventType::WRITE_ROWS_COMPRESSED_EVENT_V1 => "WRITE_ROWS_COMPRESSED_EVENT_V1",
        MariaEventType::UPDATE_ROWS_COMPRESSED_EVENT_V1 => "UPDATE_ROWS_COMPRESSED_EVENT_V1",
        MariaEventType::DELETE_ROWS_COMPRESSED_EVENT_V1 => "DELETE_ROWS_COMPRESSED_EVENT_V1",
        MariaEventType::WRITE_ROWS_COMPRESSED_EVENT => "WRITE_ROWS_COMPRESSED_EVENT",
        MariaEventType::UPDATE_ROWS_COMPRESSED_EVENT => "UPDATE_ROWS_COMPRESSED_EVENT",
        MariaEventType::DELETE_ROWS_COMPRESSED_EVENT => "DELETE_ROWS_COMPRESSED_EVENT",
    }
}
