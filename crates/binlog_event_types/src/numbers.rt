//! The names of the event types by number.
ghost use Rattle.std.specs.Prelude.{◌≡◌, option_map};
ghost use Rattle.binlog_event_types.specs.NamesOfNumbers.{maria_name_of_number, name_of_number};

use crate::maria_names::maria_name_of;
use crate::mysql_names::name_of;
use binlog_consts::EventType;
use binlog_mariadb::MariaEventType;

/// The name of the event type with this number, of MySQL's or of MariaDB's own; None if no type has it. No number is that of
/// a type of both. Both servers have a type with the name `GTID_EVENT`: 33 is MySQL's, and 162 MariaDB's.
pub fn name_of_number(number: u8) -> Option<&'static str>
    ensures { option_map (λ name. name.now) result ≡ name_of_number number }
{
    match EventType::try_from(number) {
        Ok(event_type) => Some(name_of(event_type)),
        Err(_) => maria_name_of_number(number),
    }
}

// The name of MariaDB's own event type with this number.
fn maria_name_of_number(number: u8) -> Option<&'static str>
    ensures { option_map (λ name. name.now) result ≡ maria_name_of_number number }
{
    match MariaEventType::try_from(number) {
        Ok(event_type) => Some(maria_name_of(event_type)),
        Err(_) => None,
    }
}
