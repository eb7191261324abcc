//! What the events of a file tell of its lists of GTIDs and of its transactions.
ghost use Rattle.std.specs.Prelude.{◌≡◌, ◌||◌, Ok};
ghost use Rattle.binlog_events.specs.EventRefs.{view_of};
ghost use Rattle.binlog_commands.specs.Marks.{is_front, is_gtid, is_gtid_list, marks_behind, no_marks};

use binlog_consts::EventType;
use binlog_event_types::is_of_maria;
use binlog_file::EventRef;
use binlog_mariadb::MariaEventType;

/// What the events of a file tell of its lists of GTIDs and of its transactions.
#[derive(Clone, Copy)]
pub struct GtidMarks {
    /// Whether there is a PREVIOUS_GTIDS event, MySQL's list.
    pub has_previous_gtids: bool,
    /// Whether there is a GTID_LIST event, MariaDB's list.
    pub has_gtid_list: bool,
    /// Whether there is a transaction with a GTID of MySQL's.
    pub has_gtid: bool,
    /// Whether there is an anonymous transaction of MySQL's, which is in no list.
    pub has_anonymous: bool,
    /// Whether there is an event that can't be read.
    pub has_errors: bool,
}

impl GtidMarks {
    /// Those of no events.
    pub fn new() -> Self
        ensures { result ≡ no_marks }
    {
        GtidMarks {
            has_previous_gtids: false,
            has_gtid_list: false,
            has_gtid: false,
            has_anonymous: false,
            has_errors: false,
        }
    }

    /// Whether there is a list.
    pub fn has_list(self) -> bool
        ensures { result ≡ (self.has_previous_gtids || self.has_gtid_list) }
    {
        self.has_previous_gtids || self.has_gtid_list
    }

    // Those behind one more event.
    pub(crate) fn behind(self, event: &EventRef<'_>) -> Self
        ensures { result ≡ marks_behind (Ok (view_of event.now)) self }
    {
        let number = event.header().event_type_raw();
        GtidMarks {
            has_previous_gtids: self.has_previous_gtids
                || number == EventType::PREVIOUS_GTIDS_EVENT as u8,
            has_gtid_list: self.has_gtid_list || is_gtid_list(event),
            has_gtid: self.has_gtid || is_gtid(number),
            has_anonymous: self.has_anonymous || number == EventType::ANONYMOUS_GTID_EVENT as u8,
            has_errors: self.has_errors,
        }
    }
}

// Whether an event is a list of MariaDB's.
fn is_gtid_list(event: &EventRef<'_>) -> bool
    ensures { result ≡ is_gtid_list (view_of event.now) }
{
    event.header().event_type_raw() == MariaEventType::GTID_LIST_EVENT as u8
        && is_of_maria(&event.fde())
}

// Whether a transaction with a GTID of MySQL's begins with events of this type.
fn is_gtid(number: u8) -> bool
    ensures { result ≡ is_gtid number }
{
    number == EventType::GTID_EVENT as u8 || number == EventType::GTID_TAGGED_LOG_EVENT as u8
}

/// Whether events of this type come in front of the first transaction of a file: format descriptions, what begins encryption, and lists.
pub(crate) fn is_front(number: u8) -> bool
    ensures { result ≡ is_front number }
{
    number == EventType::FORMAT_DESCRIPTION_EVENT as u8
        || number == EventType::PREVIOUS_GTIDS_EVENT as u8
        || number == MariaEventType::GTID_LIST_EVENT as u8
        || number == MariaEventType::START_ENCRYPTION_EVENT as u8
}
