//! What the headers of written events take from others.
ghost use Rattle.std.specs.Prelude.{◌≡◌};
ghost use Rattle.binlog_undo.specs.Headings.{begin_heading, commit_heading, source_heading};

use binlog_event_format::BinlogEventHeader;

/// The flag LOG_EVENT_SUPPRESS_USE_F: no `USE` statement is needed before the statement.
const SUPPRESS_USE: u16 = 0x8;
/// The flag of MariaDB's by which a transaction isn't replicated further (`skip_replication`).
const SKIP_REPLICATION: u16 = 0x8000;
/// All flags but those of a place: LOG_EVENT_BINLOG_IN_USE_F, LOG_EVENT_ARTIFICIAL_F and LOG_EVENT_RELAY_LOG_F.
const WITHOUT_PLACE: u16 = 0xff9e;

/// The header of an event that is written, but for its type, its size and its log position.
#[derive(Clone, Copy, Debug, PartialEq, Eq, Hash)]
pub struct Heading {
    /// The creation time of the event in seconds since 1970.
    pub timestamp: u32,
    /// The server that the event comes from.
    pub server_id: u32,
    /// All bits of the flags.
    pub flags: u16,
}

impl Heading {
    /// That of the BEGIN of a transaction, of which this is the header of the last event: its time, its server, and of its flags
    /// 0x8000 alone; and LOG_EVENT_SUPPRESS_USE_F (8).
    pub fn of_begin(last: &BinlogEventHeader) -> Heading
        ensures { result ≡ begin_heading last.now }
    {
        Heading {
            timestamp: last.timestamp(),
            server_id: last.server_id(),
            flags: last.flags_raw() & SKIP_REPLICATION | SUPPRESS_USE,
        }
    }

    /// That of the XID that ends the transaction: the same without LOG_EVENT_SUPPRESS_USE_F.
    pub fn of_commit(last: &BinlogEventHeader) -> Heading
        ensures { result ≡ commit_heading last.now }
    {
        Heading {
            timestamp: last.timestamp(),
            server_id: last.server_id(),
            flags: last.flags_raw() & SKIP_REPLICATION,
        }
    }

    /// That of a table map, or of the event that undoes a row event, which has this header: its time, its server, and its flags without
    /// LOG_EVENT_BINLOG_IN_USE_F, LOG_EVENT_ARTIFICIAL_F and LOG_EVENT_RELAY_LOG_F (0x61).
    pub fn of_source(source: &BinlogEventHeader) -> Heading
        ensures { result ≡ source_heading source.now }
    {
        Heading {
            timestamp: source.timestamp(),
            server_id: source.server_id(),
            flags: source.flags_raw() & WITHOUT_PLACE,
        }
    }
}
