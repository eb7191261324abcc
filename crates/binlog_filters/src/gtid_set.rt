//! The sets of GTIDs that filters ask for.
ghost use Rattle.std.specs.Prelude.{◌≡◌};
ghost use Rattle.binlog_filters.specs.GtidFilters.{has_gtid_of, has_maria_gtid, has_mysql_gtid};

use binlog_file::{EventData, GtidTracker, LogEventData};
use binlog_maria_gtids::MariaGtidSet;
use binlog_mariadb::{MariaEventData, MariaGtid};

/// A set of the GTIDs of one server: MySQL's or MariaDB's.
#[derive(Debug, Drop)]
pub enum GtidSet {
    /// MySQL's GTIDs.
    Mysql(GtidTracker),
    /// MariaDB's GTIDs.
    Maria(MariaGtidSet),
}

impl GtidSet {
    /// Whether the set has the GTID of a transaction that begins with this data, where `server_id` is that of the event's
    /// header. A set has no GTID of the other server. Data of other events has no GTID.
    pub fn has_gtid_of(&self, server_id: u32, data: &LogEventData<'_>) -> bool
        ensures { result ≡ has_gtid_of self.now server_id data.now }
    {
        match self {
            GtidSet::Mysql(set) => has_mysql_gtid(set, data),
            GtidSet::Maria(set) => has_maria_gtid(set, server_id, data),
        }
    }
}

// Whether a set of MySQL's has the GTID of this data.
fn has_mysql_gtid(set: &GtidTracker, data: &LogEventData<'_>) -> bool
    ensures { result ≡ has_mysql_gtid set.now data.now }
{
    match data {
        LogEventData::Mysql(EventData::GtidEvent(event)) => {
            set.contains(event.sid(), event.tag(), event.gno())
        }
        _ => false,
    }
}

// Whether a set of MariaDB's has the GTID of this data.
fn has_maria_gtid(set: &MariaGtidSet, server_id: u32, data: &LogEventData<'_>) -> bool
    ensures { result ≡ has_maria_gtid set.now server_id data.now }
{
    match data {
        LogEventData::Maria(MariaEventData::GtidEvent(event)) => {
            set.contains(MariaGtid::new(event.domain(), server_id, event.sequence()))
        }
        _ => false,
    }
}
