//! The GTIDs of a log of either server.
ghost use Rattle.std.specs.Prelude.{◌≡◌, []};

use binlog_file::GtidTracker;
use binlog_maria_gtids::MariaGtidTracker;
use std::alloc::Global;

/// The GTIDs of a log. A log of one server has none of the other's.
#[derive(Debug, Drop)]
pub struct LogGtids {
    /// MySQL's GTIDs.
    pub mysql: GtidTracker,
    /// The last of MariaDB's GTIDs of each domain and server.
    pub maria: MariaGtidTracker,
}

impl LogGtids {
    /// No GTIDs. Nothing is allocated.
    pub fn new(alloc: Global) -> Self
        ensures mysql { result.mysql ≡ [] }
        ensures maria { result.maria ≡ [] }
    {
        LogGtids {
            mysql: GtidTracker::new(alloc),
            maria: MariaGtidTracker::new(alloc),
        }
    }
}
