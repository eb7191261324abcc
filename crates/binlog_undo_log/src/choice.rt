//! Which transactions and which tables are undone.
ghost use Rattle.std.specs.Prelude.{◌≡◌};
ghost use Rattle.binlog_undo_log.specs.Choices.{positions_of, takes_first, takes_last};

use binlog_file::BinlogEventHeader;
use binlog_filters::{Filter, TableFilter};
use binlog_undo_index::Positions;

/// Which transactions and which tables are undone.
#[derive(Debug, Drop)]
pub struct Choice {
    /// Whole transactions: of its conditions those of the position and the server of the first event, of the time of the last event, and
    /// of GTIDs.
    pub transactions: Filter,
    /// Row events of these tables; of each table if there is no condition.
    pub tables: Option<TableFilter>,
    /// No row events of these tables.
    pub excluded: Option<TableFilter>,
    /// Whether columns of the types TIMESTAMP (7), TIME (11) and DATETIME (12) of MariaDB's logs are known to have no fractions. Else
    /// their rows can't be undone.
    pub has_plain_temporal: bool,
}

impl Choice {
    /// Between which positions transactions begin.
    pub fn positions(&self) -> Positions
        ensures { result ≡ positions_of self.now }
    {
        Positions {
            start: self.transactions.start_position,
            stop: self.transactions.stop_position,
        }
    }

    /// Whether a transaction between the positions is taken whose first event has this header. `is_wanted` says whether its GTID is.
    pub fn takes_first(&self, header: &BinlogEventHeader, is_wanted: bool) -> bool
        ensures { result ≡ takes_first self.now header.now is_wanted }
    {
        is_wanted
            && match self.transactions.server_id {
                None => true,
                Some(id) => id == header.server_id(),
            }
    }

    /// Whether a transaction is taken whose last event has this header.
    pub fn takes_last(&self, header: &BinlogEventHeader) -> bool
        ensures { result ≡ takes_last self.now header.now }
    {
        let time = u64::from(header.timestamp());
        self.transactions.start_time <= time
            && match self.transactions.stop_time {
                None => true,
                Some(stop) => time < stop,
            }
    }
}
