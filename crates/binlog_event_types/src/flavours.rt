//! Which of the two servers wrote a log, as a test whose answer is a function of the log's description.
ghost use Rattle.std.specs.Prelude.{◌≡◌, take};
ghost use Rattle.binlog_event_format.specs.DescriptionRefs.{description_of};
ghost use Rattle.binlog_event_types.specs.MariaVersions.{is_maria};

use binlog_event_format::DescriptionRef;
use binlog_mariadb::is_maria_log;

/// Whether a description states a server of MariaDB's, as [`is_maria_log`] tells. A contract that has to name the answer cites
/// `is_maria`.
pub fn is_of_maria(fde: &DescriptionRef<'_>) -> bool
    ensures { result ≡ is_maria (take 50 (description_of fde.now).server_version) }
{
    is_maria_log(fde)
}
