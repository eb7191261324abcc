//! A set of MariaDB's GTIDs.
ghost use Rattle.std.specs.Prelude.{◌≡◌};
ghost use Rattle.binlog_mariadb.specs.declared.maria_gtid.MariaGtid.{MariaGtid};
ghost use Rattle.binlog_maria_gtids.specs.GtidSets.{compare_gtids, is_among};

use binlog_mariadb::MariaGtid;
use std::cmp::Ordering;
use std::marker::Model;

/// A set of MariaDB's GTIDs.
///
/// They are kept in ascending order of their domains, for one domain of the servers' ids, and for one server of the
/// sequence numbers. Contracts see this list.
#[derive(Debug, Drop)]
pub struct MariaGtidSet {
    gtids: Vec<MariaGtid>,
}

impl Model for MariaGtidSet {
    ghost use Rattle.std.specs.Prelude.{List};
    ghost use Rattle.binlog_mariadb.specs.declared.maria_gtid.MariaGtid.{MariaGtid};
    ghost use Rattle.binlog_maria_gtids.specs.GtidSets.{AreInOrder};

    ghost Value = { List MariaGtid };

    ghost view = { λ set. set.gtids.items };

    ghost invariant = { λ set. AreInOrder set.gtids.items };
}

impl MariaGtidSet {
    /// The set of these GTIDs, which may come in any order, and more than once. No memory is allocated.
    pub fn new(gtids: Vec<MariaGtid>) -> Self
        ensures { (gtid : MariaGtid) → is_among result gtid ≡ is_among gtids.items gtid }
    {
        let mut gtids = gtids;
        gtids.sort_unstable_by(compare);
        MariaGtidSet { gtids }
    }

    /// Whether the set contains a GTID, in logarithmic time.
    pub fn contains(&self, gtid: MariaGtid) -> bool
        ensures { result ≡ is_among self.now gtid }
    {
        self.gtids
            .binary_search_by(|other| compare(other, &gtid))
            .is_ok()
    }
}

// Compares two GTIDs: the domains first, then the servers' ids, and then the sequence numbers.
#[tactic(auto, unfolding(crate::specs::GtidSets::compare_gtids))]
fn compare(first: &MariaGtid, second: &MariaGtid) -> Ordering
    ensures { result ≡ compare_gtids first.now second.now }
{
    first
        .domain()
        .cmp(&second.domain())
        .then(first.server_id().cmp(&second.server_id()))
        .then(first.sequence().cmp(&second.sequence()))
}
