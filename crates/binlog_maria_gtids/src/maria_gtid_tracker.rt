//! The last GTIDs of the events of a log.
ghost use Rattle.std.specs.Prelude.{◌≡◌, ◌↔◌, [], ◌∷◌, ◌++◌, length, IsTrue, OnOk, OnErr, IsOkUnless};
ghost use Rattle.binlog_wire.specs.declared.error.Error.TheVariants.{Memory};
ghost use Rattle.binlog_maria_gtids.specs.AddedGtids.{gtids_of};
ghost use Rattle.binlog_maria_gtids.specs.LastGtids.{origin, last_of, KeepLast, AreAscending};

use crate::entries::{add, add_all, find};
use binlog_mariadb::{MariaEventData, MariaGtid};
use binlog_wire::Error;
use std::alloc::Global;
use std::marker::Model;

/// The last GTID of each replication domain and server, in the order of a log: what MariaDB calls the state of a binary
/// log, its variable `gtid_binlog_state`.
///
/// The last GTID is the one that was added last, also where its sequence number is less than that of an earlier one. The
/// entries are in ascending order of the domains, and for one domain of the servers' ids. Contracts see these entries.
///
/// Source: "gtid_binlog_state" and "GTID_LIST_EVENT" in MariaDB's documentation.
#[derive(Debug, Drop)]
pub struct MariaGtidTracker {
    entries: Vec<MariaGtid>,
}

impl Model for MariaGtidTracker {
    ghost use Rattle.std.specs.Prelude.{List};
    ghost use Rattle.binlog_mariadb.specs.declared.maria_gtid.MariaGtid.{MariaGtid};
    ghost use Rattle.binlog_maria_gtids.specs.LastGtids.{AreAscending};

    ghost Value = { List MariaGtid };

    ghost view = { λ tracker. tracker.entries.items };

    ghost invariant = { λ tracker. AreAscending tracker.entries.items };
}

impl MariaGtidTracker {
    /// No GTIDs. No memory is allocated.
    pub fn new(alloc: Global) -> Self
        ensures { result ≡ [] }
    {
        MariaGtidTracker {
            entries: Vec::new(alloc),
        }
    }

    /// The number of pairs of a domain and a server that have a GTID.
    pub fn len(&self) -> usize
        ensures { result ≡ length self.now }
    {
        self.entries.len()
    }

    /// Whether there is no GTID.
    pub fn is_empty(&self) -> bool
        ensures { IsTrue result ↔ (self.now ≡ []) }
    {
        self.entries.is_empty()
    }

    /// The last GTID of each domain and server, in ascending order of the domains, and then of the servers' ids.
    pub fn entries(&self) -> &[MariaGtid]
        ensures list { result.now ≡ self.now }
        ensures ascending { AreAscending result.now }
    {
        &self.entries
    }

    /// The sequence number of the last GTID of a domain and a server. None if they have no GTID.
    pub fn last(&self, domain: u32, server_id: u32) -> Option<u64>
        ensures { result ≡ last_of self.now (origin domain server_id) }
    {
        match find(&self.entries, domain, server_id) {
            Ok(at) => Some(self.entries[at].sequence()),
            Err(_) => None,
        }
    }

    /// Adds a GTID, which becomes the last one of its domain and server. Memory is allocated only for a new pair of them.
    /// It takes constant time if this pair is the last one or after it, and otherwise logarithmic time and for a new pair
    /// a move of the entries after it.
    ///
    /// # Errors
    ///
    /// [`Error::Memory`] if an allocation fails; nothing changes then.
    pub fn add(&mut self, gtid: MariaGtid) -> Result<(), Error>
        ensures ok { OnOk result (KeepLast (self.old ++ gtid ∷ []) self.new) }
        ensures err { OnErr result (self.new ≡ self.old) }
        ensures memory { IsOkUnless result Memory }
    {
        add(&mut self.entries, gtid)
    }

    /// Adds the GTIDs of an event, where `server_id` is that of the event's header: that of a GTID event, whose server
    /// ran the event group; or the entries of a GTID_LIST event, in their order. Other events have none.
    ///
    /// For a GTID_LIST event room is made at most once, for all of its entries, before any is added.
    ///
    /// # Errors
    ///
    /// [`Error::Memory`] if an allocation fails; nothing changes then.
    pub fn add_event(&mut self, server_id: u32, data: &MariaEventData<'_>) -> Result<(), Error>
        ensures ok { OnOk result (KeepLast (self.old ++ gtids_of server_id data.now) self.new) }
        ensures err { OnErr result (self.new ≡ self.old) }
        ensures memory { IsOkUnless result Memory }
    {
        match data {
            MariaEventData::GtidEvent(event) => {
                self.add(MariaGtid::new(event.domain(), server_id, event.sequence()))
            }
            MariaEventData::GtidListEvent(event) => add_all(&mut self.entries, event.entries()),
            _ => Ok(()),
        }
    }
}
