//! GTIDs in ascending order of their domains and servers, one for each.
ghost use Rattle.std.specs.Prelude.{◌≡◌, ◌+◌, ◌<◌, ◌≤◌, [], ◌∷◌, ◌++◌, length, IfOk, IfErr, IsOk, OnOk, OnErr, IsOkUnless, vec_len, vec_capacity};
ghost use Rattle.std.specs.List.{insert};
ghost use Rattle.binlog_wire.specs.declared.error.Error.TheVariants.{Memory};
ghost use Rattle.binlog_maria_gtids.specs.LastGtids.{origin, origin_of, compare_origins, KeepLast, AreAscending, IsAt, IsGapFor};

use binlog_mariadb::MariaGtid;
use binlog_wire::Error;
use std::alloc::AllocError;
use std::cmp::Ordering;

/// The index of the entry of a domain and a server, or the index where it would be inserted; constant time if it is the
/// last entry or after it.
pub(crate) fn find(entries: &[MariaGtid], domain: u32, server_id: u32) -> Result<usize, usize>
    requires { AreAscending entries.now }
    ensures found { IfOk result (λ at. IsAt entries.now (origin domain server_id) at) }
    ensures absent { IfErr result (λ at. IsGapFor entries.now (origin domain server_id) at) }
{
    if let Some(last) = entries.last() {
        match compare(last, domain, server_id) {
            Ordering::Less => return Err(entries.len()),
            Ordering::Equal => return Ok(entries.len() - 1),
            Ordering::Greater => {}
        }
    }
    entries.binary_search_by(|entry| compare(entry, domain, server_id))
}

/// Puts a GTID in the place of the entry of its domain and server, or inserts it. The only error is [`Error::Memory`],
/// which leaves the entries unchanged; there is none if the entries have room for one more.
pub(crate) fn add(entries: &mut Vec<MariaGtid>, gtid: MariaGtid) -> Result<(), Error>
    requires { AreAscending entries.old.items }
    ensures ascending { AreAscending entries.new.items }
    ensures ok { OnOk result (KeepLast (entries.old.items ++ gtid ∷ []) entries.new.items) }
    ensures err { OnErr result (entries.new.items ≡ entries.old.items) }
    ensures memory { IsOkUnless result Memory }
    ensures succeeds { vec_len entries.old < vec_capacity entries.old → IsOk result }
    ensures len { vec_len entries.new ≤ vec_len entries.old + 1 }
    ensures capacity { vec_capacity entries.old ≤ vec_capacity entries.new }
{
    match find(entries, gtid.domain(), gtid.server_id()) {
        Ok(at) => {
            entries[at] = gtid;
            Ok(())
        }
        Err(at) => insert(entries, at, gtid),
    }
}

/// Adds GTIDs in their order. Room for all is made at once, before any is added. The only error is [`Error::Memory`],
/// which leaves the entries unchanged.
pub(crate) fn add_all(entries: &mut Vec<MariaGtid>, gtids: &[MariaGtid]) -> Result<(), Error>
    requires { AreAscending entries.old.items }
    ensures ascending { AreAscending entries.new.items }
    ensures ok { OnOk result (KeepLast (entries.old.items ++ gtids.now) entries.new.items) }
    ensures err { OnErr result (entries.new.items ≡ entries.old.items) }
    ensures memory { IsOkUnless result Memory }
{
    entries.reserve(gtids.len())?;
    for gtid in gtids {
        // There is room, so this isn't refused.
        add(entries, *gtid)?;
    }
    Ok(())
}

// Compares the domain and the server of a GTID with others: the domains first, and then the servers' ids.
#[tactic(auto, unfolding(crate::specs::LastGtids::compare_origins))]
fn compare(gtid: &MariaGtid, domain: u32, server_id: u32) -> Ordering
    ensures { result ≡ compare_origins (origin_of gtid.now) (origin domain server_id) }
{
    gtid.domain()
        .cmp(&domain)
        .then(gtid.server_id().cmp(&server_id))
}

// Inserts an entry at an index.
fn insert(entries: &mut Vec<MariaGtid>, at: usize, gtid: MariaGtid) -> Result<(), Error>
    requires { at ≤ length entries.old.items }
    ensures ok { OnOk result (entries.new.items ≡ insert entries.old.items at gtid) }
    ensures err { OnErr result (entries.new.items ≡ entries.old.items) }
    ensures memory { IsOkUnless result Memory }
    ensures succeeds { vec_len entries.old < vec_capacity entries.old → IsOk result }
    ensures len { vec_len entries.new ≤ vec_len entries.old + 1 }
    ensures capacity { vec_capacity entries.old ≤ vec_capacity entries.new }
{
    match entries.insert(at, gtid) {
        Ok(()) => Ok(()),
        Err(failed) => Err(AllocError::from(failed).into()),
    }
}
