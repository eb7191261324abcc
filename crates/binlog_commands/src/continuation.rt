//! What the list of GTIDs of a file says of the file before it.
ghost use Rattle.std.specs.Prelude.{◌≡◌, ◌↔◌, ℕ, IsTrue, false};
ghost use Rattle.binlog_gtid_sets.specs.GtidGroups.{Pair, is_tracked};
ghost use Rattle.binlog_commands.specs.Continuations.{HaveSame, is_read, is_told};
ghost use Rattle.binlog_commands.specs.declared.continuation.Continuation.TheVariants.{Unlisted, Differs, GoesOn};

use crate::file_gtids::FileGtids;
use binlog_file::GtidTracker;
use binlog_gtid_listing::LogGtids;
use binlog_maria_gtids::MariaGtidTracker;
use binlog_mariadb::MariaGtid;

/// What the list of GTIDs of a file says of the file before it.
#[derive(Clone, Copy)]
pub enum Continuation {
    /// Nothing. One of them has no list, or an event that can't be read; or the file before has an anonymous transaction, or is one of
    /// MySQL's with no transaction: a server with `gtid_mode=OFF` writes empty lists.
    Unlisted,
    /// The GTIDs of the file before are other ones than those in the list.
    Differs,
    /// The GTIDs of the file before are those in the list: the file before has no more transactions.
    GoesOn,
}

/// What the list of the next file says of a file, whose GTIDs are those of its list and of its whole transactions.
pub fn continuation_of(file: &FileGtids, next: &FileGtids) -> Continuation
    ensures unlisted { (result ≡ Unlisted) ↔ (is_told file.now next.now ≡ false) }
    ensures goes_on { result ≡ GoesOn → HaveSame file.now.collector.gtids next.now.collector.gtids }
    ensures differs { result ≡ Differs → HaveSame file.now.collector.gtids next.now.collector.gtids → ⊥ }
{
    if !is_told(file, next) {
        Continuation::Unlisted
    } else if have_same(&file.collector.gtids, &next.collector.gtids) {
        Continuation::GoesOn
    } else {
        Continuation::Differs
    }
}

// Whether the list of the next file says something of this file.
fn is_told(file: &FileGtids, next: &FileGtids) -> bool
    ensures { result ≡ is_told file.now next.now }
{
    let (of_file, of_next) = (file.marks, next.marks);
    let has_maria = of_file.has_gtid_list && of_next.has_gtid_list;
    let has_mysql = of_file.has_previous_gtids && of_next.has_previous_gtids;
    is_read(file)
        && is_read(next)
        && (has_maria || (has_mysql && of_file.has_gtid && !of_file.has_anonymous))
}

// Whether all events can be read, and all GTIDs in them.
fn is_read(file: &FileGtids) -> bool
    ensures { result ≡ is_read file.now }
{
    file.collector.refused == 0 && !file.marks.has_errors
}

// Whether both have the same GTIDs.
fn have_same(first: &LogGtids, second: &LogGtids) -> bool
    ensures { IsTrue result ↔ HaveSame first.now second.now }
{
    is_same_set(&first.mysql, &second.mysql) && is_same_list(&first.maria, &second.maria)
}

// Whether both sets have the same GTIDs.
fn is_same_set(first: &GtidTracker, second: &GtidTracker) -> bool
    ensures { IsTrue result ↔ ((pair : Pair) (n : ℕ) → is_tracked first.now pair n ≡ is_tracked second.now pair n) }
{
    first.is_subset(second) && second.is_subset(first)
}

// Whether the last GTIDs of each domain and server are the same.
fn is_same_list(first: &MariaGtidTracker, second: &MariaGtidTracker) -> bool
    ensures { IsTrue result ↔ (first.now ≡ second.now) }
{
    let (gtids, others) = (first.entries(), second.entries());
    if gtids.len() != others.len() {
        return false;
    }
    for (i, gtid) in gtids.iter().enumerate() {
        if !is_same(*gtid, others[i]) {
            return false;
        }
    }
    true
}

// Whether both are the same GTID.
fn is_same(first: MariaGtid, second: MariaGtid) -> bool
    ensures { IsTrue result ↔ (first ≡ second) }
{
    first.domain() == second.domain()
        && first.server_id() == second.server_id()
        && first.sequence() == second.sequence()
}
