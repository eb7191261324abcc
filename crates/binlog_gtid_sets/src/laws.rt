//! Laws of what events add to sets of GTIDs. Each is a function without effect whose contract states it.
ghost use Rattle.std.specs.Prelude.{List, MatchOption};
ghost use Rattle.binlog_gtids.specs.declared.previous_gtids_sid.PreviousGtidsSid.{PreviousGtidsSid};
ghost use Rattle.binlog_gtid_sets.specs.AddedGtids.{bad_gno_listed};
ghost use Rattle.binlog_gtid_sets.specs.FirstBadGnos.{AreListedGnos, IsFirstBadListed};

/// The number that entries are refused for is their first one that isn't from 1 to 2^63 - 1, in the order of the entries,
/// their intervals and their numbers; they aren't refused exactly if they have no such number.
pub fn first_bad_number()
    ensures { (entries : List PreviousGtidsSid) → MatchOption (bad_gno_listed entries) (AreListedGnos entries) (IsFirstBadListed entries) }
{}
