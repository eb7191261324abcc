//! Laws of the last GTIDs, and of the texts of lists of GTIDs. Each is a function without effect whose contract states it.
ghost use Rattle.std.specs.Prelude.{◌≡◌, ◌⊎◌, ℕ, List, MatchOption};
ghost use Rattle.binlog_mariadb.specs.declared.maria_gtid.MariaGtid.{MariaGtid};
ghost use Rattle.binlog_maria_gtids.specs.LastGtids.{Origin, last_of, AreAscending};
ghost use Rattle.binlog_maria_gtids.specs.LastEntries.{HasNone, IsLast};
ghost use Rattle.binlog_maria_gtids.specs.declared.gtid_text_error.MariaGtidTextError.{MariaGtidTextError};
ghost use Rattle.binlog_maria_gtids.specs.GtidReading.{IsInvalid};
ghost use Rattle.binlog_maria_gtids.specs.GtidTexts.{AreGtidTexts};

/// The last sequence number of an origin is that of a GTID of the list that has this origin and has none behind it that
/// has; it is None exactly if no GTID has this origin.
pub fn last_is_last()
    ensures { (gtids : List MariaGtid) (o : Origin) → MatchOption (last_of gtids o) (HasNone gtids o) (IsLast gtids o) }
{}

/// Ascending entries are determined by what they keep: two lists with the same last sequence number for each origin are
/// equal. So the lines of a log's GTIDs are determined.
pub fn entries_are_one()
    ensures { (first second : List MariaGtid) → AreAscending first → AreAscending second
        → ((o : Origin) → last_of first o ≡ last_of second o) → first ≡ second }
{}

/// A text is that of one list of GTIDs, or has an error and is that of none.
pub fn one_reading()
    ensures some { (text : List ℕ) → ((gtids : List MariaGtid) × AreGtidTexts text gtids) ⊎ ((e : MariaGtidTextError) × IsInvalid text e) }
    ensures same { (text : List ℕ) (first second : List MariaGtid) → AreGtidTexts text first → AreGtidTexts text second → first ≡ second }
    ensures valid { (text : List ℕ) (gtids : List MariaGtid) (e : MariaGtidTextError) → AreGtidTexts text gtids → IsInvalid text e → ⊥ }
{}
