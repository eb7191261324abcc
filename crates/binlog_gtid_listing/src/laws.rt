//! Laws of the listing of GTIDs. Each is a function without effect whose contract states it.
ghost use Rattle.std.specs.Prelude.{◌≡◌, ℕ, List, Option, Result};
ghost use Rattle.binlog_wire.specs.declared.error.Error.{Error};
ghost use Rattle.binlog_variable_fields.specs.declared.gno_interval.GnoInterval.{GnoInterval};
ghost use Rattle.binlog_gtids.specs.GnoSets.{is_held};
ghost use Rattle.binlog_gtid_sets.specs.declared.gtid_group.GtidGroup.{GtidGroup};
ghost use Rattle.binlog_events.specs.Events.{EventView};
ghost use Rattle.binlog_gtid_listing.specs.GroupLines.{IsGroupLine, AreGroupLines};
ghost use Rattle.binlog_gtid_listing.specs.GtidListing.{AreGtidsOf};

/// The line of a source and a tag is determined by their numbers: two lines with the same numbers are equal, so there is
/// one way to write the intervals and the gaps.
pub fn group_lines_are_one()
    ensures { (sid : List ℕ) (tag : Option (List ℕ)) (first second : List GnoInterval) (line other : List ℕ)
        → IsGroupLine sid tag first line → IsGroupLine sid tag second other
        → ((n : ℕ) → is_held first n ≡ is_held second n) → line ≡ other }
{}

/// The lines of the GTIDs of a log are determined: two lists of groups that are the GTIDs of the same items have the same
/// lines. So what is written of a log's GTIDs is one text.
pub fn listings_are_one()
    ensures { (items : List (Result EventView Error)) (groups others : List GtidGroup) (lines texts : List ℕ)
        → AreGtidsOf items groups → AreGtidsOf items others → AreGroupLines groups lines → AreGroupLines others texts → lines ≡ texts }
{}
