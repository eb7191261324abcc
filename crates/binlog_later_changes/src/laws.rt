//! Laws of the definitions. Each is a function that does nothing and whose contract states the law.
ghost use Rattle.std.specs.Prelude.{◌≡◌, ◌++◌, ℕ, true, List, []};
ghost use Rattle.binlog_later_changes.specs.Later.{Look, later_from};
ghost use Rattle.binlog_later_changes.specs.Logs.{SeesLog};
ghost use Rattle.binlog_later_changes.specs.SeenRows.{AreOf, Unread, rows_of_log};
ghost use Rattle.binlog_later_changes.specs.declared.later_rules.LaterRules.{LaterRules};
ghost use Rattle.binlog_later_changes.specs.declared.undone_events.RowsPlace.{RowsPlace};
ghost use Rattle.std.specs.List.{flat_map};
ghost use Rattle.table_changes.specs.Parts.{KeepsApart};
ghost use Rattle.binlog_later_changes.specs.Apart.{AreApart, SeenRows, logged_in};
ghost use Rattle.binlog_later_changes.specs.RowsLeft.{Left};

/// Where rows are checked, and those that stay remove no row that what is undone has left behind in front of them, the changes that stay are kept
/// apart from those that are undone. By [`table_changes::laws::part`] the inverse of what is undone then leads to the state to which the changes
/// that stay would have led without the others.
pub fn rows_are_kept_apart()
    ensures { (rows : List SeenRows) (old new : Left) → AreApart rows old new → KeepsApart (flat_map logged_in rows) old.counts new.counts }
{}

/// Where rows are checked, and nothing that is seen of a log is a later change behind what was seen in front of it, the changes that are seen of the log and stay
/// are kept apart from those that are undone, whatever the rows are of tables of which none are undone in front. So it goes on in the logs behind it.
pub fn seen_rows_are_kept_apart()
    ensures { (rules : LaterRules) (log : ℕ) (unread : Unread) (undone : List RowsPlace) (bytes : List ℕ) (before behind : Left) (others looks : List Look)
        (sees : SeesLog rules log undone bytes before behind looks) → rules.checks_rows ≡ true → AreOf others before → later_from others looks ≡ []
        → KeepsApart (flat_map logged_in (rows_of_log rules log unread undone bytes before behind looks sees)) before.counts behind.counts × AreOf (others ++ looks) behind }
{}
