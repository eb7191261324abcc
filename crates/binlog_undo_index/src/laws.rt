//! Laws of the definitions. Each is a function that does nothing and whose contract states the law.
ghost use Rattle.std.specs.List.{AllByRecursion};
ghost use Rattle.std.specs.Prelude.{◌≡◌, List, [], None, map, flat_map};
ghost use Rattle.binlog_transactions.specs.Pieces.{told};
ghost use Rattle.binlog_undo_index.specs.Groups.{told_events, groups_in, open_behind, kept_in, refused_in};
ghost use Rattle.binlog_undo_index.specs.Index.{mark_of, turn_of, parts_for};
ghost use Rattle.binlog_undo_index.specs.Parts.{no_parts, noted_all};
ghost use Rattle.binlog_undo_index.specs.RowTransactions.{RowTransaction, IsRowTransaction, kept_rows, IsBorder, row_groups};
ghost use Rattle.binlog_undo_index.specs.declared.rules.Rules.{Rules};
ghost use Rattle.binlog_undo_index.specs.declared.seen.SeenEvent.{SeenEvent};

/// An index that was told of the events of a file, one after the other, has the places of the transactions that are undone and of
/// their row events, in order, and each refusal; and of the transaction that is read its table maps. What is said of the events are
/// the turns of their marks, which are those of the transactions of the log by [`binlog_transactions::laws::transactions_are_found`].
pub fn places_are_kept()
    ensures kept { (rules : Rules) (events : List SeenEvent)
        → noted_all None events (no_parts rules) ≡ parts_for rules (groups_in [] (told_events None events)) (open_behind [] (told_events None events)) }
    ensures turns { (events : List SeenEvent) → map turn_of (told_events None events) ≡ told None (map mark_of events) }
{}

/// Transactions of row events alone, one after the other between a description and the end of a log, are kept whole, in order: each with
/// the places of its row events that are undone, if it has some. Nothing is refused.
pub fn row_transactions_are_kept()
    ensures { (rules : Rules) (first last : SeenEvent) (transactions : List RowTransaction) → IsBorder first → IsBorder last
        → AllByRecursion (IsRowTransaction rules.positions) transactions
        → (kept_in rules (row_groups first transactions last) ≡ flat_map kept_rows transactions) × (refused_in rules (row_groups first transactions last) ≡ []) }
{}
