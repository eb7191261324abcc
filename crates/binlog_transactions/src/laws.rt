//! Laws of the definitions. Each is a function that does nothing and whose contract states the law.
ghost use Rattle.std.specs.Prelude.{◌≡◌, List, false, None, is_some};
ghost use Rattle.binlog_transactions.specs.Pieces.{Piece, ArePieces, turns_in, ends_unfinished, told, current_behind};
ghost use Rattle.binlog_transactions.specs.declared.mark.Mark.{Mark};

/// The events of each log are pieces, one after the other: transactions, and events of none. Whatever these pieces are, what
/// [`Transactions`](crate::Transactions) says of the events, one after the other, is what these pieces say of theirs; and it is within
/// a transaction behind the last event exactly if the last piece is an unfinished transaction.
pub fn transactions_are_found()
    ensures some_pieces { (marks : List Mark) → (pieces : List Piece) × ArePieces marks pieces }
    ensures told { (marks : List Mark) (pieces : List Piece) → ArePieces marks pieces → told None marks ≡ turns_in false pieces }
    ensures end { (marks : List Mark) (pieces : List Piece) → ArePieces marks pieces → is_some (current_behind None marks) ≡ ends_unfinished false pieces }
{}
