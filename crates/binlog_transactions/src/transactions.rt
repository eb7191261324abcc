//! The transactions of a log, event by event.
ghost use Rattle.std.specs.Prelude.{◌≡◌, None, is_some};
ghost use Rattle.binlog_transactions.specs.Pieces.{begin_with, go_on, step};

use crate::mark::Mark;
use crate::transaction::{Transaction, refusal_outside};
use crate::turn::{Place, Turn};

/// Which transaction of a log is read, if one is.
#[derive(Clone, Copy, Debug)]
pub struct Transactions {
    current: Option<Transaction>,
}

impl Transactions {
    /// In front of the first event of a log.
    pub fn new() -> Transactions
        ensures { result.current ≡ None }
    {
        Transactions { current: None }
    }

    /// Whether a transaction is there that hasn't ended. Where the log ends, it is unfinished.
    pub fn is_within(&self) -> bool
        ensures { result ≡ is_some self.now.current }
    {
        self.current.is_some()
    }

    /// Says what the next event, which has this mark, is to the transactions of the log.
    pub fn next(&mut self, mark: Mark) -> Turn
        ensures turn { result ≡ (step self.old.current mark).0 }
        ensures current { self.new.current ≡ (step self.old.current mark).1 }
    {
        let (turn, current) = match self.current {
            Some(transaction) if transaction.is_cut(mark) => begin(true, mark),
            Some(transaction) => go_on(transaction, mark),
            None => begin(false, mark),
        };
        self.current = current;
        turn
    }
}

/// What is said of an event with which a transaction begins, or none does, and the transaction behind it.
fn begin(cuts: bool, mark: Mark) -> (Turn, Option<Transaction>)
    ensures { result ≡ begin_with cuts mark }
{
    let Some(transaction) = Transaction::begun(mark) else {
        let turn = Turn {
            cuts,
            place: Place::Outside,
            refusal: refusal_outside(mark),
        };
        return (turn, None);
    };
    let refusal = transaction.refusal_at(mark);
    if transaction.ends_with(mark) {
        let turn = Turn {
            cuts,
            place: Place::Alone,
            refusal,
        };
        (turn, None)
    } else {
        let turn = Turn {
            cuts,
            place: Place::First,
            refusal,
        };
        (turn, Some(transaction.behind(mark)))
    }
}

/// What is said of an event of this transaction, and the transaction behind it.
fn go_on(transaction: Transaction, mark: Mark) -> (Turn, Option<Transaction>)
    ensures { result ≡ go_on transaction mark }
{
    let refusal = transaction.refusal_at(mark);
    if transaction.ends_with(mark) {
        let turn = Turn {
            cuts: false,
            place: Place::Last,
            refusal,
        };
        (turn, None)
    } else {
        let turn = Turn {
            cuts: false,
            place: Place::Within,
            refusal,
        };
        (turn, Some(transaction.behind(mark)))
    }
}
