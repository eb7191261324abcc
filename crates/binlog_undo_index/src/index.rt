//! The places that are kept of the transactions that are undone.
ghost use Rattle.std.specs.Prelude.{◌≡◌, ◌==◌, None, false, OnOk, is_some, length};
ghost use Rattle.std.specs.Ordering.{nat_cmp};
ghost use Rattle.std.specs.BTreeMap.{get};
ghost use Rattle.binlog_transactions.specs.Pieces.{step};
ghost use Rattle.binlog_undo_index.specs.Parts.{parts_of, no_parts, reset, with_refused, with_event, with_map, with_change, added, kept_open, ended_taken, ended_open, ended, cut, refused_beside, passed, noted};

use crate::begun::{Begun, of_transaction, refused_at};
use crate::places::{ChangePlace, TransactionPlace};
use crate::reason::{Reason, Refused};
use crate::rules::Rules;
use crate::seen::SeenEvent;
use binlog_transactions::{Place, Refusal, Transactions, Turn};
use std::alloc::{AllocError, Global};
use std::collections::BTreeMap;

/// The transactions of a file that are undone, and those that can't be. It has 16 bytes for each row event that is undone, 16 for
/// each transaction, and a few more for each that is refused; of the transaction that is read it has the places of the newest map of
/// each table.
#[derive(Drop)]
pub struct UndoIndex {
    rules: Rules,
    automaton: Transactions,
    maps: BTreeMap<u64, u64>,
    begun: Option<Begun>,
    open_changes: Vec<ChangePlace>,
    changes: Vec<ChangePlace>,
    transactions: Vec<TransactionPlace>,
    refusals: Vec<Refused>,
}

impl UndoIndex {
    /// Of no events.
    pub fn new(alloc: Global, rules: Rules) -> UndoIndex
        ensures automaton { result.automaton.current ≡ None }
        ensures parts { parts_of result ≡ no_parts rules }
    {
        UndoIndex {
            rules,
            automaton: Transactions::new(),
            maps: BTreeMap::new(alloc),
            begun: None,
            open_changes: Vec::new(alloc),
            changes: Vec::new(alloc),
            transactions: Vec::new(alloc),
            refusals: Vec::new(alloc),
        }
    }

    /// The transactions that are undone, in order.
    pub fn transactions(&self) -> &[TransactionPlace]
        ensures { result.now ≡ (parts_of self.now).transactions }
    {
        self.transactions.as_slice()
    }

    /// The row events that are undone, in order: those of the first transaction, those of the second one, and so on.
    pub fn changes(&self) -> &[ChangePlace]
        ensures { result.now ≡ (parts_of self.now).changes }
    {
        self.changes.as_slice()
    }

    /// What is refused, in the order in which it was found.
    pub fn refusals(&self) -> &[Refused]
        ensures { result.now ≡ (parts_of self.now).refusals }
    {
        self.refusals.as_slice()
    }

    /// The place of the newest table map of this id in the transaction that is read.
    pub fn table_map(&self, table_id: u64) -> Option<u64>
        ensures { result ≡ get nat_cmp self.now.maps table_id }
    {
        self.maps.get(&table_id).copied()
    }

    /// Whether no row event is undone so far of the transaction that is read, if there is one.
    pub fn has_no_change(&self) -> bool
        ensures { result ≡ (length (parts_of self.now).open_changes == 0) }
    {
        self.open_changes.is_empty()
    }

    /// Whether a transaction is read that has begun and not ended.
    pub fn is_within(&self) -> bool
        ensures { result ≡ is_some self.now.automaton.current }
    {
        self.automaton.is_within()
    }

    /// Notes the next event of the file. Nothing is stated of the index behind an error, which is one of memory.
    pub fn note(&mut self, event: &SeenEvent) -> Result<(), AllocError>
        ensures parts { OnOk result (parts_of self.new ≡ noted event.now (step self.old.automaton.current event.now.mark).0 (parts_of self.old)) }
        ensures automaton { OnOk result (self.new.automaton.current ≡ (step self.old.automaton.current event.now.mark).1) }
    {
        let turn = self.automaton.next(event.mark);
        self.follow(event, turn)
    }

    /// Notes a refusal that isn't one of a transaction, and can't be skipped.
    pub fn refuse(&mut self, index: u64, place: u64, reason: Reason) -> Result<(), AllocError>
        ensures { OnOk result (parts_of self.new ≡ with_refused (record { index = index; place = place; reason = reason; is_skipped = false }) (parts_of self.old)) }
    {
        self.refusals.push(Refused {
            index,
            place,
            reason,
            is_skipped: false,
        })?;
        Ok(())
    }

    // Notes an event of which this is said.
    fn follow(&mut self, event: &SeenEvent, turn: Turn) -> Result<(), AllocError>
        ensures parts { OnOk result (parts_of self.new ≡ noted event.now turn (parts_of self.old)) }
        ensures automaton { OnOk result (self.new.automaton.current ≡ self.old.automaton.current) }
    {
        if turn.cuts {
            self.cut()?;
        }
        match turn.place {
            Place::Outside => self.pass(event, turn.refusal),
            Place::First => {
                self.reset();
                self.add(event, turn.refusal)
            }
            Place::Within => self.add(event, turn.refusal),
            Place::Last => {
                self.add(event, turn.refusal)?;
                self.end(event)
            }
            Place::Alone => {
                self.reset();
                self.add(event, turn.refusal)?;
                self.end(event)
            }
        }
    }

    // No transaction is read.
    fn reset(&mut self)
        ensures parts { parts_of self.new ≡ reset (parts_of self.old) }
        ensures automaton { self.new.automaton.current ≡ self.old.automaton.current }
    {
        self.begun = None;
        self.open_changes.clear();
        self.maps.clear();
    }

    // An event of the transaction that is read, which may begin with it: where it ends, and its refusals.
    fn add_event(&mut self, event: &SeenEvent, refusal: Option<Refusal>)
        ensures parts { parts_of self.new ≡ with_event event.now refusal (parts_of self.old) }
        ensures automaton { self.new.automaton.current ≡ self.old.automaton.current }
    {
        let begun = match self.begun {
            Some(begun) => begun,
            None => Begun::at(event),
        };
        self.begun = Some(begun.behind(self.rules.skips, event, refusal));
    }

    // Keeps the place of a table map.
    fn add_map(&mut self, event: &SeenEvent) -> Result<(), AllocError>
        ensures parts { OnOk result (parts_of self.new ≡ with_map event.now (parts_of self.old)) }
        ensures automaton { OnOk result (self.new.automaton.current ≡ self.old.automaton.current) }
    {
        if let Some(table_id) = event.table_id {
            self.maps.insert(table_id, event.read_at)?;
        }
        Ok(())
    }

    // Keeps the places of a row event.
    fn add_change(&mut self, event: &SeenEvent) -> Result<(), AllocError>
        ensures parts { OnOk result (parts_of self.new ≡ with_change event.now (parts_of self.old)) }
        ensures automaton { OnOk result (self.new.automaton.current ≡ self.old.automaton.current) }
    {
        if let Some(change) = event.change {
            self.open_changes.push(change)?;
        }
        Ok(())
    }

    // An event of the transaction that is read.
    fn add(&mut self, event: &SeenEvent, refusal: Option<Refusal>) -> Result<(), AllocError>
        ensures parts { OnOk result (parts_of self.new ≡ added event.now refusal (parts_of self.old)) }
        ensures automaton { OnOk result (self.new.automaton.current ≡ self.old.automaton.current) }
    {
        self.add_event(event, refusal);
        self.add_map(event)?;
        self.add_change(event)
    }

    // Keeps the transaction that is read, of which the last event begins at this place, if it has rows that are undone.
    fn keep(&mut self, last: u64) -> Result<(), AllocError>
        ensures parts { OnOk result (parts_of self.new ≡ kept_open last (parts_of self.old)) }
        ensures automaton { OnOk result (self.new.automaton.current ≡ self.old.automaton.current) }
    {
        if self.open_changes.is_empty() {
            return Ok(());
        }
        self.changes.extend_from_slice(&self.open_changes)?;
        self.transactions.push(TransactionPlace {
            last,
            changes: self.open_changes.len() as u64,
        })?;
        Ok(())
    }

    // Notes the refusal, or keeps the transaction that is read.
    fn end_taken(&mut self, last: u64, refused: Option<Refused>) -> Result<(), AllocError>
        ensures parts { OnOk result (parts_of self.new ≡ ended_taken last refused (parts_of self.old)) }
        ensures automaton { OnOk result (self.new.automaton.current ≡ self.old.automaton.current) }
    {
        match refused {
            Some(refused) => {
                self.refusals.push(refused)?;
                Ok(())
            }
            None => self.keep(last),
        }
    }

    // Refuses this transaction if a position is within it, or else ends it with this event, if both take it.
    fn end_open(&mut self, event: &SeenEvent, begun: Begun) -> Result<(), AllocError>
        ensures parts { OnOk result (parts_of self.new ≡ ended_open event.now begun (parts_of self.old)) }
        ensures automaton { OnOk result (self.new.automaton.current ≡ self.old.automaton.current) }
    {
        match begun.split(self.rules.positions) {
            Some(refused) => {
                self.refusals.push(refused)?;
                Ok(())
            }
            None if begun.is_taken && event.takes_last => {
                self.end_taken(event.place, begun.refused)
            }
            None => Ok(()),
        }
    }

    // The transaction that is read ends with this event.
    fn end(&mut self, event: &SeenEvent) -> Result<(), AllocError>
        ensures parts { OnOk result (parts_of self.new ≡ ended event.now (parts_of self.old)) }
        ensures automaton { OnOk result (self.new.automaton.current ≡ self.old.automaton.current) }
    {
        if let Some(begun) = self.begun {
            self.end_open(event, begun)?;
        }
        self.reset();
        Ok(())
    }

    // The transaction that is read ends without a last event.
    fn cut(&mut self) -> Result<(), AllocError>
        ensures parts { OnOk result (parts_of self.new ≡ cut (parts_of self.old)) }
        ensures automaton { OnOk result (self.new.automaton.current ≡ self.old.automaton.current) }
    {
        if let Some(begun) = self.begun {
            if let Some(refused) = begun.refused_unfinished(self.rules) {
                self.refusals.push(refused)?;
            }
        }
        self.reset();
        Ok(())
    }

    // Notes a refusal of an event of no transaction.
    fn refuse_if(&mut self, event: &SeenEvent, reason: Option<Reason>) -> Result<(), AllocError>
        ensures parts { OnOk result (parts_of self.new ≡ refused_beside event.now reason (parts_of self.old)) }
        ensures automaton { OnOk result (self.new.automaton.current ≡ self.old.automaton.current) }
    {
        if let Some(reason) = reason {
            self.refusals
                .push(refused_at(self.rules.skips, event, reason))?;
        }
        Ok(())
    }

    // An event of no transaction.
    fn pass(&mut self, event: &SeenEvent, refusal: Option<Refusal>) -> Result<(), AllocError>
        ensures parts { OnOk result (parts_of self.new ≡ passed event.now refusal (parts_of self.old)) }
        ensures automaton { OnOk result (self.new.automaton.current ≡ self.old.automaton.current) }
    {
        self.reset();
        if event.takes_first {
            self.refuse_if(event, of_transaction(refusal))?;
            self.refuse_if(event, event.refusal)?;
        }
        Ok(())
    }
}
