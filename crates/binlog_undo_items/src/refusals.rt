//! What can't be undone, as plain numbers.
ghost use Rattle.std.specs.Prelude.{◌≡◌, ◌≤◌, false, true, length, IfOk, OnOk};
ghost use Rattle.binlog_undo_index.specs.Parts.{parts_of};
ghost use Rattle.binlog_undo_index.specs.declared.reason.Reason.TheVariants.{Transaction};
ghost use Rattle.binlog_undo_items.specs.Options.{reason_number};
ghost use Rattle.binlog_undo_items.specs.Refusals.{AddsRefusals, AreAllSkipped, end_of, fill, refusal_of, refusals_of};
ghost use Rattle.binlog_undo_log.specs.Files.{AreSkipped};

use crate::scanning::ScannedLog;
use binlog_transactions::Refusal;
use binlog_undo_index::{Reason, Refused};
use std::alloc::{AllocError, Global};

/// A transaction, or a log, that can't be undone.
#[repr(C)]
#[derive(Clone, Copy)]
pub struct BinlogRefusal {
    /// The number of the log, from 0.
    pub log: u64,
    /// The index of the event in its log, from 0.
    pub index: u64,
    /// Where the event begins in its log, in bytes.
    pub position: u64,
    /// Of a transaction that a position is within, the place behind it; 0 for any other reason.
    pub end: u64,
    /// The number of the reason.
    pub reason: u32,
    /// 1 if transactions that are refused for this reason are left as they are, otherwise 0.
    pub is_skipped: u32,
}

// The number of the reason why an event or a transaction is refused.
fn refusal_number(refusal: Refusal) -> u32
    ensures { result ≡ reason_number (Transaction refusal) }
{
    match refusal {
        Refusal::Unfinished => 1,
        Refusal::Statement => 2,
        Refusal::LoadData => 3,
        Refusal::Xa => 4,
        Refusal::Rollback => 5,
        Refusal::Incident => 6,
        Refusal::Payload => 7,
        Refusal::OldRows => 8,
        Refusal::UnknownEvent => 9,
        Refusal::Encrypted => 10,
    }
}

// The number of a reason.
fn reason_number(reason: Reason) -> u32
    ensures { result ≡ reason_number reason }
{
    match reason {
        Reason::Transaction(refusal) => refusal_number(refusal),
        Reason::NoTableMap => 11,
        Reason::Rows => 12,
        Reason::OldTemporal => 13,
        Reason::Image => 14,
        Reason::PartialJson => 15,
        Reason::Compressed => 16,
        Reason::Damaged => 17,
        Reason::Tail => 18,
        Reason::Description => 19,
        Reason::Straddles(_) => 20,
    }
}

// The place behind a transaction that a position is within.
fn end_of(reason: Reason) -> u64
    ensures { result ≡ end_of reason }
{
    match reason {
        Reason::Straddles(end) => end,
        _ => 0,
    }
}

impl BinlogRefusal {
    // A refusal in the log with this number.
    fn new(log: u64, refused: &Refused) -> Self
        ensures { result ≡ refusal_of log refused.now }
    {
        BinlogRefusal {
            log,
            index: refused.index,
            position: refused.place,
            end: end_of(refused.reason),
            reason: reason_number(refused.reason),
            is_skipped: u32::from(refused.is_skipped),
        }
    }
}

// Adds the refusals of the log with this number.
fn add_refusals(
    log: u64,
    refusals: &[Refused],
    all: &mut Vec<BinlogRefusal>,
) -> Result<(), AllocError>
    ensures { OnOk result (AddsRefusals log refusals.now all.old.items all.new.items) }
{
    let mut left = refusals;
    'refusals: while let Some((refused, others)) = left.split_first() {
        all.push(BinlogRefusal::new(log, refused))?;
        left = others;
    }
    Ok(())
}

/// The refusals of all logs, in order.
pub(crate) fn refusals_of(
    alloc: Global,
    logs: &[ScannedLog<'_>],
) -> Result<Vec<BinlogRefusal>, AllocError>
    ensures { IfOk result (λ all. all.items ≡ refusals_of logs.now) }
{
    let mut all = Vec::new(alloc);
    let mut number = 0u64;
    for log in logs {
        add_refusals(number, log.scan.index().refusals(), &mut all)?;
        number += 1;
    }
    Ok(all)
}

// Whether each refusal is one that is skipped.
fn are_skipped(refusals: &[Refused]) -> bool
    ensures skipped { result ≡ true → AreSkipped refusals.now }
    ensures refused { result ≡ false → ¬ (AreSkipped refusals.now) }
{
    let mut left = refusals;
    'refusals: while let Some((refused, others)) = left.split_first() {
        if !refused.is_skipped {
            return false;
        }
        left = others;
    }
    true
}

/// Whether nothing is refused in any of the logs, unless it is skipped.
pub(crate) fn are_all_skipped(logs: &[ScannedLog<'_>]) -> bool
    ensures skipped { result ≡ true → AreAllSkipped logs.now }
    ensures refused { result ≡ false → ¬ (AreAllSkipped logs.now) }
{
    for log in logs {
        if !are_skipped(log.scan.index().refusals()) {
            return false;
        }
    }
    true
}

/// Fills refusals in, as many as there is room for.
pub(crate) fn fill(all: &[BinlogRefusal], refusals: &mut [BinlogRefusal])
    ensures { refusals.new ≡ fill all.now refusals.old }
{
    let count = all.len().min(refusals.len());
    refusals[..count].copy_from_slice(&all[..count]);
}
