//! The first pass over logs in memory.
ghost use Rattle.std.specs.Prelude.{◌≡◌, map, length, IfOk, IfErr, OnOk};
ghost use Rattle.binlog_undo_items.specs.Scanned.{AreScanned, HasNoTable, IsNoLog, IsNoRequest, IsNoScan, ScansRequest, StatesChoice, StatesScan, start_if, stop_if};
ghost use Rattle.binlog_undo_log.specs.Files.{ScansWhole};

use crate::failure::UndoFailure;
use crate::request::UndoRequest;
use crate::splitting::split_logs;
use crate::tables::table_filter;
use binlog_file::{Error, SliceReader};
use binlog_filters::Filter;
use binlog_undo_log::{Choice, UndoScan, scan_file};
use std::alloc::Global;

// The position at which the transactions begin that are undone, of the first log.
fn start_if(is_first: bool, position: u64) -> u64
    ensures { result ≡ start_if is_first position }
{
    if is_first { position } else { 0 }
}

// The position in front of which they begin, of the last log.
fn stop_if(is_last: bool, position: u64) -> Option<u64>
    ensures { result ≡ stop_if is_last position }
{
    if is_last { Some(position) } else { None }
}

// Which transactions and tables of a log are undone. The start position is one of the first log, and the stop position of the last one.
fn choice(
    alloc: Global,
    request: &UndoRequest<'_>,
    is_first: bool,
    is_last: bool,
) -> Result<Choice, UndoFailure>
    ensures ok { IfOk result (StatesChoice request.now is_first is_last) }
    ensures err { IfErr result (HasNoTable request.now) }
{
    let mut transactions = Filter::new(alloc);
    transactions.start_position = start_if(is_first, request.options.start_position);
    transactions.stop_position = stop_if(is_last, request.options.stop_position);
    let tables = table_filter(alloc, request.tables)?;
    let excluded = table_filter(alloc, request.excluded)?;
    Ok(Choice {
        transactions,
        tables,
        excluded,
        has_plain_temporal: request.options.has_plain_temporal(),
    })
}

// A pass in front of the first item of a log.
fn new_scan(
    alloc: Global,
    request: &UndoRequest<'_>,
    is_first: bool,
    is_last: bool,
) -> Result<UndoScan, UndoFailure>
    ensures ok { IfOk result (StatesScan request.now is_first is_last) }
    ensures err { IfErr result (HasNoTable request.now) }
{
    let choice = choice(alloc, request, is_first, is_last)?;
    let options = &request.options;
    Ok(UndoScan::new(alloc, choice, options.checks(), options.skips()))
}

// The first pass over a log.
fn scan_log(alloc: Global, log: &[u8], scan: &mut UndoScan) -> Result<(), UndoFailure>
    ensures ok { OnOk result (ScansWhole log.now scan.old scan.new) }
    ensures err { IfErr result (IsNoLog log.now) }
{
    let mut input = SliceReader::new(log);
    match scan_file(alloc, &mut input, scan) {
        Ok(()) => Ok(()),
        Err(Error::EndOfInput) => Err(UndoFailure::EndOfInput),
        Err(Error::InvalidFileHeader) => Err(UndoFailure::InvalidFileHeader),
        Err(_) => Err(UndoFailure::Memory),
    }
}

/// A log behind the first pass.
#[derive(Drop)]
pub struct ScannedLog<'a> {
    /// Its bytes.
    pub bytes: &'a [u8],
    /// The pass.
    pub scan: UndoScan,
}

// The first pass over all logs.
fn scan_logs<'a>(
    alloc: Global,
    request: &UndoRequest<'a>,
    logs: &[&'a [u8]],
) -> Result<Vec<ScannedLog<'a>>, UndoFailure>
    ensures bytes { IfOk result (λ scanned. map (λ log. log.bytes.now) scanned.items ≡ map (λ log. log.now) logs.now) }
    ensures ok { IfOk result (λ scanned. AreScanned request.now (length logs.now) scanned.items) }
    ensures err { IfErr result (IsNoScan request.now (map (λ log. log.now) logs.now)) }
{
    let mut scanned = Vec::new(alloc);
    let mut index = 0usize;
    'logs: while index < logs.len() {
        let bytes = logs[index];
        let mut scan = new_scan(alloc, request, index == 0, index + 1 == logs.len())?;
        scan_log(alloc, bytes, &mut scan)?;
        if scanned.push(ScannedLog { bytes, scan }).is_err() {
            return Err(UndoFailure::Memory);
        }
        index += 1;
    }
    Ok(scanned)
}

/// The first pass over the logs of a request.
///
/// # Errors
///
/// - [`UndoFailure::Options`] if an option isn't known, the sizes aren't those of the logs, or a text names no tables.
/// - [`UndoFailure::EndOfInput`] or [`UndoFailure::InvalidFileHeader`] if a log doesn't begin as one.
/// - [`UndoFailure::Memory`] if memory is refused.
pub(crate) fn scan_request<'a>(
    alloc: Global,
    request: &UndoRequest<'a>,
) -> Result<Vec<ScannedLog<'a>>, UndoFailure>
    ensures ok { IfOk result (λ scanned. ScansRequest request.now scanned.items) }
    ensures err { IfErr result (IsNoRequest request.now) }
{
    if !request.options.are_known() {
        return Err(UndoFailure::Options);
    }
    let logs = split_logs(alloc, request.logs, request.sizes)?;
    scan_logs(alloc, request, logs.as_slice())
}
