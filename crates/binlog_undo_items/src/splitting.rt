//! Logs that are one behind the other.
ghost use Rattle.std.specs.Prelude.{◌≡◌, IfOk, IfErr, map};
ghost use Rattle.binlog_undo_items.specs.Logs.{AreLogs, IsNoSplit};

use crate::failure::UndoFailure;
use std::alloc::Global;

/// The logs of these sizes.
///
/// # Errors
///
/// [`UndoFailure::Options`] if the sizes aren't those of all bytes, [`UndoFailure::Memory`] if memory is refused.
pub(crate) fn split_logs<'a>(
    alloc: Global,
    bytes: &'a [u8],
    sizes: &[u64],
) -> Result<Vec<&'a [u8]>, UndoFailure>
    ensures ok { IfOk result (λ logs. AreLogs bytes.now sizes.now (map (λ log. log.now) logs.items)) }
    ensures err { IfErr result (IsNoSplit bytes.now sizes.now) }
{
    let mut logs = Vec::new(alloc);
    let mut rest = bytes;
    let mut left = sizes;
    'sizes: while let Some((size, others)) = left.split_first() {
        let Some((log, behind)) = rest.split_at_checked(*size as usize) else {
            return Err(UndoFailure::Options);
        };
        if logs.push(log).is_err() {
            return Err(UndoFailure::Memory);
        }
        rest = behind;
        left = others;
    }
    if rest.is_empty() {
        Ok(logs)
    } else {
        Err(UndoFailure::Options)
    }
}
