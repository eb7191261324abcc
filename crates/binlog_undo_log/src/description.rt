//! The description of the log that is written.
ghost use Rattle.std.specs.Prelude.{◌≡◌, IfOk};
ghost use Rattle.binlog_event_format.specs.DescriptionRefs.{description_of};
ghost use Rattle.binlog_undo_log.specs.Descriptions.{description_body};
ghost use Rattle.binlog_undo_log.specs.Files.{IsDescribed};
ghost use Rattle.binlog_events.specs.EventRefs.{view_of};
ghost use Rattle.binlog_wire.specs.Fields.{IsBytes};

use crate::heads::is_writable;
use crate::undo_error::UndoLogError;
use binlog_event_format::DescriptionRef;
use binlog_file::{EventRef, MySerialize};
use std::alloc::Global;

// Bytes are below 256, which is a premise of how a description is encoded.
fn are_bytes(bytes: &[u8])
    ensures { IsBytes bytes.now }
{}

/// The description of a description event.
///
/// # Errors
///
/// [`UndoLogError::Changed`] if the event is none, or the events that undo a log can't be written under it.
pub(crate) fn description_in<'a>(event: &EventRef<'a>) -> Result<DescriptionRef<'a>, UndoLogError>
    ensures { IfOk result (λ fde. IsDescribed (view_of event.now) (description_of fde)) }
{
    if !event.is_description() {
        return Err(UndoLogError::Changed);
    }
    let data = event.data();
    are_bytes(data);
    let Ok(read) = DescriptionRef::read(data) else {
        return Err(UndoLogError::Changed);
    };
    let fde = read.with_footer(event.footer());
    if is_writable(fde) {
        Ok(fde)
    } else {
        Err(UndoLogError::Changed)
    }
}

/// The body that is written for a description: created at 0, so that no server takes it for a restart, and behind it the number of its
/// algorithm, if it states one.
pub(crate) fn body_of(alloc: Global, fde: DescriptionRef<'_>) -> Result<Vec<u8>, UndoLogError>
    ensures { IfOk result (λ body. body.items ≡ description_body (description_of fde.entry)) }
{
    let mut body = Vec::new(alloc);
    let event = fde.to_event().with_create_timestamp(0);
    if event.serialize(alloc, &mut body).is_err() {
        return Err(UndoLogError::Memory);
    }
    if let Some(algorithm) = fde.footer().checksum_alg_raw() {
        if body.push(algorithm).is_err() {
            return Err(UndoLogError::Memory);
        }
    }
    Ok(body)
}
