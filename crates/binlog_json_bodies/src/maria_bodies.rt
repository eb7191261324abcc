//! The objects of the smaller events.
#![tactic(auto, using(std::proofs::Common::append_assoc))]

ghost use Rattle.json_line.specs.Tokens.{Adds};
ghost use Rattle.binlog_json_bodies.specs.MariaBodies.{annotate_rows_object, binlog_checkpoint_object, start_encryption_object};

use binlog_mariadb::{AnnotateRowsEvent, BinlogCheckpointEvent, StartEncryptionEvent};
use json_line::Line;
use std::alloc::AllocError;

/// Writes the object of an ANNOTATE_ROWS event.
pub(crate) fn write_annotate_rows(
    line: &mut Line,
    event: &AnnotateRowsEvent<'_>,
) -> Result<(), AllocError>
    ensures { Adds result line.old line.new (annotate_rows_object event.now) }
{
    line.begin_object()?;
    line.text_member("query", event.query_raw())?;
    line.end_object()?;
    Ok(())
}

/// Writes the object of a BINLOG_CHECKPOINT event.
pub(crate) fn write_binlog_checkpoint(
    line: &mut Line,
    event: &BinlogCheckpointEvent<'_>,
) -> Result<(), AllocError>
    ensures { Adds result line.old line.new (binlog_checkpoint_object event.now) }
{
    line.begin_object()?;
    line.text_member("name", event.name_raw())?;
    line.end_object()?;
    Ok(())
}

/// Writes the object of a START_ENCRYPTION event.
pub(crate) fn write_start_encryption(
    line: &mut Line,
    event: &StartEncryptionEvent,
) -> Result<(), AllocError>
    ensures { Adds result line.old line.new (start_encryption_object event.now) }
{
    line.begin_object()?;
    line.number_member("scheme", u64::from(event.scheme()))?;
    line.number_member("key_version", u64::from(event.key_version()))?;
    line.bytes_member("nonce", &event.nonce())?;
    line.end_object()?;
    Ok(())
}
