//! The objects of compressed statements and rows.
#![tactic(auto, using(std::proofs::Common::append_assoc))]

ghost use Rattle.std.specs.Prelude.{◌≡◌, ℕ, ◌<◌, ◌≤◌, List, length, IfOk, MatchOption};
ghost use Rattle.binlog_rows.specs.RowsData.{event_in};
ghost use Rattle.json_line.specs.Tokens.{Adds};
ghost use Rattle.binlog_json_bodies.specs.Data.{error_object};
ghost use Rattle.binlog_json_bodies.specs.Rows.{rows_table, extra_data_member};
ghost use Rattle.binlog_json_bodies.specs.Statements.{statement_head, statement_texts};
ghost use Rattle.binlog_mariadb.specs.Compressed.{IsCompressed};
ghost use Rattle.binlog_json_bodies.specs.Shown.{Shows};
ghost use Rattle.binlog_json_bodies.specs.Compressed.{most_bytes, compressed_member, query_object, rows_object, IsOfText};

use crate::rows::write_images;
use crate::statements::{write_maria_query_texts, write_statement_head};
use binlog_file::QueryEvent;
use binlog_mariadb::{CompressionError, RowsCompressedEvent, uncompress};
use json_line::Line;
use std::alloc::{AllocError, Global};

/// The greatest size of an uncompressed text in bytes, 1 GiB, which is that of a packet of the server. A longer text is
/// refused.
pub const MOST_BYTES: usize = 1_073_741_824;

/// Writes the object of a compressed statement with its text.
pub(crate) fn write_compressed_query(
    line: &mut Line,
    alloc: Global,
    event: &QueryEvent<'_>,
) -> Result<(), AllocError>
    ensures { Shows result line.old line.new (IsOfText event.now.statement.texts.query (query_object event.now)) }
{
    match text_of(alloc, event.query_raw())? {
        Some(text) => write_query(line, alloc, event, &text),
        None => write_invalid(line),
    }
}

fn write_query(
    line: &mut Line,
    alloc: Global,
    event: &QueryEvent<'_>,
    query: &[u8],
) -> Result<(), AllocError>
    ensures { Adds result line.old line.new (query_object event.now query.now) }
{
    line.begin_object()?;
    write_statement_head(
        line,
        event.thread_id(),
        event.execution_time(),
        event.error_code(),
    )?;
    write_maria_query_texts(line, alloc, event, query)?;
    write_compressed(line)?;
    line.end_object()?;
    Ok(())
}

/// Writes the object of a compressed row event with its rows.
pub(crate) fn write_compressed_rows(
    line: &mut Line,
    alloc: Global,
    event: &RowsCompressedEvent<'_>,
) -> Result<(), AllocError>
    ensures { Shows result line.old line.new (IsOfText (event_in event.now.event).rows (rows_object event.now)) }
{
    match text_of(alloc, event.compressed_data())? {
        Some(rows) => write_rows(line, event, &rows),
        None => write_invalid(line),
    }
}

fn write_rows(
    line: &mut Line,
    event: &RowsCompressedEvent<'_>,
    rows: &[u8],
) -> Result<(), AllocError>
    ensures { Adds result line.old line.new (rows_object event.now rows.now) }
{
    line.begin_object()?;
    write_rows_table(line, event)?;
    write_images(
        line,
        event.num_columns(),
        event.columns_before_image(),
        event.columns_after_image(),
    )?;
    line.bytes_member("rows_data", rows)?;
    write_compressed(line)?;
    line.end_object()?;
    Ok(())
}

fn write_rows_table(line: &mut Line, event: &RowsCompressedEvent<'_>) -> Result<(), AllocError>
    ensures { Adds result line.old line.new (rows_table (event_in event.now.event)) }
{
    line.number_member("table_id", event.table_id())?;
    line.number_member("flags", u64::from(event.flags_raw()))?;
    write_extra_data(line, event)?;
    Ok(())
}

// Writes the extra bytes, if any.
fn write_extra_data(line: &mut Line, event: &RowsCompressedEvent<'_>) -> Result<(), AllocError>
    ensures { Adds result line.old line.new (extra_data_member (event_in event.now.event).head.extra) }
{
    match event.extra_data() {
        Some(bytes) => line.bytes_member_if_any("extra_data", bytes),
        None => Ok(()),
    }
}

// Writes that the event was compressed.
fn write_compressed(line: &mut Line) -> Result<(), AllocError>
    ensures { Adds result line.old line.new compressed_member }
{
    line.key("compressed")?;
    line.boolean(true)
}

// Writes the object of invalid data.
fn write_invalid(line: &mut Line) -> Result<(), AllocError>
    ensures { Adds result line.old line.new (error_object 6) }
{
    line.begin_object()?;
    line.number_member("error", 6)?;
    line.end_object()?;
    Ok(())
}

// The text for which these bytes are stored; None if there is none, or if it is above the limit.
#[tactic(auto, using(crate::proofs::MariaValues::no_text))]
fn text_of(alloc: Global, stored: &[u8]) -> Result<Option<Vec<u8>>, AllocError>
    ensures { IfOk result (λ found. MatchOption found ((text : List ℕ) → IsCompressed stored.now text → most_bytes < length text)
        (λ text. IsCompressed stored.now text.items × (length text.items ≤ most_bytes))) }
{
    match uncompress(alloc, stored, MOST_BYTES) {
        Ok(text) => Ok(Some(text)),
        Err(error) => {
            if error == CompressionError::Memory {
                return Err(AllocError);
            }
            Ok(None)
        }
    }
}
