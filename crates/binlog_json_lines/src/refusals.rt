//! What is in the place of rows that can't be read at all, and the member for metadata that can't be read.
#![tactic(auto, using(std::proofs::Common::append_assoc))]

ghost use Rattle.std.specs.Prelude.{◌≡◌};
ghost use Rattle.json_line.specs.Lines.{IsPlainText};
ghost use Rattle.json_line.specs.Tokens.{Adds};
ghost use Rattle.binlog_json_lines.specs.Refusals.{kind_name, columns_refusal, count_refusal, refusal_value, metadata_kind_name, metadata_refusal};

use binlog_columns::{ColumnError, ColumnErrorKind};
use binlog_images::RowsEventError;
use binlog_optional_metadata::{OptionalMetadataError, OptionalMetadataErrorKind};
use json_line::Line;
use std::alloc::AllocError;

/// The name of a kind of fault of a column.
fn kind_name(kind: ColumnErrorKind) -> &'static str
    ensures name { result.now ≡ kind_name kind }
    ensures plain { IsPlainText result.now }
{
    match kind {
        ColumnErrorKind::BadType => "BadType",
        ColumnErrorKind::Truncated => "Truncated",
        ColumnErrorKind::BadMetadata => "BadMetadata",
        ColumnErrorKind::LeftOver => "LeftOver",
    }
}

/// Writes an array with an object for columns that are refused.
fn write_columns_refusal(line: &mut Line, error: &ColumnError) -> Result<(), AllocError>
    ensures { Adds result line.old line.new (columns_refusal error.now) }
{
    line.begin_array()?;
    line.begin_object()?;
    line.key("error")?;
    line.plain_string(kind_name(error.kind))?;
    line.number_member("column", error.column)?;
    line.end_object()?;
    line.end_array()?;
    Ok(())
}

/// Writes an array with an object for an event that has another number of columns than the table map.
fn write_count_refusal(line: &mut Line, event: u64, table: u64) -> Result<(), AllocError>
    ensures { Adds result line.old line.new (count_refusal event table) }
{
    line.begin_array()?;
    line.begin_object()?;
    line.key("error")?;
    line.plain_string("ColumnCount")?;
    line.number_member("event", event)?;
    line.number_member("table", table)?;
    line.end_object()?;
    line.end_array()?;
    Ok(())
}

/// Writes what is in the place of the rows that are refused with this error.
pub(crate) fn write_refusal(line: &mut Line, error: &RowsEventError) -> Result<(), AllocError>
    ensures { Adds result line.old line.new (refusal_value error.now) }
{
    match error {
        RowsEventError::NoTableMap(_) => line.null(),
        RowsEventError::Columns(error) => write_columns_refusal(line, error),
        RowsEventError::ColumnCount { event, table } => write_count_refusal(line, *event, *table),
    }
}

/// The name of a kind of fault of a field of the optional metadata.
fn metadata_kind_name(kind: OptionalMetadataErrorKind) -> &'static str
    ensures name { result.now ≡ metadata_kind_name kind }
    ensures plain { IsPlainText result.now }
{
    match kind {
        OptionalMetadataErrorKind::Truncated => "Truncated",
        OptionalMetadataErrorKind::BadValue => "BadValue",
        OptionalMetadataErrorKind::LeftOver => "LeftOver",
    }
}

/// Writes an object for the first field of the optional metadata that is refused.
pub(crate) fn write_metadata_refusal(
    line: &mut Line,
    error: &OptionalMetadataError,
) -> Result<(), AllocError>
    ensures { Adds result line.old line.new (metadata_refusal error.now) }
{
    line.begin_object()?;
    line.key("error")?;
    line.plain_string(metadata_kind_name(error.kind))?;
    line.key("field")?;
    line.byte_or_null(error.field_type)?;
    line.end_object()
}
