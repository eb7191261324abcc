//! Rows that are refused as JSON.
ghost use Rattle.std.specs.Prelude.{◌≡◌};
ghost use Rattle.json_line.specs.Lines.{IsPlainText};
ghost use Rattle.json_line.specs.Tokens.{Adds};
ghost use Rattle.binlog_json_values.specs.Rows.{kind_name, image_name, fault_image, fault_column, refusal_tokens};

use binlog_images::{ImageKind, RowsError, RowsErrorKind};
use json_line::Line;
use std::alloc::AllocError;

/// The name of a kind of fault.
fn kind_name(kind: RowsErrorKind) -> &'static str
    ensures name { result.now ≡ kind_name kind }
    ensures plain { IsPlainText result.now }
{
    match kind {
        RowsErrorKind::Truncated => "Truncated",
        RowsErrorKind::BadValue => "BadValue",
        RowsErrorKind::LeftOver => "LeftOver",
    }
}

/// The name of an image.
fn image_name(image: ImageKind) -> &'static str
    ensures name { result.now ≡ image_name image }
    ensures plain { IsPlainText result.now }
{
    match image {
        ImageKind::Before => "before",
        ImageKind::After => "after",
    }
}

/// Writes the image of a fault, where it is in one.
fn write_fault_image(line: &mut Line, image: Option<ImageKind>) -> Result<(), AllocError>
    ensures { Adds result line.old line.new (fault_image image) }
{
    match image {
        Some(image) => {
            line.key("image")?;
            line.plain_string(image_name(image))
        }
        None => Ok(()),
    }
}

/// Writes the column of a fault, where it is in one.
fn write_fault_column(line: &mut Line, column: Option<u64>) -> Result<(), AllocError>
    ensures { Adds result line.old line.new (fault_column column) }
{
    match column {
        Some(column) => line.number_member("column", column),
        None => Ok(()),
    }
}

/// Writes an object for a row that is refused.
pub(crate) fn write_refusal(line: &mut Line, error: &RowsError) -> Result<(), AllocError>
    ensures { Adds result line.old line.new (refusal_tokens error.now) }
{
    line.begin_object()?;
    line.key("error")?;
    line.plain_string(kind_name(error.kind))?;
    line.number_member("row", error.row)?;
    write_fault_image(line, error.image)?;
    write_fault_column(line, error.column)?;
    line.end_object()
}
