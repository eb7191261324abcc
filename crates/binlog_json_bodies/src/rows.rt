//! The objects of table maps and of row events.
#![tactic(auto, using(std::proofs::Common::append_assoc))]

ghost use Rattle.std.specs.Prelude.{option_map};
ghost use Rattle.binlog_file.specs.Images.{bitmap_of};
ghost use Rattle.json_line.specs.Tokens.{Adds, or_null};
ghost use Rattle.binlog_json_bodies.specs.Bits.{bits_value};
ghost use Rattle.binlog_json_bodies.specs.Rows.{mapped_table, mapped_columns, table_map_object, extra_data_member, rows_table, images_members, rows_object, short_rows_object, row_event_object};

use crate::bits::write_bits;
use binlog_file::{BitView, RowsEvent, RowsEventData, TableMapEvent};
use json_line::Line;
use std::alloc::AllocError;

/// Writes the object of a table map.
pub(crate) fn write_table_map(line: &mut Line, event: &TableMapEvent<'_>) -> Result<(), AllocError>
    ensures { Adds result line.old line.new (table_map_object event.now) }
{
    line.begin_object()?;
    write_table(line, event)?;
    write_columns(line, event)?;
    line.end_object()?;
    Ok(())
}

fn write_table(line: &mut Line, event: &TableMapEvent<'_>) -> Result<(), AllocError>
    ensures { Adds result line.old line.new (mapped_table event.now) }
{
    line.number_member("table_id", event.table_id())?;
    line.number_member("flags", u64::from(event.flags_raw()))?;
    line.text_member("database_name", event.database_name_raw())?;
    line.text_member("table_name", event.table_name_raw())?;
    Ok(())
}

fn write_columns(line: &mut Line, event: &TableMapEvent<'_>) -> Result<(), AllocError>
    ensures { Adds result line.old line.new (mapped_columns event.now) }
{
    line.number_member("columns_count", event.columns_count())?;
    line.bytes_member("columns_type", event.columns_type_raw())?;
    line.bytes_member("columns_metadata", event.columns_metadata_raw())?;
    line.key("null_bitmask")?;
    write_bits(line, event.null_bitmask())?;
    line.bytes_member("optional_metadata", event.optional_metadata_raw())?;
    Ok(())
}

/// Writes the object of a row event, with its stored rows or without them.
///
/// # Errors
///
/// [`AllocError`] if an allocation fails. Some tokens may then have been written.
pub fn write_row_event(
    line: &mut Line,
    event: &RowsEventData<'_>,
    has_stored_rows: bool,
) -> Result<(), AllocError>
    ensures { Adds result line.old line.new (row_event_object has_stored_rows event.now) }
{
    if has_stored_rows {
        write_rows(line, event)
    } else {
        write_short_rows(line, event)
    }
}

/// Writes the object of a row event.
pub(crate) fn write_rows(line: &mut Line, event: &RowsEventData<'_>) -> Result<(), AllocError>
    ensures { Adds result line.old line.new (rows_object event.now) }
{
    let event = event.event();
    line.begin_object()?;
    write_rows_table(line, event)?;
    write_images(
        line,
        event.num_columns(),
        event.columns_before_image(),
        event.columns_after_image(),
    )?;
    line.bytes_member("rows_data", event.rows_data())?;
    line.end_object()?;
    Ok(())
}

// Writes the object of a row event without its stored rows.
fn write_short_rows(line: &mut Line, event: &RowsEventData<'_>) -> Result<(), AllocError>
    ensures { Adds result line.old line.new (short_rows_object event.now) }
{
    let event = event.event();
    line.begin_object()?;
    write_rows_table(line, event)?;
    write_images(
        line,
        event.num_columns(),
        event.columns_before_image(),
        event.columns_after_image(),
    )?;
    line.end_object()?;
    Ok(())
}

fn write_rows_table(line: &mut Line, event: &RowsEvent<'_>) -> Result<(), AllocError>
    ensures { Adds result line.old line.new (rows_table event.now) }
{
    line.number_member("table_id", event.table_id())?;
    line.number_member("flags", u64::from(event.flags_raw()))?;
    write_extra_data(line, event)?;
    Ok(())
}

// Writes the extra bytes, if any.
fn write_extra_data(line: &mut Line, event: &RowsEvent<'_>) -> Result<(), AllocError>
    ensures { Adds result line.old line.new (extra_data_member event.now.head.extra) }
{
    match event.extra_data() {
        Some(bytes) => line.bytes_member_if_any("extra_data", bytes),
        None => Ok(()),
    }
}

/// Writes the number of columns, and the columns-present bitmaps of the row images.
pub(crate) fn write_images(
    line: &mut Line,
    num_columns: u64,
    before: Option<BitView<'_>>,
    after: Option<BitView<'_>>,
) -> Result<(), AllocError>
    ensures { Adds result line.old line.new (images_members num_columns (option_map bitmap_of before.entry) (option_map bitmap_of after.entry)) }
{
    line.number_member("num_columns", num_columns)?;
    line.key("columns_before_image")?;
    write_image(line, before)?;
    line.key("columns_after_image")?;
    write_image(line, after)?;
    Ok(())
}

// Writes a bitmap, or null.
fn write_image(line: &mut Line, image: Option<BitView<'_>>) -> Result<(), AllocError>
    ensures { Adds result line.old line.new (or_null bits_value (option_map bitmap_of image.entry)) }
{
    match image {
        Some(bits) => write_bits(line, bits),
        None => line.null(),
    }
}
