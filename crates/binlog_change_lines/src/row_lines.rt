//! The lines of the rows of an event.
ghost use Rattle.std.specs.Prelude.{◌≡◌, ◌&&◌, true, IfOk, OnOk, option_map};
ghost use Rattle.binlog_wire.specs.Fields.{IsBytes};
ghost use Rattle.binlog_images.specs.ImageCells.{cells_of};
ghost use Rattle.binlog_images.specs.RowCells.{row_cells, answer_row};
ghost use Rattle.binlog_json_values.specs.Parts.{Writes};
ghost use Rattle.binlog_json_values.specs.Rows.{image_member, before_or_none};
ghost use Rattle.binlog_change_lines.specs.Heads.{place_of, head_members};
ghost use Rattle.binlog_change_lines.specs.RowLines.{images_parts, change_parts, AddsLine, AddsItem, WritesRows};
ghost use Rattle.json_line.specs.Lines.{IsPlainText};
ghost use Rattle.binlog_change_lines.specs.RowsHeads.{head_in};

use crate::heads::{EventPlace, write_head};
use binlog_images::laws::rows_are_split;
use binlog_images::{Image, Row, Rows, RowsError};
use binlog_json_values::{ColumnFacts, ValueWriter};
use binlog_optional_metadata::TableFacts;
use binlog_rows::{RowsEventData, TableMapEvent};
use json_line::Line;
use std::alloc::{AllocError, Global};

/// What the rows of an event have in common.
#[derive(Clone, Copy)]
pub(crate) struct RowsHead<'a, 'b> {
    /// Where the event stands.
    pub(crate) place: &'a EventPlace<'a>,
    /// The time of the event, in seconds since 1970.
    pub(crate) time: u32,
    /// The table map of its table.
    pub(crate) table_map: &'a TableMapEvent<'b>,
    /// The event.
    pub(crate) body: &'a RowsEventData<'b>,
}

/// Makes the lines of rows, in memory that is reused from event to event.
#[derive(Drop)]
pub(crate) struct RowLines {
    line: Line,
    values: ValueWriter,
    /// The lines.
    pub(crate) text: Vec<u8>,
}

// Whether both hold.
fn both(first: bool, second: bool) -> bool
    ensures { result ≡ (first && second) }
{
    first && second
}

// Writes the member of an image that a row has; nothing if it hasn't.
fn write_image_member(
    line: &mut Line,
    values: &mut ValueWriter,
    name: &str,
    columns: &[ColumnFacts<'_>],
    before: Option<Image<'_>>,
    image: Option<Image<'_>>,
) -> Result<(), AllocError>
    requires { IsPlainText name.now }
    ensures { Writes result line.old line.new (image_member name.now columns.now (before_or_none (option_map cells_of before.entry)) (option_map cells_of image.entry)) }
{
    match image {
        Some(image) => {
            line.key(name)?;
            values.write_image(line, columns, before, image)
        }
        None => Ok(()),
    }
}

// Writes the images of a row.
fn write_images(
    line: &mut Line,
    values: &mut ValueWriter,
    columns: &[ColumnFacts<'_>],
    row: &Row<'_>,
) -> Result<(), AllocError>
    ensures { Writes result line.old line.new (images_parts columns.now (row_cells row.now)) }
{
    let before = row.before();
    write_image_member(line, values, "before", columns, before, before)?;
    write_image_member(line, values, "after", columns, before, row.after())
}

// Writes the object of a row.
fn write_row(
    line: &mut Line,
    values: &mut ValueWriter,
    head: &RowsHead<'_, '_>,
    facts: &TableFacts<'_>,
    row: &Row<'_>,
) -> Result<(), AllocError>
    ensures { Writes result line.old line.new (change_parts (head_in head.now facts.now.refusal) facts.now.columns.items (row_cells row.now)) }
{
    line.begin_object()?;
    write_head(
        line,
        head.place,
        head.time,
        head.table_map,
        head.body,
        &facts.refusal,
    )?;
    write_images(line, values, &facts.columns, row)?;
    line.end_object()
}

impl RowLines {
    /// No lines. Nothing is allocated.
    pub(crate) fn new(alloc: Global) -> Self {
        RowLines {
            line: Line::new(alloc),
            values: ValueWriter::new(alloc),
            text: Vec::new(alloc),
        }
    }

    // Appends the line of a row.
    fn write_line(
        &mut self,
        head: &RowsHead<'_, '_>,
        facts: &TableFacts<'_>,
        row: &Row<'_>,
    ) -> Result<(), AllocError>
        ensures { OnOk result (AddsLine (head_in head.now facts.now.refusal) facts.now.columns.items (row_cells row.now) self.old.text.items self.new.text.items) }
    {
        self.line.clear();
        write_row(&mut self.line, &mut self.values, head, facts, row)?;
        let line = self.line.end()?;
        self.text.extend_from_slice(line)
    }

    // Appends the line of a row that is read. The result is whether it is.
    fn write_item(
        &mut self,
        head: &RowsHead<'_, '_>,
        facts: &TableFacts<'_>,
        item: Result<Row<'_>, RowsError>,
    ) -> Result<bool, AllocError>
        ensures { IfOk result (λ is_read. AddsItem (head_in head.now facts.now.refusal) facts.now.columns.items (answer_row item.entry) is_read self.old.text.items self.new.text.items) }
    {
        match item {
            Ok(row) => {
                self.write_line(head, facts, &row)?;
                Ok(true)
            }
            Err(_) => Ok(false),
        }
    }

    /// Makes the lines of rows, with what is known of the columns, and why the first field of the optional metadata is refused that is. The
    /// result is whether no row is refused; else the text is of no use.
    pub(crate) fn write_rows(
        &mut self,
        head: &RowsHead<'_, '_>,
        facts: &TableFacts<'_>,
        rows: Rows<'_>,
    ) -> Result<bool, AllocError>
        ensures { IsBytes rows.entry.rest.now → IfOk result (λ all_read. WritesRows (head_in head.now facts.now.refusal) facts.now.columns.items rows.entry all_read self.new.text.items) }
    {
        rows_are_split();
        self.text.clear();
        let mut all_read = true;
        'rows: for row in rows {
            let is_read = self.write_item(head, facts, row)?;
            all_read = both(all_read, is_read);
        }
        Ok(all_read)
    }
}
