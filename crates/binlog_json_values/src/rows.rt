//! Rows as JSON.
#![tactic(auto, using(std::proofs::Common::append_assoc))]

ghost use Rattle.std.specs.Prelude.{ℕ, ◌≡◌, ◌+◌, ◌<◌, ◌^◌, ◌++◌, ◌∷◌, [], List, map, drop, Option, option_map, option_copied, IfOk};
ghost use Rattle.std.specs.String.{string_bytes};
ghost use Rattle.json.specs.Token.{key};
ghost use Rattle.json_line.specs.Keys.{IsKey};
ghost use Rattle.json_line.specs.Lines.{IsPlainText};
ghost use Rattle.json_line.specs.Tokens.{Adds};
ghost use Rattle.binlog_wire.specs.Fields.{IsBytes};
ghost use Rattle.binlog_images.specs.ColumnValues.{cell_of};
ghost use Rattle.binlog_images.specs.ImageCells.{cells_of};
ghost use Rattle.binlog_images.specs.RowCells.{row_cells, answer_row};
ghost use Rattle.binlog_optional_metadata.specs.Facts.{facts_of};
ghost use Rattle.binlog_optional_metadata.specs.declared.column_facts.ColumnFacts.{ColumnFacts};
ghost use Rattle.binlog_json_values.specs.KeptColumns.{kept_facts};
ghost use Rattle.binlog_json_values.specs.Keys.{ArePrinted};
ghost use Rattle.binlog_values.specs.Values.{meaning_of, content_of};
ghost use Rattle.binlog_json_values.specs.Documents.{diff_list_parts};
ghost use Rattle.binlog_json_values.specs.Values.{value_parts};
ghost use Rattle.binlog_json_values.specs.Parts.{Writes, exactly};
ghost use Rattle.binlog_json_values.specs.Rows.{column_name, cell_parts, first_parts, image_parts, image_member, before_or_none, row_parts};
ghost use Rattle.binlog_json_values.specs.Written.{HasImages, ShowsRows, ShowsKeptRows};

use crate::before::next_document;
use crate::kept_columns::KeptColumns;
use crate::keys::write_name;
use crate::row_images::{RowImages, images_of};
use crate::row_writer::RowWriter;
use crate::values::ValueWriter;
use binlog_images::{ColumnValue, Image, Row, Rows};
use binlog_optional_metadata::ColumnFacts;
use binlog_values::Value;
use json_line::Line;
use std::alloc::AllocError;

impl ValueWriter {
    /// Writes the member of the column with this index, whose document before is given; nothing for one that is absent.
    pub(crate) fn write_cell(
        &mut self,
        line: &mut Line,
        facts: &ColumnFacts<'_>,
        index: u64,
        before: Option<&[u8]>,
        cell: &ColumnValue<'_>,
    ) -> Result<(), AllocError>
        requires { index + 1 < 2 ^ 64 }
        ensures { Writes result line.old line.new (cell_parts (facts_of facts.now) index (option_copied before.entry) (cell_of cell.now)) }
    {
        match cell {
            ColumnValue::Absent => Ok(()),
            ColumnValue::Null => {
                write_name(line, &mut self.names, facts, index)?;
                line.null()
            }
            ColumnValue::Value(value) => {
                write_name(line, &mut self.names, facts, index)?;
                self.write(line, facts, value)
            }
            ColumnValue::Diffs(bytes) => {
                write_name(line, &mut self.names, facts, index)?;
                self.write_diffs(line, before, bytes)
            }
        }
    }

    /// Writes the member of a value of a column whose name is printed.
    #[inline(always)]
    pub(crate) fn write_named_value(
        &mut self,
        line: &mut Line,
        printed: &Line,
        facts: &ColumnFacts<'_>,
        value: &Value<'_>,
    ) -> Result<(), AllocError>
        requires { IsKey printed.now }
        ensures { (name : List ℕ) → printed.now ≡ key name ∷ [] → Writes result line.old line.new (exactly (key name) ∷ value_parts (facts_of facts.now) (meaning_of value.now) (content_of value.now)) }
    {
        line.copied_key(printed)?;
        self.write(line, facts, value)
    }

    /// Writes the member of a list of diffs of a column whose name is printed, and whose document before is given.
    pub(crate) fn write_named_diffs(
        &mut self,
        line: &mut Line,
        printed: &Line,
        before: Option<&[u8]>,
        bytes: &[u8],
    ) -> Result<(), AllocError>
        requires { IsKey printed.now }
        ensures { (name : List ℕ) → printed.now ≡ key name ∷ [] → Writes result line.old line.new (exactly (key name) ∷ diff_list_parts (option_copied before.entry) bytes.now) }
    {
        line.copied_key(printed)?;
        self.write_diffs(line, before, bytes)
    }

    /// Writes the member of the next column of an image, whose document before is given, if one is left.
    fn write_next(
        &mut self,
        line: &mut Line,
        facts: &ColumnFacts<'_>,
        index: u64,
        before: Option<&[u8]>,
        image: &mut Image<'_>,
    ) -> Result<(), AllocError>
        requires { index + 1 < 2 ^ 64 }
        ensures written { Writes result line.old line.new (first_parts (facts_of facts.now) index (option_copied before.entry) (cells_of image.old)) }
        ensures rest { cells_of image.new ≡ drop 1 (cells_of image.old) }
    {
        match image.next() {
            Some(cell) => self.write_cell(line, facts, index, before, &cell),
            None => Ok(()),
        }
    }

    /// Writes an image of a table with these columns: an object with a member for each column that is present. `before` is the
    /// image before of the same row, if it has one: its documents are those that lists of diffs change.
    ///
    /// # Errors
    ///
    /// [`AllocError`] if an allocation fails. Some tokens may then have been written.
    pub fn write_image(
        &mut self,
        line: &mut Line,
        columns: &[ColumnFacts<'_>],
        before: Option<Image<'_>>,
        image: Image<'_>,
    ) -> Result<(), AllocError>
        ensures { Writes result line.old line.new (image_parts columns.now (before_or_none (option_map cells_of before.entry)) (cells_of image.entry)) }
    {
        let mut left = before;
        let mut cells = image;
        line.begin_object()?;
        for (index, facts) in columns.iter().enumerate() {
            let document = next_document(&mut left);
            self.write_next(line, facts, index as u64, document, &mut cells)?;
        }
        line.end_object()
    }

    /// Writes the member of an image that a row has; nothing if it hasn't.
    fn write_image_member(
        &mut self,
        line: &mut Line,
        name: &str,
        columns: &[ColumnFacts<'_>],
        before: Option<Image<'_>>,
        image: Option<Image<'_>>,
    ) -> Result<(), AllocError>
        requires { IsPlainText name.now }
        ensures { Writes result line.old line.new (image_member name.now columns.now (before_or_none (option_map cells_of before.entry)) (option_map cells_of image.entry)) }
    {
        match image {
            Some(image) => {
                line.key(name)?;
                self.write_image(line, columns, before, image)
            }
            None => Ok(()),
        }
    }

    /// Writes a row of a table with these columns: an object with its images, `before` and `after`.
    ///
    /// # Errors
    ///
    /// [`AllocError`] if an allocation fails. Some tokens may then have been written.
    pub fn write_row(
        &mut self,
        line: &mut Line,
        columns: &[ColumnFacts<'_>],
        row: &Row<'_>,
    ) -> Result<(), AllocError>
        ensures { Writes result line.old line.new (row_parts columns.now (row_cells row.now)) }
    {
        line.begin_object()?;
        let before = row.before();
        self.write_image_member(line, "before", columns, before, before)?;
        self.write_image_member(line, "after", columns, before, row.after())?;
        line.end_object()
    }

    /// Writes the rows that are left of an event of a table with these columns: an array of the rows, up to the last or
    /// to the first that is refused, for which there is an object that says why. The result is whether all are read.
    ///
    /// # Errors
    ///
    /// [`AllocError`] if an allocation fails. Some tokens may then have been written.
    pub fn write_rows(
        &mut self,
        line: &mut Line,
        columns: &[ColumnFacts<'_>],
        rows: Rows<'_>,
    ) -> Result<bool, AllocError>
        ensures { IsBytes rows.entry.rest.now → IfOk result (λ all_read. ShowsRows columns.now rows.entry all_read line.old line.new) }
    {
        self.keys.print(&mut self.names, columns)?;
        let keys = self.keys.take();
        let images = images_of(&rows);
        let written = self.write_named_rows(line, columns, &keys.lines, images, rows);
        self.keys = keys;
        written
    }

    /// Writes the same, of a table whose columns are kept, where it is known which images each row has.
    ///
    /// # Errors
    ///
    /// [`AllocError`] if an allocation fails. Some tokens may then have been written.
    pub fn write_kept_rows(
        &mut self,
        line: &mut Line,
        columns: &KeptColumns,
        images: RowImages,
        rows: Rows<'_>,
    ) -> Result<bool, AllocError>
        requires { HasImages images.before images.after rows }
        ensures by_any_facts { (facts : List ColumnFacts) → kept_facts columns.now ≡ map facts_of facts → IsBytes rows.entry.rest.now → IfOk result (λ all_read. ShowsRows facts rows.entry all_read line.old line.new) }
        ensures by_facts { IsBytes rows.entry.rest.now → IfOk result (λ all_read. ShowsKeptRows (kept_facts columns.now) rows.entry all_read line.old line.new) }
    {
        let facts = self.facts(columns)?;
        self.write_named_rows(line, &facts, &columns.keys.lines, images, rows)
    }

    /// Writes the same, of a table with these columns, whose names are printed.
    fn write_named_rows(
        &mut self,
        line: &mut Line,
        columns: &[ColumnFacts<'_>],
        keys: &[Line],
        images: RowImages,
        rows: Rows<'_>,
    ) -> Result<bool, AllocError>
        requires printed { ArePrinted columns.now keys.now }
        requires images { HasImages images.before images.after rows }
        ensures { IsBytes rows.entry.rest.now → IfOk result (λ all_read. ShowsRows columns.now rows.entry all_read line.old line.new) }
    {
        line.begin_array()?;
        let before = self.documents_before(&rows);
        let mut writer = RowWriter::new(self.take(), line.take(), columns, keys, images, before);
        let written = writer.write_rest(rows);
        let RowWriter {
            values,
            line: shown,
            ..
        } = writer;
        *self = values;
        *line = shown;
        let all_read = written?;
        line.end_array()?;
        Ok(all_read)
    }
}
