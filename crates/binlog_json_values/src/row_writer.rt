//! Rows as JSON, written as they are read.
ghost use Rattle.std.specs.Prelude.{◌≡◌, ◌∷◌, [], ℕ, List, ◌||◌, drop, IfOk, OnOk};
ghost use Rattle.json.specs.Token.{key, null};
ghost use Rattle.json_line.specs.Keys.{IsKey};
ghost use Rattle.json_line.specs.Tokens.{Adds};
ghost use Rattle.binlog_images.specs.ColumnValues.{cell_of};
ghost use Rattle.binlog_wire.specs.Fields.{IsBytes};
ghost use Rattle.binlog_json_values.specs.Brackets.{closing, row_begins, after_begins, after_if, row_ends, begins_after};
ghost use Rattle.binlog_json_values.specs.Keys.{ArePrinted};
ghost use Rattle.binlog_json_values.specs.Documents.{diff_list_parts};
ghost use Rattle.binlog_json_values.specs.Parts.{exactly, Writes};
ghost use Rattle.binlog_json_values.specs.Written.{HasImages};

use crate::before::DocumentsBefore;
use crate::refusals::write_refusal;
use crate::row_images::RowImages;
use crate::values::ValueWriter;
use binlog_images::{ColumnValue, ColumnVisitor, ImageKind, Rows};
use binlog_optional_metadata::ColumnFacts;
use json_line::Line;
use std::alloc::AllocError;

/// Ends an object, if wanted.
fn end_if(line: &mut Line, wanted: bool) -> Result<(), AllocError>
    ensures { Adds result line.old line.new (closing wanted) }
{
    if wanted { line.end_object() } else { Ok(()) }
}

/// Begins a row, and its image before if it has one.
fn begin_row(line: &mut Line, has_before: bool) -> Result<(), AllocError>
    ensures { Adds result line.old line.new (row_begins has_before) }
{
    if !has_before {
        return line.begin_object();
    }
    line.begin_object()?;
    line.key("before")?;
    line.begin_object()
}

/// Ends the image before, if the row has one, and begins the image after.
fn begin_after(line: &mut Line, has_before: bool) -> Result<(), AllocError>
    ensures { Adds result line.old line.new (after_begins has_before) }
{
    end_if(line, has_before)?;
    line.key("after")?;
    line.begin_object()
}

/// The same, if wanted.
fn begin_after_if(line: &mut Line, wanted: bool, has_before: bool) -> Result<(), AllocError>
    ensures { Adds result line.old line.new (after_if wanted has_before) }
{
    if wanted {
        begin_after(line, has_before)
    } else {
        Ok(())
    }
}

/// Ends a row that has these images. `after_begun` says whether its image after is begun: it isn't if it has no columns.
fn end_row(
    line: &mut Line,
    has_before: bool,
    has_after: bool,
    after_begun: bool,
) -> Result<(), AllocError>
    ensures { Adds result line.old line.new (row_ends has_before has_after after_begun) }
{
    begin_after_if(line, has_after && !after_begun, has_before)?;
    end_if(line, has_before || has_after)?;
    line.end_object()
}

/// Whether this column is the first of the image after.
fn begins_after(image: ImageKind, index: u64) -> bool
    ensures { result ≡ begins_after image index }
{
    match image {
        ImageKind::Before => false,
        ImageKind::After => index == 0,
    }
}

/// Writes the member of a column whose name is printed and which is NULL.
fn write_null(line: &mut Line, printed: &Line) -> Result<(), AllocError>
    requires { IsKey printed.now }
    ensures { (name : List ℕ) → printed.now ≡ key name ∷ [] → Writes result line.old line.new (exactly (key name) ∷ exactly null ∷ []) }
{
    line.copied_key(printed)?;
    line.null()
}

/// Writes rows: it is shown their columns, and writes each as it is read.
#[derive(Drop)]
pub(crate) struct RowWriter<'a, 'b, 'c> {
    pub(crate) values: ValueWriter,
    pub(crate) line: Line,
    columns: &'a [ColumnFacts<'b>],
    /// The names of the columns, printed.
    keys: &'a [Line],
    /// The documents of the row's image before.
    before: DocumentsBefore<'c>,
    /// Whether each row has an image before.
    has_before: bool,
    /// Whether each row has an image after.
    has_after: bool,
    /// Whether the image after of the row is begun.
    after_begun: bool,
    /// Whether an allocation failed.
    failed: bool,
    ghost printed: { ArePrinted columns.now keys.now },
}

impl<'a, 'b, 'c> RowWriter<'a, 'b, 'c> {
    ghost use Rattle.binlog_json_values.specs.RowWriting.{Keeps, first_member, row_before, document_at, WroteColumn, WritesNext, WritesRest};

    /// A writer of these rows, of a table with these columns, at the end of the line.
    pub(crate) fn new(
        values: ValueWriter,
        line: Line,
        columns: &'a [ColumnFacts<'b>],
        keys: &'a [Line],
        images: RowImages,
        before: DocumentsBefore<'c>,
    ) -> Self
        requires { ArePrinted columns.now keys.now }
        ensures line { result.line ≡ line }
        ensures columns { result.columns.now ≡ columns.now }
        ensures before { result.has_before ≡ images.before }
        ensures after { result.has_after ≡ images.after }
    {
        RowWriter {
            values,
            line,
            columns,
            keys,
            before,
            has_before: images.before,
            has_after: images.after,
            after_begun: false,
            failed: false,
        }
    }

    /// Begins the image after, if this column is its first.
    #[inline(always)]
    fn begin_image(&mut self, image: ImageKind, index: u64) -> Result<(), AllocError>
        ensures kept { Keeps self.old self.new }
        ensures row { self.new.before.rows ≡ self.old.before.rows }
        ensures failed { self.new.failed ≡ self.old.failed }
        ensures begun { OnOk result (self.new.after_begun ≡ begins_after image index || self.old.after_begun) }
        ensures added { Adds result self.old.line self.new.line (after_if (begins_after image index) self.old.has_before) }
    {
        if !begins_after(image, index) {
            return Ok(());
        }
        begin_after(&mut self.line, self.has_before)?;
        self.after_begun = true;
        Ok(())
    }

    /// Writes the member of the column with this index, whose name is printed and whose value is a list of diffs.
    #[inline(never)]
    fn write_diffs(&mut self, index: u64, printed: &Line, bytes: &[u8]) -> Result<(), AllocError>
        requires { IsKey printed.now }
        ensures kept { Keeps self.old self.new }
        ensures row { self.new.before.rows ≡ self.old.before.rows }
        ensures failed { self.new.failed ≡ self.old.failed }
        ensures begun { self.new.after_begun ≡ self.old.after_begun }
        ensures written { (name : List ℕ) → printed.now ≡ key name ∷ [] → Writes result self.old.line self.new.line (exactly (key name) ∷ diff_list_parts (document_at index (row_before self.old)) bytes.now) }
    {
        let before = self.before.document(index)?;
        self.values
            .write_named_diffs(&mut self.line, printed, before, bytes)
    }

    /// Writes the member of the column with this index; nothing if it is beyond the table's columns.
    #[inline(always)]
    fn write_member(&mut self, index: u64, value: &ColumnValue<'_>) -> Result<(), AllocError>
        ensures kept { Keeps self.old self.new }
        ensures row { self.new.before.rows ≡ self.old.before.rows }
        ensures failed { self.new.failed ≡ self.old.failed }
        ensures begun { self.new.after_begun ≡ self.old.after_begun }
        ensures written { Writes result self.old.line self.new.line (first_member index (drop index self.old.columns.now) (document_at index (row_before self.old)) (cell_of value.now)) }
    {
        let (columns, keys) = (self.columns, self.keys);
        let Some(facts) = columns.get(index as usize) else {
            return Ok(());
        };
        let printed = &keys[index as usize];
        match value {
            ColumnValue::Absent => Ok(()),
            ColumnValue::Null => write_null(&mut self.line, printed),
            ColumnValue::Value(value) => {
                self.values
                    .write_named_value(&mut self.line, printed, facts, value)
            }
            ColumnValue::Diffs(bytes) => self.write_diffs(index, printed, bytes),
        }
    }

    /// Writes the member of the column with this index of an image, behind the beginning of an image after if it is its first.
    #[inline(always)]
    fn write_column(
        &mut self,
        image: ImageKind,
        index: u64,
        value: &ColumnValue<'_>,
    ) -> Result<(), AllocError>
        ensures kept { Keeps self.old self.new }
        ensures row { self.new.before.rows ≡ self.old.before.rows }
        ensures failed { self.new.failed ≡ self.old.failed }
        ensures written { OnOk result (WroteColumn self.old image index (cell_of value.now) self.new) }
    {
        self.begin_image(image, index)?;
        self.write_member(index, value)
    }

    /// Writes the next row that is left, or why it is refused; the result is whether it is read. None if no row is left.
    fn write_next(&mut self, rows: &mut Rows<'c>) -> Result<Option<bool>, AllocError>
        requires { HasImages self.old.has_before self.old.has_after rows.old }
        ensures kept { Keeps self.old self.new }
        ensures written { IfOk result (λ read. WritesNext self.old.columns.now rows.old self.old.line read rows.new self.new.line) }
    {
        let start = self.line.mark();
        begin_row(&mut self.line, self.has_before)?;
        self.after_begun = false;
        self.before.begin(rows);
        let Some(visited) = rows.visit_next(self) else {
            self.line.cut(start);
            return Ok(None);
        };
        if self.failed {
            return Err(AllocError);
        }
        match visited {
            Ok(()) => {
                end_row(
                    &mut self.line,
                    self.has_before,
                    self.has_after,
                    self.after_begun,
                )?;
                Ok(Some(true))
            }
            Err(error) => {
                self.line.cut(start);
                write_refusal(&mut self.line, &error)?;
                Ok(Some(false))
            }
        }
    }

    /// Writes the rows that are left, up to the last or to the first that is refused. The result is whether all are read.
    pub(crate) fn write_rest(&mut self, rows: Rows<'c>) -> Result<bool, AllocError>
        requires { HasImages self.old.has_before self.old.has_after rows }
        ensures { IsBytes rows.entry.rest.now → IfOk result (λ all_read. WritesRest self.old.columns.now rows.entry all_read self.old.line self.new.line) }
    {
        let mut rest = rows;
        'rows: while let Some(is_read) = self.write_next(&mut rest)? {
            if !is_read {
                return Ok(false);
            }
        }
        Ok(true)
    }
}

/// Writes the column, unless an allocation failed before.
impl ColumnVisitor for RowWriter<'_, '_, '_> {
    ghost use Rattle.binlog_json_values.specs.RowWriting.{ShowsColumn};

    ghost visits = { ShowsColumn };

    #[inline(always)]
    fn visit_column(&mut self, image: ImageKind, index: u64, value: ColumnValue<'_>) {
        if self.failed {
            return;
        }
        if self.write_column(image, index, &value).is_err() {
            self.failed = true;
        }
    }
}
