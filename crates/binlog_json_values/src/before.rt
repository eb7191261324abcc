//! The documents of the image before of a row.
ghost use Rattle.std.specs.Prelude.{◌≡◌, [], map, drop, true, false, option_map, option_copied, unwrap_or, IfOk, OnOk};
ghost use Rattle.binlog_images.specs.ColumnValues.{cell_of};
ghost use Rattle.binlog_images.specs.ImageCells.{cells_of};
ghost use Rattle.binlog_json_values.specs.Rows.{document_in, first_document, before_or_none};
ghost use Rattle.binlog_json_values.specs.Before.{cells_before};

use binlog_images::{ColumnValue, Image, Rows};
use binlog_values::Value;
use std::alloc::{AllocError, Global};

/// The bytes of the document of a column, if it has a whole value of type JSON.
#[tactic(auto, using(crate::proofs::DocumentsBefore::no_document))]
fn document_of<'a>(value: &ColumnValue<'a>) -> Option<&'a [u8]>
    ensures { option_copied result ≡ document_in (cell_of value.now) }
{
    match value {
        ColumnValue::Value(Value::Json(bytes)) => Some(bytes),
        _ => None,
    }
}

/// Goes to the next column of an image, if there is one, and gives its document.
pub(crate) fn next_document<'a>(image: &mut Option<Image<'a>>) -> Option<&'a [u8]>
    ensures document { option_copied result ≡ first_document (before_or_none (option_map cells_of image.old)) }
    ensures rest { before_or_none (option_map cells_of image.new) ≡ drop 1 (before_or_none (option_map cells_of image.old)) }
{
    let Some(cells) = image else {
        return None;
    };
    match cells.next() {
        Some(value) => document_of(&value),
        None => None,
    }
}

/// The image before of the first row that is left.
#[tactic(auto, using(crate::proofs::DocumentsBefore::none_before))]
fn image_before<'a>(rows: &Rows<'a>) -> Option<Image<'a>>
    ensures { before_or_none (option_map cells_of result) ≡ cells_before rows.now }
{
    let mut rest = *rows;
    match rest.next() {
        Some(Ok(row)) => row.before(),
        _ => None,
    }
}

/// Appends the document of each column of an image.
fn push_documents<'a>(
    documents: &mut Vec<Option<&'a [u8]>>,
    image: Image<'a>,
) -> Result<(), AllocError>
    requires { documents.old.items ≡ [] }
    ensures { OnOk result (map option_copied documents.new.items ≡ map document_in (cells_of image.entry)) }
{
    'columns: for value in image {
        documents.push(document_of(&value))?;
    }
    Ok(())
}

/// The documents of the columns of a row's image before. They are read when the first one is asked for, which a list of diffs does.
#[derive(Drop)]
pub(crate) struct DocumentsBefore<'a> {
    /// The rows of which the first is the row.
    rows: Rows<'a>,
    /// The document of each column, once they are read.
    documents: Vec<Option<&'a [u8]>>,
    are_read: bool,
    ghost read: { are_read ≡ true → map option_copied documents.items ≡ map document_in (cells_before rows) },
}

impl<'a> DocumentsBefore<'a> {
    ghost use Rattle.binlog_json_values.specs.RowWriting.{document_at};

    /// Those of the first of these rows. Nothing is allocated.
    pub(crate) fn new(alloc: Global, rows: &Rows<'a>) -> Self
        ensures { result.rows ≡ rows.now }
    {
        DocumentsBefore {
            rows: *rows,
            documents: Vec::new(alloc),
            are_read: false,
        }
    }

    /// Goes to the first of these rows. The memory is kept.
    pub(crate) fn begin(&mut self, rows: &Rows<'a>)
        ensures { self.new.rows ≡ rows.now }
    {
        self.are_read = false;
        self.rows = *rows;
    }

    /// Reads the documents.
    #[inline(never)]
    fn read(&mut self) -> Result<(), AllocError>
        requires { self.old.are_read ≡ false }
        ensures rows { self.new.rows ≡ self.old.rows }
        ensures read { OnOk result (self.new.are_read ≡ true) }
    {
        self.documents.clear();
        if let Some(image) = image_before(&self.rows) {
            push_documents(&mut self.documents, image)?;
        }
        self.are_read = true;
        Ok(())
    }

    /// The document of the column with this index, once they are read.
    fn known(&self, index: u64) -> Option<&'a [u8]>
        requires { self.now.are_read ≡ true }
        ensures { option_copied result ≡ document_at index (cells_before self.now.rows) }
    {
        match self.documents.get(index as usize) {
            Some(document) => *document,
            None => None,
        }
    }

    /// The document of the column with this index.
    pub(crate) fn document(&mut self, index: u64) -> Result<Option<&'a [u8]>, AllocError>
        ensures rows { self.new.rows ≡ self.old.rows }
        ensures document { IfOk result (λ found. option_copied found ≡ document_at index (cells_before self.old.rows)) }
    {
        if !self.are_read {
            self.read()?;
        }
        Ok(self.known(index))
    }
}
