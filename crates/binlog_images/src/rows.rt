//! The rows of a row event.
ghost use Rattle.std.specs.Prelude.{◌≡◌, ◌+◌, ◌<◌, ◌^◌, length, option_map, is_some, Some, IfOk};
ghost use Rattle.std.proofs.Props.{props};
ghost use Rattle.binlog_columns.specs.TableColumns.{columns_of};
ghost use Rattle.binlog_rows.specs.Images.{bitmap_of};
ghost use Rattle.binlog_images.specs.Answers.{Takes};
ghost use Rattle.binlog_images.specs.Events.{HasBitEach};
ghost use Rattle.binlog_images.specs.ImageShapes.{shape_of, IsJsonCount};
ghost use Rattle.binlog_images.specs.declared.rows_error.ImageKind.TheVariants.{After};
ghost use Rattle.binlog_images.specs.Images.{image_if_at, partial_if_at};
ghost use Rattle.binlog_images.specs.ImageCells.{answer_image};
ghost use Rattle.binlog_images.specs.Splits.{row_at, first_row, after_at, left_over};
ghost use Rattle.binlog_images.specs.RowCells.{answer_row, answer_first};

use crate::image::Image;
use crate::image_columns::ImageColumns;
use crate::row::Row;
use crate::rows_error::{ImageKind, RowsError, RowsErrorKind};
use binlog_columns::TableColumns;
use binlog_rows::RowsEvent;
use binlog_wire::{BitView, ParseBuf};

/// The rows of a row event: an iterator over them, up to the event's end or to the first row that is refused. After
/// that it gives None. It borrows the bytes of the event and of the table map, and takes no memory.
#[derive(Clone, Copy, Debug)]
pub struct Rows<'a> {
    pub(crate) before: Option<ImageColumns<'a>>,
    pub(crate) after: Option<ImageColumns<'a>>,
    /// How many of the table's columns are of type JSON, if the rows are partial updates.
    pub(crate) json_columns: Option<u64>,
    /// The bytes of the rows that are left.
    pub(crate) rest: &'a [u8],
    /// The index of the next row, counted from 0.
    pub(crate) row: u64,
    ghost json_counted: { IsJsonCount json_columns after } by { Prim.hlevel props },
    ghost counted: { row + length rest.now < 2 ^ 64 },
}

/// The columns of an image, if the event has it.
fn image_columns<'a>(
    columns: TableColumns<'a>,
    present: Option<BitView<'a>>,
) -> Option<ImageColumns<'a>>
    requires { HasBitEach (columns_of columns) (option_map bitmap_of present) }
    ensures { option_map shape_of result ≡ option_map (λ bits. (columns_of columns.entry, bitmap_of bits)) present.entry }
{
    match present {
        Some(present) => Some(ImageColumns::new(columns, present)),
        None => None,
    }
}

/// How many of the table's columns are of type JSON, if the rows are partial updates.
fn json_columns(is_partial: bool, after: &Option<ImageColumns<'_>>) -> Option<u64>
    ensures partial { is_some result ≡ is_partial }
    ensures count { IsJsonCount result after.now }
{
    if !is_partial {
        return None;
    }
    match after {
        Some(of) => Some(of.json_count()),
        None => Some(0),
    }
}

/// Takes an image from the start of `buf`, if the event has it.
pub(crate) fn read_image<'a>(
    row: u64,
    kind: ImageKind,
    of: &Option<ImageColumns<'a>>,
    buf: &mut ParseBuf<'a>,
) -> Result<Option<Image<'a>>, RowsError>
    ensures { Takes buf.new (answer_image result) (image_if_at row kind (option_map shape_of of.now) buf.old) }
{
    let Some(of) = of else {
        return Ok(None);
    };
    match Image::read(of, buf) {
        Ok(image) => Ok(Some(image)),
        Err(error) => Err(error.in_row(row, kind)),
    }
}

/// Takes the image after of a partial update from the start of `buf`, if the event has it.
fn read_partial_image<'a>(
    row: u64,
    of: &Option<ImageColumns<'a>>,
    json_columns: u64,
    buf: &mut ParseBuf<'a>,
) -> Result<Option<Image<'a>>, RowsError>
    requires { IsJsonCount (Some json_columns) of.now }
    ensures { Takes buf.new (answer_image result) (partial_if_at row After (option_map shape_of of.now) buf.old) }
{
    let Some(of) = of else {
        return Ok(None);
    };
    match Image::read_partial(of, json_columns, buf) {
        Ok(image) => Ok(Some(image)),
        Err(error) => Err(error.in_row(row, ImageKind::After)),
    }
}

impl<'a> Rows<'a> {
    ghost use Rattle.binlog_images.specs.RowsLeft.{row_shape};
    ghost use Rattle.binlog_images.specs.Events.{event_shape};
    ghost use Rattle.binlog_images.specs.Cells.{shape_as};

    /// The rows of this event, whose table has these columns, and which holds partial updates or doesn't.
    pub(crate) fn new(columns: TableColumns<'a>, event: &'a RowsEvent<'_>, is_partial: bool) -> Self
        requires before { HasBitEach (columns_of columns) event.now.columns.before }
        requires after { HasBitEach (columns_of columns) event.now.columns.after }
        ensures shape { row_shape result ≡ shape_as is_partial (event_shape (columns_of columns.entry) event.now) }
        ensures bytes { result.rest.now ≡ event.now.rows }
        ensures first { result.row ≡ 0 }
    {
        let after = image_columns(columns, event.columns_after_image());
        Rows {
            before: image_columns(columns, event.columns_before_image()),
            after,
            json_columns: json_columns(is_partial, &after),
            rest: event.rows_data(),
            row: 0,
        }
    }

    /// Takes a row from the start of `buf`.
    fn read_row(&self, buf: &mut ParseBuf<'a>) -> Result<Row<'a>, RowsError>
        ensures { Takes buf.new (answer_row result) (row_at self.now.row (row_shape self.now) buf.old) }
    {
        let before = read_image(self.row, ImageKind::Before, &self.before, buf)?;
        let after = self.read_after(buf)?;
        Ok(Row { before, after })
    }

    /// Takes the image after from the start of `buf`, if the event has it.
    #[tactic(auto, using(crate::proofs::Taking::whole_after, crate::proofs::Taking::partial_after))]
    pub(crate) fn read_after(&self, buf: &mut ParseBuf<'a>) -> Result<Option<Image<'a>>, RowsError>
        ensures { Takes buf.new (answer_image result) (after_at self.now.row (row_shape self.now) buf.old) }
    {
        match self.json_columns {
            None => read_image(self.row, ImageKind::After, &self.after, buf),
            Some(count) => read_partial_image(self.row, &self.after, count, buf),
        }
    }

    /// The first row that is left, and the bytes after it.
    #[tactic(auto, using(crate::proofs::Taking::row_taken, crate::proofs::Taking::row_left_over, crate::proofs::Taking::row_refused))]
    fn first(&self) -> Result<(Row<'a>, &'a [u8]), RowsError>
        ensures first { answer_first result ≡ first_row self.now.row (row_shape self.now) self.now.rest.now }
        ensures shorter { IfOk result (λ x. length x.1.now < length self.now.rest.now) }
    {
        let mut buf = ParseBuf(self.rest);
        let row = self.read_row(&mut buf)?;
        if buf.0.len() < self.rest.len() {
            Ok((row, buf.0))
        } else {
            Err(self.left_over())
        }
    }

    /// The refusal of bytes that no row can take.
    pub(crate) fn left_over(&self) -> RowsError
        ensures { result ≡ left_over self.now.row }
    {
        RowsError {
            kind: RowsErrorKind::LeftOver,
            row: self.row,
            image: None,
            column: None,
        }
    }
}

/// The rows that are left, in order.
impl<'a> Iterator for Rows<'a> {
    type Item = Result<Row<'a>, RowsError>;

    ghost use Rattle.std.specs.Iterator.{at_most};
    ghost use Rattle.binlog_images.specs.RowsLeft.{GivesRow};

    ghost next_gives = { GivesRow };

    ghost remaining = { λ rows. at_most (length rows.rest.now) };

    fn next(&mut self) -> Option<Result<Row<'a>, RowsError>> {
        if self.rest.is_empty() {
            return None;
        }
        match self.first() {
            Ok((row, rest)) => {
                self.rest = rest;
                self.row += 1;
                Some(Ok(row))
            }
            Err(error) => {
                self.rest = &[];
                Some(Err(error))
            }
        }
    }
}
