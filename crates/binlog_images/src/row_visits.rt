//! Visits of the columns of rows.
ghost use Rattle.std.specs.Prelude.{◌≡◌, ◌<◌, length, option_map, Some, Err, MatchResult, IfOk};
ghost use Rattle.binlog_images.specs.Answers.{IsPassed, Passes};
ghost use Rattle.binlog_images.specs.Fronts.{front_if, partial_front_if, after_front, row_front};
ghost use Rattle.binlog_images.specs.ImageShapes.{shape_of, IsJsonCount};
ghost use Rattle.binlog_images.specs.Images.{image_if_at, partial_if_at};
ghost use Rattle.binlog_images.specs.Splits.{row_at, first_row, after_at};
ghost use Rattle.binlog_images.specs.Visits.{VisitsImage, VisitsImages, VisitsRow};
ghost use Rattle.binlog_images.specs.declared.rows_error.ImageKind.TheVariants.{After};

use crate::image_columns::ImageColumns;
use crate::rows::Rows;
use crate::rows_error::{ImageKind, RowsError};
use crate::visiting::{visit_image, visit_partial_image};
use crate::visitor::ColumnVisitor;
use binlog_wire::ParseBuf;

/// Takes an image from the start of `buf`, if the event has it, and shows its columns to the visitor.
#[tactic(auto, using(crate::proofs::Visited::image_if_passed, crate::proofs::Visited::no_image_passed))]
#[inline(always)]
fn visit_image_if<T: ColumnVisitor>(
    row: u64,
    kind: ImageKind,
    of: &Option<ImageColumns<'_>>,
    buf: &mut ParseBuf<'_>,
    visitor: &mut T,
) -> Result<(), RowsError>
    ensures leaves { Passes buf.new result (image_if_at row kind (option_map shape_of of.now) buf.old) }
    ensures visits { VisitsImage T.visits kind (front_if (option_map shape_of of.now) buf.old) visitor.old visitor.new }
{
    let Some(of) = of else {
        return Ok(());
    };
    match visit_image(kind, None, of, buf, visitor) {
        Ok(()) => Ok(()),
        Err(error) => Err(error.in_row(row, kind)),
    }
}

/// Takes the image after of a partial update from the start of `buf`, if the event has it, and shows its columns to the
/// visitor.
#[tactic(auto, using(crate::proofs::Visited::partial_if_passed, crate::proofs::Visited::no_partial_passed))]
fn visit_partial_if<T: ColumnVisitor>(
    row: u64,
    of: &Option<ImageColumns<'_>>,
    json_columns: u64,
    buf: &mut ParseBuf<'_>,
    visitor: &mut T,
) -> Result<(), RowsError>
    requires { IsJsonCount (Some json_columns) of.now }
    ensures leaves { Passes buf.new result (partial_if_at row After (option_map shape_of of.now) buf.old) }
    ensures visits { VisitsImage T.visits After (partial_front_if (option_map shape_of of.now) buf.old) visitor.old visitor.new }
{
    let Some(of) = of else {
        return Ok(());
    };
    match visit_partial_image(of, json_columns, buf, visitor) {
        Ok(()) => Ok(()),
        Err(error) => Err(error.in_row(row, ImageKind::After)),
    }
}

impl<'a> Rows<'a> {
    ghost use Rattle.binlog_images.specs.RowsLeft.{row_shape};

    /// Shows the columns of the next row to the visitor, in order: those of the image before, and then those of the image
    /// after, absent ones too. It goes over the row's bytes once, where a [`Row`](crate::Row) that is given and then read
    /// goes over them twice. None if no row is left; the visitor is unchanged then.
    ///
    /// # Errors
    ///
    /// Those of the iteration: the first fault of the row. The columns in front of it have been shown, and no row is left
    /// then.
    #[inline(always)]
    pub fn visit_next<T: ColumnVisitor>(&mut self, visitor: &mut T) -> Option<Result<(), RowsError>>
        ensures { VisitsRow T.visits self.old visitor.old result self.new visitor.new }
    {
        if self.rest.is_empty() {
            return None;
        }
        match self.visit_first(visitor) {
            Ok(rest) => {
                self.rest = rest;
                self.row += 1;
                Some(Ok(()))
            }
            Err(error) => {
                self.rest = &[];
                Some(Err(error))
            }
        }
    }

    /// Shows the columns of the first row that is left to the visitor, and returns the bytes after it.
    #[tactic(auto, using(crate::proofs::Taking::row_taken, crate::proofs::Taking::row_left_over, crate::proofs::Taking::row_refused))]
    #[inline(always)]
    fn visit_first<T: ColumnVisitor>(&self, visitor: &mut T) -> Result<&'a [u8], RowsError>
        ensures leaves { MatchResult result
            (λ rest. IsPassed rest.now (first_row self.now.row (row_shape self.now) self.now.rest.now))
            (λ error. first_row self.now.row (row_shape self.now) self.now.rest.now ≡ Err error) }
        ensures shorter { IfOk result (λ rest. length rest.now < length self.now.rest.now) }
        ensures visits { VisitsImages T.visits (row_front self.now.row (row_shape self.now) self.now.rest.now) visitor.old visitor.new }
    {
        let mut buf = ParseBuf(self.rest);
        self.visit_row(&mut buf, visitor)?;
        if buf.0.len() < self.rest.len() {
            Ok(buf.0)
        } else {
            Err(self.left_over())
        }
    }

    /// Takes a row from the start of `buf`, and shows its columns to the visitor.
    #[tactic(auto, using(crate::proofs::Visited::before_refused, crate::proofs::Visited::both_visited, crate::proofs::Visited::row_passed, crate::proofs::Visited::before_stops))]
    #[inline(always)]
    fn visit_row<T: ColumnVisitor>(
        &self,
        buf: &mut ParseBuf<'a>,
        visitor: &mut T,
    ) -> Result<(), RowsError>
        ensures leaves { Passes buf.new result (row_at self.now.row (row_shape self.now) buf.old) }
        ensures visits { VisitsImages T.visits (row_front self.now.row (row_shape self.now) buf.old) visitor.old visitor.new }
    {
        visit_image_if(self.row, ImageKind::Before, &self.before, buf, visitor)?;
        self.visit_after(buf, visitor)
    }

    /// Takes the image after from the start of `buf`, if the event has it, and shows its columns to the visitor.
    #[tactic(auto, using(crate::proofs::Visited::whole_passed, crate::proofs::Visited::partial_passed, crate::proofs::Visited::whole_front, crate::proofs::Visited::partial_shown))]
    #[inline(always)]
    fn visit_after<T: ColumnVisitor>(
        &self,
        buf: &mut ParseBuf<'_>,
        visitor: &mut T,
    ) -> Result<(), RowsError>
        ensures leaves { Passes buf.new result (after_at self.now.row (row_shape self.now) buf.old) }
        ensures visits { VisitsImage T.visits After (after_front (row_shape self.now) buf.old) visitor.old visitor.new }
    {
        match self.json_columns {
            None => visit_image_if(self.row, ImageKind::After, &self.after, buf, visitor),
            Some(count) => visit_partial_if(self.row, &self.after, count, buf, visitor),
        }
    }
}
