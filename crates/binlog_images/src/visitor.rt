//! What is done with each column of a row.
ghost use Rattle.binlog_images.specs.ColumnValues.{cell_of};
ghost use Rattle.binlog_images.specs.Visits.{VisitRelation};

use crate::column_value::ColumnValue;
use crate::rows_error::ImageKind;

/// Is shown the columns of rows, in order, by [`Rows::visit_next`](crate::Rows::visit_next).
pub trait ColumnVisitor {
    /// What a visit of the column with this index of an image makes of the visitor.
    ghost visits: { VisitRelation Self };

    /// Visits the column with this index, counted from 0, of this image of a row.
    fn visit_column(&mut self, image: ImageKind, index: u64, value: ColumnValue<'_>)
        ensures { visits self.old image index (cell_of value.entry) self.new };
}

/// Does nothing with any column.
#[derive(Drop)]
pub(crate) struct SkippingVisitor;

impl ColumnVisitor for SkippingVisitor {
    ghost use Rattle.binlog_images.specs.Visits.{Skips};

    ghost visits = { Skips };

    #[inline(always)]
    fn visit_column(&mut self, _image: ImageKind, _index: u64, _value: ColumnValue<'_>) {}
}
