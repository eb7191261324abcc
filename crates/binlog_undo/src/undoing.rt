//! How the rows of an event are undone.
ghost use Rattle.std.specs.Prelude.{◌≡◌, false, IfSome};
ghost use Rattle.binlog_images.specs.RowsLeft.{row_shape};
ghost use Rattle.binlog_wire.specs.Fields.{IsBytes};
ghost use Rattle.binlog_undo.specs.FullImages.{rows_shape};
ghost use Rattle.binlog_undo.specs.Outcomes.{undone_by, Fits, PrependsRow, GivesUndoing};
ghost use Rattle.binlog_undo.specs.Undoing.{IsExchangedBy};
ghost use Rattle.binlog_undo.specs.declared.undoing.Undoing.TheVariants.{Complete};

use crate::backward::Backward;
use crate::completion::completed;
use crate::full_rows::FullRows;
use crate::image_pair::ImagePair;
use crate::undo_error::UndoError;
use binlog_images::{Rows, StoredRow, read_stored_columns};
use std::alloc::Global;

/// How the rows of an event are undone.
#[derive(Clone, Copy, Debug)]
pub(crate) enum Undoing<'a> {
    /// The images of each row are exchanged.
    Exchange,
    /// The image before becomes the image after, and the image after is completed from it: both images have its columns.
    Complete(ImagePair<'a>),
}

impl<'a> ImagePair<'a> {
    /// Puts the bytes in front of others that undo this row.
    #[tactic(auto, using(crate::proofs::Prepending::completed_prepended))]
    fn prepend(
        &self,
        alloc: Global,
        row: &StoredRow<'_>,
        bytes: &mut Backward,
    ) -> Result<(), UndoError>
        ensures { PrependsRow (Complete self.now) row.now bytes.old.made bytes.new.made result }
    {
        let Some(before) = read_stored_columns(alloc, self.columns, self.before, row.before_data())?
        else {
            return Err(UndoError::Image);
        };
        let Some(after) = read_stored_columns(alloc, self.columns, self.after, row.after_data())?
        else {
            return Err(UndoError::Image);
        };
        let image = completed(alloc, before.as_slice(), after.as_slice())?;
        bytes.prepend(alloc, row.before_data())?;
        image.prepend_to(alloc, bytes)?;
        Ok(())
    }
}

impl<'a> Undoing<'a> {
    /// Puts the bytes in front of others that undo this row.
    #[tactic(auto, using(crate::proofs::Prepending::exchanged_prepended))]
    fn prepend(
        &self,
        alloc: Global,
        row: &StoredRow<'_>,
        bytes: &mut Backward,
    ) -> Result<(), UndoError>
        ensures { PrependsRow self.now row.now bytes.old.made bytes.new.made result }
    {
        match self {
            Undoing::Exchange => {
                bytes.prepend(alloc, row.before_data())?;
                bytes.prepend(alloc, row.after_data())?;
                Ok(())
            }
            Undoing::Complete(images) => images.prepend(alloc, row, bytes),
        }
    }

    /// The bytes that undo the rows that are left, the last row first.
    ///
    /// # Errors
    ///
    /// - [`UndoError::Rows`] with the first fault of a row.
    /// - [`UndoError::Memory`] if memory is refused.
    #[tactic(auto, using(crate::proofs::Loop::nothing_yet, crate::proofs::Loop::one_more, crate::proofs::Loop::all_undone, crate::proofs::Loop::row_refused, crate::proofs::Loop::never_unreadable))]
    pub(crate) fn undo(&self, alloc: Global, rows: Rows<'_>) -> Result<Vec<u8>, UndoError>
        requires { Fits self.now (row_shape rows) }
        ensures { IsBytes rows.entry.rest.now → GivesUndoing (undone_by self.now) rows.entry result }
    {
        let mut left = rows;
        let mut bytes = Backward::with_room(alloc, rows.rest_data().len())?;
        'rows: while let Some(row) = left.next_stored() {
            match row {
                Ok(row) => {
                    if let Err(error) = self.prepend(alloc, &row, &mut bytes) {
                        return Err(error);
                    }
                }
                Err(error) => return Err(UndoError::Rows(error)),
            }
        }
        Ok(bytes.into_bytes(alloc)?)
    }

    /// The same of rows that have these images if they are full. Images that are exchanged are found faster so.
    ///
    /// # Errors
    ///
    /// Those of [`Undoing::undo`].
    #[tactic(auto, using(crate::proofs::Loop::whole_if, crate::proofs::Loop::exchanged_as))]
    pub(crate) fn undo_full(
        &self,
        alloc: Global,
        full: &Option<FullRows<'_>>,
        rows: Rows<'_>,
    ) -> Result<Vec<u8>, UndoError>
        requires fits { Fits self.now (row_shape rows) }
        requires shape { IfSome full.now (λ full. rows_shape full ≡ (row_shape rows).images) }
        ensures { IsBytes rows.entry.rest.now → GivesUndoing (undone_by self.now) rows.entry result }
    {
        let Some(full) = full else {
            return self.undo(alloc, rows);
        };
        match self {
            Undoing::Exchange => full.exchange(alloc, rows),
            Undoing::Complete(_) => self.undo(alloc, rows),
        }
    }
}

impl<'a> FullRows<'a> {
    /// The bytes with the images of each row exchanged, the last row first.
    ///
    /// # Errors
    ///
    /// Those of [`Undoing::undo`].
    fn exchange(&self, alloc: Global, rows: Rows<'_>) -> Result<Vec<u8>, UndoError>
        requires whole { (row_shape rows).is_partial ≡ false }
        requires shape { rows_shape self.now ≡ (row_shape rows).images }
        ensures { IsBytes rows.entry.rest.now → GivesUndoing IsExchangedBy rows.entry result }
    {
        let found = self.exchanged(alloc, rows.rest_data())?;
        match found {
            Some(bytes) => Ok(bytes),
            // A row is refused, and why is found by its values.
            None => Undoing::Exchange.undo(alloc, rows),
        }
    }
}
