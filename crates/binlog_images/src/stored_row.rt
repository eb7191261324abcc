//! Rows as the bytes of their images.
ghost use Rattle.std.specs.Prelude.{◌≡◌, MatchResult};
ghost use Rattle.binlog_images.specs.RowsLeft.{row_shape};
ghost use Rattle.binlog_images.specs.Splits.{first_row};
ghost use Rattle.binlog_images.specs.StoredColumns.{front};
ghost use Rattle.binlog_images.specs.StoredRows.{IsStored, GivesStored};

use crate::row::Row;
use crate::rows::{Rows, read_image};
use crate::rows_error::{ImageKind, RowsError};
use binlog_wire::ParseBuf;

/// A row, and the bytes of its images: those of the image before, and behind them those of the image after. It borrows the
/// bytes of the event, and takes no memory.
#[derive(Clone, Copy, Debug)]
pub struct StoredRow<'a> {
    row: Row<'a>,
    before: &'a [u8],
    after: &'a [u8],
}

impl<'a> StoredRow<'a> {
    /// The row.
    pub fn row(&self) -> Row<'a>
        ensures { result ≡ self.now.row }
    {
        self.row
    }

    /// The bytes of the image before: its null bitmap and its values. None are there if the row has no such image.
    pub fn before_data(&self) -> &'a [u8]
        ensures { result.now ≡ self.now.before.now }
    {
        self.before
    }

    /// The bytes of the image after: its null bitmap and its values, and in front of them the value options and the diff bits
    /// of a partial update. None are there if the row has no such image.
    pub fn after_data(&self) -> &'a [u8]
        ensures { result.now ≡ self.now.after.now }
    {
        self.after
    }
}

/// The bytes in front of the last ones.
pub(crate) fn front<'a>(bytes: &'a [u8], rest: &[u8]) -> &'a [u8]
    ensures { result.now ≡ front bytes.entry.now rest.now }
{
    &bytes[..bytes.len().saturating_sub(rest.len())]
}

impl<'a> Rows<'a> {
    /// The bytes of the rows that are left.
    pub fn rest_data(&self) -> &'a [u8]
        ensures { result.now ≡ self.now.rest.now }
    {
        self.rest
    }

    /// Takes the next row, with the bytes of its images. None if no row is left.
    ///
    /// # Errors
    ///
    /// Those of the iteration: the first fault of the row. No row is left then.
    pub fn next_stored(&mut self) -> Option<Result<StoredRow<'a>, RowsError>>
        ensures { GivesStored self.old result self.new }
    {
        if self.rest.is_empty() {
            return None;
        }
        match self.first_stored(self.rest) {
            Ok((row, rest)) => {
                self.rest = rest;
                self.row += 1;
                Some(Ok(row))
            }
            Err(error) => {
                self.rest = &[];
                Some(Err(error))
            }
        }
    }

    /// The first row of these bytes, and the bytes after it.
    #[tactic(auto, using(crate::proofs::Stored::stored_left_over, crate::proofs::Stored::before_refused, crate::proofs::Stored::after_refused))]
    fn first_stored(&self, bytes: &'a [u8]) -> Result<(StoredRow<'a>, &'a [u8]), RowsError>
        ensures { MatchResult result
            (λ x. IsStored self.now.row (row_shape self.now) bytes.entry.now x.0 x.1.now)
            (λ error. first_row self.now.row (row_shape self.now) bytes.entry.now ≡ Err error) }
    {
        let mut buf = ParseBuf(bytes);
        let before = read_image(self.row, ImageKind::Before, &self.before, &mut buf)?;
        let behind = buf.0;
        let after = self.read_after(&mut buf)?;
        if buf.0.len() >= bytes.len() {
            return Err(self.left_over());
        }
        let row = StoredRow {
            row: Row { before, after },
            before: front(bytes, behind),
            after: front(behind, buf.0),
        };
        Ok((row, buf.0))
    }
}
