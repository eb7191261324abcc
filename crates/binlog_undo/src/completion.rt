//! Images after an update that are completed from those before.
ghost use Rattle.std.specs.Prelude.{◌≡◌, ◌++◌, [], map, get_or, IfOk, OnOk};
ghost use Rattle.binlog_images.specs.NullBits.{nulls_of};
ghost use Rattle.binlog_images.specs.StoredColumns.{column_of};
ghost use Rattle.binlog_images.specs.declared.stored_columns.StoredColumn.TheVariants.{Absent};
ghost use Rattle.binlog_undo.specs.Completion.{updated_stored, completed_stored, value_bytes, null_flag};
ghost use Rattle.binlog_undo.specs.NewImages.{HasColumns};

use crate::backward::Backward;
use crate::null_bits::null_bitmap;
use binlog_images::StoredColumn;
use std::alloc::{AllocError, Global};

/// A column after an update.
fn updated<'a>(old: StoredColumn<'a>, new: StoredColumn<'a>) -> StoredColumn<'a>
    ensures { column_of result ≡ updated_stored (column_of old.entry) (column_of new.entry) }
{
    match new {
        StoredColumn::Absent => old,
        _ => new,
    }
}

/// An image that is made column by column.
#[derive(Debug, Drop)]
pub(crate) struct NewImage {
    /// Of each column that is there, whether it is NULL.
    nulls: Vec<bool>,
    /// The bytes of the values.
    values: Vec<u8>,
}

impl NewImage {
    /// An image without columns.
    fn new(alloc: Global) -> Self
        ensures nulls { result.nulls.items ≡ [] }
        ensures values { result.values.items ≡ [] }
    {
        NewImage {
            nulls: Vec::new(alloc),
            values: Vec::new(alloc),
        }
    }

    /// Adds a column behind the others.
    fn add(&mut self, column: &StoredColumn<'_>) -> Result<(), AllocError>
        ensures nulls { OnOk result (self.new.nulls.items ≡ self.old.nulls.items ++ null_flag (column_of column.now)) }
        ensures values { OnOk result (self.new.values.items ≡ self.old.values.items ++ value_bytes (column_of column.now)) }
    {
        match column {
            StoredColumn::Absent => {}
            StoredColumn::Null => self.nulls.push(true)?,
            StoredColumn::Value(bytes) => {
                self.nulls.push(false)?;
                self.values.extend_from_slice(bytes)?;
            }
        }
        Ok(())
    }

    /// Puts the bytes of the image in front of others.
    #[tactic(auto, using(std::proofs::Common::append_assoc))]
    pub(crate) fn prepend_to(&self, alloc: Global, bytes: &mut Backward) -> Result<(), AllocError>
        ensures { OnOk result (bytes.new.made ≡ (nulls_of self.now.nulls.items ++ self.now.values.items) ++ bytes.old.made) }
    {
        let nulls = null_bitmap(alloc, self.nulls.as_slice())?;
        bytes.prepend(alloc, self.values.as_slice())?;
        bytes.prepend(alloc, nulls.as_slice())
    }
}

/// The column with this index; absent beyond the last one.
fn column_at<'v>(columns: &[StoredColumn<'v>], index: usize) -> StoredColumn<'v>
    ensures { result ≡ get_or columns.now index Absent }
{
    match columns.get(index) {
        Some(column) => *column,
        None => StoredColumn::Absent,
    }
}

/// The columns of a row after an update: those of the image after, and those of the image before where the image after has none.
#[tactic(auto, using(crate::proofs::Columns::one_more_null, crate::proofs::Columns::one_more_value, crate::proofs::Columns::all_nulls, crate::proofs::Columns::all_values))]
pub(crate) fn completed(
    alloc: Global,
    before: &[StoredColumn<'_>],
    after: &[StoredColumn<'_>],
) -> Result<NewImage, AllocError>
    ensures { IfOk result (HasColumns (completed_stored (map column_of before.now) (map column_of after.now))) }
{
    let mut image = NewImage::new(alloc);
    for index in 0..before.len() {
        let old = column_at(before, index);
        let new = column_at(after, index);
        let column = updated(old, new);
        image.add(&column)?;
    }
    Ok(image)
}
