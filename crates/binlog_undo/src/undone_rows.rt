//! The rows that undo a row event.
ghost use Rattle.std.specs.Prelude.{◌≡◌, true, option_map};
ghost use Rattle.binlog_columns.specs.TableColumns.{columns_of};
ghost use Rattle.binlog_rows.specs.Images.{bitmap_of};
ghost use Rattle.binlog_images.specs.EventRows.{is_partial};
ghost use Rattle.binlog_images.specs.Events.{HasBitEach};
ghost use Rattle.binlog_undo.specs.UndoneEvents.{IsUndoing, CanUndoRows, GivesUndone};

use crate::bytes::are_bytes;
use crate::coverage::{can_undo, completes, exchanges};
use crate::full_rows::FullRows;
use crate::image_pair::ImagePair;
use crate::undo_error::UndoError;
use crate::undoing::Undoing;
use binlog_columns::TableColumns;
use binlog_images::RowsEventExt;
use binlog_rows::RowsEventData;
use binlog_wire::BitView;
use std::alloc::Global;

/// The rows that undo those of a row event.
#[derive(Debug, Drop)]
pub struct UndoneRows {
    completes: bool,
    bytes: Vec<u8>,
}

impl UndoneRows {
    /// Whether both images of the rows have the columns of the event's image before. Else the images are exchanged, with their
    /// columns.
    pub fn completes(&self) -> bool
        ensures { result ≡ self.now.completes }
    {
        self.completes
    }

    /// The bytes of the rows.
    pub fn as_bytes(&self) -> &[u8]
        ensures { result.now ≡ self.now.bytes.items }
    {
        self.bytes.as_slice()
    }
}

/// Whether the event holds partial updates.
fn is_partial(event: &RowsEventData<'_>) -> bool
    ensures { result ≡ is_partial event.now }
{
    matches!(event, RowsEventData::PartialUpdateRowsEvent(_))
}

/// How rows with these images are undone.
fn undoing_of<'a>(
    columns: TableColumns<'a>,
    before: Option<BitView<'a>>,
    after: Option<BitView<'a>>,
) -> Undoing<'a>
    requires before { HasBitEach (columns_of columns) (option_map bitmap_of before) }
    requires after { HasBitEach (columns_of columns) (option_map bitmap_of after) }
    ensures { IsUndoing (columns_of columns.entry) (option_map bitmap_of before.entry) (option_map bitmap_of after.entry) result }
{
    if !completes(before, after) {
        return Undoing::Exchange;
    }
    match (before, after) {
        (Some(before), Some(after)) => Undoing::Complete(ImagePair {
            columns,
            before,
            after,
        }),
        _ => Undoing::Exchange,
    }
}

/// The rows that undo those of this event, of a table with these columns, the last row first. The images of each row are exchanged;
/// where the image after an update lacks columns, it is completed from the image before. `key` are the indexes of the columns of the
/// table's primary key, and empty if it isn't known: images that lack columns can be undone only if those of the key are there.
///
/// # Errors
///
/// The first of these:
///
/// - [`UndoError::Event`] if the event has another number of columns.
/// - [`UndoError::Image`] if the images don't have what is needed: all columns, or those of the key, in the image before, or in the
///   image after of inserted rows; all columns of deleted rows; and in the image before each column of the image after.
/// - [`UndoError::PartialJson`] if the event is PARTIAL_UPDATE_ROWS: the row is 0.
/// - [`UndoError::Rows`] with the first fault of a row.
/// - [`UndoError::Memory`] if memory is refused.
pub fn undo_rows(
    alloc: Global,
    event: &RowsEventData<'_>,
    columns: TableColumns<'_>,
    key: &[u64],
) -> Result<UndoneRows, UndoError>
    ensures { GivesUndone key.now (columns_of columns.entry) event.now result }
{
    let rows = match event.rows_of_table(columns) {
        Ok(rows) => rows,
        Err(error) => return Err(UndoError::Event(error)),
    };
    let before = event.columns_before_image();
    let after = event.columns_after_image();
    if !can_undo(key, before, after) {
        return Err(UndoError::Image);
    }
    if is_partial(event) {
        return Err(UndoError::PartialJson(0));
    }
    let undoing = undoing_of(columns, before, after);
    let full = FullRows::new(columns, before, after);
    are_bytes(rows.rest_data());
    let bytes = undoing.undo_full(alloc, &full, rows)?;
    Ok(UndoneRows {
        completes: completes(before, after),
        bytes,
    })
}

/// Whether the rows of this event are known to be undone by an exchange of their images, which are full. Other rows may be undone, too.
/// This takes no memory. `key` is as for [`undo_rows`].
pub(crate) fn can_exchange(
    event: &RowsEventData<'_>,
    columns: TableColumns<'_>,
    key: &[u64],
) -> bool
    ensures { result ≡ true → CanUndoRows key.now (columns_of columns.entry) event.now }
{
    let Ok(rows) = event.rows_of_table(columns) else {
        return false;
    };
    let before = event.columns_before_image();
    let after = event.columns_after_image();
    if is_partial(event) {
        return false;
    }
    if !exchanges(key, before, after) {
        return false;
    }
    let Some(full) = FullRows::new(columns, before, after) else {
        return false;
    };
    let bytes = rows.rest_data();
    are_bytes(bytes);
    full.are_rows(bytes)
}
