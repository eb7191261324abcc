//! The columns of images as they are stored.
ghost use Rattle.std.specs.Prelude.{◌≡◌, ◌+◌, ◌≤◌, None, Err, length, map, MatchResult, MatchOption, IfOk, IfErr, OnErr};
ghost use Rattle.binlog_columns.specs.Columns.{typed_of};
ghost use Rattle.binlog_columns.specs.TableColumns.{columns_of};
ghost use Rattle.binlog_rows.specs.Images.{bitmap_of};
ghost use Rattle.binlog_values.specs.Faults.{refusal_of};
ghost use Rattle.binlog_images.specs.BitsOf.{bits_of};
ghost use Rattle.binlog_images.specs.Cells.{cell_at};
ghost use Rattle.binlog_images.specs.Images.{left, image_at};
ghost use Rattle.binlog_images.specs.Stored.{IsTaken, GivesColumns, GivesImage};
ghost use Rattle.binlog_images.specs.StoredColumns.{column_of};

use crate::column_value::ColumnValue;
use crate::image_bits::{ImageBits, read_bitmap};
use crate::image_columns::ImageColumns;
use crate::stored_row::front;
use binlog_columns::{Column, TableColumns};
use binlog_values::ValueFault;
use binlog_wire::{BitView, ParseBuf};
use std::alloc::{AllocError, Global};

/// A column of an image as it is stored.
#[derive(Clone, Copy, Debug, PartialEq, Eq, Hash)]
pub enum StoredColumn<'a> {
    /// The column isn't in the image.
    Absent,
    /// The column is NULL, so that it has no bytes behind the null bitmap.
    Null,
    /// The bytes of the column's value.
    Value(&'a [u8]),
}

/// Takes a column of an image from the start of `buf`.
fn read_stored<'a>(
    column: &Column,
    bits: &ImageBits<'_>,
    buf: &mut ParseBuf<'a>,
) -> Result<StoredColumn<'a>, ValueFault>
    ensures { MatchResult result
        (λ stored. IsTaken (bits_of bits.now) buf.old ((cell_at None (typed_of column.now) (bits_of bits.now)).reads buf.old) (column_of stored) buf.new)
        (λ fault. (cell_at None (typed_of column.now) (bits_of bits.now)).reads buf.old ≡ Err (refusal_of fault)) }
{
    let all = buf.0;
    ColumnValue::read(column, bits, &None, buf)?;
    if !bits.is_present() {
        return Ok(StoredColumn::Absent);
    }
    if bits.is_null() {
        return Ok(StoredColumn::Null);
    }
    Ok(StoredColumn::Value(front(all, buf.0)))
}

/// Takes the columns of an image from the start of `buf`; None if they are refused.
#[tactic(auto, using(crate::proofs::Steps::left_step, crate::proofs::Steps::range_first, crate::proofs::Steps::range_step, crate::proofs::Stored::refused_here, crate::proofs::Stored::one_more_stored, crate::proofs::Stored::all_stored))]
fn read_columns<'a>(
    alloc: Global,
    columns: TableColumns<'_>,
    start: ImageBits<'_>,
    buf: &mut ParseBuf<'a>,
) -> Result<Option<Vec<StoredColumn<'a>>>, AllocError>
    requires in_range { start.index + length (columns_of columns) ≤ start.present.len }
    requires in_place { start.place ≤ start.index }
    ensures { IfOk result (GivesColumns (columns_of columns.entry) (bits_of start.entry) buf.old) }
{
    let mut bits = start;
    let mut stored = Vec::new(alloc);
    for column in columns {
        let is_present = bits.is_present();
        match read_stored(&column, &bits, buf) {
            Ok(value) => stored.push(value)?,
            Err(_) => return Ok(None),
        }
        bits.advance(is_present);
    }
    Ok(Some(stored))
}

/// The columns of an image with these bytes, of a table with these columns, of which these are present: for each column of the
/// table what is stored. None if the bytes don't begin with such an image.
pub fn read_stored_columns<'a>(
    alloc: Global,
    columns: TableColumns<'_>,
    present: BitView<'_>,
    image: &'a [u8],
) -> Result<Option<Vec<StoredColumn<'a>>>, AllocError>
    requires { present.len ≡ length (columns_of columns) }
    ensures { IfOk result (GivesImage (columns_of columns.entry, bitmap_of present.entry) image.entry.now) }
{
    let of = ImageColumns::new(columns, present);
    let mut buf = ParseBuf(image);
    let Ok(nulls) = read_bitmap(of.count, &mut buf) else {
        return Ok(None);
    };
    let bits = ImageBits::first(present, of.all_present, nulls);
    read_columns(alloc, columns, bits, &mut buf)
}
