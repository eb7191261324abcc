//! Laws of the definitions. Each is a function that does nothing and whose contract states the law.
ghost use Rattle.std.specs.Prelude.{◌≡◌, ℕ, List, map, Option, Result};
ghost use Rattle.std.specs.Iterator.{Drains};
ghost use Rattle.binlog_wire.specs.Fields.{IsBytes};
ghost use Rattle.binlog_wire.specs.Laws.{KeepsTo};
ghost use Rattle.binlog_wire.specs.Formats.{IsCanonicalIn};
ghost use Rattle.binlog_images.specs.Agreement.{Agrees};
ghost use Rattle.binlog_rows.specs.Columns.{Bitmap};
ghost use Rattle.binlog_columns.specs.Metadata.{Typed};
ghost use Rattle.binlog_images.specs.Bits.{first_bits};
ghost use Rattle.binlog_images.specs.Diffs.{first_diffs};
ghost use Rattle.binlog_images.specs.Placing.{HasDiffBits, AreCellsBy};
ghost use Rattle.binlog_images.specs.Cells.{cells_with, Cell, ImageShape, RowShape, RowsShape, whole, partial, StoredRow, StoredPartialRow, RowCells, image, row, partial_image, partial_row, cells_in_row, cells_in_partial_row};
ghost use Rattle.binlog_images.specs.Images.{image_at, partial_image_at};
ghost use Rattle.binlog_images.specs.RowCells.{answer_row};
ghost use Rattle.binlog_images.specs.RowsLeft.{row_shape, GivesRow};
ghost use Rattle.binlog_images.specs.Splits.{row_at, AreRows};
ghost use Rattle.binlog_images.specs.declared.row.Row.{Row};
ghost use Rattle.binlog_images.specs.declared.rows.Rows.{Rows};
ghost use Rattle.binlog_images.specs.declared.rows_error.ImageError.{ImageError};
ghost use Rattle.binlog_images.specs.declared.rows_error.RowsError.{RowsError};

/// An image and a row are read exactly where a prefix of the bytes encodes them. Reading with the place of the first
/// fault gives the same columns and leaves the same bytes, or is refused for the same kind of fault. So it is with partial
/// updates.
pub fn rows_are_read()
    ensures keeps_image { (shape : ImageShape) → KeepsTo (image shape).spells (image shape).reads }
    ensures keeps_row { (shape : RowShape) → KeepsTo (row shape).spells (row shape).reads }
    ensures keeps_partial_image { (shape : ImageShape) → KeepsTo (partial_image shape).spells (partial_image shape).reads }
    ensures keeps_partial_row { (shape : RowShape) → KeepsTo (partial_row shape).spells (partial_row shape).reads }
    ensures image { (shape : ImageShape) (s : List ℕ) → Agrees (λ (x : Bitmap × List Cell). x.1) (λ (e : ImageError). e.kind) ((image shape).reads s) (image_at shape s) }
    ensures row { (index : ℕ) (shape : RowShape) (s : List ℕ) → Agrees cells_in_row (λ (e : RowsError). e.kind) ((row shape).reads s) (row_at index (whole shape) s) }
    ensures partial_image { (shape : ImageShape) (s : List ℕ) → Agrees (λ (x : Option Bitmap × (Bitmap × List Cell)). x.1.1) (λ (e : ImageError). e.kind) ((partial_image shape).reads s) (partial_image_at shape s) }
    ensures partial_row { (index : ℕ) (shape : RowShape) (s : List ℕ) → Agrees cells_in_partial_row (λ (e : RowsError). e.kind) ((partial_row shape).reads s) (row_at index (partial shape) s) }
{}

/// An image and a row that can be written read back as their normal form, and what was read is its own normal form, so
/// that it is written and read back as it was. So it is with partial updates.
pub fn rows_are_canonical()
    ensures image { (shape : ImageShape) (v : Bitmap × List Cell) → IsCanonicalIn (image shape) v }
    ensures row { (shape : RowShape) (v : StoredRow) → IsCanonicalIn (row shape) v }
    ensures partial_row { (shape : RowShape) (v : StoredPartialRow) → IsCanonicalIn (partial_row shape) v }
    ensures read_image { (shape : ImageShape) (s r : List ℕ) (v : Bitmap × List Cell) → (image shape).spells s v r → (image shape).normal v ≡ v }
    ensures read_row { (shape : RowShape) (s r : List ℕ) (v : StoredRow) → (row shape).spells s v r → (row shape).normal v ≡ v }
    ensures read_partial_row { (shape : RowShape) (s r : List ℕ) (v : StoredPartialRow) → (partial_row shape).spells s v r → (partial_row shape).normal v ≡ v }
{}

/// The bytes of an event split into rows in exactly one way, up to their end or to the first row that is refused. A whole
/// iteration gives exactly these rows, and the refusal.
pub fn rows_are_split()
    ensures given { (rows : Rows) (items : List (Result Row RowsError)) → IsBytes rows.rest.now → Drains GivesRow rows items
        → AreRows (row_shape rows) rows.row rows.rest.now (map answer_row items) }
    ensures some_way { (shape : RowsShape) (index : ℕ) (s : List ℕ) → IsBytes s → (items : List (Result RowCells RowsError)) × AreRows shape index s items }
    ensures one_way { (shape : RowsShape) (index : ℕ) (s : List ℕ) (xs ys : List (Result RowCells RowsError)) → AreRows shape index s xs → AreRows shape index s ys → xs ≡ ys }
{}

/// Each column of an image is what its bits say (`AreCellsBy`): it is present by the bit of its index, NULL by the bit of its
/// number among the columns that are present, and a list of diffs by the bit of its number among the JSON columns of the table.
pub fn bits_have_columns()
    ensures { (diffs : Option Bitmap) (columns : List Typed) (present nulls : Bitmap) (s r : List ℕ) (cells : List Cell) → HasDiffBits diffs columns → (cells_with (first_diffs diffs) columns (first_bits present nulls)).spells s cells r → AreCellsBy diffs present nulls columns cells }
{}
