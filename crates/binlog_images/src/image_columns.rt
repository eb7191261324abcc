//! Which columns an image has.
ghost use Rattle.std.specs.Prelude.{◌≡◌, ◌<◌, ℕ, length, true};
ghost use Rattle.binlog_columns.specs.TableColumns.{columns_of};
ghost use Rattle.binlog_rows.specs.Images.{bitmap_of};
ghost use Rattle.binlog_images.specs.Bits.{is_set, set_count};
ghost use Rattle.binlog_images.specs.Diffs.{json_count};

use crate::diff_bits::is_json;
use crate::image_bits::set_count;
use binlog_columns::TableColumns;
use binlog_wire::BitView;

/// The columns of a table, and which of them are present in an image.
#[derive(Clone, Copy, Debug)]
pub(crate) struct ImageColumns<'a> {
    pub(crate) columns: TableColumns<'a>,
    pub(crate) present: BitView<'a>,
    /// How many are present.
    pub(crate) count: u64,
    /// Whether all are present.
    pub(crate) all_present: bool,
    ghost bit_each: { present.len ≡ length (columns_of columns) },
    ghost present_each: { all_present ≡ true → (k : ℕ) → k < present.len → is_set (bitmap_of present) k ≡ true },
    ghost counted: { count ≡ set_count (length (columns_of columns)) 0 (bitmap_of present) },
}

impl<'a> ImageColumns<'a> {
    ghost use Rattle.binlog_images.specs.ImageShapes.{shape_of};

    /// The columns of a table, with a bit for each.
    pub(crate) fn new(columns: TableColumns<'a>, present: BitView<'a>) -> Self
        requires { present.len ≡ length (columns_of columns) }
        ensures { shape_of result ≡ (columns_of columns.entry, bitmap_of present.entry) }
    {
        let count = set_count(present);
        ImageColumns {
            columns,
            present,
            count,
            all_present: count == present.len(),
        }
    }

    /// How many of the table's columns are of type JSON.
    #[tactic(auto, using(crate::proofs::Counts::json_step))]
    pub(crate) fn json_count(&self) -> u64
        ensures { result ≡ json_count (columns_of self.now.columns) }
    {
        // The number of columns, which bounds the count.
        let _columns = self.present.len();
        let mut count = 0;
        for column in self.columns {
            if is_json(&column) {
                count += 1;
            }
        }
        count
    }
}
