//! The columns of an image, one after the other.
ghost use Rattle.std.specs.Prelude.{◌≡◌, ◌<◌, ◌≤◌, ◌+◌, ◌-◌, ◌^◌};
ghost use Rattle.binlog_rows.specs.Images.{bitmap_of};
ghost use Rattle.binlog_images.specs.Bits.{is_set, next_place};
ghost use Rattle.binlog_row_writing.specs.Walks.{next_walk, value_at, value_of};

use crate::new_value::NewValue;
use binlog_wire::BitView;

/// A column of an image: which columns are present, and the places of this one.
#[derive(Clone, Copy, Debug)]
pub(crate) struct Walk<'a> {
    /// Which of the table's columns are present.
    pub(crate) present: BitView<'a>,
    /// The index of the column among all columns.
    pub(crate) index: u64,
    /// The index of the column among the present ones, and that of its value.
    pub(crate) place: usize,
}

/// Whether the bit at this index is set; none is beyond the last one.
pub(crate) fn is_set(bits: BitView<'_>, index: u64) -> bool
    ensures { result ≡ is_set (bitmap_of bits.entry) index }
{
    bits.bit(index).unwrap_or(false)
}

/// The value at this place; NULL beyond the last one.
pub(crate) fn value_of<'v>(values: &[NewValue<'v>], place: usize) -> NewValue<'v>
    ensures { result ≡ value_of values.now place }
{
    match values.get(place) {
        Some(value) => *value,
        None => NewValue::Null,
    }
}

impl<'a> Walk<'a> {
    ghost use Rattle.binlog_row_writing.specs.WalkViews.{walk_of};

    /// The first column.
    pub(crate) fn first(present: BitView<'a>) -> Self
        ensures walk { walk_of result ≡ record { present = bitmap_of present.entry; index = 0; place = 0 } }
        ensures len { result.present.len ≡ present.entry.len }
    {
        Walk {
            present,
            index: 0,
            place: 0,
        }
    }

    /// The value of the column; None if it is absent.
    pub(crate) fn value<'v>(&self, values: &[NewValue<'v>]) -> Option<NewValue<'v>>
        ensures { result ≡ value_at (walk_of self.now) values.now }
    {
        if is_set(self.present, self.index) {
            Some(value_of(values, self.place))
        } else {
            None
        }
    }

    /// The place of the next column, among the present ones.
    fn next_place(&self) -> usize
        requires { self.now.place < 2 ^ 64 - 1 }
        ensures place { result ≡ next_place (is_set (bitmap_of self.now.present) self.now.index) self.now.place }
        ensures most { result ≤ self.now.place + 1 }
    {
        if is_set(self.present, self.index) {
            self.place + 1
        } else {
            self.place
        }
    }

    /// Goes to the next column.
    pub(crate) fn advance(&mut self)
        requires index { self.old.index < self.old.present.len }
        requires place { self.old.place ≤ self.old.index }
        ensures next { walk_of self.new ≡ next_walk (walk_of self.old) }
        ensures len { self.new.present.len ≡ self.old.present.len }
        ensures index { self.new.index ≡ self.old.index + 1 }
        ensures place { self.new.place ≤ self.new.index }
    {
        let place = self.next_place();
        self.index += 1;
        self.place = place;
    }
}
