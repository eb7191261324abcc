//! Counting the columns of a class.
ghost use Rattle.std.specs.Prelude.{◌≡◌, ◌+◌, ◌<◌, ◌^◌, Some, None, if◌then◌else◌};
ghost use Rattle.binlog_optional_metadata.specs.Classes.{is_in_class};

use crate::column_class::ColumnClass;
use binlog_columns::ColumnType;

/// The columns of a class, one after the other.
#[derive(Clone, Copy, Debug)]
pub(crate) struct ClassIndex {
    class: ColumnClass,
    next: u64,
}

impl ClassIndex {
    /// No column is counted yet.
    pub(crate) fn new(class: ColumnClass) -> Self
        ensures { result ≡ record { class = class; next = 0 } }
    {
        ClassIndex { class, next: 0 }
    }

    /// The index in the class of the next column, which has this real type; None if it isn't of the class.
    pub(crate) fn take(&mut self, real_type: ColumnType) -> Option<u64>
        requires { self.old.next + 1 < 2 ^ 64 }
        ensures index { result ≡ (if is_in_class self.old.class real_type then Some self.old.next else None) }
        ensures after { self.new ≡ record { class = self.old.class; next = self.old.next + (if is_in_class self.old.class real_type then 1 else 0) } }
    {
        if !self.class.contains(real_type) {
            return None;
        }
        let index = self.next;
        self.next += 1;
        Some(index)
    }
}
