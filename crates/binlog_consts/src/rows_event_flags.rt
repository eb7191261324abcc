//! The flags of a row event.
ghost use Rattle.std.specs.Prelude.{⊤};

use bitflags::{Flag, Flags, bitflag_items};

/// The flags of a row event, in its post-header.
///
/// Source: MySQL's documentation of its source code, `mysql::binlog::event::Rows_event`.
#[derive(Clone, Copy, Debug, PartialEq, Eq, Hash)]
pub struct RowsEventFlags(u16);

bitflag_items! {
    impl RowsEventFlags: u16 {
        /// The event is the last one of its statement.
        const STMT_END = 0x1;
        /// Foreign keys aren't checked.
        const NO_FOREIGN_KEY_CHECKS = 0x2;
        /// Unique keys aren't checked.
        const RELAXED_UNIQUE_CHECKS = 0x4;
        /// Each row has values for all columns.
        const COMPLETE_ROWS = 0x8;
    }
}

impl Flags for RowsEventFlags {
    ghost use Rattle.binlog_consts.specs.Flags.{rows_event_flags};

    type Bits = u16;

    ghost exact = { ⊤ };

    ghost table = { rows_event_flags };

    ghost set_of = { λ flags. flags.0 };

    fn flags<'a>() -> &'a [Flag<RowsEventFlags>] {
        RowsEventFlags::FLAGS
    }

    fn bits(&self) -> u16 {
        self.0
    }

    fn from_bits_retain(bits: u16) -> RowsEventFlags {
        RowsEventFlags(bits)
    }
}
