//! What is asked of the log that undoes others, as plain numbers.
ghost use Rattle.std.specs.Prelude.{◌≡◌};
ghost use Rattle.binlog_undo_items.specs.Options.{are_known, checks_of, has_bit, has_plain_temporal, is_one, skips_of};

use binlog_undo::ForeignKeyChecks;
use binlog_undo_index::Skips;

/// The bits of all reasons that can be skipped.
const SKIPPED: u64 = 0x1_fbfe;

/// The flag that turns the checks of foreign keys off.
const NO_FOREIGN_KEY_CHECKS: u64 = 1;

/// The flag that makes all one transaction.
const ONE_TRANSACTION: u64 = 2;

/// The flag that says that old columns of dates and times have no fractions.
const PLAIN_OLD_TEMPORAL: u64 = 4;

/// What is asked of the log that undoes others: numbers alone.
#[repr(C)]
#[derive(Clone, Copy)]
pub struct BinlogUndoOptions {
    /// Transactions are undone that begin at this byte of the first log or behind it.
    pub start_position: u64,
    /// Transactions are undone that begin before this byte of the last log.
    pub stop_position: u64,
    /// For which reasons transactions are left as they are: the bit 2^n for the reason with the number n.
    pub skip: u64,
    /// 1: the server checks no foreign keys while the log is applied. 2: all that is undone is one transaction. 4: columns of MariaDB's old
    /// types of dates and times are known to have no fractions. The sum of those that are wanted.
    pub flags: u64,
}

// Whether a number has a bit.
fn has_bit(number: u64, bit: u64) -> bool
    ensures { result ≡ has_bit number bit }
{
    number & bit != 0
}

impl BinlogUndoOptions {
    /// Whether all reasons can be skipped, and each flag has a meaning.
    pub(crate) fn are_known(&self) -> bool
        ensures { result ≡ are_known self.now }
    {
        self.skip | SKIPPED == SKIPPED && self.flags < 8
    }

    /// How foreign keys are checked while the log is applied.
    pub(crate) fn checks(&self) -> ForeignKeyChecks
        ensures { result ≡ checks_of self.now }
    {
        if has_bit(self.flags, NO_FOREIGN_KEY_CHECKS) {
            ForeignKeyChecks::Off
        } else {
            ForeignKeyChecks::AsLogged
        }
    }

    /// Whether all that is undone is one transaction.
    pub(crate) fn is_one(&self) -> bool
        ensures { result ≡ is_one self.now }
    {
        has_bit(self.flags, ONE_TRANSACTION)
    }

    /// Whether columns of MariaDB's old types of dates and times are known to have no fractions.
    pub(crate) fn has_plain_temporal(&self) -> bool
        ensures { result ≡ has_plain_temporal self.now }
    {
        has_bit(self.flags, PLAIN_OLD_TEMPORAL)
    }

    /// For which reasons transactions are left as they are.
    pub(crate) fn skips(&self) -> Skips
        ensures { result ≡ skips_of self.now }
    {
        Skips {
            unfinished: has_bit(self.skip, 0x2),
            statement: has_bit(self.skip, 0x4),
            load_data: has_bit(self.skip, 0x8),
            xa: has_bit(self.skip, 0x10),
            rollback: has_bit(self.skip, 0x20),
            incident: has_bit(self.skip, 0x40),
            payload: has_bit(self.skip, 0x80),
            old_rows: has_bit(self.skip, 0x100),
            unknown_event: has_bit(self.skip, 0x200),
            no_table_map: has_bit(self.skip, 0x800),
            rows: has_bit(self.skip, 0x1000),
            old_temporal: has_bit(self.skip, 0x2000),
            image: has_bit(self.skip, 0x4000),
            partial_json: has_bit(self.skip, 0x8000),
            compressed: has_bit(self.skip, 0x1_0000),
        }
    }
}
