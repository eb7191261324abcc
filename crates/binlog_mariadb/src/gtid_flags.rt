//! The flags of a GTID.
ghost use Rattle.std.specs.Prelude.{◌≡◌, ⊤};
ghost use Rattle.binlog_mariadb.specs.Parts.{has_bit};

use bitflags::{Flag, Flags, bitflag_items};

/// The flags of a GTID.
///
/// Source: "GTID_EVENT" in MariaDB's documentation.
#[derive(Clone, Copy, Debug, PartialEq, Eq, Hash)]
pub struct MariaGtidFlags(u8);

bitflag_items! {
    impl MariaGtidFlags: u8 {
        /// The event group is a single event, with no COMMIT event after it.
        const FL_STANDALONE = 0x1;
        /// A commit id follows: groups with the same id were committed together.
        const FL_GROUP_COMMIT_ID = 0x2;
        /// The group can be rolled back.
        const FL_TRANSACTIONAL = 0x4;
        /// The group may be replicated in parallel with others.
        const FL_ALLOW_PARALLEL = 0x8;
        /// The group waited for a row lock on the source.
        const FL_WAITED = 0x10;
        /// The group is a DDL statement.
        const FL_DDL = 0x20;
        /// An XA id follows: the group prepares an XA transaction.
        const FL_PREPARED_XA = 0x40;
        /// An XA id follows: the group commits or rolls back a prepared XA transaction.
        const FL_COMPLETED_XA = 0x80;
    }
}

impl Flags for MariaGtidFlags {
    ghost use Rattle.binlog_mariadb.specs.Flags.{maria_gtid_flags};

    type Bits = u8;

    ghost exact = { ⊤ };

    ghost table = { maria_gtid_flags };

    ghost set_of = { λ flags. flags.0 };

    fn flags<'a>() -> &'a [Flag<MariaGtidFlags>] {
        MariaGtidFlags::FLAGS
    }

    fn bits(&self) -> u8 {
        self.0
    }

    fn from_bits_retain(bits: u8) -> MariaGtidFlags {
        MariaGtidFlags(bits)
    }
}

/// Whether this bit of the flags is set.
pub(crate) fn has_bit(flags: u8, bit: u8) -> bool
    ensures { result ≡ has_bit flags bit }
{
    flags & bit != 0
}
