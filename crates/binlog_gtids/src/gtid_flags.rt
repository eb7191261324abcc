//! The flags of a GTID.
ghost use Rattle.std.specs.Prelude.{⊤};

use bitflags::{Flag, Flags, bitflag_items};

/// The flags of a GTID.
///
/// Source: MySQL's source documentation, `Gtid_event`.
#[derive(Clone, Copy, Debug, PartialEq, Eq, Hash)]
pub struct GtidFlags(u8);

bitflag_items! {
    impl GtidFlags: u8 {
        /// The transaction may contain changes that are logged as statements.
        const MAY_HAVE_SBR = 0x1;
    }
}

impl Flags for GtidFlags {
    ghost use Rattle.binlog_gtids.specs.Flags.{gtid_flags};

    type Bits = u8;

    ghost exact = { ⊤ };

    ghost table = { gtid_flags };

    ghost set_of = { λ flags. flags.0 };

    fn flags<'a>() -> &'a [Flag<GtidFlags>] {
        GtidFlags::FLAGS
    }

    fn bits(&self) -> u8 {
        self.0
    }

    fn from_bits_retain(bits: u8) -> GtidFlags {
        GtidFlags(bits)
    }
}
