//! Why values are refused.
ghost use Rattle.std.specs.Prelude.{◌≡◌};

use binlog_wire::{Error, Invalid};

/// Why a value is refused, in one byte. An [`Error`] is made of it where a caller asks for one.
#[derive(Clone, Copy, Debug, PartialEq, Eq, Hash)]
pub enum ValueFault {
    /// The bytes end within the value.
    EndOfBody,
    /// The value is complete and out of its range.
    OutOfRange,
}

impl From<ValueFault> for Error {
    ghost use Rattle.binlog_values.specs.Faults.{error_of};

    ghost from_gives = { λ fault error. error ≡ error_of fault };

    #[cold]
    fn from(fault: ValueFault) -> Error {
        match fault {
            ValueFault::EndOfBody => Error::EndOfBody,
            ValueFault::OutOfRange => Error::InvalidData(Invalid::FieldRange(0)),
        }
    }
}
