//! How a payload is compressed.
ghost use Rattle.std.specs.Prelude.{◌≡◌};
ghost use Rattle.binlog_payloads.specs.Fields.{algorithm_of, number_of};

use crate::error::PayloadError;

/// How the payload of a TRANSACTION_PAYLOAD event is compressed.
#[derive(Clone, Copy, Debug, PartialEq, Eq, Drop)]
pub enum TransactionPayloadCompressionType {
    /// By Zstandard; its number is 0.
    ZSTD,
    /// Not at all; its number is 255.
    NONE,
}

impl TransactionPayloadCompressionType {
    /// The number of the compression type.
    pub fn number(self) -> u64
        ensures { result ≡ number_of self }
    {
        match self {
            TransactionPayloadCompressionType::ZSTD => 0,
            TransactionPayloadCompressionType::NONE => 255,
        }
    }

    /// The compression type of a number. Errors: [`PayloadError::Kind`].
    pub fn of_number(number: u64) -> Result<Self, PayloadError>
        ensures { result ≡ algorithm_of number }
    {
        match number {
            0 => Ok(TransactionPayloadCompressionType::ZSTD),
            255 => Ok(TransactionPayloadCompressionType::NONE),
            other => Err(PayloadError::Kind(other)),
        }
    }
}
