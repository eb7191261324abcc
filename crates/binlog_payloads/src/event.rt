//! The data of a TRANSACTION_PAYLOAD event.
ghost use Rattle.std.specs.Prelude.{◌≡◌, length};
ghost use Rattle.binlog_events.specs.EventRefs.{view_of};
ghost use Rattle.binlog_payloads.specs.Events.{found_in, payload_in, payload_of, result_of};
ghost use Rattle.binlog_payloads.specs.Fields.{finished, payload_event};

use crate::compression::TransactionPayloadCompressionType;
use crate::error::PayloadError;
use crate::fields::{Stated, read_fields};
use crate::inner::PAYLOAD_EVENT;
use binlog_events::EventRef;
use binlog_wire::ParseBuf;

/// The data of a TRANSACTION_PAYLOAD event, type 40: how the payload is compressed, how long the content is, and the payload, which
/// is borrowed. Contracts see an event through `payload_of`.
///
/// The data are fields, each a type, a length and a value, up to a type 0, and then the payload. The fields may be in any order, and
/// those of unknown types are skipped. The length-encoded numbers may be longer than they need to be.
///
/// Source: the server's `mysql::binlog::event::codecs::binary::Transaction_payload`.
#[derive(Clone, Copy, Debug, Drop)]
pub struct TransactionPayloadEvent<'a> {
    pub(crate) algorithm: TransactionPayloadCompressionType,
    pub(crate) uncompressed_size: Option<u64>,
    pub(crate) payload: &'a [u8],
}

impl<'a> TransactionPayloadEvent<'a> {
    /// The event with this payload, which is compressed as `algorithm` says; its content has `uncompressed_size` bytes, if it is
    /// stated. Nothing is compressed or verified here.
    pub fn new(
        algorithm: TransactionPayloadCompressionType,
        uncompressed_size: Option<u64>,
        payload: &'a [u8],
    ) -> Self
        ensures { payload_of result ≡ record { algorithm = algorithm; uncompressed_size = uncompressed_size; payload = payload.now } }
    {
        TransactionPayloadEvent {
            algorithm,
            uncompressed_size,
            payload,
        }
    }

    /// Reads the data of an event, all of which belong to it. Nothing is allocated, and nothing is decompressed.
    ///
    /// # Errors
    ///
    /// Field by field, from the front, the first of these:
    ///
    /// - [`PayloadError::EventTruncated`] where the data end within the type or the length, or before the value does.
    /// - [`PayloadError::Lenenc`] where the type, the length or the value is a number that begins with `fb` or `ff`.
    /// - Of types 1 to 3 alone: [`PayloadError::FieldTwice`] where the type was there before; [`PayloadError::FieldLength`] where
    ///   the value isn't as long as its first byte says; [`PayloadError::Kind`] for an unknown compression type.
    ///
    /// Behind the fields:
    ///
    /// - [`PayloadError::NoField`] where the payload's size or the compression type wasn't there.
    /// - [`PayloadError::PayloadSize`] where the payload's size isn't the number of bytes that are left.
    #[tactic(auto, unfolding(crate::specs::Fields::payload_event))]
    pub fn read(bytes: &'a [u8]) -> Result<Self, PayloadError>
        ensures { result_of result ≡ payload_event bytes.now }
    {
        let mut buf = ParseBuf(bytes);
        let stated = read_fields(&mut buf)?;
        finish(&stated, buf.0)
    }

    /// What the data of an event say, if it is a TRANSACTION_PAYLOAD event; `Ok(None)` for an event of another type.
    ///
    /// # Errors
    ///
    /// Those of [`TransactionPayloadEvent::read`].
    pub fn of_event(event: &EventRef<'a>) -> Result<Option<Self>, PayloadError>
        ensures { found_in result ≡ payload_in (view_of event.now) }
    {
        if event.header().event_type_raw() != PAYLOAD_EVENT {
            return Ok(None);
        }
        match TransactionPayloadEvent::read(event.data()) {
            Ok(payload) => Ok(Some(payload)),
            Err(error) => Err(error),
        }
    }

    /// The number of bytes of the payload.
    pub fn payload_size(&self) -> u64
        ensures { result ≡ length (payload_of self.now).payload }
    {
        self.payload.len() as u64
    }

    /// How the payload is compressed.
    pub fn algorithm(&self) -> TransactionPayloadCompressionType
        ensures { result ≡ (payload_of self.now).algorithm }
    {
        self.algorithm
    }

    /// The number of bytes of the content, where the event states it.
    pub fn uncompressed_size(&self) -> Option<u64>
        ensures { result ≡ (payload_of self.now).uncompressed_size }
    {
        self.uncompressed_size
    }

    /// The payload as it is stored, compressed or not.
    pub fn payload_raw(&self) -> &'a [u8]
        ensures { result.now ≡ (payload_of self.now).payload }
    {
        self.payload
    }
}

// The event of what is stated, and of the bytes behind the fields.
fn finish<'a>(
    stated: &Stated,
    payload: &'a [u8],
) -> Result<TransactionPayloadEvent<'a>, PayloadError>
    ensures { result_of result ≡ finished stated.now.payload_size stated.now.algorithm stated.now.uncompressed_size payload.now }
{
    let (Some(size), Some(algorithm)) = (stated.payload_size, stated.algorithm) else {
        return Err(PayloadError::NoField);
    };
    if size != payload.len() as u64 {
        return Err(PayloadError::PayloadSize);
    }
    Ok(TransactionPayloadEvent {
        algorithm,
        uncompressed_size: stated.uncompressed_size,
        payload,
    })
}
