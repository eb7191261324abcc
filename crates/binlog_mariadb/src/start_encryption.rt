//! START_ENCRYPTION: the events after it are encrypted.
ghost use Rattle.std.specs.Prelude.{◌≡◌, Some, refl};
ghost use Rattle.binlog_wire.specs.Reading.{Gives};
ghost use Rattle.binlog_wire.specs.Fields.{block_at};
ghost use Rattle.binlog_mariadb.specs.StartEncryption.{start_encryption};

use crate::event_type::MariaEventType;
use crate::traits::MariaEvent;
use binlog_event_format::BinlogCtx;
use binlog_wire::{Error, IntRepr, LeU32, MyDeserialize, ParseBuf, Put};
use std::alloc::Global;

/// The size of the body in bytes.
const BODY_LEN: usize = 17;

/// The START_ENCRYPTION event (type 164): each event after it is encrypted by itself.
///
/// Its body, in one unit, is the scheme, 1 byte; the version of the key, 4 bytes, little-endian; and the nonce, 12
/// bytes. Servers write the scheme 1. The key isn't stored in the log.
///
/// Source: "START_ENCRYPTION_EVENT" in MariaDB's documentation.
#[derive(Clone, Copy, Debug, PartialEq, Eq, Hash)]
pub struct StartEncryptionEvent {
    scheme: u8,
    key_version: u32,
    nonce: [u8; 12],
}

impl StartEncryptionEvent {
    /// The event for this scheme, version of the key and nonce.
    pub fn new(scheme: u8, key_version: u32, nonce: [u8; 12]) -> Self
        ensures { result ≡ record { scheme = scheme; key_version = key_version; nonce = nonce } }
    {
        StartEncryptionEvent {
            scheme,
            key_version,
            nonce,
        }
    }

    /// The scheme of the encryption; servers write 1.
    pub fn scheme(&self) -> u8
        ensures { result ≡ self.now.scheme }
    {
        self.scheme
    }

    /// The version of the key.
    pub fn key_version(&self) -> u32
        ensures { result ≡ self.now.key_version }
    {
        self.key_version
    }

    /// The nonce.
    pub fn nonce(&self) -> [u8; 12]
        ensures { result ≡ self.now.nonce }
    {
        self.nonce
    }
}

/// Reads the nonce from the start of `buf`.
fn read_nonce(buf: &mut ParseBuf<'_>) -> Result<[u8; 12], Error>
    ensures { Gives ⊥ buf.new result (block_at 12 buf.old) }
{
    let (nonce, rest) = buf.0.split_first_chunk::<12>().ok_or(Error::EndOfBody)?;
    buf.0 = rest;
    Ok(*nonce)
}

/// The only error is [`Error::EndOfBody`], if there are fewer than 17 bytes.
impl<'de> MyDeserialize<'de> for StartEncryptionEvent {
    const SIZE: Option<usize> = Some(BODY_LEN);

    type Ctx = BinlogCtx<'de>;

    ghost reads = { λ _. start_encryption.reads };

    ghost size = { Some 17 };

    fn deserialize(
        _alloc: Global,
        _ctx: Self::Ctx,
        buf: &mut ParseBuf<'de>,
    ) -> Result<Self, Error> {
        if buf.len() < BODY_LEN {
            return Err(Error::EndOfBody);
        }
        let scheme = u8::read(buf)?;
        let key_version = LeU32::read(buf)?;
        let nonce = read_nonce(buf)?;
        Ok(StartEncryptionEvent {
            scheme,
            key_version,
            nonce,
        })
    }
}

impl Put for StartEncryptionEvent {
    ghost bytes = { start_encryption.written };

    fn check(&self) -> Result<(), Error> {
        Ok(())
    }

    fn written_len(&self) -> usize {
        BODY_LEN
    }

    fn put(&self, buf: &mut Vec<u8>) {
        u8::put(self.scheme, buf);
        LeU32::put(self.key_version, buf);
        buf.extend_from_slice(&self.nonce).unwrap();
    }
}

impl<'a> MariaEvent<'a> for StartEncryptionEvent {
    const EVENT_TYPE: MariaEventType = MariaEventType::START_ENCRYPTION_EVENT;

    ghost format = { λ _ _. start_encryption };

    ghost raw_type = { λ _. 164 };

    ghost reading = { λ _. refl };

    ghost writing = { λ _ _ _. refl };
}
