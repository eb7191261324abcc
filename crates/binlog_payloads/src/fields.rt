//! The fields at the front of an event's data.
ghost use Rattle.std.specs.Prelude.{◌≡◌, length, IfOk, IfErr, OnOk};
ghost use Rattle.binlog_payloads.specs.Fields.{field, fields, nothing, number, number_once, value, whole_number, width, with_field};

use crate::compression::TransactionPayloadCompressionType;
use crate::error::PayloadError;
use binlog_variable_fields::LenEnc;
use binlog_wire::{Error, IntRepr, ParseBuf};

/// The type of the field that ends the fields.
pub(crate) const END: u64 = 0;

/// The type of the payload's size.
pub(crate) const PAYLOAD_SIZE: u64 = 1;

/// The type of the compression type.
pub(crate) const COMPRESSION_TYPE: u64 = 2;

/// The type of the content's size.
pub(crate) const UNCOMPRESSED_SIZE: u64 = 3;

/// What fields state.
#[derive(Clone, Copy, Debug, Drop)]
pub struct Stated {
    /// The number of bytes of the payload.
    pub payload_size: Option<u64>,
    /// How the payload is compressed.
    pub algorithm: Option<TransactionPayloadCompressionType>,
    /// The number of bytes of the content.
    pub uncompressed_size: Option<u64>,
}

/// Takes all fields and their end from the start of `buf`.
///
/// # Errors
///
/// The first of these that the bytes meet: [`PayloadError::EventTruncated`], [`PayloadError::Lenenc`],
/// [`PayloadError::FieldTwice`], [`PayloadError::FieldLength`], [`PayloadError::Kind`].
pub(crate) fn read_fields(buf: &mut ParseBuf<'_>) -> Result<Stated, PayloadError>
    ensures found { IfOk result (λ stated. fields (length buf.old) nothing buf.old ≡ Ok (stated, buf.new)) }
    ensures none { IfErr result (λ e. fields (length buf.old) nothing buf.old ≡ Err e) }
{
    let mut stated = Stated {
        payload_size: None,
        algorithm: None,
        uncompressed_size: None,
    };
    'fields: for _ in 0..buf.0.len() {
        let is_end = read_field(&mut stated, buf)?;
        if is_end {
            return Ok(stated);
        }
    }
    Err(PayloadError::EventTruncated)
}

// Takes a field from the start of `buf`, and says whether it is the fields' end.
#[tactic(auto, unfolding(crate::specs::Fields::field))]
fn read_field(stated: &mut Stated, buf: &mut ParseBuf<'_>) -> Result<bool, PayloadError>
    ensures found { IfOk result (λ is_end. field stated.old buf.old ≡ Ok (record { stated = stated.new; rest = buf.new; is_end = is_end })) }
    ensures none { IfErr result (λ e. field stated.old buf.old ≡ Err e) }
{
    let kind = read_number(buf)?;
    if kind == END {
        return Ok(true);
    }
    let value = read_value(buf)?;
    *stated = with_field(kind, value, *stated)?;
    Ok(false)
}

// What is stated behind a field of this type with this value.
#[tactic(auto, unfolding(crate::specs::Fields::with_field))]
fn with_field(kind: u64, value: &[u8], stated: Stated) -> Result<Stated, PayloadError>
    ensures { result ≡ with_field kind value.now stated }
{
    let mut after = stated;
    match kind {
        PAYLOAD_SIZE => {
            after.payload_size = Some(number_once(stated.payload_size.is_some(), value)?);
        }
        COMPRESSION_TYPE => {
            let number = number_once(stated.algorithm.is_some(), value)?;
            after.algorithm = Some(TransactionPayloadCompressionType::of_number(number)?);
        }
        UNCOMPRESSED_SIZE => {
            after.uncompressed_size = Some(number_once(stated.uncompressed_size.is_some(), value)?);
        }
        _ => {}
    }
    Ok(after)
}

// The number of a field that may be there once.
#[tactic(auto, unfolding(crate::specs::Fields::number_once))]
fn number_once(was_given: bool, value: &[u8]) -> Result<u64, PayloadError>
    ensures { result ≡ number_once was_given value.now }
{
    if was_given {
        return Err(PayloadError::FieldTwice);
    }
    whole_number(value)
}

// The number that is all of a value.
#[tactic(auto, unfolding(crate::specs::Fields::whole_number))]
fn whole_number(value: &[u8]) -> Result<u64, PayloadError>
    ensures { result ≡ whole_number value.now }
{
    if value.is_empty() || value.len() != width(value[0]) {
        return Err(PayloadError::FieldLength);
    }
    read_number(&mut ParseBuf(value))
}

// The bytes of a number that begins with this byte.
fn width(first: u8) -> usize
    ensures { result ≡ width first }
{
    match first {
        0xfc => 3,
        0xfd => 4,
        0xfe => 9,
        _ => 1,
    }
}

// Takes a length and as many bytes from the start of `buf`, and answers the bytes.
#[tactic(auto, unfolding(crate::specs::Fields::value))]
fn read_value<'a>(buf: &mut ParseBuf<'a>) -> Result<&'a [u8], PayloadError>
    ensures found { IfOk result (λ bytes. value buf.old ≡ Ok (bytes.now, buf.new)) }
    ensures none { IfErr result (λ e. value buf.old ≡ Err e) }
{
    let len = read_number(buf)?;
    if (buf.0.len() as u64) < len {
        return Err(PayloadError::EventTruncated);
    }
    let (bytes, rest) = buf.0.split_at(len as usize);
    buf.0 = rest;
    Ok(bytes)
}

// Takes a number from the start of `buf`.
#[tactic(auto, unfolding(crate::specs::Fields::number))]
fn read_number(buf: &mut ParseBuf<'_>) -> Result<u64, PayloadError>
    ensures found { IfOk result (λ found. number buf.old ≡ Ok (found, buf.new)) }
    ensures none { IfErr result (λ e. number buf.old ≡ Err e) }
{
    match LenEnc::read(buf) {
        Ok(found) => Ok(found),
        Err(Error::EndOfBody) => Err(PayloadError::EventTruncated),
        Err(_) => Err(PayloadError::Lenenc),
    }
}
