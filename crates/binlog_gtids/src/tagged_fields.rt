//! The fields of a GTID with a tag, while they are read.
ghost use Rattle.std.specs.Prelude.{◌≡◌, ◌≤◌, ◌<◌, refl, ◌⊎◌, List, [], Ok, true, false, length, MatchOption, MatchResult, IfOk};
ghost use Rattle.binlog_wire.specs.declared.error.Error.TheVariants.{InvalidData};
ghost use Rattle.binlog_wire.specs.Reading.{Gives, Refuses};
ghost use Rattle.binlog_wire.specs.declared.error.Invalid.TheVariants as kinds;
ghost use Rattle.binlog_variable_fields.specs.Formats.{tested};
ghost use Rattle.binlog_variable_fields.specs.Repeated.{times_at};
ghost use Rattle.binlog_variable_fields.specs.Tags.{is_tag};
ghost use Rattle.binlog_variable_fields.specs.Varlen.{varlen_at};
ghost use Rattle.binlog_variable_fields.specs.VarlenTexts.{varlen_text};
ghost use Rattle.binlog_gtids.specs.TaggedFields.{Entry, value_of_id, at_most, not_negative};
ghost use Rattle.binlog_gtids.specs.TaggedValues.{Value, is_tail};
ghost use Rattle.binlog_gtids.specs.Tagged.{fields};
ghost use Rattle.binlog_gtids.specs.Taking.{no_fields, with_entry, taken};

use crate::field_id;
use binlog_variable_fields::{Tag, Varlen, read_varlen_text};
use binlog_wire::{Error, IntRepr, Invalid, ParseBuf};

/// The greatest server version.
const MAX_VERSION: u64 = 4_294_967_295;

/// The fields that were read so far. If a field is repeated, the last one counts.
#[derive(Drop)]
pub(crate) struct TaggedFields<'a> {
    pub(crate) flags: Option<u8>,
    pub(crate) sid: Option<[u8; 16]>,
    pub(crate) gno: Option<u64>,
    pub(crate) tag: Option<Tag<'a>>,
    pub(crate) last_committed: Option<u64>,
    pub(crate) sequence_number: Option<u64>,
    pub(crate) immediate_commit_timestamp: Option<u64>,
    pub(crate) original_commit_timestamp: Option<u64>,
    pub(crate) tx_length: Option<u64>,
    pub(crate) immediate_server_version: Option<u32>,
    pub(crate) original_server_version: Option<u32>,
    pub(crate) commit_group_ticket: Option<u64>,
}

/// Reads a number of at most `max`: the value of the field with this id.
fn read_limited(id: u64, max: u64, buf: &mut ParseBuf<'_>) -> Result<u64, Error>
    ensures number { Gives ⊥ buf.new result ((at_most id max).reads buf.old) }
    ensures limit { IfOk result (λ number. number ≤ max) }
{
    let number = Varlen::read(buf)?;
    if number > max {
        return Err(Error::InvalidData(Invalid::FieldRange(id)));
    }
    Ok(number)
}

/// Reads a signed number that isn't negative: the value of the field with this id.
fn read_not_negative(id: u64, buf: &mut ParseBuf<'_>) -> Result<u64, Error>
    ensures { Gives ⊥ buf.new result ((not_negative id).reads buf.old) }
{
    let number = Varlen::read(buf)?;
    if number % 2 == 1 {
        return Err(Error::InvalidData(Invalid::Negative(id)));
    }
    Ok(number / 2)
}

/// Reads a byte of a source's UUID.
fn read_sid_byte(buf: &mut ParseBuf<'_>) -> Result<u8, Error>
    ensures { Gives ⊥ buf.new result ((at_most 1 255).reads buf.old) }
{
    Ok(read_limited(field_id::SID, 255, buf)? as u8)
}

/// Reads a source's UUID, whose bytes are encoded as one number each.
fn read_sid_bytes(buf: &mut ParseBuf<'_>) -> Result<[u8; 16], Error>
    ensures { Gives ⊥ buf.new result (times_at 16 (at_most 1 255).reads buf.old) }
{
    let mut sid = [0; 16];
    for index in 0..16 {
        sid[index] = read_sid_byte(buf)?;
    }
    Ok(sid)
}

/// Reads a tag after its length.
fn read_tag<'a>(buf: &mut ParseBuf<'a>) -> Result<Tag<'a>, Error>
    ensures { Gives ⊥ buf.new result ((tested varlen_text (λ _. refl) is_tag kinds.Tag).reads buf.old) }
{
    let text = read_varlen_text(buf)?;
    Tag::from_bytes(text)
}

/// Reads the id of the next field. None at the end of the fields: no byte is left, or the next id is unknown and may
/// be ignored.
#[inline]
fn next_id(last_id: u64, buf: &mut ParseBuf<'_>) -> Result<Option<u64>, Error>
    ensures { MatchResult result
        (λ next. MatchOption next (is_tail last_id buf.old ≡ true) (λ id. (is_tail last_id buf.old ≡ false) × (varlen_at buf.old ≡ Ok (id, buf.new))))
        (λ e. (1 ≤ length buf.old) × Refuses ⊥ e (varlen_at buf.old)) }
{
    if buf.is_empty() {
        return Ok(None);
    }
    let id = Varlen::read(buf)?;
    if id > field_id::COMMIT_GROUP_TICKET && id > last_id {
        return Ok(None);
    }
    Ok(Some(id))
}

/// Reads the value of the field with this id, 0 to 11.
fn read_value<'a>(
    id: u64,
    fields: &mut TaggedFields<'a>,
    buf: &mut ParseBuf<'a>,
) -> Result<(), Error>
    ensures { MatchResult result
        (λ _. (value : Value) × (id < 12) × ((value_of_id id).reads buf.old ≡ Ok (value, buf.new)) × (fields.new ≡ with_entry (id, value) fields.old))
        (λ e. ((id < 12) × Refuses ⊥ e ((value_of_id id).reads buf.old)) ⊎ ((11 < id) × (e ≡ InvalidData (kinds.UnknownField id)))) }
{
    match id {
        field_id::GTID_FLAGS => fields.flags = Some(
            read_limited(field_id::GTID_FLAGS, 255, buf)? as u8,
        ),
        field_id::SID => fields.sid = Some(read_sid_bytes(buf)?),
        field_id::GNO => {
            fields.gno = Some(read_not_negative(field_id::GNO, buf)?);
        }
        field_id::TAG => fields.tag = Some(read_tag(buf)?),
        field_id::LAST_COMMITTED => {
            fields.last_committed = Some(read_not_negative(field_id::LAST_COMMITTED, buf)?);
        }
        field_id::SEQUENCE_NUMBER => {
            fields.sequence_number = Some(read_not_negative(field_id::SEQUENCE_NUMBER, buf)?);
        }
        field_id::IMMEDIATE_COMMIT_TIMESTAMP => {
            fields.immediate_commit_timestamp = Some(Varlen::read(buf)?);
        }
        field_id::ORIGINAL_COMMIT_TIMESTAMP => {
            fields.original_commit_timestamp = Some(Varlen::read(buf)?);
        }
        field_id::TRANSACTION_LENGTH => fields.tx_length = Some(Varlen::read(buf)?),
        field_id::IMMEDIATE_SERVER_VERSION => {
            fields.immediate_server_version = Some(
                read_limited(field_id::IMMEDIATE_SERVER_VERSION, MAX_VERSION, buf)? as u32,
            );
        }
        field_id::ORIGINAL_SERVER_VERSION => {
            fields.original_server_version = Some(
                read_limited(field_id::ORIGINAL_SERVER_VERSION, MAX_VERSION, buf)? as u32,
            );
        }
        field_id::COMMIT_GROUP_TICKET => fields.commit_group_ticket = Some(Varlen::read(buf)?),
        _ => return Err(Error::InvalidData(Invalid::UnknownField(id))),
    }
    Ok(())
}

impl<'a> TaggedFields<'a> {
    /// No fields.
    fn none() -> Self
        ensures { result ≡ no_fields }
    {
        TaggedFields {
            flags: None,
            sid: None,
            gno: None,
            tag: None,
            last_committed: None,
            sequence_number: None,
            immediate_commit_timestamp: None,
            original_commit_timestamp: None,
            tx_length: None,
            immediate_server_version: None,
            original_server_version: None,
            commit_group_ticket: None,
        }
    }

    /// Reads the fields up to the end of these bytes, for a body with this last non-ignorable field id.
    pub(crate) fn read(last_id: u64, body: &'a [u8]) -> Result<Self, Error>
        ensures { MatchResult result
            (λ known. (es : List Entry) × ((fields last_id).reads body.now ≡ Ok (es, [])) × (known ≡ taken es no_fields))
            (λ e. Refuses ⊥ e ((fields last_id).reads body.now)) }
    {
        let mut fields = Self::none();
        let mut buf = ParseBuf(body);
        while let Some(id) = next_id(last_id, &mut buf)? {
            read_value(id, &mut fields, &mut buf)?;
        }
        Ok(fields)
    }
}
