//! The optional metadata of a table map.
ghost use Rattle.std.specs.Prelude.{◌≡◌, ◌<◌, length};
ghost use Rattle.binlog_columns.specs.TableColumns.{columns_of};
ghost use Rattle.binlog_wire.specs.Reading.{Gives};
ghost use Rattle.binlog_optional_metadata.specs.Fields.{content, field};
ghost use Rattle.binlog_optional_metadata.specs.FieldValues.{answer_content};
ghost use Rattle.binlog_optional_metadata.specs.FieldsLeft.{whole_content, first_field, answer_first, answer_field_content};
ghost use Rattle.binlog_optional_metadata.specs.FieldStates.{answer_field};

use crate::class_counts::ClassCounts;
use crate::content::read_content;
use crate::field::OptionalMetadataField;
use crate::field_type::OptionalMetadataFieldType;
use crate::metadata_error::{OptionalMetadataError, OptionalMetadataErrorKind, kind_of};
use binlog_columns::TableColumns;
use binlog_variable_fields::LenEncBytes;
use binlog_wire::{BytesRepr, EofBytes, Error, IntRepr, ParseBuf};

/// The optional metadata of a table map: an iterator over its fields. It borrows the bytes of the table map and allocates
/// nothing.
///
/// A field whose content is refused is an error in its place, and the fields after it follow. Where the type or the length of
/// a field can't be read, it isn't known where the next field begins: its error is the last item. A field that is given twice
/// is an item twice.
#[derive(Clone, Copy, Debug)]
pub struct OptionalMetadata<'a> {
    counts: ClassCounts,
    rest: &'a [u8],
}

/// Takes the type and the content of a field from the start of `buf`.
fn read_field<'a>(buf: &mut ParseBuf<'a>) -> Result<(u8, &'a [u8]), Error>
    ensures { Gives ⊥ buf.new (answer_field result) (field.reads buf.old) }
{
    let number = <u8 as IntRepr>::read(buf)?;
    let content = LenEncBytes::read((), buf)?;
    Ok((number, content))
}

/// The content of a field of this type.
fn typed<'a>(
    number: u8,
    counts: &ClassCounts,
    buf: &mut ParseBuf<'a>,
) -> Result<OptionalMetadataField<'a>, Error>
    ensures { Gives ⊥ buf.new (answer_content result) ((content counts.now number).reads buf.old) }
{
    match OptionalMetadataFieldType::try_from(number) {
        Ok(field_type) => read_content(field_type, counts, buf),
        Err(unknown) => {
            let content = EofBytes::read((), buf)?;
            Ok(OptionalMetadataField::Other(unknown.0, content))
        }
    }
}

/// The content of a field of this type, which has to be all of these bytes.
#[tactic(auto, using(crate::proofs::Fields::content_taken, crate::proofs::Fields::content_refused, crate::proofs::Fields::content_left_over))]
fn whole_content<'a>(
    number: u8,
    counts: &ClassCounts,
    bytes: &'a [u8],
) -> Result<OptionalMetadataField<'a>, OptionalMetadataError>
    ensures { answer_field_content result ≡ whole_content number ((content counts.now number).reads bytes.now) }
{
    let mut rest = ParseBuf(bytes);
    let kind = match typed(number, counts, &mut rest) {
        Ok(field) => {
            if rest.0.is_empty() {
                return Ok(field);
            }
            OptionalMetadataErrorKind::LeftOver
        }
        Err(error) => kind_of(error),
    };
    Err(OptionalMetadataError {
        kind,
        field_type: Some(number),
    })
}

/// The first field of these bytes or its refusal, and the bytes after it.
#[tactic(auto, using(crate::proofs::Fields::field_given, crate::proofs::Fields::field_refused))]
fn first_field<'a>(
    counts: &ClassCounts,
    bytes: &'a [u8],
) -> (
    Result<OptionalMetadataField<'a>, OptionalMetadataError>,
    &'a [u8],
)
    ensures first { answer_first result ≡ first_field counts.now bytes.now }
    ensures shorter { 0 < length bytes.now → length result.1.now < length bytes.now }
{
    let mut rest = ParseBuf(bytes);
    match read_field(&mut rest) {
        Ok((number, content)) => (whole_content(number, counts, content), rest.0),
        Err(error) => {
            let error = OptionalMetadataError {
                kind: kind_of(error),
                field_type: None,
            };
            (Err(error), &[])
        }
    }
}

impl<'a> OptionalMetadata<'a> {
    ghost use Rattle.binlog_optional_metadata.specs.Counts.{counts_of};

    /// The fields in these bytes, of a table with these columns. Which columns have a collation depends on the server that
    /// wrote the log ([`ColumnClass::character`](crate::ColumnClass::character)).
    pub fn new(columns: TableColumns<'_>, bytes: &'a [u8], is_maria_log: bool) -> Self
        ensures counts { result.counts ≡ counts_of is_maria_log (columns_of columns.entry) }
        ensures bytes { result.rest.now ≡ bytes.now }
    {
        OptionalMetadata {
            counts: ClassCounts::new(columns, is_maria_log),
            rest: bytes,
        }
    }
}

/// The fields that are left, in order.
impl<'a> Iterator for OptionalMetadata<'a> {
    type Item = Result<OptionalMetadataField<'a>, OptionalMetadataError>;

    ghost use Rattle.std.specs.Iterator.{at_most};
    ghost use Rattle.binlog_optional_metadata.specs.FieldStates.{GivesField};

    ghost next_gives = { GivesField };

    ghost remaining = { λ metadata. at_most (length metadata.rest.now) };

    fn next(&mut self) -> Option<Result<OptionalMetadataField<'a>, OptionalMetadataError>> {
        if self.rest.is_empty() {
            return None;
        }
        let (item, rest) = first_field(&self.counts, self.rest);
        self.rest = rest;
        Some(item)
    }
}
