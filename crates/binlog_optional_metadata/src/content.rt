//! The contents of the fields.
ghost use Rattle.binlog_wire.specs.Reading.{Gives};
ghost use Rattle.binlog_optional_metadata.specs.Fields.{known_content};
ghost use Rattle.binlog_optional_metadata.specs.FieldValues.{answer_content};

use crate::class_counts::ClassCounts;
use crate::default_charset::DefaultCharset;
use crate::field::OptionalMetadataField;
use crate::field_type::OptionalMetadataFieldType;
use crate::indexed_numbers::IndexedNumbers;
use crate::member_lists::MemberLists;
use crate::metadata_bits::MetadataBits;
use crate::names::Names;
use crate::numbers::Numbers;
use binlog_wire::{Error, ParseBuf};

/// Takes the content of a field of this type from the start of `buf`, for a table with these numbers of columns.
pub(crate) fn read_content<'a>(
    field_type: OptionalMetadataFieldType,
    counts: &ClassCounts,
    buf: &mut ParseBuf<'a>,
) -> Result<OptionalMetadataField<'a>, Error>
    ensures { Gives ⊥ buf.new (answer_content result) ((known_content counts.now field_type).reads buf.old) }
{
    use OptionalMetadataField as Field;
    use OptionalMetadataFieldType as Type;
    let columns = counts.columns;
    let character = counts.character;
    Ok(match field_type {
        Type::SIGNEDNESS => Field::Signedness(MetadataBits::read(counts.numeric, buf)?),
        Type::DEFAULT_CHARSET => Field::DefaultCharset(DefaultCharset::read(character, buf)?),
        Type::COLUMN_CHARSET => Field::ColumnCharset(Numbers::read(character, buf)?),
        Type::COLUMN_NAME => Field::ColumnName(Names::read(columns, buf)?),
        Type::SET_STR_VALUE => Field::SetStrValue(MemberLists::read(counts.sets, buf)?),
        Type::ENUM_STR_VALUE => Field::EnumStrValue(MemberLists::read(counts.enums, buf)?),
        Type::GEOMETRY_TYPE => Field::GeometryType(Numbers::read(counts.geometries, buf)?),
        Type::SIMPLE_PRIMARY_KEY => Field::SimplePrimaryKey(Numbers::read_indexes(columns, buf)?),
        Type::PRIMARY_KEY_WITH_PREFIX => {
            Field::PrimaryKeyWithPrefix(IndexedNumbers::read(columns, buf)?)
        }
        Type::ENUM_AND_SET_DEFAULT_CHARSET => {
            Field::EnumAndSetDefaultCharset(DefaultCharset::read(counts.listed, buf)?)
        }
        Type::ENUM_AND_SET_COLUMN_CHARSET => {
            Field::EnumAndSetColumnCharset(Numbers::read(counts.listed, buf)?)
        }
        Type::COLUMN_VISIBILITY => Field::ColumnVisibility(MetadataBits::read(columns, buf)?),
        Type::VECTOR_DIMENSIONALITY => {
            Field::VectorDimensionality(Numbers::read(counts.vectors, buf)?)
        }
    })
}
