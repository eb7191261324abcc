//! The types of the fields.
use thiserror::Error;

/// The type of a field of the optional metadata, as its first byte states it.
///
/// Source: MySQL's documentation of its source code, `Table_map_event::Optional_metadata_field_type`.
#[allow(non_camel_case_types)]
#[derive(Clone, Copy, Debug, PartialEq, Eq, Hash)]
pub enum OptionalMetadataFieldType {
    /// Whether each numeric column is unsigned.
    SIGNEDNESS = 1,
    /// The collation of the character columns, and others of some of them.
    DEFAULT_CHARSET = 2,
    /// The collation of each character column.
    COLUMN_CHARSET = 3,
    /// The name of each column.
    COLUMN_NAME = 4,
    /// The members of each SET column.
    SET_STR_VALUE = 5,
    /// The members of each ENUM column.
    ENUM_STR_VALUE = 6,
    /// The type of each GEOMETRY column.
    GEOMETRY_TYPE = 7,
    /// The columns of the primary key.
    SIMPLE_PRIMARY_KEY = 8,
    /// The columns of the primary key, and how much of each is in it.
    PRIMARY_KEY_WITH_PREFIX = 9,
    /// The collation of the ENUM and SET columns, and others of some of them.
    ENUM_AND_SET_DEFAULT_CHARSET = 10,
    /// The collation of each ENUM and SET column.
    ENUM_AND_SET_COLUMN_CHARSET = 11,
    /// Whether each column is visible.
    COLUMN_VISIBILITY = 12,
    /// The number of dimensions of each VECTOR column.
    VECTOR_DIMENSIONALITY = 13,
}

/// A byte that isn't the number of a type of field.
#[derive(Clone, Copy, Debug, PartialEq, Eq, Hash, Error)]
#[error("the optional metadata field type {0} is not known")]
pub struct UnknownOptionalMetadataFieldType(pub u8);

/// The type of field with this number.
impl TryFrom<u8> for OptionalMetadataFieldType {
    ghost use Rattle.std.specs.Prelude.{◌≡◌};
    ghost use Rattle.binlog_optional_metadata.specs.FieldTypes.{field_type_of};

    type Error = UnknownOptionalMetadataFieldType;

    ghost try_from_gives = { λ number answer. answer ≡ field_type_of number };

    fn try_from(number: u8) -> Result<Self, UnknownOptionalMetadataFieldType> {
        match number {
            1 => Ok(OptionalMetadataFieldType::SIGNEDNESS),
            2 => Ok(OptionalMetadataFieldType::DEFAULT_CHARSET),
            3 => Ok(OptionalMetadataFieldType::COLUMN_CHARSET),
            4 => Ok(OptionalMetadataFieldType::COLUMN_NAME),
            5 => Ok(OptionalMetadataFieldType::SET_STR_VALUE),
            6 => Ok(OptionalMetadataFieldType::ENUM_STR_VALUE),
            7 => Ok(OptionalMetadataFieldType::GEOMETRY_TYPE),
            8 => Ok(OptionalMetadataFieldType::SIMPLE_PRIMARY_KEY),
            9 => Ok(OptionalMetadataFieldType::PRIMARY_KEY_WITH_PREFIX),
            10 => Ok(OptionalMetadataFieldType::ENUM_AND_SET_DEFAULT_CHARSET),
            11 => Ok(OptionalMetadataFieldType::ENUM_AND_SET_COLUMN_CHARSET),
            12 => Ok(OptionalMetadataFieldType::COLUMN_VISIBILITY),
            13 => Ok(OptionalMetadataFieldType::VECTOR_DIMENSIONALITY),
            0 => Err(UnknownOptionalMetadataFieldType(number)),
            14..=255 => Err(UnknownOptionalMetadataFieldType(number)),
        }
    }
}
