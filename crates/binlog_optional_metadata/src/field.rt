//! The fields of the optional metadata.
use crate::default_charset::DefaultCharset;
use crate::indexed_numbers::IndexedNumbers;
use crate::member_lists::MemberLists;
use crate::metadata_bits::MetadataBits;
use crate::names::Names;
use crate::numbers::Numbers;

/// A field of the optional metadata. Columns of a class are counted in the order of the table, from 0.
#[derive(Clone, Copy, Debug)]
pub enum OptionalMetadataField<'a> {
    /// Whether each numeric column is unsigned.
    Signedness(MetadataBits<'a>),
    /// The number of the collation of the character columns, and others of some of them.
    DefaultCharset(DefaultCharset<'a>),
    /// The number of the collation of each character column.
    ColumnCharset(Numbers<'a>),
    /// The name of each column.
    ColumnName(Names<'a>),
    /// The members of each SET column.
    SetStrValue(MemberLists<'a>),
    /// The members of each ENUM column.
    EnumStrValue(MemberLists<'a>),
    /// The type of each GEOMETRY column: 0 any, 1 point, 2 line string, 3 polygon, 4 to 6 several of these, 7
    /// collection. Other numbers aren't refused.
    GeometryType(Numbers<'a>),
    /// The indexes of the columns of the primary key, in the order of the key.
    SimplePrimaryKey(Numbers<'a>),
    /// The indexes of the columns of the primary key, in the order of the key, and how many characters of each are in
    /// it: 0 for all of the column.
    PrimaryKeyWithPrefix(IndexedNumbers<'a>),
    /// The number of the collation of the ENUM and SET columns, and others of some of them. ENUM and SET columns are
    /// one class here.
    EnumAndSetDefaultCharset(DefaultCharset<'a>),
    /// The number of the collation of each ENUM and SET column.
    EnumAndSetColumnCharset(Numbers<'a>),
    /// Whether each column is visible.
    ColumnVisibility(MetadataBits<'a>),
    /// The number of dimensions of each VECTOR column.
    VectorDimensionality(Numbers<'a>),
    /// A field of a type that isn't known: the number of the type, and its bytes.
    Other(u8, &'a [u8]),
}
