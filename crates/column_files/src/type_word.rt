//! The words with which types begin.
ghost use Rattle.std.specs.Prelude.{◌≡◌, bytes_eq, find};
ghost use Rattle.column_files.specs.TypeWords.{name_of, all_words, word_named};

/// A word with which a type begins.
#[derive(Clone, Copy, Debug, PartialEq, Eq)]
pub(crate) enum Word {
    TinyInt,
    SmallInt,
    MediumInt,
    Int,
    BigInt,
    Float,
    Double,
    Decimal,
    Bit,
    Year,
    Date,
    Time,
    DateTime,
    Timestamp,
    Char,
    VarChar,
    Binary,
    VarBinary,
    TinyText,
    Text,
    MediumText,
    LongText,
    TinyBlob,
    Blob,
    MediumBlob,
    LongBlob,
    Enum,
    Set,
    Geometry,
    Point,
    LineString,
    Polygon,
    MultiPoint,
    MultiLineString,
    MultiPolygon,
    GeometryCollection,
    GeomCollection,
    Json,
    Inet4,
    Inet6,
    Uuid,
    Vector,
}

/// All words.
pub(crate) const WORDS: [Word; 42] = [
    Word::TinyInt,
    Word::SmallInt,
    Word::MediumInt,
    Word::Int,
    Word::BigInt,
    Word::Float,
    Word::Double,
    Word::Decimal,
    Word::Bit,
    Word::Year,
    Word::Date,
    Word::Time,
    Word::DateTime,
    Word::Timestamp,
    Word::Char,
    Word::VarChar,
    Word::Binary,
    Word::VarBinary,
    Word::TinyText,
    Word::Text,
    Word::MediumText,
    Word::LongText,
    Word::TinyBlob,
    Word::Blob,
    Word::MediumBlob,
    Word::LongBlob,
    Word::Enum,
    Word::Set,
    Word::Geometry,
    Word::Point,
    Word::LineString,
    Word::Polygon,
    Word::MultiPoint,
    Word::MultiLineString,
    Word::MultiPolygon,
    Word::GeometryCollection,
    Word::GeomCollection,
    Word::Json,
    Word::Inet4,
    Word::Inet6,
    Word::Uuid,
    Word::Vector,
];

impl Word {
    /// The word as a server spells it, of lower-case letters and digits.
    #[tactic(auto, unfolding(crate::specs::TypeWords::name_of))]
    pub(crate) fn name(self) -> &'static [u8]
        ensures { result.now ≡ name_of self }
    {
        match self {
            Word::TinyInt => b"tinyint",
            Word::SmallInt => b"smallint",
            Word::MediumInt => b"mediumint",
            Word::Int => b"int",
            Word::BigInt => b"bigint",
            Word::Float => b"float",
            Word::Double => b"double",
            Word::Decimal => b"decimal",
            Word::Bit => b"bit",
            Word::Year => b"year",
            Word::Date => b"date",
            Word::Time => b"time",
            Word::DateTime => b"datetime",
            Word::Timestamp => b"timestamp",
            Word::Char => b"char",
            Word::VarChar => b"varchar",
            Word::Binary => b"binary",
            Word::VarBinary => b"varbinary",
            Word::TinyText => b"tinytext",
            Word::Text => b"text",
            Word::MediumText => b"mediumtext",
            Word::LongText => b"longtext",
            Word::TinyBlob => b"tinyblob",
            Word::Blob => b"blob",
            Word::MediumBlob => b"mediumblob",
            Word::LongBlob => b"longblob",
            Word::Enum => b"enum",
            Word::Set => b"set",
            Word::Geometry => b"geometry",
            Word::Point => b"point",
            Word::LineString => b"linestring",
            Word::Polygon => b"polygon",
            Word::MultiPoint => b"multipoint",
            Word::MultiLineString => b"multilinestring",
            Word::MultiPolygon => b"multipolygon",
            Word::GeometryCollection => b"geometrycollection",
            Word::GeomCollection => b"geomcollection",
            Word::Json => b"json",
            Word::Inet4 => b"inet4",
            Word::Inet6 => b"inet6",
            Word::Uuid => b"uuid",
            Word::Vector => b"vector",
        }
    }

    /// The word with this name.
    #[tactic(auto, unfolding(crate::specs::TypeWords::all_words))]
    pub(crate) fn from_name(name: &[u8]) -> Option<Word>
        ensures { result ≡ word_named name.now }
    {
        WORDS.iter().copied().find(|word| word.name() == name)
    }
}
