//! What a table map states of a column.
ghost use Rattle.std.specs.Prelude.{◌≡◌};
ghost use Rattle.binlog_optional_metadata.specs.Facts.{is_binary};

use character_sets::CharacterSet;

/// What the optional metadata of a table map states of a column, besides its type.
#[derive(Debug, PartialEq, Eq, Hash, Drop)]
pub struct ColumnFacts<'a> {
    /// The name, if it is stated.
    pub name: Option<&'a str>,
    /// The column is stated to be UNSIGNED. Without that its integers are read as signed.
    pub is_unsigned: bool,
    /// The character set of the collation that is stated of the column: of its strings, or of the members of an ENUM or a SET. None
    /// where no collation is stated, and where the number isn't that of a collation of the server that wrote the log
    /// ([`CharacterSet::from_collation`], [`CharacterSet::from_mariadb_collation`]).
    pub character_set: Option<CharacterSet>,
    /// The number of bytes to which the strings of a column with the character set `binary` are padded with zeros, at most 1,023:
    /// the length of a BINARY, whose trailing zeros aren't in its rows. 0 for any other column.
    pub padded_length: u32,
    /// The members of an ENUM or a SET, in order, if they are stated.
    pub members: Option<Vec<&'a [u8]>>,
}

impl ColumnFacts<'_> {
    /// Whether the column is stated to have the character set `binary`, so that its strings are bytes.
    pub fn is_binary(&self) -> bool
        ensures { result ≡ is_binary self.now.character_set }
    {
        is_binary(self.character_set)
    }
}

/// Whether the character set is stated, and is `binary`.
pub(crate) fn is_binary(character_set: Option<CharacterSet>) -> bool
    ensures { result ≡ is_binary character_set }
{
    matches!(character_set, Some(CharacterSet::Binary))
}
