//! How the characters of a set are coded.
ghost use Rattle.std.specs.Prelude.{◌≡◌};
ghost use Rattle.std.specs.Bool.{OnTrue};
ghost use Rattle.character_sets.specs.Coding.{coding_of, has_ascii_bytes};
ghost use Rattle.character_sets.specs.Utf8Texts.{IsUtf8Coding};

use crate::character_set::CharacterSet;

/// How the characters of a set are coded.
#[derive(Clone, Copy)]
pub(crate) enum Coding {
    /// A byte for each character, by a table.
    SingleByte,
    /// UTF-8 of characters below U+10000.
    BasicUtf8,
    /// UTF-8.
    Utf8,
    /// Two bytes for each character, the high one first.
    Ucs2,
    /// UTF-16, the high byte of a unit first.
    Utf16,
    /// UTF-16, the low byte of a unit first.
    Utf16le,
    /// Four bytes for each character, the highest first.
    Utf32,
    /// Not decoded.
    Unknown,
}

/// How the characters of this set are coded.
#[inline]
#[tactic(auto, unfolding(crate::specs::Coding::coding_of))]
pub(crate) fn coding_of(set: CharacterSet) -> Coding
    ensures { result ≡ coding_of set }
{
    match set {
        CharacterSet::Utf8mb3 => Coding::BasicUtf8,
        CharacterSet::Utf8mb4 => Coding::Utf8,
        CharacterSet::Ucs2 => Coding::Ucs2,
        CharacterSet::Utf16 => Coding::Utf16,
        CharacterSet::Utf16le => Coding::Utf16le,
        CharacterSet::Utf32 => Coding::Utf32,
        CharacterSet::Binary
        | CharacterSet::Big5
        | CharacterSet::Cp932
        | CharacterSet::Eucjpms
        | CharacterSet::Euckr
        | CharacterSet::Gb18030
        | CharacterSet::Gb2312
        | CharacterSet::Gbk
        | CharacterSet::Sjis
        | CharacterSet::Ujis => Coding::Unknown,
        _ => Coding::SingleByte,
    }
}

/// Whether the bytes below 0x80 are ASCII, and each byte is a character.
#[tactic(auto, unfolding(crate::specs::Coding::has_ascii_bytes))]
pub(crate) fn has_ascii_bytes(set: CharacterSet) -> bool
    ensures { result ≡ has_ascii_bytes set }
{
    match set {
        CharacterSet::Swe7 => false,
        _ => matches!(coding_of(set), Coding::SingleByte),
    }
}

/// Whether this is UTF-8, of all characters or of some.
pub(crate) fn is_utf8(coding: Coding) -> bool
    ensures { OnTrue result (IsUtf8Coding coding) }
{
    matches!(coding, Coding::Utf8 | Coding::BasicUtf8)
}

/// Which of the two bytes of a unit is first.
#[derive(Clone, Copy)]
pub(crate) enum ByteOrder {
    /// The high one.
    BigEndian,
    /// The low one.
    LittleEndian,
}
