//! The character sets of MySQL and MariaDB.
ghost use Rattle.std.specs.Prelude.{◌≡◌, bytes_eq, find};
ghost use Rattle.character_sets.specs.Coding.{coding_of, is_decoded};
ghost use Rattle.character_sets.specs.Names.{name_of, all_sets, old_utf8, set_named};

use crate::coding::{Coding, coding_of};

/// A character set of MySQL or MariaDB. Each server of today has all of them, but MariaDB has no `gb18030`.
#[derive(Clone, Copy, Debug, PartialEq, Eq, Hash)]
pub enum CharacterSet {
    /// ARMSCII-8, Armenian.
    Armscii8,
    /// US-ASCII.
    Ascii,
    /// Big5, traditional Chinese; not decoded.
    Big5,
    /// Bytes that are no text.
    Binary,
    /// Windows code page 1250, Central European.
    Cp1250,
    /// Windows code page 1251, Cyrillic.
    Cp1251,
    /// Windows code page 1256, Arabic, without the letters of Persian and Urdu.
    Cp1256,
    /// Windows code page 1257, Baltic.
    Cp1257,
    /// DOS code page 850, Western European.
    Cp850,
    /// DOS code page 852, Central European.
    Cp852,
    /// DOS code page 866, Cyrillic.
    Cp866,
    /// Windows code page 932, Japanese; not decoded.
    Cp932,
    /// DEC's Multinational Character Set, Western European.
    Dec8,
    /// EUC-JP of Windows, Japanese; not decoded.
    Eucjpms,
    /// EUC-KR, Korean; not decoded.
    Euckr,
    /// GB18030, Chinese; not decoded.
    Gb18030,
    /// GB2312, simplified Chinese; not decoded.
    Gb2312,
    /// GBK, simplified Chinese; not decoded.
    Gbk,
    /// GEOSTD8, Georgian.
    Geostd8,
    /// ISO 8859-7 of 1987, Greek.
    Greek,
    /// ISO 8859-8, Hebrew.
    Hebrew,
    /// HP's Roman-8, Western European.
    Hp8,
    /// KEYBCS2, the Kamenicky encoding of Czech and Slovak.
    Keybcs2,
    /// KOI8-R, Russian.
    Koi8r,
    /// KOI8-U, Ukrainian.
    Koi8u,
    /// Windows code page 1252, Western European, with control characters for the five bytes that it leaves out. It isn't ISO 8859-1.
    Latin1,
    /// ISO 8859-2, Central European.
    Latin2,
    /// ISO 8859-9, Turkish.
    Latin5,
    /// ISO 8859-13, Baltic.
    Latin7,
    /// Mac OS Central European.
    Macce,
    /// Mac OS Roman.
    Macroman,
    /// Shift-JIS, Japanese; not decoded.
    Sjis,
    /// The Swedish variant of ISO 646, of seven bits.
    Swe7,
    /// TIS-620, Thai.
    Tis620,
    /// UTF-16, big-endian, of characters below U+10000 only.
    Ucs2,
    /// EUC-JP, Japanese; not decoded.
    Ujis,
    /// UTF-16, big-endian.
    Utf16,
    /// UTF-16, little-endian.
    Utf16le,
    /// UTF-32, big-endian.
    Utf32,
    /// UTF-8, of characters below U+10000 only.
    Utf8mb3,
    /// UTF-8.
    Utf8mb4,
}

/// All character sets, in the order of their names.
pub const CHARACTER_SETS: [CharacterSet; 41] = [
    CharacterSet::Armscii8,
    CharacterSet::Ascii,
    CharacterSet::Big5,
    CharacterSet::Binary,
    CharacterSet::Cp1250,
    CharacterSet::Cp1251,
    CharacterSet::Cp1256,
    CharacterSet::Cp1257,
    CharacterSet::Cp850,
    CharacterSet::Cp852,
    CharacterSet::Cp866,
    CharacterSet::Cp932,
    CharacterSet::Dec8,
    CharacterSet::Eucjpms,
    CharacterSet::Euckr,
    CharacterSet::Gb18030,
    CharacterSet::Gb2312,
    CharacterSet::Gbk,
    CharacterSet::Geostd8,
    CharacterSet::Greek,
    CharacterSet::Hebrew,
    CharacterSet::Hp8,
    CharacterSet::Keybcs2,
    CharacterSet::Koi8r,
    CharacterSet::Koi8u,
    CharacterSet::Latin1,
    CharacterSet::Latin2,
    CharacterSet::Latin5,
    CharacterSet::Latin7,
    CharacterSet::Macce,
    CharacterSet::Macroman,
    CharacterSet::Sjis,
    CharacterSet::Swe7,
    CharacterSet::Tis620,
    CharacterSet::Ucs2,
    CharacterSet::Ujis,
    CharacterSet::Utf16,
    CharacterSet::Utf16le,
    CharacterSet::Utf32,
    CharacterSet::Utf8mb3,
    CharacterSet::Utf8mb4,
];

impl CharacterSet {
    /// Its name in `information_schema.CHARACTER_SETS`, of lower-case letters and digits.
    #[tactic(auto, unfolding(crate::specs::Names::name_of))]
    pub fn name(self) -> &'static str
        ensures { result.now ≡ name_of self }
    {
        match self {
            CharacterSet::Armscii8 => "armscii8",
            CharacterSet::Ascii => "ascii",
            CharacterSet::Big5 => "big5",
            CharacterSet::Binary => "binary",
            CharacterSet::Cp1250 => "cp1250",
            CharacterSet::Cp1251 => "cp1251",
            CharacterSet::Cp1256 => "cp1256",
            CharacterSet::Cp1257 => "cp1257",
            CharacterSet::Cp850 => "cp850",
            CharacterSet::Cp852 => "cp852",
            CharacterSet::Cp866 => "cp866",
            CharacterSet::Cp932 => "cp932",
            CharacterSet::Dec8 => "dec8",
            CharacterSet::Eucjpms => "eucjpms",
            CharacterSet::Euckr => "euckr",
            CharacterSet::Gb18030 => "gb18030",
            CharacterSet::Gb2312 => "gb2312",
            CharacterSet::Gbk => "gbk",
            CharacterSet::Geostd8 => "geostd8",
            CharacterSet::Greek => "greek",
            CharacterSet::Hebrew => "hebrew",
            CharacterSet::Hp8 => "hp8",
            CharacterSet::Keybcs2 => "keybcs2",
            CharacterSet::Koi8r => "koi8r",
            CharacterSet::Koi8u => "koi8u",
            CharacterSet::Latin1 => "latin1",
            CharacterSet::Latin2 => "latin2",
            CharacterSet::Latin5 => "latin5",
            CharacterSet::Latin7 => "latin7",
            CharacterSet::Macce => "macce",
            CharacterSet::Macroman => "macroman",
            CharacterSet::Sjis => "sjis",
            CharacterSet::Swe7 => "swe7",
            CharacterSet::Tis620 => "tis620",
            CharacterSet::Ucs2 => "ucs2",
            CharacterSet::Ujis => "ujis",
            CharacterSet::Utf16 => "utf16",
            CharacterSet::Utf16le => "utf16le",
            CharacterSet::Utf32 => "utf32",
            CharacterSet::Utf8mb3 => "utf8mb3",
            CharacterSet::Utf8mb4 => "utf8mb4",
        }
    }

    /// The character set of this name, as [`CharacterSet::name`] gives it, and [`CharacterSet::Utf8mb3`] for `utf8`, its name
    /// before MySQL 8.0.29 and MariaDB 10.6.
    pub fn from_name(name: &str) -> Option<CharacterSet>
        ensures { result ≡ set_named name.now }
    {
        if is_old_utf8(name) {
            return Some(CharacterSet::Utf8mb3);
        }
        set_with_name(name)
    }

    /// Whether [`CharacterSet::decode`] knows the characters of this set. It doesn't know those of Chinese, Japanese and Korean
    /// sets that aren't Unicode, and [`CharacterSet::Binary`] has none.
    pub fn is_decoded(self) -> bool
        ensures { result ≡ is_decoded (coding_of self) }
    {
        !matches!(coding_of(self), Coding::Unknown)
    }
}

// Whether this is the name that `utf8mb3` had.
fn is_old_utf8(name: &str) -> bool
    ensures { result ≡ bytes_eq name.now old_utf8 }
{
    name == "utf8"
}

#[tactic(auto, unfolding(crate::specs::Names::all_sets))]
fn set_with_name(name: &str) -> Option<CharacterSet>
    ensures { result ≡ find (λ set. bytes_eq (name_of set) name.now) all_sets }
{
    CHARACTER_SETS
        .iter()
        .copied()
        .find(|set| set.name() == name)
}
