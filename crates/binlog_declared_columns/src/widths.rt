//! How many bytes a character takes.
ghost use Rattle.std.specs.Prelude.{◌≡◌, ◌≤◌};
ghost use Rattle.binlog_declared_columns.specs.Widths.{bytes_per_character};

use character_sets::CharacterSet;

/// The greatest number of bytes of a character of this set, by which the lengths of CHAR and VARCHAR columns are counted.
pub(crate) fn bytes_per_character(set: CharacterSet) -> u64
    ensures value { result ≡ bytes_per_character set }
    ensures small { result ≤ 4 }
{
    match set {
        CharacterSet::Big5
        | CharacterSet::Cp932
        | CharacterSet::Euckr
        | CharacterSet::Gb2312
        | CharacterSet::Gbk
        | CharacterSet::Sjis
        | CharacterSet::Ucs2 => 2,
        CharacterSet::Eucjpms | CharacterSet::Ujis | CharacterSet::Utf8mb3 => 3,
        CharacterSet::Gb18030
        | CharacterSet::Utf16
        | CharacterSet::Utf16le
        | CharacterSet::Utf32
        | CharacterSet::Utf8mb4 => 4,
        _ => 1,
    }
}
