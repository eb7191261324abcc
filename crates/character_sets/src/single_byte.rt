//! The characters of the single-byte character sets.
ghost use Rattle.std.specs.Prelude.{◌≡◌};
ghost use Rattle.character_sets.specs.SingleByte.{lower_half, upper_half, entry_of, byte_character};

use crate::character_set::CharacterSet;
use crate::tables::{
    ARMSCII8, ASCII, CP850, CP852, CP866, CP1250, CP1251, CP1256, CP1257, DEC8, GEOSTD8, GREEK,
    HALF, HEBREW, HP8, KEYBCS2, KOI8R, KOI8U, LATIN1, LATIN2, LATIN5, LATIN7, MACCE, MACROMAN,
    NO_CHARACTERS, SWE7_LOWER, TIS620, UNASSIGNED,
};

// The entries of the bytes below 0x80.
#[tactic(auto, unfolding(crate::specs::SingleByte::lower_half))]
fn lower_half(set: CharacterSet) -> &'static [u16; HALF]
    ensures { result.now ≡ lower_half set }
{
    match set {
        CharacterSet::Swe7 => &SWE7_LOWER,
        _ => &ASCII,
    }
}

// The entries of the bytes from 0x80 on.
#[tactic(auto, unfolding(crate::specs::SingleByte::upper_half))]
fn upper_half(set: CharacterSet) -> &'static [u16; HALF]
    ensures { result.now ≡ upper_half set }
{
    match set {
        CharacterSet::Armscii8 => &ARMSCII8,
        CharacterSet::Cp1250 => &CP1250,
        CharacterSet::Cp1251 => &CP1251,
        CharacterSet::Cp1256 => &CP1256,
        CharacterSet::Cp1257 => &CP1257,
        CharacterSet::Cp850 => &CP850,
        CharacterSet::Cp852 => &CP852,
        CharacterSet::Cp866 => &CP866,
        CharacterSet::Dec8 => &DEC8,
        CharacterSet::Geostd8 => &GEOSTD8,
        CharacterSet::Greek => &GREEK,
        CharacterSet::Hebrew => &HEBREW,
        CharacterSet::Hp8 => &HP8,
        CharacterSet::Keybcs2 => &KEYBCS2,
        CharacterSet::Koi8r => &KOI8R,
        CharacterSet::Koi8u => &KOI8U,
        CharacterSet::Latin1 => &LATIN1,
        CharacterSet::Latin2 => &LATIN2,
        CharacterSet::Latin5 => &LATIN5,
        CharacterSet::Latin7 => &LATIN7,
        CharacterSet::Macce => &MACCE,
        CharacterSet::Macroman => &MACROMAN,
        CharacterSet::Tis620 => &TIS620,
        _ => &NO_CHARACTERS,
    }
}

// The entry of a byte.
fn entry_of(set: CharacterSet, byte: u8) -> u16
    ensures { result ≡ entry_of set byte }
{
    let index = usize::from(byte);
    if index < HALF {
        lower_half(set)[index]
    } else {
        upper_half(set)[index - HALF]
    }
}

/// The character of a byte, if it is one.
#[tactic(auto, using(crate::proofs::ScalarEntries::scalar_entry), unfolding(crate::specs::SingleByte::byte_character))]
pub(crate) fn byte_character(set: CharacterSet, byte: u8) -> Option<char>
    ensures { result ≡ byte_character set byte }
{
    let entry = entry_of(set, byte);
    if entry == UNASSIGNED {
        return None;
    }
    char::from_u32(u32::from(entry))
}
