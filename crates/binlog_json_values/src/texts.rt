//! What stands between texts of columns.

ghost use Rattle.std.specs.Prelude.{◌≡◌};
ghost use Rattle.binlog_json_values.specs.Texts.{comma_in};

use character_sets::CharacterSet;

/// A comma in a character set.
#[tactic(auto, using(crate::proofs::Commas::other_comma))]
pub(crate) fn comma_in(character_set: Option<CharacterSet>) -> &'static [u8]
    ensures { result.now ≡ comma_in character_set }
{
    match character_set {
        Some(CharacterSet::Ucs2 | CharacterSet::Utf16) => b"\0,",
        Some(CharacterSet::Utf16le) => b",\0",
        Some(CharacterSet::Utf32) => b"\0\0\0,",
        _ => b",",
    }
}
