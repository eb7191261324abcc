//! What stands behind the word and the parentheses of a type.
ghost use Rattle.std.specs.Prelude.{◌≡◌, bytes_eq, find};
ghost use Rattle.column_files.specs.TypeEndings.{text_of, all_endings, ending_of};

/// What stands behind the word and the parentheses of a type.
#[derive(Clone, Copy, Debug, PartialEq, Eq)]
pub(crate) enum Ending {
    Nothing,
    Unsigned,
    UnsignedZerofill,
    Compressed,
    Old,
    OldBinary,
}

/// All endings.
pub(crate) const ENDINGS: [Ending; 6] = [
    Ending::Nothing,
    Ending::Unsigned,
    Ending::UnsignedZerofill,
    Ending::Compressed,
    Ending::Old,
    Ending::OldBinary,
];

impl Ending {
    /// The ending as a server spells it.
    #[tactic(auto, unfolding(crate::specs::TypeEndings::text_of))]
    pub(crate) fn text(self) -> &'static [u8]
        ensures { result.now ≡ text_of self }
    {
        match self {
            Ending::Nothing => b"",
            Ending::Unsigned => b" unsigned",
            Ending::UnsignedZerofill => b" unsigned zerofill",
            Ending::Compressed => b" /*M!100301 COMPRESSED*/",
            Ending::Old => b" /* mariadb-5.3 */",
            Ending::OldBinary => b" /* 5.5 binary format */",
        }
    }

    /// The ending that is this text.
    #[tactic(auto, unfolding(crate::specs::TypeEndings::all_endings))]
    pub(crate) fn from_text(text: &[u8]) -> Option<Ending>
        ensures { result ≡ ending_of text.now }
    {
        ENDINGS.iter().copied().find(|ending| ending.text() == text)
    }
}
