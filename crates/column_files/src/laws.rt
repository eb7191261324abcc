//! Laws of files of columns. Each is a function without effect whose contract states it.
ghost use Rattle.std.specs.Prelude.{◌≡◌, ◌∷◌, ℕ, List, Some};
ghost use Rattle.column_files.specs.declared.error.ColumnFileError.{ColumnFileError};
ghost use Rattle.column_files.specs.declared.files.ColumnLine.{ColumnLine};
ghost use Rattle.column_files.specs.Fields.{spelling, field_text};
ghost use Rattle.column_files.specs.Files.{IsFile, IsInvalid};
ghost use Rattle.column_files.specs.TypeMembers.{Left, members_in, members_spelling};

/// A text is a file of one list of lines at most, and has no error then; and it has one error at most.
pub fn one_reading()
    ensures same { (text : List ℕ) (ls ms : List ColumnLine) → IsFile text ls → IsFile text ms → ls ≡ ms }
    ensures valid { (text : List ℕ) (ls : List ColumnLine) (e : ColumnFileError) → IsFile text ls → IsInvalid text e → ⊥ }
    ensures fault { (text : List ℕ) (e d : ColumnFileError) → IsInvalid text e → IsInvalid text d → e ≡ d }
{}

/// Bytes are the field of a text exactly if they are its spelling, in which a tab, a line feed, a NUL and a backslash are two bytes each.
#[tactic(auto, using(crate::proofs::Spellings::read_back, crate::proofs::Spellings::is_spelling))]
pub fn fields_are_spelled()
    ensures back { (text : List ℕ) → field_text (spelling text) ≡ Some text }
    ensures spelled { (raw text : List ℕ) → field_text raw ≡ Some text → raw ≡ spelling text }
{}

/// Bytes are a list of members exactly if they are its spelling: each member in quotes, with commas between, and a closing parenthesis.
pub fn members_are_spelled()
    ensures back { (m : List ℕ) (ms : List (List ℕ)) → members_in (members_spelling m ms) ≡ Some (m ∷ ms) }
    ensures spelled { (s : List ℕ) (ms : List (List ℕ)) → members_in s ≡ Some ms → (left : Left) × (ms ≡ left.0 ∷ left.1) × (s ≡ members_spelling left.0 left.1) }
{}
