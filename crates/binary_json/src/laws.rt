//! Laws of documents. The functions have no code.
ghost use Rattle.std.specs.Prelude.{◌≡◌, ◌↔◌, ℕ, List, map, Ok};
ghost use Rattle.binary_json.specs.Values.{Json};
ghost use Rattle.binary_json.specs.Grammar.{IsDocument};
ghost use Rattle.binary_json.specs.Diffs.{Diff, AreDiffs, diff_items};

/// Bytes are at most one value.
pub fn documents_are_one_value()
    ensures { (bytes : List ℕ) (v w : Json) → IsDocument bytes v → IsDocument bytes w → v ≡ w }
{}

/// Bytes are at most one list of diffs.
pub fn diffs_are_one_list()
    ensures { (bytes : List ℕ) (ds es : List Diff) → AreDiffs ds bytes → AreDiffs es bytes → ds ≡ es }
{}

/// Bytes are a list of diffs exactly if an iteration gives these diffs, and no refusal.
pub fn diffs_are_read()
    ensures { (bytes : List ℕ) (ds : List Diff) → AreDiffs ds bytes ↔ (diff_items bytes ≡ map (λ d. Ok d) ds) }
{}
