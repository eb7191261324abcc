//! Laws of values. The functions have no code.
ghost use Rattle.std.specs.Prelude.{◌≡◌, ℕ, List, map, codes, true, false, Some, None};
ghost use Rattle.json_line.specs.Tokens.{bytes_value};
ghost use Rattle.binary_json.specs.Values.{Json};
ghost use Rattle.binary_json.specs.Grammar.{IsDocument};
ghost use Rattle.binary_json.specs.Diffs.{Diff, AreDiffs, diff_items};
ghost use Rattle.binary_json_writing.specs.Applied.{AllWrite, NotApplied, IsMemory};
ghost use Rattle.binary_json_writing.specs.declared.applying.JsonApplyError.{JsonApplyError};
ghost use Rattle.binary_json_lines.specs.HasText.{HasText};
ghost use Rattle.binary_json_lines.specs.TextDiffs.{DiffsHaveText, list_parts};
ghost use Rattle.binlog_json_values.specs.Parts.{in_document, exact};
ghost use Rattle.binlog_json_values.specs.Documents.{encoded_value, shown_parts, json_parts, diffs_value, are_few, document_after};

/// Bytes that the grammar makes a value, which has a text, are shown as this value.
pub fn documents_are_shown()
    ensures { (bytes : List ℕ) (v : Json) → IsDocument bytes v → HasText v → json_parts bytes ≡ shown_parts v }
{}

/// Bytes that the grammar makes no value with a text are shown as hexadecimal digits.
pub fn other_bytes_are_digits()
    ensures { (bytes : List ℕ) → ((v : Json) → IsDocument bytes v → HasText v → ⊥) → json_parts bytes ≡ exact (encoded_value (codes "jsonb") bytes) }
{}

/// Bytes that the grammar makes a list of diffs, which have a text, are shown as these diffs.
pub fn diffs_are_shown()
    ensures { (bytes : List ℕ) (ds : List Diff) → AreDiffs ds bytes → DiffsHaveText ds → diffs_value bytes ≡ map in_document (list_parts ds) }
{}

/// Bytes that the grammar makes no list of diffs with a text are shown as hexadecimal digits.
pub fn other_lists_are_digits()
    ensures { (bytes : List ℕ) → ((ds : List Diff) → AreDiffs ds bytes → DiffsHaveText ds → ⊥) → diffs_value bytes ≡ exact (bytes_value bytes) }
{}

/// The document after is what at most 100 diffs make of the document before, if it has a text.
pub fn documents_after_are_known()
    ensures { (before bytes : List ℕ) (v w : Json) → are_few bytes ≡ true → IsDocument before v → AllWrite (diff_items bytes) v w → HasText w → document_after (Some before) bytes ≡ Some w }
{}

/// There is no document after where there are more than 100 diffs, where the bytes before are no document, where the diffs are refused, or where what they make has no text.
pub fn others_have_none_after()
    ensures many { (before bytes : List ℕ) → are_few bytes ≡ false → document_after (Some before) bytes ≡ None }
    ensures document { (before bytes : List ℕ) → ((v : Json) → IsDocument before v → ⊥) → document_after (Some before) bytes ≡ None }
    ensures diffs { (before bytes : List ℕ) (v : Json) (e : JsonApplyError) → IsDocument before v → NotApplied (diff_items bytes) v e → (IsMemory e → ⊥) → document_after (Some before) bytes ≡ None }
    ensures text { (before bytes : List ℕ) (v w : Json) → IsDocument before v → AllWrite (diff_items bytes) v w → (HasText w → ⊥) → document_after (Some before) bytes ≡ None }
{}
