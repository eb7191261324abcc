//! Laws of the texts of documents. The functions have no code.
ghost use Rattle.std.specs.Prelude.{◌≡◌, ◌≤◌, List};
ghost use Rattle.json.specs.Token.{Token};
ghost use Rattle.json.specs.Json.{Json as Tree};
ghost use Rattle.json.specs.Tree.{json_tokens, depth};
ghost use Rattle.binary_json.specs.Values.{Json, nesting};
ghost use Rattle.binary_json_lines.specs.Parts.{AreParts};
ghost use Rattle.binary_json_lines.specs.Documents.{value_parts};

/// What is written for a value are the tokens of one JSON value, in which no more arrays and objects are within one another.
pub fn what_is_written_is_json()
    ensures { (v : Json) (tokens : List Token) → AreParts (value_parts v) tokens → (tree : Tree) × (tokens ≡ json_tokens tree) × (depth tree ≤ nesting v) }
{}
