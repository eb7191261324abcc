//! Laws of what is written. The functions have no code.
ghost use Rattle.std.specs.Prelude.{◌≡◌, ◌⊎◌, ◌≤◌, ℕ, List, true, Some, None};
ghost use Rattle.binary_json.specs.Values.{Json, nesting};
ghost use Rattle.binary_json.specs.Grammar.{IsDocument};
ghost use Rattle.binary_json_writing.specs.Written.{written};
ghost use Rattle.binary_json_writing.specs.Writable.{is_writable};
ghost use Rattle.binary_json.specs.Diffs.{Diff, Read};
ghost use Rattle.binary_json_writing.specs.Paths.{Leg, IsPath, IsRefusedPath, path_legs};
ghost use Rattle.binary_json_writing.specs.Applied.{AllMake, AllWrite, NotApplied, IsMemory, value_after};
ghost use Rattle.binary_json_writing.specs.declared.applying.JsonApplyError.{JsonApplyError};
ghost use Rattle.binary_json_writing.specs.declared.paths.JsonPathError.{JsonPathError};

/// What is written for a value is a document of this value.
pub fn what_is_written_is_read()
    ensures { (v : Json) → is_writable v ≡ true → nesting v ≤ 100 → IsDocument (written v) v }
{}

/// Bytes are at most one path.
pub fn paths_are_one_list()
    ensures { (bytes : List ℕ) (ls ms : List Leg) → IsPath ls bytes → IsPath ms bytes → ls ≡ ms }
{}

/// A path isn't refused.
pub fn paths_are_read()
    ensures { (bytes : List ℕ) (ls : List Leg) (e : JsonPathError) → IsPath ls bytes → IsRefusedPath e bytes → ⊥ }
{}

/// The legs of a path are known, and those of bytes that are no path aren't.
pub fn paths_are_known()
    ensures found { (bytes : List ℕ) (ls : List Leg) → IsPath ls bytes → path_legs bytes ≡ Some ls }
    ensures refused { (bytes : List ℕ) (e : JsonPathError) → IsRefusedPath e bytes → path_legs bytes ≡ None }
{}

/// A list of diffs makes at most one value of another.
pub fn diffs_make_one_value()
    ensures { (ds : List (Read Diff)) (v u w : Json) → AllMake ds v u → AllMake ds v w → u ≡ w }
{}

/// The value after all diffs is what they make, if all values on the way can be written; where they aren't applied, there is none.
pub fn values_after_are_made()
    ensures made { (ds : List (Read Diff)) (v w : Json) → AllWrite ds v w → AllMake ds v w }
    ensures known { (ds : List (Read Diff)) (v w : Json) → AllWrite ds v w → value_after ds v ≡ Some w }
    ensures refused { (ds : List (Read Diff)) (v : Json) (e : JsonApplyError) → NotApplied ds v e → IsMemory e ⊎ (value_after ds v ≡ None) }
{}
