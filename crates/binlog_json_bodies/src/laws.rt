//! Laws of the definitions. Each is a function without effect whose contract states it.
ghost use Rattle.std.specs.Prelude.{◌≡◌, ℕ, List};
ghost use Rattle.binlog_json_bodies.specs.KnownVariables.{Known, AreKnownOf, known_variables};

/// Encoded status variables have exactly one longest prefix that is a list of whole variables, whether `StatusVarKey` has their keys or
/// they are one of the five others; `known_variables` is that list, in which lines of JSON look for the client's collation.
pub fn one_list_of_known_variables()
    ensures some { (text : List ℕ) → AreKnownOf text (known_variables text) }
    ensures one { (text : List ℕ) (vars : List Known) → AreKnownOf text vars → vars ≡ known_variables text }
{}
