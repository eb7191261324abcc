//! Laws of the definitions, for tables and rows of any types. Each is a function that does nothing and whose contract states the
//! law.
ghost use Rattle.std.specs.Prelude.{◌≡◌, ◌↔◌, ℕ, Bool, List, [], ◌∷◌, ◌++◌};
ghost use Rattle.table_changes.specs.Changes.{State, Change, table_of, removed, IsThere, Applies, AppliesAll, inverse_of, inverse};
ghost use Rattle.table_changes.specs.Parts.{EqualOrNot, changes_of, taken_from};
ghost use Rattle.table_changes.specs.Parts.{Logged, all_changes, undone_changes, kept_changes, nothing, KeepsApart};

/// A change leads to some state exactly if the row that it removes is there, and to no other state. So changes one after another
/// lead to one state at most.
pub fn defined<Table, Row>()
    ensures there { EqualOrNot Table → EqualOrNot Row → (change : Change Table Row) (old : State Table Row) →
        ((new : State Table Row) × Applies change old new) ↔ IsThere old (table_of change) (removed change) }
    ensures one_state { EqualOrNot Table → EqualOrNot Row → (changes : List (Change Table Row)) (old new other : State Table Row) →
        AppliesAll changes old new → AppliesAll changes old other → new ≡ other }
    ensures joined { (before after : List (Change Table Row)) (old new : State Table Row) → AppliesAll (before ++ after) old new
        ↔ ((between : State Table Row) × AppliesAll before old between × AppliesAll after between new) }
{}

/// If a change leads from one state to another, its inverse leads back. The inverse of the inverse is the change.
pub fn one<Table, Row>()
    ensures back { (change : Change Table Row) (old new : State Table Row) → Applies change old new
        → Applies (inverse_of change) new old }
    ensures twice { (change : Change Table Row) → inverse_of (inverse_of change) ≡ change }
{}

/// If changes lead from one state to another, their inverse leads back. The inverse of the inverse is the list of changes, and the
/// inverse of two lists, one behind the other, is that of the second and then that of the first.
pub fn all<Table, Row>()
    ensures back { (changes : List (Change Table Row)) (old new : State Table Row) → AppliesAll changes old new
        → AppliesAll (inverse changes) new old }
    ensures twice { (changes : List (Change Table Row)) → inverse (inverse changes) ≡ changes }
    ensures joined { (before after : List (Change Table Row)) → inverse (before ++ after) ≡ inverse after ++ inverse before }
{}

/// The inverse of the last changes leads back to the state that was there before them. So each front of an inverse leads to a state
/// that there was.
pub fn front<Table, Row>()
    ensures { (before after : List (Change Table Row)) (old new : State Table Row) → AppliesAll (before ++ after) old new
        → (between : State Table Row) × AppliesAll before old between × AppliesAll (inverse after) new between }
{}

/// If changes lead from one state to another, the inverse of those of some tables leads to the state in which these tables are as
/// they were, and all other tables as they are.
pub fn tables<Table, Row>()
    ensures { (takes : Table → Bool) (changes : List (Change Table Row)) (old new : State Table Row) → AppliesAll changes old new
        → AppliesAll (inverse (changes_of takes changes)) new (taken_from takes old new) }
{}

/// If a log leads from one state to another, and no change that stays removes a row that the undone changes before it have left
/// behind, then the inverse of the undone changes leads from the state behind the log to the state to which the changes that stay
/// would have led without the others.
pub fn part<Table, Row>()
    ensures { EqualOrNot Table → EqualOrNot Row → (log : List (Logged Table Row)) (old new counts : State Table Row)
        → AppliesAll (all_changes log) old new → KeepsApart log nothing counts
        → (other : State Table Row)
        × AppliesAll (inverse (undone_changes log)) new other × AppliesAll (kept_changes log) old other }
{}
