//! What one set of GTIDs contains and another doesn't.
ghost use Rattle.std.specs.Prelude.{◌≡◌, ◌&&◌, ◌||◌, ◌↔◌, ℕ, true, not, IfOk, OnOk, IsOkUnless, IsTrue};
ghost use Rattle.std.specs.declared.cmp.Ordering.TheVariants.{Less};
ghost use Rattle.binlog_wire.specs.declared.error.Error.TheVariants.{Memory};
ghost use Rattle.binlog_gtids.specs.GnoSets.{is_held};
ghost use Rattle.binlog_gtid_sets.specs.GtidGroups.{Pair, pair_in, compare_pairs, is_same, is_tracked, AreGroups, AreBelow};

use crate::gtid_group::{GtidGroup, tag_text};
use crate::gtid_tracker::{GtidTracker, find, push};
use binlog_gtids::GnoSet;
use binlog_wire::Error;

impl GtidTracker {
    /// Whether the other set contains each GTID of this set.
    pub fn is_subset(&self, other: &GtidTracker) -> bool
        ensures { IsTrue result ↔ ((pair : Pair) (n : ℕ) → is_tracked self.now pair n ≡ true → is_tracked other.now pair n ≡ true) }
    {
        for group in &self.groups {
            if !other.contains_group(group) {
                return false;
            }
        }
        true
    }

    /// The GTIDs of this set that the other doesn't contain, with memory from this set's allocator. The only error is
    /// [`Error::Memory`].
    pub fn subtract(&self, other: &GtidTracker) -> Result<Self, Error>
        ensures ok { IfOk result (λ difference. (pair : Pair) (n : ℕ) → is_tracked difference pair n ≡ (is_tracked self.now pair n && not (is_tracked other.now pair n))) }
        ensures memory { IsOkUnless result Memory }
    {
        let mut groups = Vec::new(*self.groups.allocator());
        for group in &self.groups {
            push_missing(&mut groups, group, other)?;
        }
        Ok(GtidTracker { groups })
    }

    // Whether the set contains all numbers of a group.
    fn contains_group(&self, group: &GtidGroup) -> bool
        ensures { IsTrue result ↔ ((n : ℕ) → is_held group.now.gnos n ≡ true → is_tracked self.now (pair_in group.now) n ≡ true) }
    {
        match find(&self.groups, &group.sid, tag_text(group.tag.as_ref())) {
            Ok(at) => group.gnos.is_subset(&self.groups[at].gnos),
            Err(_) => group.gnos.is_subset(&GnoSet::new(*self.groups.allocator())),
        }
    }

    // The numbers of a group that the set doesn't contain. The only error is [`Error::Memory`].
    fn missing(&self, group: &GtidGroup) -> Result<GnoSet, Error>
        ensures ok { IfOk result (λ gnos. (n : ℕ) → is_held gnos n ≡ (is_held group.now.gnos n && not (is_tracked self.now (pair_in group.now) n))) }
        ensures memory { IsOkUnless result Memory }
    {
        match find(&self.groups, &group.sid, tag_text(group.tag.as_ref())) {
            Ok(at) => group.gnos.difference(&self.groups[at].gnos),
            Err(_) => group.gnos.clone(),
        }
    }
}

// Appends the numbers of a group that another set doesn't contain, as a group, if there are any. The only error is
// [`Error::Memory`].
fn push_missing(
    groups: &mut Vec<GtidGroup>,
    group: &GtidGroup,
    other: &GtidTracker,
) -> Result<(), Error>
    requires are { AreGroups groups.old.items }
    requires last { AreBelow groups.old.items (pair_in group.now) }
    ensures are { OnOk result (AreGroups groups.new.items) }
    ensures below { OnOk result ((pair : Pair) → AreBelow groups.old.items pair → compare_pairs (pair_in group.now) pair ≡ Less → AreBelow groups.new.items pair) }
    ensures ok { OnOk result ((pair : Pair) (n : ℕ) → is_tracked groups.new.items pair n ≡ ((is_same (pair_in group.now) pair && (is_held group.now.gnos n && not (is_tracked other.now (pair_in group.now) n))) || is_tracked groups.old.items pair n)) }
    ensures memory { IsOkUnless result Memory }
{
    let gnos = other.missing(group)?;
    if gnos.is_empty() {
        return Ok(());
    }
    let missing = group.with_gnos(*groups.allocator(), gnos)?;
    push(groups, missing)
}
