//! The character sets of the columns of a class.
ghost use Rattle.std.specs.Prelude.{◌≡◌, ◌<◌, ℕ, None, IfOk, slice_index_or, slice_set, option_map};
ghost use Rattle.std.specs.Option.{option_and_then, option_or};
ghost use Rattle.binlog_optional_metadata.specs.DefaultCharsets.{charsets_of};
ghost use Rattle.binlog_optional_metadata.specs.Numbers.{numbers_of};
ghost use Rattle.binlog_optional_metadata.specs.Stated.{set_numbered, set_stated, collation_or_default};
ghost use Rattle.binlog_optional_metadata.specs.StatedFields.{collations_content};

use crate::collations::Collations;
use crate::default_charset::DefaultCharset;
use crate::numbers::Numbers;
use character_sets::CharacterSet;
use std::alloc::{AllocError, Global};

/// The character set of each of at most this many columns of a class; None where none is stated, or the collation isn't one of the
/// server that wrote the log.
pub(crate) fn column_sets(
    alloc: Global,
    columns: usize,
    is_maria_log: bool,
    collations: Option<Collations<'_>>,
) -> Result<Vec<Option<CharacterSet>>, AllocError>
    ensures { IfOk result (λ sets. (index : ℕ) → index < columns → slice_index_or sets.items index None ≡ set_stated is_maria_log (option_map collations_content collations.entry) index) }
{
    match collations {
        None => Ok(Vec::new(alloc)),
        Some(Collations::Default(sets)) => default_or_other(alloc, columns, is_maria_log, sets),
        Some(Collations::Each(numbers)) => each(alloc, is_maria_log, numbers),
    }
}

/// The character set of a collation, by its number and the server that wrote the log.
#[tactic(auto, unfolding(crate::specs::Stated::set_numbered))]
fn set_numbered(is_maria_log: bool, collation: u64) -> Option<CharacterSet>
    ensures { result ≡ set_numbered is_maria_log collation }
{
    if collation >= 0x1_0000 {
        return None;
    }
    CharacterSet::from_collation_in(is_maria_log, collation as u16)
}

/// The sets, where each column has this collation.
fn each(
    alloc: Global,
    is_maria_log: bool,
    collations: Numbers<'_>,
) -> Result<Vec<Option<CharacterSet>>, AllocError>
    ensures { IfOk result (λ sets. (index : ℕ) → slice_index_or sets.items index None ≡ set_numbered is_maria_log (slice_index_or (numbers_of collations.entry) index 0)) }
{
    let mut sets = Vec::with_capacity(alloc, collations.num_left() as usize)?;
    'collations: for collation in collations {
        sets.push(set_numbered(is_maria_log, collation))
            .map_err(AllocError::from)?;
    }
    Ok(sets)
}

/// The sets, where columns have a default collation or another one.
fn default_or_other(
    alloc: Global,
    columns: usize,
    is_maria_log: bool,
    collations: DefaultCharset<'_>,
) -> Result<Vec<Option<CharacterSet>>, AllocError>
    ensures { IfOk result (λ sets. (index : ℕ) → index < columns → slice_index_or sets.items index None ≡ set_numbered is_maria_log (collation_or_default (charsets_of collations.entry) index)) }
{
    let mut sets = Vec::with_capacity(alloc, columns)?;
    let default = set_numbered(is_maria_log, collations.default_charset());
    sets.resize(columns, default)?;
    'pairs: for (index, collation) in collations.non_default() {
        put_set(&mut sets, index, set_numbered(is_maria_log, collation));
    }
    Ok(sets)
}

/// Puts the set of the column with this index in its place, if there is one.
fn put_set(sets: &mut [Option<CharacterSet>], index: u64, set: Option<CharacterSet>)
    ensures { sets.new ≡ slice_set sets.old index set }
{
    let place = index as usize;
    if place < sets.len() {
        sets[place] = set;
    }
}

/// The set with this index; None if there is none.
pub(crate) fn set_at(sets: &[Option<CharacterSet>], index: Option<u64>) -> Option<CharacterSet>
    ensures { result ≡ option_and_then (λ place. slice_index_or sets.now place None) index }
{
    match index {
        Some(index) => sets.get(index as usize).copied().unwrap_or(None),
        None => None,
    }
}

/// The set of a column, by those of the two classes with character sets, of which a column is in one at most.
pub(crate) fn first_set(
    first: Option<CharacterSet>,
    second: Option<CharacterSet>,
) -> Option<CharacterSet>
    ensures { result ≡ option_or first second }
{
    match first {
        Some(set) => Some(set),
        None => second,
    }
}
