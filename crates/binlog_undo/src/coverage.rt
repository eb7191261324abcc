//! Which columns are in the images of a row event.
ghost use Rattle.std.specs.Prelude.{◌≡◌, ◌&&◌, not, option_map};
ghost use Rattle.binlog_rows.specs.Images.{bitmap_of};
ghost use Rattle.binlog_images.specs.Bits.{is_set};
ghost use Rattle.binlog_undo.specs.Coverage.{has_all, covers, is_covered, all_set, has_key, can_undo, completes};

use binlog_wire::BitView;

/// Whether the bit at this index is set; none is beyond the last one.
fn is_set(bits: BitView<'_>, index: u64) -> bool
    ensures { result ≡ is_set (bitmap_of bits.entry) index }
{
    bits.bit(index).unwrap_or(false)
}

/// Whether each column of the table is in the image.
#[tactic(auto, using(crate::proofs::Covered::one_holds, crate::proofs::Covered::one_fails, crate::proofs::Covered::all_hold))]
pub(crate) fn has_all(bits: BitView<'_>) -> bool
    ensures { result ≡ has_all (bitmap_of bits.entry) }
{
    for index in 0..bits.len() {
        if !is_set(bits, index) {
            return false;
        }
    }
    true
}

/// Whether the column with this index is in the image before if it is in the image after.
fn is_covered(before: BitView<'_>, after: BitView<'_>, index: u64) -> bool
    ensures { result ≡ is_covered (bitmap_of before.entry) (bitmap_of after.entry) index }
{
    !is_set(after, index) || is_set(before, index)
}

/// Whether each column that is in the image after is in the one before.
#[tactic(auto, using(crate::proofs::Covered::one_holds, crate::proofs::Covered::one_fails, crate::proofs::Covered::all_hold))]
fn covers(before: BitView<'_>, after: BitView<'_>) -> bool
    ensures { result ≡ covers (bitmap_of before.entry) (bitmap_of after.entry) }
{
    for index in 0..after.len() {
        if !is_covered(before, after, index) {
            return false;
        }
    }
    true
}

/// Whether all of these columns are in the image.
#[tactic(auto, using(crate::proofs::Covered::one_set, crate::proofs::Covered::one_clear, crate::proofs::Covered::none_left))]
fn all_set(bits: BitView<'_>, key: &[u64]) -> bool
    ensures { result ≡ all_set (bitmap_of bits.entry) key.now }
{
    let mut left = key;
    'columns: while let Some((index, others)) = left.split_first() {
        if !is_set(bits, *index) {
            return false;
        }
        left = others;
    }
    true
}

/// Whether the primary key is known, and its columns are in the image.
fn has_key(bits: BitView<'_>, key: &[u64]) -> bool
    ensures { result ≡ has_key (bitmap_of bits.entry) key.now }
{
    !key.is_empty() && all_set(bits, key)
}

/// Whether images with these columns have what is needed to undo a row event of a table with this primary key, which is empty if
/// it isn't known: all columns, or those of the key, in the image before, or where there is none in the image after; all columns
/// where a row is deleted; and in the image before each column of the image after.
pub(crate) fn can_undo(key: &[u64], before: Option<BitView<'_>>, after: Option<BitView<'_>>) -> bool
    ensures { result ≡ can_undo key.now (option_map bitmap_of before.entry) (option_map bitmap_of after.entry) }
{
    match (before, after) {
        (None, None) => true,
        (None, Some(after)) => has_all(after) || has_key(after, key),
        (Some(before), None) => has_all(before),
        (Some(before), Some(after)) => {
            covers(before, after) && (has_all(before) || has_key(before, key))
        }
    }
}

/// Whether the image after lacks columns of the one before.
pub(crate) fn completes(before: Option<BitView<'_>>, after: Option<BitView<'_>>) -> bool
    ensures { result ≡ completes (option_map bitmap_of before.entry) (option_map bitmap_of after.entry) }
{
    match (before, after) {
        (Some(before), Some(after)) => !covers(after, before),
        _ => false,
    }
}

/// Whether what is needed to undo a row event is in images with these columns, and they are exchanged for that. `key` is as for
/// [`can_undo`].
pub(crate) fn exchanges(
    key: &[u64],
    before: Option<BitView<'_>>,
    after: Option<BitView<'_>>,
) -> bool
    ensures { result ≡ (can_undo key.now (option_map bitmap_of before.entry) (option_map bitmap_of after.entry)
        && not (completes (option_map bitmap_of before.entry) (option_map bitmap_of after.entry))) }
{
    can_undo(key, before, after) && !completes(before, after)
}
