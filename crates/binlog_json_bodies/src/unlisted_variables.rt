//! The status variables that the table of keys doesn't list: one of MySQL's, and four of MariaDB's.

ghost use Rattle.std.specs.Prelude.{◌≡◌, ◌≤◌, length, IfSome};
ghost use Rattle.binlog_file.specs.Layouts.{fixed_len};
ghost use Rattle.binlog_mariadb.specs.Gtids.{has_alter};
ghost use Rattle.binlog_mariadb.specs.Parts.{has_bit};
ghost use Rattle.binlog_json_bodies.specs.KnownVariables.{behind_flags, behind_count, announced_len, unlisted_len};

// The flag of a COMMIT ALTER: the sequence number of its START ALTER follows.
const FL_COMMIT_ALTER: u8 = 4;

// The flag of a ROLLBACK ALTER: the sequence number of its START ALTER follows.
const FL_ROLLBACK_ALTER: u8 = 8;

/// The length of the value of the unlisted variable with this number at the start of the bytes; None if it isn't whole, or if the
/// number isn't one of theirs.
#[tactic(auto, unfolding(crate::specs::KnownVariables::unlisted_len))]
pub(crate) fn unlisted_len(number: u8, bytes: &[u8]) -> Option<usize>
    ensures len { result ≡ unlisted_len number bytes.now }
    ensures within { IfSome result (λ len. len ≤ length bytes.now) }
{
    match number {
        // `enable_cascade_triggers` of MySQL.
        21 => fixed_len(1, bytes),
        // The microseconds of the statement's start time.
        128 => fixed_len(3, bytes),
        // The XID of a definition.
        129 => fixed_len(8, bytes),
        // The extra flags of the statement's GTID.
        130 => flags_len(bytes),
        // `character_set_collations`.
        131 => pairs_len(bytes),
        _ => None,
    }
}

// The count, if that many bytes are there.
fn fixed_len(count: usize, bytes: &[u8]) -> Option<usize>
    ensures len { result ≡ fixed_len count bytes.now }
    ensures within { IfSome result (λ len. len ≤ length bytes.now) }
{
    if count <= bytes.len() {
        Some(count)
    } else {
        None
    }
}

// The length of the flags at the start, and of the sequence number if they announce it.
fn flags_len(bytes: &[u8]) -> Option<usize>
    ensures len { result ≡ announced_len behind_flags bytes.now }
    ensures within { IfSome result (λ len. len ≤ length bytes.now) }
{
    let (first, others) = bytes.split_first()?;
    let len = fixed_len(behind_flags(*first), others)?;
    Some(1 + len)
}

// How many bytes come after the first one of the flags: the second, and the sequence number if they announce it.
fn behind_flags(first: u8) -> usize
    ensures { result ≡ behind_flags first }
{
    if has_alter(first) { 9 } else { 1 }
}

// Whether flags with this first byte announce the sequence number of a START ALTER.
fn has_alter(first: u8) -> bool
    ensures { result ≡ has_alter first }
{
    has_bit(first, FL_COMMIT_ALTER) || has_bit(first, FL_ROLLBACK_ALTER)
}

// Whether this bit of the flags is set.
fn has_bit(flags: u8, bit: u8) -> bool
    ensures { result ≡ has_bit flags bit }
{
    flags & bit != 0
}

// The length of the pairs of collations at the start, and of their count.
fn pairs_len(bytes: &[u8]) -> Option<usize>
    ensures len { result ≡ announced_len behind_count bytes.now }
    ensures within { IfSome result (λ len. len ≤ length bytes.now) }
{
    let (count, pairs) = bytes.split_first()?;
    let len = fixed_len(4 * usize::from(*count), pairs)?;
    Some(1 + len)
}
