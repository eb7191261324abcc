//! Whether the members that a file declares are known.
ghost use Rattle.std.specs.Prelude.{◌≡◌, map};
ghost use Rattle.binlog_declared_columns.specs.Facts.{has_question_mark, are_known};

// Whether a text has a question mark.
fn has_question_mark(text: &[u8]) -> bool
    ensures { result ≡ has_question_mark text.now }
{
    text.contains(&b'?')
}

/// Whether none of these members has a question mark, which may stand for another character.
#[tactic(auto, using(crate::proofs::Members::known_next, crate::proofs::Members::unknown_here, crate::proofs::Members::known_all))]
pub(crate) fn are_known(members: &[Vec<u8>]) -> bool
    ensures { result ≡ are_known (map (λ text. text.items) members.now) }
{
    let mut left = members;
    'members: while let Some((member, others)) = left.split_first() {
        if has_question_mark(member.as_slice()) {
            return false;
        }
        left = others;
    }
    true
}
