//! The names of the reasons for which something isn't undone.
ghost use Rattle.std.specs.Prelude.{◌≡◌, true, false, codes, map};
ghost use Rattle.binlog_undo_command.specs.Reasons.{refusal_name, reason_name, is_among, IsSkipName, IsSkipWord, StatesSkips};

use binlog_transactions::Refusal;
use binlog_undo_index::{Reason, Skips};

// The name of the reason for which a transaction can't be undone.
fn refusal_name(refusal: Refusal) -> &'static str
    ensures { result.now ≡ refusal_name refusal }
{
    match refusal {
        Refusal::Unfinished => "Unfinished",
        Refusal::Statement => "Statement",
        Refusal::LoadData => "LoadData",
        Refusal::Xa => "Xa",
        Refusal::Rollback => "Rollback",
        Refusal::Incident => "Incident",
        Refusal::Payload => "Payload",
        Refusal::OldRows => "OldRows",
        Refusal::UnknownEvent => "UnknownEvent",
        Refusal::Encrypted => "Encrypted",
    }
}

/// The name of a reason, as messages have it, and as `--skip` takes it.
pub fn reason_name(reason: Reason) -> &'static str
    ensures { result.now ≡ reason_name reason }
{
    match reason {
        Reason::Transaction(refusal) => refusal_name(refusal),
        Reason::NoTableMap => "NoTableMap",
        Reason::Rows => "Rows",
        Reason::OldTemporal => "OldTemporal",
        Reason::Image => "Image",
        Reason::PartialJson => "PartialJson",
        Reason::Compressed => "Compressed",
        Reason::Damaged => "Damaged",
        Reason::Tail => "Tail",
        Reason::Description => "Description",
        Reason::Straddles(_) => "Straddles",
    }
}

/// The name of the reason that something behind what is undone may be in its way.
const LATER_CHANGES: &str = "LaterChanges";

// Whether one of these words is this one.
fn has_word(words: &[&str], wanted: &str) -> bool
    ensures { result ≡ is_among wanted.now (map (λ word. word.now) words.now) }
{
    for word in words {
        if *word == wanted {
            return true;
        }
    }
    false
}

// Whether one of these words is the name of a reason.
fn has_name(words: &[&str], reason: Reason) -> bool
    ensures { result ≡ is_among (reason_name reason) (map (λ word. word.now) words.now) }
{
    has_word(words, reason_name(reason))
}

/// Whether one of these words is the name of the reason that something behind what is undone may be in its way.
pub(crate) fn has_later_changes(words: &[&str]) -> bool
    ensures { result ≡ is_among (codes "LaterChanges") (map (λ word. word.now) words.now) }
{
    has_word(words, LATER_CHANGES)
}

/// Whether a word is a name that `--skip` takes.
pub(crate) fn is_skip_word(word: &str) -> bool
    ensures known { result ≡ true → IsSkipWord word.now }
    ensures unknown { result ≡ false → ¬ (IsSkipWord word.now) }
{
    word == LATER_CHANGES || is_skip_name(word)
}

// Whether a word is the name of a reason of an event or a transaction that can be skipped.
fn is_skip_name(word: &str) -> bool
    ensures known { result ≡ true → IsSkipName word.now }
    ensures unknown { result ≡ false → ¬ (IsSkipName word.now) }
{
    matches!(
        word,
        "Unfinished"
            | "Statement"
            | "LoadData"
            | "Xa"
            | "Rollback"
            | "Incident"
            | "Payload"
            | "OldRows"
            | "UnknownEvent"
            | "NoTableMap"
            | "Rows"
            | "OldTemporal"
            | "Image"
            | "PartialJson"
            | "Compressed"
    )
}

/// Skips the reasons whose names are among these words.
pub(crate) fn skips_of(words: &[&str]) -> Skips
    ensures { StatesSkips (map (λ word. word.now) words.now) result }
{
    Skips {
        unfinished: has_name(words, Reason::Transaction(Refusal::Unfinished)),
        statement: has_name(words, Reason::Transaction(Refusal::Statement)),
        load_data: has_name(words, Reason::Transaction(Refusal::LoadData)),
        xa: has_name(words, Reason::Transaction(Refusal::Xa)),
        rollback: has_name(words, Reason::Transaction(Refusal::Rollback)),
        incident: has_name(words, Reason::Transaction(Refusal::Incident)),
        payload: has_name(words, Reason::Transaction(Refusal::Payload)),
        old_rows: has_name(words, Reason::Transaction(Refusal::OldRows)),
        unknown_event: has_name(words, Reason::Transaction(Refusal::UnknownEvent)),
        no_table_map: has_name(words, Reason::NoTableMap),
        rows: has_name(words, Reason::Rows),
        old_temporal: has_name(words, Reason::OldTemporal),
        image: has_name(words, Reason::Image),
        partial_json: has_name(words, Reason::PartialJson),
        compressed: has_name(words, Reason::Compressed),
    }
}
