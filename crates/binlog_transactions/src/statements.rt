//! Kinds of statements.
ghost use Rattle.std.specs.Prelude.{◌≡◌};
ghost use Rattle.binlog_transactions.specs.Statements.{upper, is_text, begins_with, drops_temporary, ends_xa, kind_of_xa, kind_by_prefix, kind_of};

/// What the text of a statement is to the transactions of its log.
#[derive(Clone, Copy, Debug, PartialEq, Eq, Hash)]
pub enum StatementKind {
    /// `BEGIN`: a transaction begins.
    Begin,
    /// `COMMIT`: it ends.
    Commit,
    /// `ROLLBACK`: it ends, and what can be rolled back of it was.
    Rollback,
    /// `ROLLBACK TO ..`: the same of the changes behind a savepoint.
    RollbackToSavepoint,
    /// `SAVEPOINT ..` and `DROP TEMPORARY TABLE ..`: nothing that has to be undone.
    Harmless,
    /// `XA START ..`: a part of an XA transaction begins.
    XaStart,
    /// `XA COMMIT ..` and `XA ROLLBACK ..`: an XA transaction ends.
    XaEnd,
    /// Any other statement of XA.
    Xa,
    /// Any other statement.
    Other,
}

/// A byte with a lower case letter of ASCII in upper case.
fn upper(byte: u8) -> u8
    ensures { result ≡ upper byte }
{
    if byte >= b'a' && byte <= b'z' {
        byte - 32
    } else {
        byte
    }
}

/// Whether the text is this one.
#[tactic(auto, using(crate::proofs::Texts::one_more_byte, crate::proofs::Texts::other_byte, crate::proofs::Texts::text_too_short, crate::proofs::Texts::all_bytes))]
fn is_text(text: &[u8], whole: &[u8]) -> bool
    ensures { result ≡ is_text text.now whole.now }
{
    let mut left = text;
    let mut wanted = whole;
    'bytes: while let Some((byte, others)) = wanted.split_first() {
        let Some((first, rest)) = left.split_first() else {
            return false;
        };
        if *first != *byte {
            return false;
        }
        left = rest;
        wanted = others;
    }
    left.is_empty()
}

/// Whether the text begins with this prefix, which is in upper case; the letters of the text may be in lower case.
#[tactic(auto, using(crate::proofs::Texts::one_more_letter, crate::proofs::Texts::other_letter, crate::proofs::Texts::prefix_too_short, crate::proofs::Texts::all_letters))]
fn begins_with(text: &[u8], prefix: &[u8]) -> bool
    ensures { result ≡ begins_with text.now prefix.now }
{
    let mut left = text;
    let mut wanted = prefix;
    'bytes: while let Some((byte, others)) = wanted.split_first() {
        let Some((first, rest)) = left.split_first() else {
            return false;
        };
        if upper(*first) != *byte {
            return false;
        }
        left = rest;
        wanted = others;
    }
    true
}

/// Whether a statement drops tables of a connection, which aren't in the log.
fn drops_temporary(text: &[u8]) -> bool
    ensures { result ≡ drops_temporary text.now }
{
    begins_with(text, b"DROP TEMPORARY TABLE ")
        || begins_with(text, b"DROP /*!40005 TEMPORARY */ TABLE ")
}

/// Whether a statement ends an XA transaction.
fn ends_xa(text: &[u8]) -> bool
    ensures { result ≡ ends_xa text.now }
{
    begins_with(text, b"XA COMMIT ") || begins_with(text, b"XA ROLLBACK ")
}

/// The kind of a statement of XA.
fn kind_of_xa(text: &[u8]) -> StatementKind
    ensures { result ≡ kind_of_xa text.now }
{
    if begins_with(text, b"XA START ") {
        StatementKind::XaStart
    } else if ends_xa(text) {
        StatementKind::XaEnd
    } else {
        StatementKind::Xa
    }
}

/// The kind of a statement that isn't the whole text `BEGIN`, `COMMIT` or `ROLLBACK`.
fn kind_by_prefix(text: &[u8]) -> StatementKind
    ensures { result ≡ kind_by_prefix text.now }
{
    if begins_with(text, b"ROLLBACK TO ") {
        StatementKind::RollbackToSavepoint
    } else if begins_with(text, b"SAVEPOINT ") || drops_temporary(text) {
        StatementKind::Harmless
    } else if begins_with(text, b"XA ") {
        kind_of_xa(text)
    } else {
        StatementKind::Other
    }
}

/// The kind of a statement with this text. `BEGIN`, `COMMIT` and `ROLLBACK` are whole texts, in upper case, as servers write them;
/// the others begin with words whose letters may be in lower case, and which end with a space.
pub fn statement_kind(text: &[u8]) -> StatementKind
    ensures { result ≡ kind_of text.now }
{
    if is_text(text, b"BEGIN") {
        StatementKind::Begin
    } else if is_text(text, b"COMMIT") {
        StatementKind::Commit
    } else if is_text(text, b"ROLLBACK") {
        StatementKind::Rollback
    } else {
        kind_by_prefix(text)
    }
}
