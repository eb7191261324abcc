//! Patterns of names.
ghost use Rattle.std.specs.Prelude.{◌≡◌, IfOk};
ghost use Rattle.binlog_filters.specs.Patterns.{front, front_of, is_match, some_end};

use std::alloc::{AllocError, Global};

// A pattern's bytes up to its first `*`, beside a name.
enum Front<'a> {
    // The name doesn't begin so.
    Differs,
    // The pattern has no `*`, and this is the name.
    Whole,
    // The name begins so: what is behind the `*`, and what is left of the name.
    Star(&'a [u8], &'a [u8]),
}

/// A pattern of names: a `*` stands for any bytes, also none, a `?` for one byte, and any other byte for itself.
///
/// Names are compared by their bytes, so a `?` doesn't stand for a character of several bytes, and `A` isn't `a`.
#[derive(Debug, Drop)]
pub struct Pattern {
    bytes: Vec<u8>,
}

impl Pattern {
    /// The pattern with these bytes.
    ///
    /// # Errors
    ///
    /// [`AllocError`] if an allocation fails.
    pub fn new(alloc: Global, bytes: &[u8]) -> Result<Pattern, AllocError>
        ensures { IfOk result (λ pattern. pattern.bytes.items ≡ bytes.now) }
    {
        let bytes = Vec::from_slice(alloc, bytes)?;
        Ok(Pattern { bytes })
    }

    /// Whether a name matches. The time is at most that of the pattern's length times the name's.
    pub fn matches(&self, name: &[u8]) -> bool
        ensures { result ≡ is_match self.now.bytes.items name.now }
    {
        is_match(&self.bytes, name)
    }
}

// Whether a name matches these bytes of a pattern.
#[tactic(auto, using(crate::proofs::Patterns::told_by_front))]
fn is_match(pattern: &[u8], name: &[u8]) -> bool
    ensures { result ≡ is_match pattern.now name.now }
{
    match take_front(pattern, name) {
        Front::Differs => false,
        Front::Whole => true,
        Front::Star(behind, left) => some_end(behind, left),
    }
}

// Whether some end of the name matches the pattern. The first place where the bytes up to a `*` match is the best one, since most
// of the name is left then.
#[tactic(auto, using(crate::proofs::Patterns::whole_found, crate::proofs::Patterns::none_found, crate::proofs::Patterns::later_found, crate::proofs::Patterns::star_found, crate::proofs::Patterns::star_shorter))]
fn some_end(pattern: &[u8], name: &[u8]) -> bool
    ensures { result ≡ some_end pattern.now name.now }
{
    let mut pattern = pattern;
    let mut name = name;
    'ends: loop {
        match take_front(pattern, name) {
            Front::Whole => return true,
            Front::Star(behind, left) => {
                pattern = behind;
                name = left;
            }
            Front::Differs => match name.split_first() {
                None => return false,
                Some((_, left)) => name = left,
            },
        }
    }
}

// Compares a name with the bytes up to the pattern's first `*`.
fn take_front<'a>(pattern: &'a [u8], name: &'a [u8]) -> Front<'a>
    ensures { front_of result ≡ front pattern.now name.now }
{
    let mut pattern = pattern;
    let mut name = name;
    while let Some((wanted, behind)) = pattern.split_first() {
        if *wanted == b'*' {
            return Front::Star(behind, name);
        }
        match name.split_first() {
            Some((byte, left)) if *wanted == b'?' || byte == wanted => {
                pattern = behind;
                name = left;
            }
            _ => return Front::Differs,
        }
    }
    if name.is_empty() {
        Front::Whole
    } else {
        Front::Differs
    }
}
