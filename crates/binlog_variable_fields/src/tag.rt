//! The tags of GTIDs.
ghost use Rattle.std.specs.Prelude.{◌≡◌, ◌+◌, ◌≤◌, List, ℕ, true, false, length, IfOk, IsOkUnless, MatchResult};
ghost use Rattle.std.specs.List.{prefix_len};
ghost use Rattle.std.specs.Cow.{cow_str_bytes};
ghost use Rattle.binlog_wire.specs.declared.error.Error.TheVariants.{Memory};
ghost use Rattle.binlog_variable_fields.specs.Tags.{is_first, is_later, is_tag, not_a_tag};

use binlog_wire::{Error, IntoOwned, Invalid, TryClone};
use std::alloc::Global;
use std::borrow::CowStr;
use std::fmt;
use std::hash::{Hash, Hasher};
use std::marker::Model;
use std::string::String;

/// The largest length of a tag in bytes.
const MAX_TAG_LEN: usize = 32;

/// Whether a tag can begin with this byte: a letter or `_`.
fn is_first(byte: u8) -> bool
    ensures { result ≡ is_first byte }
{
    byte.is_ascii_alphabetic() || byte == b'_'
}

/// Whether a later byte of a tag can be this one: a letter, a digit or `_`.
fn is_later(byte: u8) -> bool
    ensures { result ≡ is_later byte }
{
    byte.is_ascii_alphanumeric() || byte == b'_'
}

/// The number of leading bytes that can be later bytes of a tag.
fn later_len(bytes: &[u8]) -> usize
    ensures { result ≡ prefix_len is_later bytes.now }
{
    bytes.iter().take_while(|byte| is_later(**byte)).count()
}

/// Whether the bytes are a tag.
fn is_tag(bytes: &[u8]) -> bool
    ensures { result ≡ is_tag bytes.now }
{
    match bytes.split_first() {
        None => false,
        Some((first, rest)) => {
            is_first(*first) && rest.len() < MAX_TAG_LEN && later_len(rest) == rest.len()
        }
    }
}

/// The tag of a GTID: 1 to 32 ASCII letters, digits and `_`, the first not a digit. Its case is kept.
///
/// Contracts see a tag as the list of its bytes.
///
/// Source: "GTID format" in MySQL's reference manual.
#[derive(Drop)]
pub struct Tag<'a> {
    text: CowStr<'a, Global>,
}

impl<'a> Model for Tag<'a> {
    ghost use Rattle.std.specs.Prelude.{◌≡◌, ℕ, List, true};
    ghost use Rattle.std.specs.Cow.{cow_str_bytes};
    ghost use Rattle.binlog_variable_fields.specs.Tags.{is_tag};

    ghost Value = { List ℕ };

    ghost view = { λ tag. cow_str_bytes tag.text };

    ghost invariant = { λ tag. is_tag (cow_str_bytes tag.text) ≡ true };
}

impl<'a> Tag<'a> {
    /// The text as a tag.
    ///
    /// The only error is [`Error::InvalidData`] with [`Invalid::Tag`], where the text isn't 1 to 32 ASCII letters,
    /// digits and `_`, or begins with a digit.
    pub fn new(text: CowStr<'a, Global>) -> Result<Self, Error>
        ensures { MatchResult result (λ tag. (tag ≡ cow_str_bytes text.entry) × (is_tag (cow_str_bytes text.entry) ≡ true)) (λ e. (e ≡ not_a_tag) × (is_tag (cow_str_bytes text.entry) ≡ false)) }
    {
        if is_tag(text.as_str().as_bytes()) {
            Ok(Tag { text })
        } else {
            Err(Error::InvalidData(Invalid::Tag))
        }
    }

    /// The bytes as a tag; the error is that of [`Tag::new`].
    pub fn from_bytes(bytes: &'a [u8]) -> Result<Self, Error>
        ensures { MatchResult result (λ tag. (tag ≡ bytes.now) × (is_tag bytes.now ≡ true)) (λ e. (e ≡ not_a_tag) × (is_tag bytes.now ≡ false)) }
    {
        match str::from_utf8(bytes) {
            Ok(text) => Tag::new(CowStr::Borrowed(text)),
            Err(_) => Err(Error::InvalidData(Invalid::Tag)),
        }
    }

    /// The tag as text, 1 to 32 bytes.
    pub fn as_str(&self) -> &str
        ensures text { result.now ≡ self.now }
        ensures tag { is_tag self.now ≡ true }
        ensures short { length result.now ≤ 32 }
    {
        self.text.as_str()
    }
}

impl<'a> IntoOwned for Tag<'a> {
    type Owned = Tag<'static>;

    ghost is_owned = { λ value owned. owned ≡ value };

    fn into_owned(self, alloc: Global) -> Result<Tag<'static>, Error> {
        let text = self.text.into_owned(alloc)?;
        Ok(Tag {
            text: CowStr::Owned(text),
        })
    }
}

impl<'a> TryClone for Tag<'a> {
    fn clone(&self, alloc: Global) -> Result<Self, Error> {
        let text = match &self.text {
            CowStr::Borrowed(text) => CowStr::Borrowed(*text),
            CowStr::Owned(text) => CowStr::Owned(String::from_str(alloc, text.as_str())?),
        };
        Ok(Tag { text })
    }
}

impl<'a> PartialEq for Tag<'a> {
    ghost use Rattle.std.specs.Prelude.{nat_eq};
    ghost use Rattle.std.specs.Cmp.Lexicographic.{pointwise};
    ghost use Rattle.std.specs.Cmp.Rules.{comparing};
    ghost use Rattle.std.proofs.Common.{rules};

    ghost eq = { pointwise nat_eq };

    ghost laws = { Prim.search (comparing, rules) };

    fn eq(&self, other: &Self) -> bool {
        self.text.as_str().as_bytes() == other.text.as_str().as_bytes()
    }
}

impl<'a> Eq for Tag<'a> {
    ghost use Rattle.std.specs.Cmp.Rules.{comparing};
    ghost use Rattle.std.proofs.Common.{rules};

    ghost laws = { Prim.search (comparing, rules) };
}

impl<'a> Hash for Tag<'a> {
    ghost use Rattle.std.specs.Hash as fed;
    ghost use Rattle.std.proofs.Common.{rules};

    ghost hash_input = { λ tag. fed.slice fed.u8 tag };

    ghost respects_eq = { Prim.search rules };

    fn hash<H: Hasher>(&self, state: &mut H) {
        self.text.as_str().as_bytes().hash(state);
    }
}

impl<'a> fmt::Debug for Tag<'a> {
    fn fmt<W: fmt::Write>(&self, f: &mut fmt::Formatter<W>) -> fmt::Result {
        fmt::Debug::fmt(self.text.as_str(), f)
    }
}
