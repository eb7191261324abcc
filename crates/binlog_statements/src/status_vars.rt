//! The status variables of a statement: the session's settings that it depended on.
ghost use Rattle.std.specs.Prelude.{◌≡◌, length, Some};
ghost use Rattle.binlog_wire.specs.Reading.{Gives};
ghost use Rattle.binlog_statements.specs.Layouts.{layout_of, value_len};

use crate::layout::Layout;
use binlog_consts::StatusVarKey;
use binlog_wire::{
    BareU16Bytes, BytesRepr, Error, IntoOwned, MyDeserialize, ParseBuf, Put, RawBytes, TryClone,
};
use std::alloc::Global;
use std::borrow::CowSlice;

/// The encoded status variables of a statement: keys and values, of which the first 65,535 bytes are used.
///
/// The variables are those of the longest prefix that is a list of whole variables. Bytes after this prefix are kept
/// and written, and aren't iterated over.
#[derive(Debug, PartialEq, Eq, Hash, Drop)]
pub struct StatusVars<'a>(pub RawBytes<'a, BareU16Bytes>);

impl<'a> StatusVars<'a> {
    ghost use Rattle.std.specs.Prelude.{take, IfOk, IsOkUnless, MatchOption};
    ghost use Rattle.binlog_wire.specs.declared.error.Error.TheVariants.{Memory};
    ghost use Rattle.binlog_statements.specs.Statements.{status_vars};
    ghost use Rattle.binlog_statements.specs.StatusVariables.{variables, HasNoKey, IsFirstOfKey};
    ghost use Rattle.binlog_statements.specs.StatusVars.{variable_of};

    /// Reads as many bytes from the start of `buf`, as `deserialize` does. The only error is [`Error::EndOfBody`], if
    /// fewer are left.
    #[inline(always)]
    pub(crate) fn read(len: u16, buf: &mut ParseBuf<'a>) -> Result<Self, Error>
        ensures { Gives ⊥ buf.new result ((status_vars len).reads buf.old) }
    {
        let bytes = BareU16Bytes::read(usize::from(len), buf)?;
        Ok(StatusVars(RawBytes::new(CowSlice::Borrowed(bytes))))
    }

    /// Iterates over the variables.
    pub fn iter(&self) -> StatusVarsIterator<'_>
        ensures { result.unread.now ≡ take 65535 self.now.0 }
    {
        StatusVarsIterator::new(self.0.as_bytes())
    }

    /// The first variable with this key, if any.
    pub fn get_status_var(&self, key: StatusVarKey) -> Option<StatusVar<'_>>
        ensures { let vars = variables (take 65535 self.now.0) in
            MatchOption result (HasNoKey key vars) (λ var. IsFirstOfKey key vars (variable_of var)) }
    {
        for var in self.iter() {
            if var.key == key {
                return Some(var);
            }
        }
        None
    }
}

impl<'a> IntoOwned for StatusVars<'a> {
    type Owned = StatusVars<'static>;

    ghost is_owned = { λ value owned. owned ≡ value };

    fn into_owned(self, alloc: Global) -> Result<StatusVars<'static>, Error> {
        Ok(StatusVars(self.0.into_owned(alloc)?))
    }
}

impl<'a> TryClone for StatusVars<'a> {
    fn clone(&self, alloc: Global) -> Result<Self, Error> {
        Ok(StatusVars(self.0.clone(alloc)?))
    }
}

/// Reads as many bytes as the context says. The only error is [`Error::EndOfBody`], if fewer are left.
impl<'de> MyDeserialize<'de> for StatusVars<'de> {
    ghost use Rattle.binlog_statements.specs.Statements.{status_vars};

    const SIZE: Option<usize> = None;

    type Ctx = u16;

    ghost reads = { λ len. (status_vars len).reads };

    fn deserialize(_alloc: Global, len: u16, buf: &mut ParseBuf<'de>) -> Result<Self, Error> {
        StatusVars::read(len, buf)
    }
}

impl Put for StatusVars<'_> {
    ghost use Rattle.std.specs.Prelude.{take};

    ghost bytes = { λ vars. take 65535 vars.0 };

    fn check(&self) -> Result<(), Error> {
        Ok(())
    }

    fn written_len(&self) -> usize {
        self.0.written_len()
    }

    fn put(&self, buf: &mut Vec<u8>) {
        self.0.put(buf);
    }
}

/// An iterator over encoded status variables: those of the longest prefix that is a list of whole variables, in order.
/// After the last it returns None forever. No memory is allocated.
#[derive(Clone, Debug, PartialEq, Eq, Hash, Drop)]
pub struct StatusVarsIterator<'a> {
    unread: &'a [u8],
}

impl<'a> StatusVarsIterator<'a> {
    /// Iterates over these encoded variables.
    pub fn new(status_vars: &'a [u8]) -> Self
        ensures { result.unread.now ≡ status_vars.now }
    {
        StatusVarsIterator {
            unread: status_vars,
        }
    }
}

impl<'a> Iterator for StatusVarsIterator<'a> {
    ghost use Rattle.std.specs.Iterator.{YieldsFirstBy, item_count};
    ghost use Rattle.binlog_statements.specs.StatusVariables.{variables};
    ghost use Rattle.binlog_statements.specs.StatusVars.{variable_of};

    type Item = StatusVar<'a>;

    ghost next_gives = { YieldsFirstBy variable_of (λ it. variables it.unread.now) };

    ghost remaining = { item_count (λ it. variables it.unread.now) };

    fn next(&mut self) -> Option<StatusVar<'a>> {
        match StatusVar::first(self.unread) {
            Some(first) => {
                self.unread = first.1;
                Some(first.0)
            }
            None => {
                self.unread = &[];
                None
            }
        }
    }
}

/// A status variable: its key, and all bytes of its value. The value is always whole.
#[derive(Clone, Copy, Debug, PartialEq, Eq, Hash)]
pub struct StatusVar<'a> {
    pub(crate) key: StatusVarKey,
    pub(crate) value: &'a [u8],
    ghost whole: { value_len (layout_of key) value.now ≡ Some (length value.now) },
}

impl<'a> StatusVar<'a> {
    ghost use Rattle.binlog_statements.specs.StatusVariables.{first_variable};
    ghost use Rattle.binlog_statements.specs.StatusVars.{first_of};

    /// The key.
    pub fn key(&self) -> StatusVarKey
        ensures { result ≡ self.now.key }
    {
        self.key
    }

    /// The value's bytes.
    pub fn raw(&self) -> &'a [u8]
        ensures { result.now ≡ self.now.value.now }
    {
        self.value
    }

    // The first variable, and the bytes after it.
    fn first(text: &'a [u8]) -> Option<(StatusVar<'a>, &'a [u8])>
        ensures { first_of result ≡ first_variable text.entry.now }
    {
        let (number, bytes) = text.split_first()?;
        let key = StatusVarKey::try_from(*number).ok()?;
        let len = Layout::of(key).len(bytes)?;
        let (value, unread) = bytes.split_at(len);
        Some((StatusVar { key, value }, unread))
    }
}
