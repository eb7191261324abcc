//! A list of values in sequence.
ghost use Rattle.std.specs.Prelude.{◌≡◌, ◌++◌, ◌∷◌, [], ⊤, List, Option, None, OnOk, OnErr, IsOkUnless};
ghost use Rattle.binlog_wire.specs.declared.error.Error.TheVariants.{Memory};
ghost use Rattle.binlog_wire.specs.Reading.{Read, Gives};
ghost use Rattle.binlog_variable_fields.specs.Repeated.{times_at};

use binlog_wire::{Error, MyDeserialize, ParseBuf};
use std::alloc::Global;
use std::hash::{Hash, Hasher};
use std::marker::Model;

/// A list of values in sequence, owned.
///
/// Contracts see it as the list of its values.
#[derive(Debug, Drop)]
pub struct ValueList<T> {
    items: Vec<T>,
}

impl<T> Model for ValueList<T> {
    ghost use Rattle.std.specs.Prelude.{List};

    ghost Value = { List T };

    ghost view = { λ list. list.items.items };
}

impl<T> ValueList<T> {
    /// Wraps the values.
    pub fn new(items: Vec<T>) -> Self
        ensures { result ≡ items.items }
    {
        ValueList { items }
    }

    /// The values as a slice.
    pub fn as_slice(&self) -> &[T]
        ensures { result.now ≡ self.now }
    {
        self.items.as_slice()
    }

    /// The values as a vector.
    pub fn into_vec(self) -> Vec<T>
        ensures { result.items ≡ self }
    {
        self.items
    }
}

impl<T: PartialEq> PartialEq for ValueList<T> {
    ghost use Rattle.std.specs.Cmp.Lexicographic.{pointwise};
    ghost use Rattle.std.specs.Cmp.Rules.{comparing};
    ghost use Rattle.std.proofs.Common.{rules};

    ghost eq = { pointwise T.eq };

    ghost laws = { Prim.search (comparing, rules, T.PartialEq.laws) };

    fn eq(&self, other: &Self) -> bool {
        self.items.as_slice() == other.items.as_slice()
    }
}

impl<T: Eq> Eq for ValueList<T> {
    ghost use Rattle.std.specs.Cmp.Rules.{comparing};
    ghost use Rattle.std.proofs.Common.{rules};

    ghost laws = { Prim.search (comparing, rules, T.Eq.laws) };
}

impl<T: Hash> Hash for ValueList<T> {
    ghost use Rattle.std.specs.Hash as fed;
    ghost use Rattle.std.proofs.Common.{rules};

    ghost hash_input = { λ list. fed.slice T.hash_input list };

    ghost respects_eq = { (fed.items_Alike (record { fed = T.respects_eq })).fed };

    fn hash<H: Hasher>(&self, state: &mut H) {
        self.items.as_slice().hash(state);
    }
}

/// The context is the count of values, and the context of each. Memory grows with the values that are there, and not
/// by the count.
///
/// # Errors
///
/// - Those of the values, from the first value that fails.
/// - [`Error::Memory`] where an allocation fails.
impl<'de, T: MyDeserialize<'de> + Drop> MyDeserialize<'de> for ValueList<T>
where
    T::Ctx: Copy,
{
    const SIZE: Option<usize> = None;

    type Ctx = (u64, T::Ctx);

    ghost reads = { λ ctx. times_at ctx.0 (T.reads ctx.1) };

    ghost grows = { λ _. ⊤ };

    fn deserialize(
        alloc: Global,
        ctx: (u64, T::Ctx),
        buf: &mut ParseBuf<'de>,
    ) -> Result<Self, Error> {
        let (count, each) = ctx;
        let mut items = Vec::new(alloc);
        for _index in 0..count {
            let item = T::deserialize(alloc, each, buf)?;
            push(&mut items, item)?;
        }
        Ok(ValueList { items })
    }
}

/// Appends a value. The only error is [`Error::Memory`].
fn push<T: Drop>(items: &mut Vec<T>, item: T) -> Result<(), Error>
    ensures ok { OnOk result (items.new.items ≡ items.old.items ++ item ∷ []) }
    ensures err { OnErr result (items.new.items ≡ items.old.items) }
    ensures memory { IsOkUnless result Memory }
{
    match items.push(item) {
        Ok(()) => Ok(()),
        Err(_) => Err(Error::Memory),
    }
}
