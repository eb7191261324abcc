//! Copies of values that may borrow what they hold.
ghost use Rattle.std.specs.Prelude.{◌≡◌, IfOk, IsOkUnless};
ghost use Rattle.binlog_wire.specs.declared.error.Error.TheVariants.{Memory};

use crate::error::Error;
use std::alloc::Global;

/// A type whose values can be copied, if there is memory.
///
/// Its contract is `is_copy`: which values are copies of a value; by default the equal ones.
pub trait TryClone: Sized {
    ghost is_copy: { Self → Self → Type 0 } = { λ value copy. copy ≡ value };

    /// A copy of the value: what it borrows stays borrowed, and what it owns is copied. The only error is
    /// [`Error::Memory`].
    fn clone(&self, alloc: Global) -> Result<Self, Error>
        ensures ok { IfOk result (is_copy self.now) }
        ensures memory { IsOkUnless result Memory };
}

/// A type whose values may borrow bytes or text, and can own them.
///
/// Its contract is `is_owned`: which value, owned, is the same as a value.
pub trait IntoOwned: Sized {
    /// The same type with an unlimited lifetime.
    type Owned;

    ghost is_owned: { Self → Self.Owned → Type 0 };

    /// The same value, which borrows nothing: what is borrowed is copied, and what is owned is moved. The only error is
    /// [`Error::Memory`].
    fn into_owned(self, alloc: Global) -> Result<Self::Owned, Error>
        ensures ok { IfOk result (is_owned self) }
        ensures memory { IsOkUnless result Memory };
}
