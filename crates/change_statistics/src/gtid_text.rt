//! The text of a GTID.
ghost use Rattle.std.specs.Prelude.{◌≡◌, IfOk};

use std::alloc::{AllocError, Global};
use std::marker::Model;

/// The text of the GTID of a transaction; empty if it has none.
#[derive(Drop)]
pub struct GtidText {
    text: String,
}

impl Model for GtidText {
    ghost use Rattle.std.specs.Prelude.{ℕ, List};
    ghost use Rattle.std.specs.String.{string_bytes};

    ghost Value = { List ℕ };

    ghost view = { λ gtid. string_bytes gtid.text };
}

impl GtidText {
    /// A copy of this text.
    ///
    /// # Errors
    ///
    /// [`AllocError`] if an allocation fails.
    pub(crate) fn new(alloc: Global, text: &str) -> Result<Self, AllocError>
        ensures { IfOk result (λ gtid. gtid ≡ text.now) }
    {
        Ok(GtidText {
            text: String::from_str(alloc, text)?,
        })
    }

    /// The text.
    pub fn as_str(&self) -> &str
        ensures { result.now ≡ self.now }
    {
        self.text.as_str()
    }
}
