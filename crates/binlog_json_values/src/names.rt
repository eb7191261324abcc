//! The names of columns whose names aren't stated.
ghost use Rattle.std.specs.Prelude.{◌≡◌, ◌≤◌, ◌<◌, ◌+◌, ◌^◌, ℕ, String, ◌∷◌, decimal, length, slice_index_or, IfOk, OnOk};
ghost use Rattle.std.specs.String.{string_bytes};
ghost use Rattle.std.specs.declared.alloc.Global.{Global};
ghost use Rattle.json_line.specs.Lines.{IsPlainText};

use std::alloc::{AllocError, Global};

/// The names of columns by their numbers, `@1`, `@2` and so on. They are made once, and kept.
#[derive(Drop)]
pub(crate) struct NumberedNames {
    alloc: Global,
    names: Vec<String>,
    ghost numbered: { (k : ℕ) (none : String Global) → k < length names.items → string_bytes (slice_index_or names.items k none) ≡ 64 ∷ decimal (k + 1) },
}

impl NumberedNames {
    /// No names yet. Nothing is allocated.
    pub(crate) fn new(alloc: Global) -> Self {
        NumberedNames {
            alloc,
            names: Vec::new(alloc),
        }
    }

    /// The name of the column with this index, counted from 0.
    #[inline(always)]
    pub(crate) fn name(&mut self, index: usize) -> Result<&str, AllocError>
        requires { index + 1 < 2 ^ 64 }
        ensures name { IfOk result (λ name. name.now ≡ 64 ∷ decimal (index + 1)) }
        ensures plain { IfOk result (λ name. IsPlainText name.now) }
    {
        if self.names.len() <= index {
            self.make(index + 1)?;
        }
        Ok(self.names[index].as_str())
    }

    /// Makes the names of the first `count` columns that aren't there.
    #[inline(never)]
    fn make(&mut self, count: usize) -> Result<(), AllocError>
        ensures { OnOk result (count ≤ length self.new.names.items) }
    {
        'names: for number in self.names.len()..count {
            let name = format!(in self.alloc; "@{}", number + 1)?;
            self.names.push(name)?;
        }
        Ok(())
    }
}
