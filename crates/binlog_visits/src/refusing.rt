//! Which events are errors for a visitor, though they can be read.
ghost use Rattle.std.specs.Prelude.{◌≡◌, ℕ};

/// What a visitor makes of events whose data it can't read.
pub trait Refusing {
    /// The number of these events so far.
    ghost refusals: { Self → ℕ } = { λ _. 0 };

    /// The number of these events so far, if they are errors of the log for the visitor.
    fn refused(&self) -> u64
        ensures { result ≡ refusals self.now };
}
