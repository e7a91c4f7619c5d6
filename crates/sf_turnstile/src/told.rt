//! Values that name a history.
ghost use Rattle.std.specs.Prelude.{◌≡◌, length};

/// The condition on a value at a turnstile: it names a history.
pub trait Told: Drop {
    ghost use Rattle.std.specs.Prelude.{List};
    ghost use Rattle.sf_types.specs.declared.history.Entry.{Entry};

    ghost history: { Self → List Entry };

    /// The number of entries of the value's history.
    fn length(&self) -> u64
        ensures { result ≡ length (history self.now) };
}
