//! What a taken value lends.
ghost use Rattle.std.specs.Prelude.{◌≡◌};
ghost use Rattle.std.specs.Borrow.{sem, Lends};
ghost use Rattle.sf_turnstile.specs.contracts.held.Held.{the_row};

use crate::held::Held;

impl<B> Held<B> {
    /// Lends the taken value.
    pub fn value(&mut self) -> &mut B
        ensures* lends { sem 𝓛 (Lends (the_row B.row) B.row self.entry result (λ w. w)) }
        ensures value { result.now ≡ self.old }
    {
        &mut self.value
    }
}
