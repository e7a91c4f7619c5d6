//! What frees blocks that wait to be freed.
use sf_types::Mem;
use std::sync::Wait;

/// An object that frees parked blocks, and by which state of it one call leads to the next.
pub trait Ripe {
    /// Whether the second state follows the first.
    ghost follows: { Self → Self → Type 0 };

    /// Frees blocks that wait to be freed, if there are some.
    fn fetch<R: Wait>(&mut self, rt: &R) -> Mem<()>
        ensures { follows self.old self.new };

    /// Each state follows itself.
    ghost itself: { (x : Self) → follows x x };

    /// What follows a state that follows a third follows the third.
    ghost through: { (x y z : Self) → follows x y → follows y z → follows x z };
}

/// Nothing waits, and nothing is freed.
#[derive(Drop)]
pub struct NoRipe;

impl Ripe for NoRipe {
    ghost use Rattle.std.specs.Prelude.{⊤};

    ghost follows = { λ x y. ⊤ };

    ghost itself = { λ x. tt };

    ghost through = { λ x y z a b. tt };

    fn fetch<R: Wait>(&mut self, rt: &R) -> Mem<()> {
        let _ = rt;
        Ok(())
    }
}
