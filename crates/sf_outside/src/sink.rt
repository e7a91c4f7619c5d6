//! Where bytes go.
ghost use Rattle.std.specs.Prelude.{◌≡◌, ℕ, Bool, List, Option, is_err};
ghost use Rattle.sf_outside.specs.Causes.{HasCause};
ghost use Rattle.sf_outside.specs.Sink.{TakesSome, TakesFirst};

use crate::failed::Failed;

/// Takes bytes, a piece at a time.
///
/// A sink may tell the bytes that it took. One that tells them after a call told them before it,
/// so a sink that has ceased to tell never tells again.
pub trait Sink {
    /// All the bytes that were taken, or `None` where the sink doesn't tell.
    ghost taken: { Self → Option (List ℕ) };

    /// The count of faults. Each call that fails raises it by one, and no other does. It stays at 2^64 - 1.
    ghost faults: { Self → ℕ };

    /// Whether the last call failed.
    ghost has_failed: { Self → Bool };

    /// Takes the first bytes of the piece, and answers how many: at least 1 where there is one.
    ///
    /// `Failed` comes only where the count of faults rose, and nothing was taken then.
    fn write(&mut self, piece: &[u8]) -> Result<usize, Failed>
        ensures bound { TakesSome result piece.now }
        ensures bytes { TakesFirst (taken self.old) (taken self.new) result piece.now }
        ensures cause { HasCause (faults self.old) (faults self.new) result }
        ensures last { has_failed self.new ≡ is_err result };
}
