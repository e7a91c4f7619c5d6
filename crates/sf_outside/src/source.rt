//! Where bytes come from.
ghost use Rattle.std.specs.Prelude.{◌≡◌, ℕ, Bool, List, Option, is_err};
ghost use Rattle.sf_outside.specs.Causes.{HasCause};
ghost use Rattle.sf_outside.specs.Source.{ReadsAtMost, KeepsRest, ReadConsumes, EndsAtZero};

use crate::failed::Failed;

/// Gives bytes, a piece at a time.
///
/// A source may tell the bytes that it has left. One that tells goes on telling after each call.
pub trait Source {
    /// The bytes that are left, or `None` where the source doesn't tell.
    ghost left: { Self → Option (List ℕ) };

    /// The count of faults. Each call that fails raises it by one, and no other does. It stays at 2^64 - 1.
    ghost faults: { Self → ℕ };

    /// Whether the last call failed.
    ghost has_failed: { Self → Bool };

    /// Puts the first bytes that are left at the front of the buffer, and answers how many.
    ///
    /// A read into a buffer that isn't empty answers 0 exactly at the end. `Failed` comes only
    /// where the count of faults rose, and nothing was taken then. The rest of the buffer stays,
    /// and all of it at `Failed`, whether the source tells its bytes or not.
    fn read(&mut self, into: &mut [u8]) -> Result<usize, Failed>
        ensures bound { ReadsAtMost result into.old }
        ensures rest { KeepsRest result into.old into.new }
        ensures bytes { ReadConsumes (left self.old) (left self.new) result into.old into.new }
        ensures end { EndsAtZero (left self.old) result into.old }
        ensures cause { HasCause (faults self.old) (faults self.new) result }
        ensures last { has_failed self.new ≡ is_err result };
}
