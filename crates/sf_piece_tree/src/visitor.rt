//! Visitors, who are shown units one after another.
use crate::unit::Unit;

/// One who is shown units, and says at each whether to go on.
pub trait Visitor<P: Unit> {
    ghost use Rattle.std.specs.Prelude.{ℕ, ◌≤◌, Bool, length};

    /// What a visit does: the visitor before, the unit, the number of its bytes that come before the walk, the visitor
    /// after, and the answer.
    ghost visits: { Self → P → ℕ → Self → Bool → Type 0 };

    /// Is shown a unit, whose first `from` bytes come before the walk. The answer false ends the walk.
    fn visit(&mut self, unit: &P, from: u64) -> bool
        requires { from ≤ length (P.content unit.now) }
        ensures { visits self.old unit.now from self.new result };
}
