//! Units, of which a tree has one in each node.
use sf_types::{Mem, TryCopy};

/// A part of a value that is cut and copied. Contracts see its content, a list of marked bytes, and its weight.
pub trait Unit: TryCopy + Drop {
    ghost use Rattle.std.specs.Prelude.{◌≡◌, ℕ, ◌+◌, ◌<◌, ◌≤◌, List, ◌++◌, length, take, drop, IfOk};
    ghost use Rattle.sf_types.specs.Values.Marks.{Marked};

    /// The unit's bytes with their marks.
    ghost content: { Self → List Marked };

    /// A number that the unit tells, as that of its fresh bytes.
    ghost weight: { Self → ℕ };

    /// The number of bytes, at least 1.
    fn size(&self) -> u64
        ensures size { result ≡ length (content self.now) }
        ensures some { 1 ≤ result };

    /// The weight, at most the number of bytes.
    fn weight(&self) -> u64
        ensures weight { result ≡ weight self.now }
        ensures most { result ≤ length (content self.now) };

    /// A unit of the first n bytes, some and not all.
    fn front(&self, n: u64) -> Mem<Self>
        requires some { 0 < n }
        requires within { n < length (content self.now) }
        ensures { IfOk result (λ front. content front ≡ take n (content self.now)) };

    /// A unit of all bytes but the first n, some and not all.
    fn back(&self, n: u64) -> Mem<Self>
        requires some { 0 < n }
        requires within { n < length (content self.now) }
        ensures { IfOk result (λ back. content back ≡ drop n (content self.now)) };

    /// Where the contents of two units make up that of a third, their weights add up to its weight.
    ghost weights_add: { (whole front back : Self) → content whole ≡ content front ++ content back → weight whole ≡ weight front + weight back };
}
