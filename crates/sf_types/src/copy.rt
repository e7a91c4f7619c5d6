//! Copies that equal what they copy.
ghost use Rattle.std.specs.Prelude.{◌≡◌, IfOk};

use crate::memory::Mem;

/// A type whose copy equals its source. A copy may want memory.
pub trait TryCopy: Sized {
    /// A value that equals this one.
    fn copy(&self) -> Mem<Self>
        ensures { IfOk result (λ copied. copied ≡ self.now) };
}

/// A type whose `clone` equals its source.
pub trait Exact: Clone {
    ghost exact: { (value copied : Self) → Self.is_clone value copied → copied ≡ value };
}
