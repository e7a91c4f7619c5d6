//! Keys of maps with room.
ghost use Rattle.std.specs.Prelude.{◌≡◌};
ghost use Rattle.std.specs.declared.cmp.Ordering.TheVariants.{Equal};
ghost use Rattle.std.specs.FinMap.{nat_cmp-IsAntisymmetric, slice_cmp-IsAntisymmetric};

use sf_types::{LocName, Name, Sum};
use std::hash::Hash;

/// A key that can be compared and hashed. Keys that compare as equal are the same.
pub trait RoomKey: Ord + Hash {
    ghost exact: { (a b : Self) → Self.cmp a b ≡ Equal → a ≡ b };
}

impl RoomKey for u16 {
    ghost exact = { nat_cmp-IsAntisymmetric };
}

impl RoomKey for u64 {
    ghost exact = { nat_cmp-IsAntisymmetric };
}

impl RoomKey for u128 {
    ghost exact = { nat_cmp-IsAntisymmetric };
}

impl RoomKey for Name {
    ghost exact = { slice_cmp-IsAntisymmetric nat_cmp-IsAntisymmetric };
}

impl RoomKey for LocName {
    ghost exact = { slice_cmp-IsAntisymmetric nat_cmp-IsAntisymmetric };
}

impl RoomKey for Sum {
    ghost exact = { slice_cmp-IsAntisymmetric nat_cmp-IsAntisymmetric };
}
