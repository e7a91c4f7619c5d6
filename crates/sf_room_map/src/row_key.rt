//! A row's name that stands in a map by itself.
ghost use Rattle.std.specs.Prelude.{◌≡◌, ◌≤◌, length, nat_eq, refl, Some};
ghost use Rattle.std.specs.Ordering.{nat_cmp};
ghost use Rattle.std.specs.Hash as fed;
ghost use Rattle.std.specs.Cmp.{partial_equiv_from_equiv};
ghost use Rattle.std.specs.Cmp.Lexicographic.{pointwise, slice_cmp, nat_list_cmp_total, nat_list_eq_equiv, same_text, texts_po, texts_ties};
ghost use Rattle.std.specs.FinMap.{nat_cmp-IsAntisymmetric, slice_cmp-IsAntisymmetric};
ghost use Rattle.std.proofs.Common.{ap, sym};

use crate::key::RoomKey;
use sf_types::{Name, ROW_NAME_BYTES};
use std::cmp::Ordering;
use std::hash::{Hash, Hasher};
use std::marker::Model;

/// The bytes of a row's name, seen as their list. They stand in the key itself, so that to make a key of a name, and another of
/// a key, takes no memory.
#[derive(Drop)]
pub struct RowKey {
    bytes: [u8; ROW_NAME_BYTES],
    len: usize,
}

impl Model for RowKey {
    ghost use Rattle.std.specs.Prelude.{ℕ, List, take, ◌≤◌};
    ghost use Rattle.sf_types.specs.declared.limits.TheConstants.{ROW_NAME_BYTES};

    ghost Value = { List ℕ };

    ghost view = { λ k. take k.len k.bytes };

    ghost invariant = { λ k. k.len ≤ ROW_NAME_BYTES };
}

impl RowKey {
    /// The key of a name.
    pub fn of(name: &Name) -> RowKey
        ensures { result ≡ name.now }
    {
        let text = name.as_bytes();
        let mut bytes = [0; ROW_NAME_BYTES];
        bytes[..text.len()].copy_from_slice(text);
        RowKey {
            bytes,
            len: text.len(),
        }
    }

    /// An equal key. It takes no memory.
    pub fn again(&self) -> RowKey
        ensures { result ≡ self.now }
    {
        RowKey {
            bytes: self.bytes,
            len: self.len,
        }
    }

    /// The bytes of the name.
    pub fn as_bytes(&self) -> &[u8]
        ensures { result.now ≡ self.now }
    {
        &self.bytes[..self.len]
    }
}

// Keys are compared and hashed by their bytes.
impl PartialEq for RowKey {
    ghost eq = { λ a b. pointwise nat_eq a b };

    ghost laws = { partial_equiv_from_equiv nat_list_eq_equiv };

    fn eq(&self, other: &Self) -> bool {
        self.as_bytes() == other.as_bytes()
    }
}

impl Eq for RowKey {
    ghost laws = { nat_list_eq_equiv };
}

impl PartialOrd for RowKey {
    ghost partial_cmp = { λ a b. Some (slice_cmp nat_cmp a b) };

    ghost laws = { texts_po };

    fn partial_cmp(&self, other: &Self) -> Option<Ordering> {
        Some(self.cmp(other))
    }
}

impl Ord for RowKey {
    ghost cmp = { λ a b. slice_cmp nat_cmp a b };

    ghost total = { nat_list_cmp_total };

    ghost matches_partial_cmp = { λ a b. refl };

    ghost matches_eq = { texts_ties };

    fn cmp(&self, other: &Self) -> Ordering {
        self.as_bytes().cmp(other.as_bytes())
    }
}

impl Hash for RowKey {
    ghost hash_input = { λ key. fed.slice fed.u8 key };

    ghost respects_eq = { λ a b is. ap (fed.slice fed.u8) (same_text a b (sym is)) };

    fn hash<H: Hasher>(&self, state: &mut H) {
        self.as_bytes().hash(state);
    }
}

impl RoomKey for RowKey {
    ghost exact = { slice_cmp-IsAntisymmetric nat_cmp-IsAntisymmetric };
}
