//! Bytes that several owners share.
ghost use Rattle.std.specs.Prelude.{◌≡◌, IfOk, length, nat_eq, refl, Some};
ghost use Rattle.std.specs.Ordering.{nat_cmp};
ghost use Rattle.std.specs.Cmp.{partial_equiv_from_equiv};
ghost use Rattle.std.specs.Cmp.Lexicographic.{pointwise, slice_cmp, nat_list_cmp_total, nat_list_eq_equiv, texts_po, texts_ties};

use crate::copy::{Exact, TryCopy};
use crate::list::List;
use crate::memory::Mem;
use std::alloc::{AllocError, Global};
use std::cmp::Ordering;
use std::marker::Model;
use std::sync::ArcSlice;

/// Shared bytes that don't change, seen as their list. A copy shares the bytes.
#[derive(Debug, Drop)]
pub struct Blob {
    bytes: ArcSlice<u8>,
}

/// Blobs, in order.
pub type BlobList = List<Blob>;

impl Model for Blob {
    ghost use Rattle.std.specs.Prelude.{ℕ, List};
    ghost use Rattle.std.specs.Arc.{arc_slice_items};

    ghost Value = { List ℕ };

    ghost view = { λ b. arc_slice_items b.bytes };
}

impl Blob {
    /// A blob of these bytes.
    pub fn new(alloc: Global, bytes: &[u8]) -> Mem<Blob>
        ensures { IfOk result (λ blob. blob ≡ bytes.now) }
    {
        let bytes = ArcSlice::from_slice(alloc, bytes)?;
        Ok(Blob { bytes })
    }

    /// A blob of the bytes of a `Vec`, which aren't copied.
    pub fn from_vec(bytes: Vec<u8>) -> Mem<Blob>
        ensures { IfOk result (λ blob. blob ≡ bytes.items) }
    {
        let bytes = ArcSlice::from_vec(bytes)?;
        Ok(Blob { bytes })
    }

    /// The bytes.
    pub fn as_bytes(&self) -> &[u8]
        ensures { result.now ≡ self.now }
    {
        self.bytes.as_slice()
    }

    /// The number of bytes.
    pub fn len(&self) -> usize
        ensures { result ≡ length self.now }
    {
        self.bytes.len()
    }
}

impl Clone for Blob {
    ghost is_clone = { λ blob copied. copied ≡ blob };

    fn clone(&self) -> Result<Blob, AllocError> {
        let bytes = self.bytes.clone()?;
        Ok(Blob { bytes })
    }
}

impl Exact for Blob {
    ghost exact = { λ value copied is. is };
}

// Blobs are compared by their bytes.
impl PartialEq for Blob {
    ghost eq = { λ a b. pointwise nat_eq a b };

    ghost laws = { partial_equiv_from_equiv nat_list_eq_equiv };

    fn eq(&self, other: &Self) -> bool {
        self.as_bytes() == other.as_bytes()
    }
}

impl Eq for Blob {
    ghost laws = { nat_list_eq_equiv };
}

impl PartialOrd for Blob {
    ghost partial_cmp = { λ a b. Some (slice_cmp nat_cmp a b) };

    ghost laws = { texts_po };

    fn partial_cmp(&self, other: &Self) -> Option<Ordering> {
        Some(self.cmp(other))
    }
}

impl Ord for Blob {
    ghost cmp = { λ a b. slice_cmp nat_cmp a b };

    ghost total = { nat_list_cmp_total };

    ghost matches_partial_cmp = { λ a b. refl };

    ghost matches_eq = { texts_ties };

    fn cmp(&self, other: &Self) -> Ordering {
        self.as_bytes().cmp(other.as_bytes())
    }
}

impl TryCopy for Blob {
    fn copy(&self) -> Mem<Blob> {
        Ok(self.clone()?)
    }
}

// Threads may share a blob, and hand one on.
fn is_shared<T: Send + Sync>() {}

fn threads_may_share_blobs() {
    is_shared::<Blob>()
}
