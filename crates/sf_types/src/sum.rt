//! SHA-256 digests.
ghost use Rattle.std.specs.Prelude.{◌≡◌};
ghost use Rattle.sha2.specs.Sha256.{sha256};

use crate::copy::TryCopy;
use crate::memory::Mem;
use sha2::{Digest, Sha256};
use std::marker::Model;

/// A SHA-256 (FIPS 180-4), seen as its 32 bytes.
#[derive(Clone, Copy, Debug, PartialEq, Eq, PartialOrd, Ord, Hash)]
pub struct Sum {
    bytes: [u8; 32],
}

impl Model for Sum {
    ghost use Rattle.std.specs.Prelude.{ℕ, List};

    ghost Value = { List ℕ };

    ghost view = { λ s. s.bytes };

    ghost inverse = { λ bytes. record { bytes = bytes } };
}

impl Sum {
    /// The digest of these 32 bytes.
    pub fn new(bytes: [u8; 32]) -> Sum
        ensures { result ≡ bytes }
    {
        Sum { bytes }
    }

    /// The 32 bytes.
    pub fn as_bytes(&self) -> &[u8]
        ensures { result.now ≡ self.now }
    {
        self.bytes.as_slice()
    }
}

/// The SHA-256 of some bytes.
pub fn sum_of(bytes: &[u8]) -> Sum
    ensures { result ≡ sha256 bytes.now }
{
    Sum {
        bytes: Sha256::digest(bytes),
    }
}

impl TryCopy for Sum {
    fn copy(&self) -> Mem<Sum> {
        Ok(*self)
    }
}
