//! Prints of contents.
ghost use Rattle.std.specs.Prelude.{◌≡◌};
ghost use Rattle.sf_dedup.specs.Prints.{print_of};

use sf_types::{Blob, List, Mem, Sum, TryCopy, sum_of};

/// The print of a content: its SHA-256 (FIPS 180-4).
#[derive(Clone, Copy, Debug, PartialEq, Eq)]
pub struct Print {
    pub sum: Sum,
}

/// Prints, in the order of their contents.
pub type PrintList = List<Print>;

/// The print of a content.
pub fn print_of(content: &Blob) -> Print
    ensures { result ≡ print_of content.now }
{
    Print {
        sum: sum_of(content.as_bytes()),
    }
}

impl TryCopy for Print {
    fn copy(&self) -> Mem<Print> {
        Ok(*self)
    }
}
