//! What rows hold at the end.

use crate::copy::TryCopy;
use crate::list::List;
use crate::memory::Mem;
use crate::name::Name;
use crate::sum::Sum;

/// A row that is present at the end: its length in bytes and the digest of its bytes.
#[derive(Drop)]
pub struct RowEnd {
    pub name: Name,
    pub len: u64,
    pub sum: Sum,
}

impl TryCopy for RowEnd {
    fn copy(&self) -> Mem<RowEnd> {
        Ok(RowEnd {
            name: self.name.copy()?,
            len: self.len,
            sum: self.sum,
        })
    }
}

/// Rows, in byte order of their names.
pub type RowList = List<RowEnd>;
