//! Where contents stand.

use crate::copy::TryCopy;
use crate::list::List;
use crate::memory::Mem;
use crate::run::ContentRuns;
use crate::sum::Sum;

/// Where a birth's content stands: its length in bytes, its digest, and its blocks.
#[derive(Drop)]
pub struct Place {
    pub birth: u128,
    pub len: u32,
    pub sum: Sum,
    pub runs: ContentRuns,
}

impl TryCopy for Place {
    fn copy(&self) -> Mem<Place> {
        Ok(Place {
            birth: self.birth,
            len: self.len,
            sum: self.sum,
            runs: self.runs.copy()?,
        })
    }
}

/// Places, in rising order of births.
pub type PlaceList = List<Place>;
