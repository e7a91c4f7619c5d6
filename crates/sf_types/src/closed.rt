//! What a store gives that is closed.

use crate::history::History;
use crate::place::PlaceList;
use crate::row_end::RowList;

/// What a store gives that is closed.
#[derive(Drop)]
pub struct Closed {
    /// What took effect.
    pub history: History,
    /// Where the contents stand that are in use at the end.
    pub places: PlaceList,
    /// The capacity less the blocks of all places.
    pub free: u64,
    /// The rows that are present at the end.
    pub rows: RowList,
    /// The number of commits.
    pub now: u64,
}
