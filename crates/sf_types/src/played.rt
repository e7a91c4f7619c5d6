//! What the play of a script gives.

use crate::history::Order;
use crate::place::PlaceList;
use crate::reply::ReplyTable;
use crate::row_end::RowList;

/// What a played script gives.
#[derive(Drop)]
pub struct Played {
    /// The reply to each call and to each End.
    pub replies: ReplyTable,
    /// The order in which the calls took effect.
    pub order: Order,
    /// Where the contents stand that are in use at the end.
    pub places: PlaceList,
    /// The capacity less the blocks of all places.
    pub free: u64,
    /// The rows that are present at the end.
    pub rows: RowList,
    /// The number of commits.
    pub now: u64,
}
