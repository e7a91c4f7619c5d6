//! Where versions stand.
ghost use Rattle.sf_versions.specs.Inside.VersionOrder.{keys_exact};

use sf_room_map::RoomKey;

/// The place of a version: the number of its row, and its rank among the versions that the row ever had.
#[derive(Clone, Copy, Debug, PartialEq, Eq, PartialOrd, Ord, Hash)]
pub struct VersionKey {
    pub row: u64,
    pub rank: u64,
}

impl RoomKey for VersionKey {
    ghost exact = { keys_exact };
}
