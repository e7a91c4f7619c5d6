//! Where a session's rows stand.
ghost use Rattle.sf_row_locks.specs.Inside.SlotOrder.{slots_exact};

use sf_room_map::RoomKey;

/// Where a row stands among those that a session has locked, counted from 0.
#[derive(Clone, Copy, Debug, PartialEq, Eq, PartialOrd, Ord, Hash)]
pub struct Slot {
    pub session: u16,
    pub at: u64,
}

impl RoomKey for Slot {
    ghost exact = { slots_exact };
}
