//! A finite map that makes room ahead of what it is to hold.
#![tactic(auto)]

mod change;
mod key;
mod room_map;
mod row_key;

pub use change::{Change, Exchange, KeyTest};
pub use key::RoomKey;
pub use room_map::RoomMap;
pub use row_key::RowKey;
