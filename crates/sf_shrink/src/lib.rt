//! The plan by which a store is made small.
#![tactic(auto)]

mod shifts;

pub use shifts::{MOST_BLOCKS, Shift, ShiftList, plan};
