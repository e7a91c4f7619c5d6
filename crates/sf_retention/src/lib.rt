//! Which old versions a store gives up, and when.
#![tactic(auto)]

mod floors;
mod retention;

pub use floors::horizon;
pub use retention::{Note, Pair, PairList, Retention};
