//! The contents that holders hold, by counts.
#![tactic(auto)]

mod counted;
mod given_up;
mod holder_key;
mod holding_map;
mod ledger;
mod place_map;
mod rising;
mod tally;
mod unheld_places;

pub use given_up::GivenUp;
pub use ledger::Ledger;
pub use unheld_places::UnheldPlaces;
