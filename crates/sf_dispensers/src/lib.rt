//! Lists of free blocks, each behind a lock of its own, from which threads collect blocks.
#![tactic(auto)]

mod bits;
mod dispenser;
mod dispensers;
mod gathering;
mod named;
mod neighbours;
mod reservation;
mod ripe;

pub use dispensers::{DISPENSER_RUNS, Dispensers};
pub use named::Named;
pub use reservation::Reservation;
pub use ripe::{NoRipe, Ripe};
