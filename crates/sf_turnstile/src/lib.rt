//! A turnstile: a value that seats take in turn, and the history that it names.
#![tactic(auto)]

mod front;
mod held;
mod held_value;
mod limits;
mod seat;
mod steps;
mod told;
mod turnstile;
mod view;

pub use front::Front;
pub use held::Held;
pub use limits::TURNSTILE_SPLITS;
pub use seat::Seat;
pub use told::Told;
pub use turnstile::Turnstile;
pub use view::{Phase, View};

#[cfg(test)]
mod tests;
