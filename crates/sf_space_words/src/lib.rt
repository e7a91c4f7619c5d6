//! Blocks as bits in words that threads share. A set bit is a block that some seat has.
#![tactic(auto)]

mod limits;
mod seat;
mod steps;
mod view;
mod words;

pub use limits::WORD_BLOCKS;
pub use seat::Seat;
pub use view::View;
pub use words::Words;
