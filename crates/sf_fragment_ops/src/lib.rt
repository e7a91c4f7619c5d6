//! The edits of large objects, and what is read of them.
#![tactic(auto)]

mod calls;
mod comparison;
mod editing;
mod faults;
mod places;
mod reads;
mod search;
mod zeros;

pub use calls::Answer;
pub use editing::{Edited, edit, edit_in};
pub use reads::{compare, read};
pub use search::instr;
