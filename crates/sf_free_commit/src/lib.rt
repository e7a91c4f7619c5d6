//! Blocks that wait to be released, first in and first out.
#![tactic(auto)]

mod committed;
mod queue;

pub use committed::Committed;
pub use queue::GREATEST_BLOCK;
