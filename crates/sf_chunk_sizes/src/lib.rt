//! How a flush is cut into contents, and how many blocks they take.
#![tactic(auto)]

mod contents;

pub use contents::{blocks, cut};
