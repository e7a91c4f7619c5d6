//! The generated script of the bench.
#![tactic(auto)]

mod calls;
mod draws;
mod table;

pub use table::generate;
