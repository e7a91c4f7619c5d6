//! The free blocks of a store, as runs.
#![tactic(auto)]

mod free_runs;
pub mod laws;
mod maximal_runs;

pub use free_runs::FreeRuns;
