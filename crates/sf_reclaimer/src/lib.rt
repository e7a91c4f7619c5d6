//! The release of runs of blocks, word by word.
#![tactic(auto)]

mod mask;
mod runs;

pub use runs::{release, release_run};
