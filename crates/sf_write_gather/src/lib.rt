//! When fresh bytes are due, the contents that they make, and values with their contents stored.
#![tactic(auto)]

mod contents;
mod values;

pub use contents::{fresh_contents, value_contents};
pub use values::{due, settle};
