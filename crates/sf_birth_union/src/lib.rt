//! Births of many values, put together.
#![tactic(auto)]

mod birth_union;

pub use birth_union::BirthUnion;
