//! A finite map whose entries stand in the order of their keys, so that the k-th of them is at hand.
#![tactic(auto)]

mod sorted_map;

pub use sorted_map::SortedMap;
