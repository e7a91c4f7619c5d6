//! Tests of trees of units, and of prints and the index of contents. They use public calls alone.
#![tactic(auto)]

#[cfg(test)]
mod index;
#[cfg(test)]
mod piece_tree;
