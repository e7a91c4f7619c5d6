//! A balanced tree of units, seen as their list.
#![tactic(auto)]

mod balance;
pub mod laws;
mod parts;
mod piece_tree;
mod piece_tree_ends;
mod piece_tree_parts;
mod tally;
mod tree;
mod unit;
mod visitor;
mod walk;
mod weights;

pub use piece_tree::PieceTree;
pub use unit::Unit;
pub use visitor::Visitor;
