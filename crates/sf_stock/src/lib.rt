//! What a store keeps of contents: who holds them, where they stand, and the blocks of those that left.
#![tactic(auto)]

mod joining;
mod known;
pub mod laws;
mod listing;
mod new_content;
mod parts;
mod stock;

pub use new_content::NewContent;
pub use stock::Stock;
