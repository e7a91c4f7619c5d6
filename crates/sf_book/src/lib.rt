//! The shared state of a store for any number of sessions: the store's half of the table, and the history of what was done.
#![tactic(auto)]

mod book;
mod borrowed;
mod entries;
mod events;
pub mod laws;
mod promises;
mod publications;
mod reads;
mod shifts;

pub use book::Book;
pub use reads::Counts;
