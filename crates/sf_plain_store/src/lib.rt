//! A store on one thread: its sessions take turns, and scripts are played over it.
#![tactic(auto)]

mod due_calls;
mod live_play;
mod play;
mod players;
mod shrinks;
mod store;
mod turns;

pub use store::PlainStore;
