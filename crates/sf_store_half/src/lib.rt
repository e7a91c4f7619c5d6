//! The store's half of the table: row locks, versions, retention, the sessions' fields and the stock, for any number of sessions.
#![tactic(auto)]

mod answers;
mod commits;
mod cut_notes;
mod decisions;
mod floor_trials;
mod floors;
mod grants;
pub mod laws;
mod openings;
mod placing;
mod plain_answers;
mod plans;
mod printed_cuts;
mod publications;
mod reads;
mod reserves;
mod row_answers;
mod row_sums;
mod session_fields;
mod settled_changes;
mod settling;
mod stock_steps;
mod store_half;
mod trials;

pub use session_fields::{Promised, SessionField};
pub use store_half::{Published, StoreHalf};
