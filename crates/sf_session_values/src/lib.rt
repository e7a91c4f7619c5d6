//! The values of a session: the working values of its rows, and its locators.
#![tactic(auto)]

mod births;
mod changes;
mod row_counts;
mod values;
mod working;
mod working_rows;

pub use births::add_change_births;
pub use values::SessionValues;
pub use working::RestoredRows;
