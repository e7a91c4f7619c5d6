//! The versions of all rows, and what a session asks of the store.
#![tactic(auto)]

mod asks;
mod change;
mod key;
mod laws;
mod places;
mod span;
mod version;
mod versions;

pub use asks::{Answer, Ask, Batch, Flush, Part, Verdict};
pub use change::{Change, ChangeList};
pub use laws::{kept_versions_stay, versions_are_those_of_the_table};
pub use versions::Versions;
