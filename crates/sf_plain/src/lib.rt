//! The plain table's due calls: promises, publications and cancels.
#![tactic(auto)]

mod flushes;
mod gifts;
mod legality;
mod promises;
mod publications;
mod same_calls;
mod wants;

pub use legality::is_legal_beside;
pub use promises::{cancel, promise};
pub use publications::publish;
