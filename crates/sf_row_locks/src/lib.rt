//! Which session holds which row's lock.
#![tactic(auto)]

mod row_locks;
mod slot;

pub use row_locks::RowLocks;
