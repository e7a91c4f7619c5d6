//! Births with the runs of their contents.

use crate::list::List;
use crate::run::ContentRuns;

/// A birth and the runs of its content.
#[derive(Drop)]
pub struct BirthRuns {
    pub birth: u128,
    pub runs: ContentRuns,
}

/// Births with their runs, in order.
pub type BirthRunsList = List<BirthRuns>;
