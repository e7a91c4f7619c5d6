//! The one error of what is outside.

/// A call of a source or of a sink failed: its count of faults rose, and nothing was taken.
#[derive(Clone, Copy, Debug, PartialEq, Eq)]
pub struct Failed;
