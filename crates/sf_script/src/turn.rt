//! Turns of a schedule.

/// Whose turn it is in a schedule.
#[derive(Clone, Copy, Debug, PartialEq, Eq)]
pub enum Turn {
    /// The next event of the session of this number.
    Session(u16),
    /// A reclaim turn.
    Reclaim,
    /// A shrink turn.
    Shrink,
}
