//! How far a due call has come.

/// How far a due call has come: it has no promise yet, so many blocks were promised to it, or they were collected.
#[derive(Clone, Copy, Debug, PartialEq, Eq)]
pub enum Phase {
    Unpromised,
    Promised(u64),
    Collected(u64),
}
