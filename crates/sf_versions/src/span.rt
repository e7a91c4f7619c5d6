//! Which versions a row has.

/// The versions of a row: its number among the rows, the rank of its first version, and the number of its versions.
#[derive(Clone, Copy, Debug, PartialEq, Eq)]
pub struct Span {
    pub row: u64,
    pub first: u64,
    pub count: u64,
}
