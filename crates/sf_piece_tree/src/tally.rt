//! What a tree keeps of all its units.

// The height of a tree, and of its units the number, the bytes and the weight.
#[derive(Clone, Copy)]
pub struct Tally {
    pub height: u32,
    pub pieces: u64,
    pub size: u64,
    pub weight: u64,
}
