//! What a seat knows, which stands in proofs alone.
use std::collections::LinkedList;

/// What a seat knows. No value of it is made.
pub struct View {
    /// The seat's blocks.
    pub blocks: LinkedList<u64>,
    /// The number of the seat's claims, modulo 2^64.
    pub claim_count: u64,
    /// The word that the seat's last claim found.
    pub found_word: u64,
    /// The number of blocks of all words, and 0 once the seat was merged into another.
    pub capacity: u64,
}
