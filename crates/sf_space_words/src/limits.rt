//! How blocks stand in words. The number is that of the bits of a `u64`.

/// The blocks of a word, one bit each.
pub const WORD_BLOCKS: u32 = 64;
